ghost use Rattle.std.specs.Prelude.{◌≡◌, ◌<◌, ◌-◌, ◌^◌, List, [], None, IfOk, OnOk, OnErr, option_map};
ghost use Rattle.alg_terms.specs.declared.symbols.Sym.TheVariants.{Apply};
ghost use Rattle.alg_terms.specs.Tree.{Tree};
ghost use Rattle.alg_expr.specs.Ids.{statement_of};
ghost use Rattle.alg_law.specs.Declarations as declarations;
ghost use Rattle.alg_law.specs.Declarations.{Declaration, Instance, declaration_of};
ghost use Rattle.alg_law.specs.Following.{needs, has_all, gives_again};
ghost use Rattle.alg_law.specs.WellSorted.{has_classes};
ghost use Rattle.alg_names.specs.declared.meanings.Meaning.TheVariants as meanings;
ghost use Rattle.alg_names.specs.declared.scope.Scope as declared_scope;
ghost use Rattle.alg_names.specs.BuiltIn.{built_in};
ghost use Rattle.alg_names.specs.Entering.{with_name, enter, entered, checkpoint_of, IsFresh};
ghost use Rattle.alg_names.specs.Found.{found};
ghost use Rattle.alg_names.specs.InForce.{meaning, instances, has, supports, relates};

use crate::built_in::built_in_names;
use crate::grants::{Granted, Grants};
use crate::meanings::Meaning;
use crate::names::Names;
use alg_expr::{Arena, Items, Memory, Rel, Sort, Stmt, Sym, Text};
use alg_law::masks::{follows, is_own};
use alg_law::{Class, Declared};
use std::alloc::Global;

/// What is in force.
#[derive(Drop)]
pub struct Scope {
    pub names: Names,
    pub granted: Grants,
    /// How many declarations there are.
    pub declared: u32,
    /// How many of them are hypotheses.
    pub hypotheses: u32,
}

/// How much is in force.
#[derive(Clone, Copy)]
pub struct Checkpoint {
    names: usize,
    granted: usize,
    declared: u32,
    hypotheses: u32,
}

impl Scope {
    /// Nothing is declared, and the built-in names are in force.
    pub fn new(alloc: Global) -> Result<Scope, Memory>
        ensures names { IfOk result (λ s. s.names ≡ built_in) }
        ensures granted { IfOk result (λ s. s.granted ≡ []) }
        ensures declared { IfOk result (λ s. (s.declared ≡ 0) × (s.hypotheses ≡ 0)) }
    {
        let names = built_in_names(alloc)?;
        Ok(Scope {
            names,
            granted: Grants::new(alloc),
            declared: 0,
            hypotheses: 0,
        })
    }

    /// What a name stands for, or none where it isn't in force.
    pub fn meaning(&self, name: &str) -> Option<&Meaning>
        ensures { option_map (λ m. m.now) result ≡ meaning self.now name.now }
    {
        self.names.lookup(name)
    }

    /// Whether the sort has the class: built in, declared, or implied by one that it has.
    pub fn has(&self, sort: Sort, class: Class) -> bool
        ensures { result ≡ has self.now sort class }
    {
        is_own(sort, class) || self.granted.gives(sort, class)
    }

    /// Whether the class gives an operation that the sort has already.
    pub fn gives_again(&self, sort: Sort, class: Class) -> bool
        ensures { result ≡ gives_again (instances self.now) sort class }
    {
        (self.has(sort, Class::Semigroup) && follows(Class::Semigroup, class))
            || (self.has(sort, Class::AddMonoid) && follows(Class::AddMonoid, class))
            || (self.has(sort, Class::LinearOrder) && follows(Class::LinearOrder, class))
    }

    /// Whether the sort has the classes that must be there before a class is declared.
    pub fn has_needs(&self, sort: Sort, class: Class) -> bool
        ensures { result ≡ has_all (instances self.now) sort (needs class) }
    {
        match class {
            Class::CharZero => self.has(sort, Class::Semiring),
            Class::IsStrictOrderedRing => self.has(sort, Class::Semiring)
                && self.has(sort, Class::LinearOrder),
            _ => true,
        }
    }

    /// Whether the symbol may have a value of the sort, and the sort has the classes that it needs.
    pub fn supports(&self, sym: Sym, sort: Sort) -> bool
        ensures { result ≡ supports self.now sym sort }
    {
        sym.serves(sort) && self.serves_classes(sym, sort)
    }

    fn serves_classes(&self, sym: Sym, sort: Sort) -> bool
        ensures { result ≡ has_classes (instances self.now) sym sort }
    {
        match sym {
            Sym::Add | Sym::Nsmul => self.has(sort, Class::AddMonoid),
            Sym::Mul => self.has(sort, Class::Semigroup),
            Sym::Neg | Sym::Sub | Sym::Zsmul => self.has(sort, Class::AddGroup),
            Sym::Inv | Sym::Div | Sym::Zpow => self.has(sort, Class::Group)
                || self.has(sort, Class::Field),
            Sym::Npow => self.has(sort, Class::Monoid),
            Sym::Abs => self.has(sort, Class::Ring) && self.has(sort, Class::IsStrictOrderedRing),
            Sym::Min | Sym::Max => self.has(sort, Class::LinearOrder),
            _ => true,
        }
    }

    /// Whether the sort has the relation: `<` and `≤` need a linear order, `∣` is on ℕ and ℤ.
    pub fn relates(&self, rel: Rel, sort: Sort) -> bool
        ensures { result ≡ relates self.now rel sort }
    {
        match rel {
            Rel::Eq => true,
            Rel::Ne => true,
            Rel::Lt => self.has(sort, Class::LinearOrder),
            Rel::Le => self.has(sort, Class::LinearOrder),
            Rel::Dvd => sort.is_integral(),
        }
    }

    // a declaration with a name
    fn enter_name(&mut self, alloc: Global, name: &Text, stands_for: Meaning) -> Result<(), Memory>
        requires fresh { found self.old.names name.now ≡ None }
        requires room { self.old.declared < 2 ^ 32 - 1 }
        ensures ok { OnOk result (self.new ≡ with_name self.old name.now stands_for) }
        ensures err { OnErr result (self.new ≡ self.old) }
    {
        let text = String::from_str(alloc, name.as_str())?;
        self.names.declare(text, stands_for)?;
        self.declared += 1;
        Ok(())
    }

    fn enter_function(
        &mut self,
        alloc: Global,
        name: &Text,
        args: &Items<Sort>,
        value: Sort,
    ) -> Result<(), Memory>
        requires fresh { found self.old.names name.now ≡ None }
        requires room { self.old.declared < 2 ^ 32 - 1 }
        ensures ok { OnOk result (self.new ≡ with_name self.old name.now (meanings.Function (Apply self.old.declared) args.now value)) }
        ensures err { OnErr result (self.new ≡ self.old) }
    {
        let sorts = Items::of(args.as_slice().to_vec(alloc)?);
        let sym = Sym::Apply(self.declared);
        self.enter_name(alloc, name, Meaning::Function(sym, sorts, value))
    }

    fn enter_hypothesis(&mut self, alloc: Global, name: &Text, stmt: Stmt) -> Result<(), Memory>
        requires fresh { found self.old.names name.now ≡ None }
        requires room { (self.old.declared < 2 ^ 32 - 1) × (self.old.hypotheses < 2 ^ 32 - 1) }
        ensures ok { (ts : List Tree) → OnOk result (self.new ≡ enter self.old (declarations.Hypothesis name.now (statement_of ts stmt))) }
        ensures err { OnErr result (self.new ≡ self.old) }
    {
        let number = self.hypotheses + 1;
        self.enter_name(
            alloc,
            name,
            Meaning::Hypothesis(number, stmt.rel, stmt.sort),
        )?;
        self.hypotheses = number;
        Ok(())
    }

    fn enter_instance(&mut self, sort: u32, class: Class) -> Result<(), Memory>
        requires room { self.old.declared < 2 ^ 32 - 1 }
        ensures ok { OnOk result (self.new ≡ enter self.old (Instance sort class)) }
        ensures err { OnErr result (self.new ≡ self.old) }
    {
        self.granted.push(Granted { sort, class })?;
        self.declared += 1;
        Ok(())
    }

    /// Puts in force what a declaration declares, whose name isn't in force. `Memory` comes also where there are
    /// 2^32 - 1 declarations.
    pub fn enter(&mut self, arena: &Arena, declared: &Declared) -> Result<(), Memory>
        requires { IsFresh self.old (declaration_of arena.now declared.now) }
        ensures ok { OnOk result (self.new ≡ enter self.old (declaration_of arena.now declared.now)) }
        ensures err { OnErr result (self.new ≡ self.old) }
    {
        if self.declared == u32::MAX || self.hypotheses == u32::MAX {
            return Err(Memory);
        }
        let alloc = arena.alloc();
        match declared {
            Declared::Carrier { name } => {
                let sort = Sort::Decl(self.declared);
                self.enter_name(alloc, name, Meaning::SortName(sort))
            }
            Declared::Instance { sort, class } => self.enter_instance(*sort, *class),
            Declared::Variable { name, sort } => {
                let number = self.declared;
                self.enter_name(alloc, name, Meaning::Variable(number, *sort))
            }
            Declared::Function { name, args, result } => self.enter_function(
                alloc, name, args, *result,
            ),
            Declared::Hypothesis { name, stmt } => self.enter_hypothesis(alloc, name, *stmt),
        }
    }

    /// How much is in force now.
    pub fn checkpoint(&self) -> Checkpoint
        ensures { result ≡ checkpoint_of self.now }
    {
        Checkpoint {
            names: self.names.len(),
            granted: self.granted.len(),
            declared: self.declared,
            hypotheses: self.hypotheses,
        }
    }

    /// Takes out of force what was entered since the checkpoint.
    #[tactic(auto, using(crate::proofs::Leaving::left))]
    pub fn leave(&mut self, checkpoint: Checkpoint)
        ensures { (s : declared_scope.Scope) (ds : List Declaration) → checkpoint ≡ checkpoint_of s → self.old ≡ entered s ds → self.new ≡ s }
    {
        self.names.leave(checkpoint.names);
        self.granted.leave(checkpoint.granted);
        self.declared = checkpoint.declared;
        self.hypotheses = checkpoint.hypotheses;
    }
}
