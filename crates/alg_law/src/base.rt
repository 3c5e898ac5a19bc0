ghost use Rattle.std.specs.Prelude.{◌≡◌, ◌+◌, ◌-◌, ◌<◌, ◌≤◌, ◌^◌, ◌↔◌, IsTrue, [], ◌∷◌, ◌++◌, length, take, All, IfOk, OnOk, OnErr, slice_get};
ghost use Rattle.alg_law.specs.Declarations.{declaration_of, declarations_of, hypotheses, IsDeclaredIn};
ghost use Rattle.alg_law.specs.Following.{MayFollow, AllMayFollow, IsWellFormed};
ghost use Rattle.alg_law.specs.Having.{has_class, instances_give, Has};
ghost use Rattle.alg_law.specs.Lawful.{IsLawful};
ghost use Rattle.alg_law.specs.Signatures.{IsSignature};
ghost use Rattle.alg_law.specs.WellSorted.{is_type, variable_of, function_of};
ghost use Rattle.alg_law.specs.Lending.{IsLent, IsGiven};
ghost use Rattle.alg_law.specs.Prefixes.{line_at};

use crate::classes::Class;
use crate::copies::Copies;
use crate::declarations::Declared;
use crate::growing::Growing;
use crate::lending::{Given, Lent, any_grants, declared_at, nth};
use crate::masks::is_own;
use crate::shared::Shared;
use alg_expr::{Arena, Memory, Sort};
use std::alloc::Global;
use std::marker::Model;

/// The declarations of a goal in order: the first of those that its file shares, and its own. Contracts see their list.
#[derive(Drop)]
pub struct Base {
    shared: Shared,
    prefix: usize,
    // how many hypotheses the shared ones have
    given: usize,
    local: Copies,
}

impl Model for Base {
    ghost use Rattle.std.specs.Prelude.{List, ◌++◌, take};
    ghost use Rattle.std.specs.Coded.{coded_list};
    ghost use Rattle.alg_law.specs.Declarations.{Declaration};
    ghost use Rattle.alg_law.specs.DeclarationCode.{declaration_code};

    ghost Value = { List Declaration };

    ghost coded = { coded_list declaration_code };

    ghost use Rattle.alg_law.specs.Prefixes.{IsLending};

    ghost view = { λ b. take b.prefix b.shared ++ b.local };

    ghost invariant = { λ b. IsLending b.shared b.prefix b.given b.local };
}

impl Base {
    /// A base without declarations.
    pub fn new(alloc: Global) -> Result<Base, Memory>
        ensures { IfOk result (λ b. b ≡ []) }
    {
        let shared = Shared::of(alloc, Growing::new(alloc)?)?;
        Ok(Base {
            shared,
            prefix: 0,
            given: 0,
            local: Copies::new(alloc)?,
        })
    }

    /// The first `prefix` declarations of `shared`, which it lends, and then copies of `local`, whose statements are of
    /// `from`.
    pub fn joined(
        alloc: Global,
        shared: &Shared,
        prefix: usize,
        from: &Arena,
        local: &[Declared],
    ) -> Result<Base, Memory>
        requires within { prefix ≤ length shared.now }
        requires room { prefix + length local.now < 2 ^ 32 }
        requires here { All (IsDeclaredIn from.now) local.now }
        requires fit { AllMayFollow (take prefix shared.now) (declarations_of from.now local.now) }
        ensures { IfOk result (λ b. b ≡ take prefix shared.now ++ declarations_of from.now local.now) }
    {
        // says that there are fewer than 2^32 of them, and that each may follow the ones before it
        let _declarations = shared.len();
        let given = shared.declared().count(prefix);
        let mut copies = Copies::new(alloc)?;
        copies.push_all(from, local)?;
        Ok(Base {
            shared: shared.lend()?,
            prefix,
            given,
            local: copies,
        })
    }

    /// How many declarations there are.
    ///
    /// Each may follow the ones before it. So a sort with CharZero has Semiring, one with IsStrictOrderedRing has
    /// Semiring and LinearOrder, none has both Group and Semiring, one with Semiring and AddGroup has Ring, and one with
    /// CommSemiring and AddGroup has CommRing.
    pub fn len(&self) -> usize
        ensures len { result ≡ length self.now }
        ensures well_formed { IsWellFormed self.now }
        ensures lawful { IsLawful self.now }
    {
        self.prefix + self.local.len()
    }

    /// Declaration k, with the arena that its statement is of.
    pub fn declaration(&self, k: usize) -> Option<Lent<'_>>
        ensures { IsLent result (slice_get self.now k) }
    {
        if k < self.prefix {
            self.shared.declared().declaration(k)
        } else {
            let lent = self.local.declarations();
            declared_at(lent.arena, lent.list, k - self.prefix)
        }
    }

    /// The statement of the hypothesis with this number, from 1, with the arena that it is of.
    pub fn hypothesis(&self, number: u128) -> Option<Given<'_>>
        ensures { IsGiven result (line_at (hypotheses self.now) number) }
    {
        if number == 0 {
            return None;
        }
        let i = number - 1;
        if i < self.given as u128 {
            self.shared.declared().hypothesis(i as usize)
        } else {
            let lent = self.local.declarations();
            nth(lent.arena, lent.list, i - self.given as u128)
        }
    }

    /// Adds a declaration, and copies the statement of a hypothesis, which is of `from`.
    pub fn push(&mut self, from: &Arena, d: Declared) -> Result<(), Memory>
        requires room { length self.old < 2 ^ 32 - 1 }
        requires here { IsDeclaredIn from.now d }
        requires fits { MayFollow self.old (declaration_of from.now d) }
        ensures ok { OnOk result (self.new ≡ self.old ++ declaration_of from.now d ∷ []) }
        ensures err { OnErr result (self.new ≡ self.old) }
    {
        self.local.push(from, &d)?;
        Ok(())
    }

    /// Whether declaration k is a type variable.
    pub fn is_type(&self, k: u32) -> bool
        ensures { result ≡ is_type (slice_get self.now k) }
    {
        match self.declaration(k as usize) {
            Some(lent) => matches!(lent.declared, Declared::Carrier { .. }),
            None => false,
        }
    }

    /// The sort of the variable that is declaration k.
    pub fn variable(&self, k: u32) -> Option<Sort>
        ensures { result ≡ variable_of (slice_get self.now k) }
    {
        match self.declaration(k as usize) {
            Some(lent) => match lent.declared {
                Declared::Variable { sort, .. } => Some(*sort),
                _ => None,
            },
            None => None,
        }
    }

    /// The sorts of the function that is declaration k.
    pub fn function(&self, k: u32) -> Option<Signature<'_>>
        ensures { IsSignature result (function_of (slice_get self.now k)) }
    {
        match self.declaration(k as usize) {
            Some(lent) => match lent.declared {
                Declared::Function { args, result, .. } => Some(Signature {
                    args: args.as_slice(),
                    result: *result,
                }),
                _ => None,
            },
            None => None,
        }
    }
}

/// The sorts of a declared function's arguments and value.
#[derive(Clone, Copy)]
pub struct Signature<'a> {
    pub args: &'a [Sort],
    pub result: Sort,
}

// whether one of the declarations gives the sort the class
fn is_given(base: &Base, sort: Sort, class: Class) -> bool
    ensures { result ≡ instances_give base.now sort class }
{
    let lent = base.local.declarations();
    base.shared.declared().gives(base.prefix, sort, class)
        || any_grants(lent.arena, lent.list, sort, class)
}

fn test(base: &Base, sort: Sort, class: Class) -> bool
    ensures { result ≡ has_class base.now sort class }
{
    is_own(sort, class) || is_given(base, sort, class)
}

/// Whether the sort has the class: built in, declared, or implied by one that it has.
pub fn has(base: &Base, sort: Sort, class: Class) -> bool
    ensures test { result ≡ has_class base.now sort class }
    ensures has { IsTrue result ↔ Has base.now sort class }
{
    test(base, sort, class)
}
