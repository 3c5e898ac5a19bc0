ghost use Rattle.std.specs.Prelude.{◌≡◌, [], ◌∷◌, ◌++◌, length, All, IfOk, OnOk, OnErr};
ghost use Rattle.alg_expr.specs.Arena.{Extends};
ghost use Rattle.alg_law.specs.Declarations.{declaration_of, declarations_of, IsDeclaredIn};
ghost use Rattle.alg_law.specs.Growing.{HasGrown};

use crate::declarations::Declared;
use alg_expr::{Arena, Items, Memory, Sort, Text};
use std::alloc::Global;
use std::marker::Model;

/// Copies of declarations, with the trees of their hypotheses. Contracts see their list.
#[derive(Drop)]
pub struct Copies {
    arena: Arena,
    declared: Vec<Declared>,
}

impl Model for Copies {
    ghost use Rattle.std.specs.Prelude.{List};
    ghost use Rattle.std.specs.Coded.{coded_list};
    ghost use Rattle.alg_law.specs.Declarations.{Declaration};
    ghost use Rattle.alg_law.specs.DeclarationCode.{declaration_code};

    ghost Value = { List Declaration };

    ghost coded = { coded_list declaration_code };

    ghost use Rattle.std.specs.Prelude.{All};
    ghost use Rattle.alg_law.specs.Declarations.{declarations_of, IsDeclaredIn};

    ghost view = { λ b. declarations_of b.arena b.declared.items };

    ghost invariant = { λ b. All (IsDeclaredIn b.arena) b.declared.items };
}

impl Copies {
    /// No copies.
    pub fn new(alloc: Global) -> Result<Copies, Memory>
        ensures { IfOk result (λ b. b ≡ []) }
    {
        Ok(Copies {
            arena: Arena::new(alloc)?,
            declared: Vec::new(alloc),
        })
    }

    /// How many declarations there are.
    pub fn len(&self) -> usize
        ensures { result ≡ length self.now }
    {
        self.declared.len()
    }

    /// All declarations, with the arena that their statements are of.
    pub fn declarations(&self) -> Declarations<'_>
        ensures list { declarations_of result.arena.now result.list.now ≡ self.now }
        ensures here { All (IsDeclaredIn result.arena.now) result.list.now }
    {
        Declarations {
            arena: &self.arena,
            list: self.declared.as_slice(),
        }
    }

    /// Adds a copy of a declaration, whose statement is of `from`.
    pub fn push(&mut self, from: &Arena, d: &Declared) -> Result<(), Memory>
        requires here { IsDeclaredIn from.now d.now }
        ensures ok { OnOk result (self.new ≡ self.old ++ declaration_of from.now d.now ∷ []) }
        ensures err { OnErr result (self.new ≡ self.old) }
    {
        let own = own_copy(&mut self.arena, from, d)?;
        self.declared.push(own)?;
        Ok(())
    }

    /// Adds copies of declarations in order. Where memory is wanting, it adds those of the first of them alone.
    pub fn push_all(&mut self, from: &Arena, ds: &[Declared]) -> Result<(), Memory>
        requires here { All (IsDeclaredIn from.now) ds.now }
        ensures ok { OnOk result (self.new ≡ self.old ++ declarations_of from.now ds.now) }
        ensures err { OnErr result (HasGrown self.old (declarations_of from.now ds.now) self.new) }
    {
        for d in ds {
            self.push(from, d)?;
        }
        Ok(())
    }
}

// the declaration with its statement in this arena
fn own_copy(arena: &mut Arena, from: &Arena, d: &Declared) -> Result<Declared, Memory>
    requires { IsDeclaredIn from.now d.now }
    ensures keeps { Extends arena.old arena.new }
    ensures here { IfOk result (IsDeclaredIn arena.new) }
    ensures same { IfOk result (λ own. declaration_of arena.new own ≡ declaration_of from.now d.now) }
{
    let alloc = arena.alloc();
    match d {
        Declared::Carrier { name } => Ok(Declared::Carrier {
            name: copied_text(alloc, name)?,
        }),
        Declared::Instance { sort, class } => Ok(Declared::Instance {
            sort: *sort,
            class: *class,
        }),
        Declared::Variable { name, sort } => Ok(Declared::Variable {
            name: copied_text(alloc, name)?,
            sort: *sort,
        }),
        Declared::Function { name, args, result } => Ok(Declared::Function {
            name: copied_text(alloc, name)?,
            args: copied_sorts(alloc, args)?,
            result: *result,
        }),
        Declared::Hypothesis { name, stmt } => {
            let name = copied_text(alloc, name)?;
            let stmt = arena.import_statement(from, *stmt)?;
            Ok(Declared::Hypothesis { name, stmt })
        }
    }
}

fn copied_text(alloc: Global, text: &Text) -> Result<Text, Memory>
    ensures { IfOk result (λ t. t ≡ text.now) }
{
    Ok(Text::of(String::from_str(alloc, text.as_str())?))
}

fn copied_sorts(alloc: Global, sorts: &Items<Sort>) -> Result<Items<Sort>, Memory>
    ensures { IfOk result (λ it. it ≡ sorts.now) }
{
    Ok(Items::of(sorts.as_slice().to_vec(alloc)?))
}

/// Declarations, lent with the arena that their statements are of.
#[derive(Clone, Copy)]
pub struct Declarations<'a> {
    pub arena: &'a Arena,
    pub list: &'a [Declared],
}
