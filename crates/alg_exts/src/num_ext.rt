ghost use Rattle.std.specs.Prelude.{◌≡◌};

use alg_build::Builder;
use alg_expr::{ExprId, Memory, Sym};
use alg_num::Frac;

/// A tree with its value, and the number of a line that concludes that the tree equals the numeral of the value.
#[derive(Clone, Copy, Debug, Drop)]
pub struct Valued {
    pub expr: ExprId,
    pub value: Frac,
    pub line: usize,
}

/// Why an extension gives neither a value nor that there is none.
#[derive(Clone, Copy, Debug, PartialEq, Eq, Drop)]
pub enum NumFault {
    /// The value is past 2^127 - 1, or a number that finding it computes.
    Range,
    /// Want of memory.
    Memory,
}

impl From<Memory> for NumFault {
    ghost use Rattle.alg_exts.specs.declared.num_ext.NumFault.TheVariants as fault;

    ghost from_gives = { λ _ f. f ≡ fault.Memory };

    fn from(_: Memory) -> NumFault {
        NumFault::Memory
    }
}

/// Finds the values of some of the named functions.
pub trait NumExt: Drop {
    ghost use Rattle.std.specs.Prelude.{◌≡◌, ℕ, List, Bool};
    ghost use Rattle.alg_terms.specs.declared.symbols.Sym.{Sym};
    ghost use Rattle.alg_expr.specs.Ids.{tree_of};
    ghost use Rattle.alg_law.specs.Having.{has_class};
    ghost use Rattle.alg_lemma.specs.Library.{HoldsLibrary};
    ghost use Rattle.alg_build.specs.Book.{Grows};
    ghost use Rattle.alg_exts.specs.Valuing.{IsCalled, GivesValue, value_over, fractions_of};

    /// The bytes of its name.
    ghost title: { Self → List ℕ };

    /// The symbols that it covers.
    ghost covered: { Self → Sym → Bool };

    /// The name by which it's switched off.
    fn name(&self) -> &str
        ensures { result.now ≡ title self.now };

    /// Whether it finds the values of this symbol. Only named functions are asked.
    fn covers(&self, sym: Sym) -> bool
        ensures { result ≡ covered self.now sym };

    /// The value of a tree whose head is covered, from those of its parts: `None` where it has none, and `Range` where
    /// it is past the range. Lines and atoms may be new, also after a fault.
    fn eval(&self, cx: &mut Builder, e: ExprId, args: &[Valued]) -> Result<Option<Valued>, NumFault>
        requires called { IsCalled cx.old (covered self.now) e args.now }
        requires lemmas { HoldsLibrary cx.old.theory.lemmas }
        ensures gives { GivesValue cx.new e result (value_over (has_class cx.old.theory.declarations) (tree_of cx.old.trees e) (fractions_of args.now)) }
        ensures grows { Grows cx.old cx.new };
}
