use alg_build::Builder;
use alg_expr::{ExprId, Memory, Sym};

/// How a number stands to 0. Where both of the last two are known it is `Pos`.
#[derive(Clone, Copy, Debug, PartialEq, Eq, Drop)]
pub enum SignKind {
    /// `0 < a`
    Pos,
    /// `0 ≤ a`
    Nonneg,
    /// `a ≠ 0`
    Nonzero,
}

/// A tree with its sign and the number of a line that concludes it, or with none.
#[derive(Clone, Copy, Debug, Drop)]
pub struct Signed {
    pub expr: ExprId,
    pub sign: Option<(SignKind, usize)>,
}

/// Finds the signs of trees by their heads.
pub trait SignExt: Drop {
    ghost use Rattle.std.specs.Prelude.{◌≡◌, ℕ, List, Bool};
    ghost use Rattle.alg_terms.specs.declared.symbols.Sym.{Sym};
    ghost use Rattle.alg_expr.specs.Ids.{tree_of};
    ghost use Rattle.alg_law.specs.Having.{has_class};
    ghost use Rattle.alg_lemma.specs.Library.{HoldsLibrary};
    ghost use Rattle.alg_build.specs.Book.{Grows};
    ghost use Rattle.alg_exts.specs.Signing.{IsAsked, GivesSign, sign_over, kinds_of};

    /// The bytes of its name.
    ghost heading: { Self → List ℕ };

    /// The symbols that it handles.
    ghost handled: { Self → Sym → Bool };

    /// The name by which it's switched off.
    fn name(&self) -> &str
        ensures { result.now ≡ heading self.now };

    /// Whether it finds the signs of trees with this head. Only `abs`, inverses, quotients, `min`, `max` and factorials
    /// are asked.
    fn handles(&self, sym: Sym) -> bool
        ensures { result ≡ handled self.now sym };

    /// The sign of a tree whose head is handled, from those of its parts, or `None` where nothing follows from these.
    /// Lines and atoms may be new, also after a fault.
    fn sign(&self, cx: &mut Builder, e: ExprId, parts: &[Signed]) -> Result<Option<Signed>, Memory>
        requires asked { IsAsked cx.old (handled self.now) e parts.now }
        requires lemmas { HoldsLibrary cx.old.theory.lemmas }
        ensures gives { GivesSign cx.new e result (sign_over (has_class cx.old.theory.declarations) (tree_of cx.old.trees e) (kinds_of parts.now)) }
        ensures grows { Grows cx.old cx.new };
}
