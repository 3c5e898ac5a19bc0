use crate::whole::whole_value;
use alg_build::Builder;
use alg_expr::{ExprId, Sym};
use alg_exts::{NumExt, NumFault, Valued};

/// `%` of ℕ and of ℤ, on which it is never below 0. By 0 it is the first number.
#[derive(Clone, Copy, Debug)]
pub struct ModExt;

impl NumExt for ModExt {
    ghost use Rattle.std.specs.Prelude.{codes};
    ghost use Rattle.alg_normext.specs.Functions.{is_remainder};

    ghost title = { λ _. codes "mod" };

    ghost covered = { λ _ f. is_remainder f };

    fn name(&self) -> &str {
        "mod"
    }

    fn covers(&self, sym: Sym) -> bool {
        matches!(sym, Sym::Mod)
    }

    #[tactic(auto, using(crate::proofs::Calls::calls))]
    fn eval(
        &self,
        cx: &mut Builder,
        e: ExprId,
        args: &[Valued],
    ) -> Result<Option<Valued>, NumFault> {
        whole_value(cx, e, args)
    }
}
