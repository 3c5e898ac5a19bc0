use crate::whole::whole_value;
use alg_build::Builder;
use alg_expr::{ExprId, Sym};
use alg_exts::{NumExt, NumFault, Valued};

/// `/` of ℕ, rounded down, and `/` of ℤ, which leaves no remainder below 0. Over 0 it is 0.
#[derive(Clone, Copy, Debug)]
pub struct DivExt;

impl NumExt for DivExt {
    ghost use Rattle.std.specs.Prelude.{codes};
    ghost use Rattle.alg_normext.specs.Functions.{is_quotient};

    ghost title = { λ _. codes "div" };

    ghost covered = { λ _ f. is_quotient f };

    fn name(&self) -> &str {
        "div"
    }

    fn covers(&self, sym: Sym) -> bool {
        matches!(sym, Sym::IDiv)
    }

    #[tactic(auto, using(crate::proofs::Calls::calls))]
    fn eval(
        &self,
        cx: &mut Builder,
        e: ExprId,
        args: &[Valued],
    ) -> Result<Option<Valued>, NumFault> {
        whole_value(cx, e, args)
    }
}
