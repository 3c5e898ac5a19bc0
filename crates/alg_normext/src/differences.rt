use crate::whole::whole_value;
use alg_build::Builder;
use alg_expr::{ExprId, Sym};
use alg_exts::{NumExt, NumFault, Valued};

/// `-` of ℕ, which is 0 where the second number is the greater.
#[derive(Clone, Copy, Debug)]
pub struct NatSubExt;

impl NumExt for NatSubExt {
    ghost use Rattle.std.specs.Prelude.{codes};
    ghost use Rattle.alg_normext.specs.Functions.{is_difference};

    ghost title = { λ _. codes "natsub" };

    ghost covered = { λ _ f. is_difference f };

    fn name(&self) -> &str {
        "natsub"
    }

    fn covers(&self, sym: Sym) -> bool {
        matches!(sym, Sym::NatSub)
    }

    #[tactic(auto, using(crate::proofs::Calls::calls))]
    fn eval(
        &self,
        cx: &mut Builder,
        e: ExprId,
        args: &[Valued],
    ) -> Result<Option<Valued>, NumFault> {
        whole_value(cx, e, args)
    }
}
