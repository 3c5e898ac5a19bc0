use crate::whole::whole_value;
use alg_build::Builder;
use alg_expr::{ExprId, Sym};
use alg_exts::{NumExt, NumFault, Valued};

/// `Nat.choose`, which is 0 where more are chosen than there are.
#[derive(Clone, Copy, Debug)]
pub struct ChooseExt;

impl NumExt for ChooseExt {
    ghost use Rattle.std.specs.Prelude.{codes};
    ghost use Rattle.alg_normext.specs.Functions.{is_choice};

    ghost title = { λ _. codes "choose" };

    ghost covered = { λ _ f. is_choice f };

    fn name(&self) -> &str {
        "choose"
    }

    fn covers(&self, sym: Sym) -> bool {
        matches!(sym, Sym::Choose)
    }

    #[tactic(auto, using(crate::proofs::Calls::calls))]
    fn eval(
        &self,
        cx: &mut Builder,
        e: ExprId,
        args: &[Valued],
    ) -> Result<Option<Valued>, NumFault> {
        whole_value(cx, e, args)
    }
}
