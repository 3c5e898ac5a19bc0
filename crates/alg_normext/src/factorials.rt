use crate::whole::whole_value;
use alg_build::Builder;
use alg_expr::{ExprId, Sym};
use alg_exts::{NumExt, NumFault, Valued};

/// `Nat.factorial`.
#[derive(Clone, Copy, Debug)]
pub struct FactExt;

impl NumExt for FactExt {
    ghost use Rattle.std.specs.Prelude.{codes};
    ghost use Rattle.alg_normext.specs.Functions.{is_factorial};

    ghost title = { λ _. codes "fact" };

    ghost covered = { λ _ f. is_factorial f };

    fn name(&self) -> &str {
        "fact"
    }

    fn covers(&self, sym: Sym) -> bool {
        matches!(sym, Sym::Fact)
    }

    #[tactic(auto, using(crate::proofs::Calls::calls))]
    fn eval(
        &self,
        cx: &mut Builder,
        e: ExprId,
        args: &[Valued],
    ) -> Result<Option<Valued>, NumFault> {
        whole_value(cx, e, args)
    }
}
