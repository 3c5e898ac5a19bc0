use crate::whole::whole_value;
use alg_build::Builder;
use alg_expr::{ExprId, Sym};
use alg_exts::{NumExt, NumFault, Valued};

/// `Nat.fib`, from 0 and 1 on.
#[derive(Clone, Copy, Debug)]
pub struct FibExt;

impl NumExt for FibExt {
    ghost use Rattle.std.specs.Prelude.{codes};
    ghost use Rattle.alg_normext.specs.Functions.{is_fibonacci};

    ghost title = { λ _. codes "fib" };

    ghost covered = { λ _ f. is_fibonacci f };

    fn name(&self) -> &str {
        "fib"
    }

    fn covers(&self, sym: Sym) -> bool {
        matches!(sym, Sym::Fib)
    }

    #[tactic(auto, using(crate::proofs::Calls::calls))]
    fn eval(
        &self,
        cx: &mut Builder,
        e: ExprId,
        args: &[Valued],
    ) -> Result<Option<Valued>, NumFault> {
        whole_value(cx, e, args)
    }
}
