use crate::whole::whole_value;
use alg_build::Builder;
use alg_expr::{ExprId, Sym};
use alg_exts::{NumExt, NumFault, Valued};

/// `Nat.gcd` and `Nat.lcm`.
#[derive(Clone, Copy, Debug)]
pub struct GcdExt;

impl NumExt for GcdExt {
    ghost use Rattle.std.specs.Prelude.{codes};
    ghost use Rattle.alg_normext.specs.Functions.{is_divisor};

    ghost title = { λ _. codes "gcd" };

    ghost covered = { λ _ f. is_divisor f };

    fn name(&self) -> &str {
        "gcd"
    }

    fn covers(&self, sym: Sym) -> bool {
        matches!(sym, Sym::Gcd | Sym::Lcm)
    }

    #[tactic(auto, using(crate::proofs::Calls::calls))]
    fn eval(
        &self,
        cx: &mut Builder,
        e: ExprId,
        args: &[Valued],
    ) -> Result<Option<Valued>, NumFault> {
        whole_value(cx, e, args)
    }
}
