ghost use Rattle.std.specs.Prelude.{◌≡◌, IfOk, All};
ghost use Rattle.alg_law.specs.Combinations.{parts_of, IsStepIn};
ghost use Rattle.alg_parse.specs.Told.{combination as combined};
ghost use Rattle.alg_build.specs.Book.{KeepsLines};
ghost use Rattle.alg_steps.specs.Calling.{call_in, IsProcIn};

use alg_build::Builder;
use alg_expr::{Arena, Memory};
use alg_law::Combo;
use alg_parse::Proc;

fn combination(cx: &mut Builder, from: &Arena, combo: &Combo) -> Result<Proc, Memory>
    requires { All (IsStepIn from.now) combo.now.steps }
    ensures here { IfOk result (λ p. IsProcIn cx.new.trees p) }
    ensures call { IfOk result (λ p. call_in cx.new.trees p ≡ combined (parts_of from.now combo.now)) }
    ensures keeps { KeepsLines cx.old cx.new }
{
    let copy = cx.import_combo(from, combo)?;
    Ok(Proc::LinearCombination(copy))
}

/// A procedure of a script, with its expressions copied into the builder.
pub fn imported(cx: &mut Builder, from: &Arena, procedure: &Proc) -> Result<Proc, Memory>
    requires { IsProcIn from.now procedure.now }
    ensures here { IfOk result (λ p. IsProcIn cx.new.trees p) }
    ensures call { IfOk result (λ p. call_in cx.new.trees p ≡ call_in from.now procedure.now) }
    ensures keeps { KeepsLines cx.old cx.new }
{
    match procedure {
        Proc::Named(named) => Ok(Proc::Named(*named)),
        Proc::LinearCombination(combo) => combination(cx, from, combo),
    }
}
