ghost use Rattle.std.specs.Prelude.{◌≡◌, map, true};
ghost use Rattle.alg_proof.specs.LemmaRows.{lemma_row_of};
ghost use Rattle.alg_lemma.specs.Proving.{all_may_join};
ghost use Rattle.alg_lemma.specs.ExponentLemmas.{through_exponent_lemmas};
ghost use Rattle.alg_lemma.specs.IntegerPowerLemmas.{integer_power_lemmas};

use alg_law::law_words::{
    A, B, I, INTEGER_NEGATIVE, INTEGER_POWER, INTEGER_TIMES, INVERSE, J, ONE, TIMES,
};
use alg_law::{Class, Law, Need, Pat, PatSort, PatStmt};
use alg_proof::{BridgeKind, LemmaRow, LemmaStep};
use alg_terms::{Rel, Sym};

const INTEGER_ZERO: Pat = Pat::Lit {
    sort: PatSort::Int,
    value: 0,
};

/// 1 ^ i = 1
pub const ONE_ZPOW: LemmaRow = LemmaRow {
    row: Law {
        name: "one_zpow",
        needs: &[Need::Class(Class::Group)],
        premises: &[],
        conclusion: PatStmt {
            rel: Rel::Eq,
            sort: PatSort::S,
            nodes: &[INTEGER_POWER, ONE, I, ONE],
        },
    },
    proof: &[
        LemmaStep::Bridge(BridgeKind::Zpow, 0, &[ONE]),
        LemmaStep::Law("pow_zero", PatSort::S, &[&[ONE]], &[]),
        LemmaStep::Trans(1, 2),
        LemmaStep::Symm(3),
        LemmaStep::Law(
            "zpow_mul",
            PatSort::S,
            &[&[ONE], &[INTEGER_ZERO], &[I]],
            &[],
        ),
        LemmaStep::Symm(5),
        LemmaStep::Law("zero_mul", PatSort::Int, &[&[I]], &[]),
        LemmaStep::Refl(&[I]),
        LemmaStep::Cong(Sym::Zpow, &[4, 8]),
        LemmaStep::Trans(9, 6),
        LemmaStep::Refl(&[ONE]),
        LemmaStep::Cong(Sym::Zpow, &[11, 7]),
        LemmaStep::Trans(10, 12),
        LemmaStep::Trans(13, 3),
    ],
};

/// where -i = j: (a ^ i)⁻¹ = a ^ j
pub const SYLLABLE_INV: LemmaRow = LemmaRow {
    row: Law {
        name: "syllable_inv",
        needs: &[Need::Class(Class::Group)],
        premises: &[PatStmt {
            rel: Rel::Eq,
            sort: PatSort::Int,
            nodes: &[INTEGER_NEGATIVE, I, J],
        }],
        conclusion: PatStmt {
            rel: Rel::Eq,
            sort: PatSort::S,
            nodes: &[INVERSE, INTEGER_POWER, A, I, INTEGER_POWER, A, J],
        },
    },
    proof: &[
        LemmaStep::Law("zpow_neg", PatSort::S, &[&[A], &[I]], &[]),
        LemmaStep::Symm(2),
        LemmaStep::Refl(&[A]),
        LemmaStep::Cong(Sym::Zpow, &[4, 1]),
        LemmaStep::Trans(3, 5),
    ],
};

/// where a ^ (i * j) = b: (a ^ i) ^ j = b
pub const SYLLABLE_ZPOW: LemmaRow = LemmaRow {
    row: Law {
        name: "syllable_zpow",
        needs: &[Need::Class(Class::Group)],
        premises: &[PatStmt {
            rel: Rel::Eq,
            sort: PatSort::S,
            nodes: &[INTEGER_POWER, A, INTEGER_TIMES, I, J, B],
        }],
        conclusion: PatStmt {
            rel: Rel::Eq,
            sort: PatSort::S,
            nodes: &[INTEGER_POWER, INTEGER_POWER, A, I, J, B],
        },
    },
    proof: &[
        LemmaStep::Law("zpow_mul", PatSort::S, &[&[A], &[I], &[J]], &[]),
        LemmaStep::Symm(2),
        LemmaStep::Trans(3, 1),
    ],
};

/// where a ^ i = b: (1 * a) ^ i = 1 * b
pub const ONE_MUL_ZPOW: LemmaRow = LemmaRow {
    row: Law {
        name: "one_mul_zpow",
        needs: &[Need::Class(Class::Group)],
        premises: &[PatStmt {
            rel: Rel::Eq,
            sort: PatSort::S,
            nodes: &[INTEGER_POWER, A, I, B],
        }],
        conclusion: PatStmt {
            rel: Rel::Eq,
            sort: PatSort::S,
            nodes: &[INTEGER_POWER, TIMES, ONE, A, I, TIMES, ONE, B],
        },
    },
    proof: &[
        LemmaStep::Law("one_mul", PatSort::S, &[&[A]], &[]),
        LemmaStep::Law("one_mul", PatSort::S, &[&[B]], &[]),
        LemmaStep::Symm(3),
        LemmaStep::Refl(&[I]),
        LemmaStep::Cong(Sym::Zpow, &[2, 5]),
        LemmaStep::Trans(6, 1),
        LemmaStep::Trans(7, 4),
    ],
};

static INTEGER_POWERS: [LemmaRow; 4] = [ONE_ZPOW, SYLLABLE_INV, SYLLABLE_ZPOW, ONE_MUL_ZPOW];

/// Powers in a group whose exponents are integers.
pub fn integer_power_lemmas() -> &'static [LemmaRow]
    ensures rows { map lemma_row_of result.now ≡ integer_power_lemmas }
    ensures proved { all_may_join through_exponent_lemmas result.now ≡ true }
{
    &INTEGER_POWERS
}
