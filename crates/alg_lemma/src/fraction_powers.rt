ghost use Rattle.std.specs.Prelude.{◌≡◌, map, true};
ghost use Rattle.alg_proof.specs.LemmaRows.{lemma_row_of};
ghost use Rattle.alg_lemma.specs.Proving.{all_may_join};
ghost use Rattle.alg_lemma.specs.FractionProductLemmas.{through_fraction_product_lemmas};
ghost use Rattle.alg_lemma.specs.FractionPowerLemmas.{fraction_power_lemmas};

use alg_law::law_words::{
    A, B, C, D, I, INTEGER_MULTIPLE, INTEGER_NEGATIVE, INTEGER_POWER, INVERSE, N, NEGATIVE, OVER,
    POWER, TIMES, ZERO,
};
use alg_law::{Class, Law, Need, PatSort, PatStmt};
use alg_proof::{LemmaRow, LemmaStep};
use alg_terms::{Rel, Sym};

/// where a ^ n = c, b ^ n = d and b ≠ 0: (a / b) ^ n = c / d
pub const DIV_POW: LemmaRow = LemmaRow {
    row: Law {
        name: "div_pow",
        needs: &[Need::Class(Class::Field)],
        premises: &[
            PatStmt {
                rel: Rel::Eq,
                sort: PatSort::S,
                nodes: &[POWER, A, N, C],
            },
            PatStmt {
                rel: Rel::Eq,
                sort: PatSort::S,
                nodes: &[POWER, B, N, D],
            },
            PatStmt {
                rel: Rel::Ne,
                sort: PatSort::S,
                nodes: &[B, ZERO],
            },
        ],
        conclusion: PatStmt {
            rel: Rel::Eq,
            sort: PatSort::S,
            nodes: &[POWER, OVER, A, B, N, OVER, C, D],
        },
    },
    proof: &[
        LemmaStep::Law("div_eq_mul_inv0", PatSort::S, &[&[A], &[B]], &[]),
        LemmaStep::Law("mul_pow", PatSort::S, &[&[A], &[INVERSE, B], &[N]], &[]),
        LemmaStep::Lemma("pow_inv0", PatSort::S, &[&[B], &[N]], &[3]),
        LemmaStep::Symm(6),
        LemmaStep::Law("div_eq_mul_inv0", PatSort::S, &[&[C], &[D]], &[]),
        LemmaStep::Symm(8),
        LemmaStep::Refl(&[N]),
        LemmaStep::Cong(Sym::Npow, &[4, 10]),
        LemmaStep::Trans(11, 5),
        LemmaStep::Refl(&[POWER, INVERSE, B, N]),
        LemmaStep::Cong(Sym::Mul, &[1, 13]),
        LemmaStep::Trans(12, 14),
        LemmaStep::Refl(&[C]),
        LemmaStep::Cong(Sym::Mul, &[16, 7]),
        LemmaStep::Trans(15, 17),
        LemmaStep::Cong(Sym::Inv, &[2]),
        LemmaStep::Cong(Sym::Mul, &[16, 19]),
        LemmaStep::Trans(18, 20),
        LemmaStep::Trans(21, 9),
    ],
};

/// where b⁻¹ = d and a * d = c: a / b = c
pub const DIV_OF_INV: LemmaRow = LemmaRow {
    row: Law {
        name: "div_of_inv",
        needs: &[Need::Class(Class::Field)],
        premises: &[
            PatStmt {
                rel: Rel::Eq,
                sort: PatSort::S,
                nodes: &[INVERSE, B, D],
            },
            PatStmt {
                rel: Rel::Eq,
                sort: PatSort::S,
                nodes: &[TIMES, A, D, C],
            },
        ],
        conclusion: PatStmt {
            rel: Rel::Eq,
            sort: PatSort::S,
            nodes: &[OVER, A, B, C],
        },
    },
    proof: &[
        LemmaStep::Law("div_eq_mul_inv0", PatSort::S, &[&[A], &[B]], &[]),
        LemmaStep::Refl(&[A]),
        LemmaStep::Cong(Sym::Mul, &[4, 1]),
        LemmaStep::Trans(3, 5),
        LemmaStep::Trans(6, 2),
    ],
};

/// -(a / b) = -a / b
pub const NEG_DIV: LemmaRow = LemmaRow {
    row: Law {
        name: "neg_div",
        needs: &[Need::Class(Class::Field)],
        premises: &[],
        conclusion: PatStmt {
            rel: Rel::Eq,
            sort: PatSort::S,
            nodes: &[NEGATIVE, OVER, A, B, OVER, NEGATIVE, A, B],
        },
    },
    proof: &[
        LemmaStep::Law("div_eq_mul_inv0", PatSort::S, &[&[A], &[B]], &[]),
        LemmaStep::Lemma("neg_mul", PatSort::S, &[&[A], &[INVERSE, B]], &[]),
        LemmaStep::Symm(2),
        LemmaStep::Law("div_eq_mul_inv0", PatSort::S, &[&[NEGATIVE, A], &[B]], &[]),
        LemmaStep::Symm(4),
        LemmaStep::Cong(Sym::Neg, &[1]),
        LemmaStep::Trans(6, 3),
        LemmaStep::Trans(7, 5),
    ],
};

/// where a ^ i = b and b⁻¹ = c: a ^ (-i) = c
pub const ZPOW_NEG_LIT0: LemmaRow = LemmaRow {
    row: Law {
        name: "zpow_neg_lit0",
        needs: &[Need::Class(Class::Field)],
        premises: &[
            PatStmt {
                rel: Rel::Eq,
                sort: PatSort::S,
                nodes: &[INTEGER_POWER, A, I, B],
            },
            PatStmt {
                rel: Rel::Eq,
                sort: PatSort::S,
                nodes: &[INVERSE, B, C],
            },
        ],
        conclusion: PatStmt {
            rel: Rel::Eq,
            sort: PatSort::S,
            nodes: &[INTEGER_POWER, A, INTEGER_NEGATIVE, I, C],
        },
    },
    proof: &[
        LemmaStep::Law("zpow_neg0", PatSort::S, &[&[A], &[I]], &[]),
        LemmaStep::Cong(Sym::Inv, &[1]),
        LemmaStep::Trans(3, 4),
        LemmaStep::Trans(5, 2),
    ],
};

/// where i • a = b and -b = c: (-i) • a = c
pub const ZSMUL_NEG_LIT: LemmaRow = LemmaRow {
    row: Law {
        name: "zsmul_neg_lit",
        needs: &[Need::Class(Class::AddGroup)],
        premises: &[
            PatStmt {
                rel: Rel::Eq,
                sort: PatSort::S,
                nodes: &[INTEGER_MULTIPLE, I, A, B],
            },
            PatStmt {
                rel: Rel::Eq,
                sort: PatSort::S,
                nodes: &[NEGATIVE, B, C],
            },
        ],
        conclusion: PatStmt {
            rel: Rel::Eq,
            sort: PatSort::S,
            nodes: &[INTEGER_MULTIPLE, INTEGER_NEGATIVE, I, A, C],
        },
    },
    proof: &[
        LemmaStep::Law("neg_zsmul", PatSort::S, &[&[A], &[I]], &[]),
        LemmaStep::Cong(Sym::Neg, &[1]),
        LemmaStep::Trans(3, 4),
        LemmaStep::Trans(5, 2),
    ],
};

static FRACTION_POWERS: [LemmaRow; 5] = [
    DIV_POW,
    DIV_OF_INV,
    NEG_DIV,
    ZPOW_NEG_LIT0,
    ZSMUL_NEG_LIT,
];

/// Powers of fractions, and their signs.
pub fn fraction_power_lemmas() -> &'static [LemmaRow]
    ensures rows { map lemma_row_of result.now ≡ fraction_power_lemmas }
    ensures proved { all_may_join through_fraction_product_lemmas result.now ≡ true }
{
    &FRACTION_POWERS
}
