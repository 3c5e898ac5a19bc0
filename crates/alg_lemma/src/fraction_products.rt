ghost use Rattle.std.specs.Prelude.{◌≡◌, map, true};
ghost use Rattle.alg_proof.specs.LemmaRows.{lemma_row_of};
ghost use Rattle.alg_lemma.specs.Proving.{all_may_join};
ghost use Rattle.alg_lemma.specs.FractionLemmas.{through_fraction_lemmas};
ghost use Rattle.alg_lemma.specs.FractionProductLemmas.{fraction_product_lemmas};

use alg_law::law_words::{A, B, C, D, INVERSE, OVER, TIMES, ZERO};
use alg_law::{Class, Law, Need, PatSort, PatStmt};
use alg_proof::{LemmaRow, LemmaStep};
use alg_terms::{Rel, Sym};

/// a / b * (c / d) = a / d * (c / b)
pub const DIV_MUL_SWAP: LemmaRow = LemmaRow {
    row: Law {
        name: "div_mul_swap",
        needs: &[Need::Class(Class::Field)],
        premises: &[],
        conclusion: PatStmt {
            rel: Rel::Eq,
            sort: PatSort::S,
            nodes: &[TIMES, OVER, A, B, OVER, C, D, TIMES, OVER, A, D, OVER, C, B],
        },
    },
    proof: &[
        LemmaStep::Law("div_eq_mul_inv0", PatSort::S, &[&[A], &[B]], &[]),
        LemmaStep::Law("div_eq_mul_inv0", PatSort::S, &[&[C], &[D]], &[]),
        LemmaStep::Law("mul_comm", PatSort::S, &[&[C], &[INVERSE, D]], &[]),
        LemmaStep::Lemma(
            "mul_mul_mul_comm",
            PatSort::S,
            &[&[A], &[INVERSE, B], &[INVERSE, D], &[C]],
            &[],
        ),
        LemmaStep::Law("mul_comm", PatSort::S, &[&[INVERSE, B], &[C]], &[]),
        LemmaStep::Refl(&[TIMES, A, INVERSE, B]),
        LemmaStep::Cong(Sym::Mul, &[6, 3]),
        LemmaStep::Trans(7, 4),
        LemmaStep::Refl(&[TIMES, A, INVERSE, D]),
        LemmaStep::Cong(Sym::Mul, &[9, 5]),
        LemmaStep::Trans(8, 10),
        LemmaStep::Law("div_eq_mul_inv0", PatSort::S, &[&[A], &[D]], &[]),
        LemmaStep::Symm(12),
        LemmaStep::Law("div_eq_mul_inv0", PatSort::S, &[&[C], &[B]], &[]),
        LemmaStep::Symm(14),
        LemmaStep::Refl(&[OVER, C, D]),
        LemmaStep::Cong(Sym::Mul, &[1, 16]),
        LemmaStep::Cong(Sym::Mul, &[6, 2]),
        LemmaStep::Trans(17, 18),
        LemmaStep::Trans(19, 11),
        LemmaStep::Refl(&[TIMES, C, INVERSE, B]),
        LemmaStep::Cong(Sym::Mul, &[13, 21]),
        LemmaStep::Trans(20, 22),
        LemmaStep::Refl(&[OVER, A, D]),
        LemmaStep::Cong(Sym::Mul, &[24, 15]),
        LemmaStep::Trans(23, 25),
    ],
};

/// where b ≠ 0 and d ≠ 0: a / b * (c / d) = a * c / (b * d)
pub const DIV_MUL_DIV: LemmaRow = LemmaRow {
    row: Law {
        name: "div_mul_div",
        needs: &[Need::Class(Class::Field)],
        premises: &[
            PatStmt {
                rel: Rel::Ne,
                sort: PatSort::S,
                nodes: &[B, ZERO],
            },
            PatStmt {
                rel: Rel::Ne,
                sort: PatSort::S,
                nodes: &[D, ZERO],
            },
        ],
        conclusion: PatStmt {
            rel: Rel::Eq,
            sort: PatSort::S,
            nodes: &[
                TIMES, OVER, A, B, OVER, C, D, OVER, TIMES, A, C, TIMES, B, D,
            ],
        },
    },
    proof: &[
        LemmaStep::Law("div_eq_mul_inv0", PatSort::S, &[&[A], &[B]], &[]),
        LemmaStep::Law("div_eq_mul_inv0", PatSort::S, &[&[C], &[D]], &[]),
        LemmaStep::Lemma(
            "mul_mul_mul_comm",
            PatSort::S,
            &[&[A], &[INVERSE, B], &[C], &[INVERSE, D]],
            &[],
        ),
        LemmaStep::Lemma("mul_inv0", PatSort::S, &[&[B], &[D]], &[1, 2]),
        LemmaStep::Symm(6),
        LemmaStep::Law(
            "div_eq_mul_inv0",
            PatSort::S,
            &[&[TIMES, A, C], &[TIMES, B, D]],
            &[],
        ),
        LemmaStep::Symm(8),
        LemmaStep::Refl(&[OVER, C, D]),
        LemmaStep::Cong(Sym::Mul, &[3, 10]),
        LemmaStep::Refl(&[TIMES, A, INVERSE, B]),
        LemmaStep::Cong(Sym::Mul, &[12, 4]),
        LemmaStep::Trans(11, 13),
        LemmaStep::Trans(14, 5),
        LemmaStep::Refl(&[TIMES, A, C]),
        LemmaStep::Cong(Sym::Mul, &[16, 7]),
        LemmaStep::Trans(15, 17),
        LemmaStep::Trans(18, 9),
    ],
};

/// where a * c = b: a * (c / d) = b / d
pub const MUL_DIV_RIGHT: LemmaRow = LemmaRow {
    row: Law {
        name: "mul_div_right",
        needs: &[Need::Class(Class::Field)],
        premises: &[PatStmt {
            rel: Rel::Eq,
            sort: PatSort::S,
            nodes: &[TIMES, A, C, B],
        }],
        conclusion: PatStmt {
            rel: Rel::Eq,
            sort: PatSort::S,
            nodes: &[TIMES, A, OVER, C, D, OVER, B, D],
        },
    },
    proof: &[
        LemmaStep::Lemma("div_split", PatSort::S, &[&[A], &[D], &[C], &[B]], &[1]),
        LemmaStep::Symm(2),
    ],
};

/// where a * c = b: a / d * c = b / d
pub const MUL_DIV_LEFT: LemmaRow = LemmaRow {
    row: Law {
        name: "mul_div_left",
        needs: &[Need::Class(Class::Field)],
        premises: &[PatStmt {
            rel: Rel::Eq,
            sort: PatSort::S,
            nodes: &[TIMES, A, C, B],
        }],
        conclusion: PatStmt {
            rel: Rel::Eq,
            sort: PatSort::S,
            nodes: &[TIMES, OVER, A, D, C, OVER, B, D],
        },
    },
    proof: &[
        LemmaStep::Law("div_eq_mul_inv0", PatSort::S, &[&[A], &[D]], &[]),
        LemmaStep::Lemma(
            "mul_right_comm",
            PatSort::S,
            &[&[A], &[INVERSE, D], &[C]],
            &[],
        ),
        LemmaStep::Law("div_eq_mul_inv0", PatSort::S, &[&[B], &[D]], &[]),
        LemmaStep::Symm(4),
        LemmaStep::Refl(&[C]),
        LemmaStep::Cong(Sym::Mul, &[2, 6]),
        LemmaStep::Trans(7, 3),
        LemmaStep::Refl(&[INVERSE, D]),
        LemmaStep::Cong(Sym::Mul, &[1, 9]),
        LemmaStep::Trans(8, 10),
        LemmaStep::Trans(11, 5),
    ],
};

/// a * (c / d) = a / d * c
pub const MUL_DIV_COMM: LemmaRow = LemmaRow {
    row: Law {
        name: "mul_div_comm",
        needs: &[Need::Class(Class::Field)],
        premises: &[],
        conclusion: PatStmt {
            rel: Rel::Eq,
            sort: PatSort::S,
            nodes: &[TIMES, A, OVER, C, D, TIMES, OVER, A, D, C],
        },
    },
    proof: &[
        LemmaStep::Refl(&[TIMES, A, C]),
        LemmaStep::Lemma(
            "mul_div_right",
            PatSort::S,
            &[&[A], &[TIMES, A, C], &[C], &[D]],
            &[1],
        ),
        LemmaStep::Lemma(
            "mul_div_left",
            PatSort::S,
            &[&[A], &[TIMES, A, C], &[C], &[D]],
            &[1],
        ),
        LemmaStep::Symm(3),
        LemmaStep::Trans(2, 4),
    ],
};

static FRACTION_PRODUCTS: [LemmaRow; 5] = [
    DIV_MUL_SWAP,
    DIV_MUL_DIV,
    MUL_DIV_RIGHT,
    MUL_DIV_LEFT,
    MUL_DIV_COMM,
];

/// Products of fractions.
pub fn fraction_product_lemmas() -> &'static [LemmaRow]
    ensures rows { map lemma_row_of result.now ≡ fraction_product_lemmas }
    ensures proved { all_may_join through_fraction_lemmas result.now ≡ true }
{
    &FRACTION_PRODUCTS
}
