ghost use Rattle.std.specs.Prelude.{◌≡◌, map, true};
ghost use Rattle.alg_proof.specs.LemmaRows.{lemma_row_of};
ghost use Rattle.alg_lemma.specs.Proving.{all_may_join};
ghost use Rattle.alg_lemma.specs.QuotientLemmas.{through_quotient_lemmas};
ghost use Rattle.alg_lemma.specs.FractionLemmas.{fraction_lemmas};

use alg_law::law_words::{A, B, C, D, INVERSE, OVER, PLUS, TIMES, ZERO};
use alg_law::{Class, Law, Need, PatSort, PatStmt};
use alg_proof::{LemmaRow, LemmaStep};
use alg_terms::{Rel, Sym};

/// where a * c = d, b * c = d and c ≠ 0: a = b
pub const EQ_OF_MUL: LemmaRow = LemmaRow {
    row: Law {
        name: "eq_of_mul",
        needs: &[Need::Class(Class::Field)],
        premises: &[
            PatStmt {
                rel: Rel::Eq,
                sort: PatSort::S,
                nodes: &[TIMES, A, C, D],
            },
            PatStmt {
                rel: Rel::Eq,
                sort: PatSort::S,
                nodes: &[TIMES, B, C, D],
            },
            PatStmt {
                rel: Rel::Ne,
                sort: PatSort::S,
                nodes: &[C, ZERO],
            },
        ],
        conclusion: PatStmt {
            rel: Rel::Eq,
            sort: PatSort::S,
            nodes: &[A, B],
        },
    },
    proof: &[
        LemmaStep::Symm(2),
        LemmaStep::Trans(1, 4),
        LemmaStep::Refl(&[INVERSE, C]),
        LemmaStep::Cong(Sym::Mul, &[5, 6]),
        LemmaStep::Lemma("mul_inv_cancel_right0", PatSort::S, &[&[A], &[C]], &[3]),
        LemmaStep::Symm(8),
        LemmaStep::Lemma("mul_inv_cancel_right0", PatSort::S, &[&[B], &[C]], &[3]),
        LemmaStep::Trans(9, 7),
        LemmaStep::Trans(11, 10),
    ],
};

/// where a + b = c: a / d + b / d = c / d
pub const DIV_ADD_SAME: LemmaRow = LemmaRow {
    row: Law {
        name: "div_add_same",
        needs: &[Need::Class(Class::Field)],
        premises: &[PatStmt {
            rel: Rel::Eq,
            sort: PatSort::S,
            nodes: &[PLUS, A, B, C],
        }],
        conclusion: PatStmt {
            rel: Rel::Eq,
            sort: PatSort::S,
            nodes: &[PLUS, OVER, A, D, OVER, B, D, OVER, C, D],
        },
    },
    proof: &[
        LemmaStep::Law("div_eq_mul_inv0", PatSort::S, &[&[A], &[D]], &[]),
        LemmaStep::Law("div_eq_mul_inv0", PatSort::S, &[&[B], &[D]], &[]),
        LemmaStep::Law(
            "right_distrib",
            PatSort::S,
            &[&[A], &[B], &[INVERSE, D]],
            &[],
        ),
        LemmaStep::Symm(4),
        LemmaStep::Law("div_eq_mul_inv0", PatSort::S, &[&[C], &[D]], &[]),
        LemmaStep::Symm(6),
        LemmaStep::Refl(&[OVER, B, D]),
        LemmaStep::Cong(Sym::Add, &[2, 8]),
        LemmaStep::Refl(&[TIMES, A, INVERSE, D]),
        LemmaStep::Cong(Sym::Add, &[10, 3]),
        LemmaStep::Trans(9, 11),
        LemmaStep::Trans(12, 5),
        LemmaStep::Refl(&[INVERSE, D]),
        LemmaStep::Cong(Sym::Mul, &[1, 14]),
        LemmaStep::Trans(13, 15),
        LemmaStep::Trans(16, 7),
    ],
};

/// where a * c = d: d / b = a * (c / b)
pub const DIV_SPLIT: LemmaRow = LemmaRow {
    row: Law {
        name: "div_split",
        needs: &[Need::Class(Class::Field)],
        premises: &[PatStmt {
            rel: Rel::Eq,
            sort: PatSort::S,
            nodes: &[TIMES, A, C, D],
        }],
        conclusion: PatStmt {
            rel: Rel::Eq,
            sort: PatSort::S,
            nodes: &[OVER, D, B, TIMES, A, OVER, C, B],
        },
    },
    proof: &[
        LemmaStep::Law("div_eq_mul_inv0", PatSort::S, &[&[C], &[B]], &[]),
        LemmaStep::Law("mul_assoc", PatSort::S, &[&[A], &[C], &[INVERSE, B]], &[]),
        LemmaStep::Symm(3),
        LemmaStep::Law("div_eq_mul_inv0", PatSort::S, &[&[D], &[B]], &[]),
        LemmaStep::Symm(5),
        LemmaStep::Refl(&[A]),
        LemmaStep::Cong(Sym::Mul, &[7, 2]),
        LemmaStep::Trans(8, 4),
        LemmaStep::Refl(&[INVERSE, B]),
        LemmaStep::Cong(Sym::Mul, &[1, 10]),
        LemmaStep::Trans(9, 11),
        LemmaStep::Trans(12, 6),
        LemmaStep::Symm(13),
    ],
};

/// where b * c = d, b ≠ 0 and c ≠ 0: a * (c / d) = a / b
pub const DIV_JOIN: LemmaRow = LemmaRow {
    row: Law {
        name: "div_join",
        needs: &[Need::Class(Class::Field)],
        premises: &[
            PatStmt {
                rel: Rel::Eq,
                sort: PatSort::S,
                nodes: &[TIMES, B, C, D],
            },
            PatStmt {
                rel: Rel::Ne,
                sort: PatSort::S,
                nodes: &[B, ZERO],
            },
            PatStmt {
                rel: Rel::Ne,
                sort: PatSort::S,
                nodes: &[C, ZERO],
            },
        ],
        conclusion: PatStmt {
            rel: Rel::Eq,
            sort: PatSort::S,
            nodes: &[TIMES, A, OVER, C, D, OVER, A, B],
        },
    },
    proof: &[
        LemmaStep::Symm(1),
        LemmaStep::Law("div_eq_mul_inv0", PatSort::S, &[&[C], &[TIMES, B, C]], &[]),
        LemmaStep::Lemma("mul_inv0", PatSort::S, &[&[B], &[C]], &[2, 3]),
        LemmaStep::Law(
            "mul_assoc",
            PatSort::S,
            &[&[C], &[INVERSE, B], &[INVERSE, C]],
            &[],
        ),
        LemmaStep::Symm(7),
        LemmaStep::Law("mul_comm", PatSort::S, &[&[C], &[INVERSE, B]], &[]),
        LemmaStep::Refl(&[INVERSE, C]),
        LemmaStep::Cong(Sym::Mul, &[9, 10]),
        LemmaStep::Trans(8, 11),
        LemmaStep::Lemma(
            "mul_inv_cancel_right0",
            PatSort::S,
            &[&[INVERSE, B], &[C]],
            &[3],
        ),
        LemmaStep::Law("div_eq_mul_inv0", PatSort::S, &[&[A], &[B]], &[]),
        LemmaStep::Symm(14),
        LemmaStep::Refl(&[A]),
        LemmaStep::Refl(&[C]),
        LemmaStep::Cong(Sym::Div, &[17, 4]),
        LemmaStep::Cong(Sym::Mul, &[16, 18]),
        LemmaStep::Cong(Sym::Mul, &[16, 5]),
        LemmaStep::Trans(19, 20),
        LemmaStep::Cong(Sym::Mul, &[17, 6]),
        LemmaStep::Cong(Sym::Mul, &[16, 22]),
        LemmaStep::Trans(21, 23),
        LemmaStep::Cong(Sym::Mul, &[16, 12]),
        LemmaStep::Trans(24, 25),
        LemmaStep::Cong(Sym::Mul, &[16, 13]),
        LemmaStep::Trans(26, 27),
        LemmaStep::Trans(28, 15),
    ],
};

/// where b * c = d, b ≠ 0 and c ≠ 0: a / b = a * c / d
pub const DIV_EXPAND: LemmaRow = LemmaRow {
    row: Law {
        name: "div_expand",
        needs: &[Need::Class(Class::Field)],
        premises: &[
            PatStmt {
                rel: Rel::Eq,
                sort: PatSort::S,
                nodes: &[TIMES, B, C, D],
            },
            PatStmt {
                rel: Rel::Ne,
                sort: PatSort::S,
                nodes: &[B, ZERO],
            },
            PatStmt {
                rel: Rel::Ne,
                sort: PatSort::S,
                nodes: &[C, ZERO],
            },
        ],
        conclusion: PatStmt {
            rel: Rel::Eq,
            sort: PatSort::S,
            nodes: &[OVER, A, B, OVER, TIMES, A, C, D],
        },
    },
    proof: &[
        LemmaStep::Refl(&[TIMES, A, C]),
        LemmaStep::Lemma(
            "div_split",
            PatSort::S,
            &[&[A], &[D], &[C], &[TIMES, A, C]],
            &[4],
        ),
        LemmaStep::Lemma(
            "div_join",
            PatSort::S,
            &[&[A], &[B], &[C], &[D]],
            &[1, 2, 3],
        ),
        LemmaStep::Trans(5, 6),
        LemmaStep::Symm(7),
    ],
};

/// where a * b = c and b ≠ 0: a = c / b
pub const EQ_DIV_OF_MUL: LemmaRow = LemmaRow {
    row: Law {
        name: "eq_div_of_mul",
        needs: &[Need::Class(Class::Field)],
        premises: &[
            PatStmt {
                rel: Rel::Eq,
                sort: PatSort::S,
                nodes: &[TIMES, A, B, C],
            },
            PatStmt {
                rel: Rel::Ne,
                sort: PatSort::S,
                nodes: &[B, ZERO],
            },
        ],
        conclusion: PatStmt {
            rel: Rel::Eq,
            sort: PatSort::S,
            nodes: &[A, OVER, C, B],
        },
    },
    proof: &[
        LemmaStep::Symm(1),
        LemmaStep::Law("div_eq_mul_inv0", PatSort::S, &[&[TIMES, A, B], &[B]], &[]),
        LemmaStep::Lemma("mul_inv_cancel_right0", PatSort::S, &[&[A], &[B]], &[2]),
        LemmaStep::Refl(&[B]),
        LemmaStep::Cong(Sym::Div, &[3, 6]),
        LemmaStep::Trans(7, 4),
        LemmaStep::Trans(8, 5),
        LemmaStep::Symm(9),
    ],
};

static FRACTIONS: [LemmaRow; 6] = [
    EQ_OF_MUL,
    DIV_ADD_SAME,
    DIV_SPLIT,
    DIV_JOIN,
    DIV_EXPAND,
    EQ_DIV_OF_MUL,
];

/// Sums of fractions, and fractions with other denominators.
pub fn fraction_lemmas() -> &'static [LemmaRow]
    ensures rows { map lemma_row_of result.now ≡ fraction_lemmas }
    ensures proved { all_may_join through_quotient_lemmas result.now ≡ true }
{
    &FRACTIONS
}
