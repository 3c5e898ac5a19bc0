ghost use Rattle.std.specs.Prelude.{◌≡◌, map, true};
ghost use Rattle.alg_proof.specs.LemmaRows.{lemma_row_of};
ghost use Rattle.alg_lemma.specs.Proving.{all_may_join};
ghost use Rattle.alg_lemma.specs.InverseLemmas.{through_inverse_lemmas};
ghost use Rattle.alg_lemma.specs.QuotientLemmas.{quotient_lemmas};

use alg_law::law_words::{A, B, C, D, INVERSE, N, ONE, OVER, POWER, TIMES, ZERO};
use alg_law::{Class, Law, Need, PatSort, PatStmt};
use alg_proof::{LemmaRow, LemmaStep};
use alg_terms::{Rel, Sym};

/// where a ≠ 0: (a ^ n)⁻¹ = a⁻¹ ^ n
pub const POW_INV0: LemmaRow = LemmaRow {
    row: Law {
        name: "pow_inv0",
        needs: &[Need::Class(Class::Field)],
        premises: &[PatStmt {
            rel: Rel::Ne,
            sort: PatSort::S,
            nodes: &[A, ZERO],
        }],
        conclusion: PatStmt {
            rel: Rel::Eq,
            sort: PatSort::S,
            nodes: &[INVERSE, POWER, A, N, POWER, INVERSE, A, N],
        },
    },
    proof: &[
        LemmaStep::Law("mul_pow", PatSort::S, &[&[A], &[INVERSE, A], &[N]], &[]),
        LemmaStep::Symm(2),
        LemmaStep::Law("mul_inv_cancel0", PatSort::S, &[&[A]], &[1]),
        LemmaStep::Law("one_pow", PatSort::S, &[&[N]], &[]),
        LemmaStep::Refl(&[N]),
        LemmaStep::Cong(Sym::Npow, &[4, 6]),
        LemmaStep::Trans(3, 7),
        LemmaStep::Trans(8, 5),
        LemmaStep::Law("pow_ne_zero", PatSort::S, &[&[A], &[N]], &[1]),
        LemmaStep::Lemma(
            "inv_unique",
            PatSort::S,
            &[&[POWER, A, N], &[POWER, INVERSE, A, N]],
            &[10, 9],
        ),
    ],
};

/// a⁻¹ = 1 / a
pub const INV_EQ_ONE_DIV: LemmaRow = LemmaRow {
    row: Law {
        name: "inv_eq_one_div",
        needs: &[Need::Class(Class::Field)],
        premises: &[],
        conclusion: PatStmt {
            rel: Rel::Eq,
            sort: PatSort::S,
            nodes: &[INVERSE, A, OVER, ONE, A],
        },
    },
    proof: &[
        LemmaStep::Law("div_eq_mul_inv0", PatSort::S, &[&[ONE], &[A]], &[]),
        LemmaStep::Law("one_mul", PatSort::S, &[&[INVERSE, A]], &[]),
        LemmaStep::Trans(1, 2),
        LemmaStep::Symm(3),
    ],
};

/// a / 1 = a
pub const DIV_ONE0: LemmaRow = LemmaRow {
    row: Law {
        name: "div_one0",
        needs: &[Need::Class(Class::Field)],
        premises: &[],
        conclusion: PatStmt {
            rel: Rel::Eq,
            sort: PatSort::S,
            nodes: &[OVER, A, ONE, A],
        },
    },
    proof: &[
        LemmaStep::Law("div_eq_mul_inv0", PatSort::S, &[&[A], &[ONE]], &[]),
        LemmaStep::Lemma("one_inv0", PatSort::S, &[], &[]),
        LemmaStep::Law("mul_one", PatSort::S, &[&[A]], &[]),
        LemmaStep::Refl(&[A]),
        LemmaStep::Cong(Sym::Mul, &[4, 2]),
        LemmaStep::Trans(1, 5),
        LemmaStep::Trans(6, 3),
    ],
};

/// where a ≠ 0 and b ≠ 0: (a / b)⁻¹ = b / a
pub const DIV_INV0: LemmaRow = LemmaRow {
    row: Law {
        name: "div_inv0",
        needs: &[Need::Class(Class::Field)],
        premises: &[
            PatStmt {
                rel: Rel::Ne,
                sort: PatSort::S,
                nodes: &[A, ZERO],
            },
            PatStmt {
                rel: Rel::Ne,
                sort: PatSort::S,
                nodes: &[B, ZERO],
            },
        ],
        conclusion: PatStmt {
            rel: Rel::Eq,
            sort: PatSort::S,
            nodes: &[INVERSE, OVER, A, B, OVER, B, A],
        },
    },
    proof: &[
        LemmaStep::Law("div_eq_mul_inv0", PatSort::S, &[&[A], &[B]], &[]),
        LemmaStep::Law("inv_ne_zero", PatSort::S, &[&[B]], &[2]),
        LemmaStep::Lemma("mul_inv0", PatSort::S, &[&[A], &[INVERSE, B]], &[1, 4]),
        LemmaStep::Lemma("inv_inv0", PatSort::S, &[&[B]], &[2]),
        LemmaStep::Law("mul_comm", PatSort::S, &[&[INVERSE, A], &[B]], &[]),
        LemmaStep::Law("div_eq_mul_inv0", PatSort::S, &[&[B], &[A]], &[]),
        LemmaStep::Symm(8),
        LemmaStep::Cong(Sym::Inv, &[3]),
        LemmaStep::Trans(10, 5),
        LemmaStep::Refl(&[INVERSE, A]),
        LemmaStep::Cong(Sym::Mul, &[12, 6]),
        LemmaStep::Trans(11, 13),
        LemmaStep::Trans(14, 7),
        LemmaStep::Trans(15, 9),
    ],
};

/// where a ≠ 0: (1 / a)⁻¹ = a
pub const ONE_DIV_INV0: LemmaRow = LemmaRow {
    row: Law {
        name: "one_div_inv0",
        needs: &[Need::Class(Class::Field)],
        premises: &[PatStmt {
            rel: Rel::Ne,
            sort: PatSort::S,
            nodes: &[A, ZERO],
        }],
        conclusion: PatStmt {
            rel: Rel::Eq,
            sort: PatSort::S,
            nodes: &[INVERSE, OVER, ONE, A, A],
        },
    },
    proof: &[
        LemmaStep::Law("one_ne_zero", PatSort::S, &[], &[]),
        LemmaStep::Lemma("div_inv0", PatSort::S, &[&[ONE], &[A]], &[2, 1]),
        LemmaStep::Lemma("div_one0", PatSort::S, &[&[A]], &[]),
        LemmaStep::Trans(3, 4),
    ],
};

/// where a ≠ 0 and b ≠ 0: a / b ≠ 0
pub const DIV_NE_ZERO: LemmaRow = LemmaRow {
    row: Law {
        name: "div_ne_zero",
        needs: &[Need::Class(Class::Field)],
        premises: &[
            PatStmt {
                rel: Rel::Ne,
                sort: PatSort::S,
                nodes: &[A, ZERO],
            },
            PatStmt {
                rel: Rel::Ne,
                sort: PatSort::S,
                nodes: &[B, ZERO],
            },
        ],
        conclusion: PatStmt {
            rel: Rel::Ne,
            sort: PatSort::S,
            nodes: &[OVER, A, B, ZERO],
        },
    },
    proof: &[
        LemmaStep::Law("inv_ne_zero", PatSort::S, &[&[B]], &[2]),
        LemmaStep::Law("mul_ne_zero", PatSort::S, &[&[A], &[INVERSE, B]], &[1, 3]),
        LemmaStep::Law("div_eq_mul_inv0", PatSort::S, &[&[A], &[B]], &[]),
        LemmaStep::Symm(5),
        LemmaStep::Refl(&[ZERO]),
        LemmaStep::Subst(4, 6, 7),
    ],
};

/// where b * c = d and b ≠ 0: a / b * d = a * c
pub const DIV_MUL_LIT: LemmaRow = LemmaRow {
    row: Law {
        name: "div_mul_lit",
        needs: &[Need::Class(Class::Field)],
        premises: &[
            PatStmt {
                rel: Rel::Eq,
                sort: PatSort::S,
                nodes: &[TIMES, B, C, D],
            },
            PatStmt {
                rel: Rel::Ne,
                sort: PatSort::S,
                nodes: &[B, ZERO],
            },
        ],
        conclusion: PatStmt {
            rel: Rel::Eq,
            sort: PatSort::S,
            nodes: &[TIMES, OVER, A, B, D, TIMES, A, C],
        },
    },
    proof: &[
        LemmaStep::Law("div_eq_mul_inv0", PatSort::S, &[&[A], &[B]], &[]),
        LemmaStep::Symm(1),
        LemmaStep::Law(
            "mul_assoc",
            PatSort::S,
            &[&[A], &[INVERSE, B], &[TIMES, B, C]],
            &[],
        ),
        LemmaStep::Law("mul_assoc", PatSort::S, &[&[INVERSE, B], &[B], &[C]], &[]),
        LemmaStep::Symm(6),
        LemmaStep::Lemma("inv_mul_cancel0", PatSort::S, &[&[B]], &[2]),
        LemmaStep::Law("one_mul", PatSort::S, &[&[C]], &[]),
        LemmaStep::Refl(&[D]),
        LemmaStep::Cong(Sym::Mul, &[3, 10]),
        LemmaStep::Refl(&[TIMES, A, INVERSE, B]),
        LemmaStep::Cong(Sym::Mul, &[12, 4]),
        LemmaStep::Trans(11, 13),
        LemmaStep::Trans(14, 5),
        LemmaStep::Refl(&[A]),
        LemmaStep::Cong(Sym::Mul, &[16, 7]),
        LemmaStep::Trans(15, 17),
        LemmaStep::Refl(&[C]),
        LemmaStep::Cong(Sym::Mul, &[8, 19]),
        LemmaStep::Cong(Sym::Mul, &[16, 20]),
        LemmaStep::Trans(18, 21),
        LemmaStep::Cong(Sym::Mul, &[16, 9]),
        LemmaStep::Trans(22, 23),
    ],
};

static QUOTIENTS: [LemmaRow; 7] = [
    POW_INV0,
    INV_EQ_ONE_DIV,
    DIV_ONE0,
    DIV_INV0,
    ONE_DIV_INV0,
    DIV_NE_ZERO,
    DIV_MUL_LIT,
];

/// Quotients in a field, and their inverses.
pub fn quotient_lemmas() -> &'static [LemmaRow]
    ensures rows { map lemma_row_of result.now ≡ quotient_lemmas }
    ensures proved { all_may_join through_inverse_lemmas result.now ≡ true }
{
    &QUOTIENTS
}
