ghost use Rattle.std.specs.Prelude.{◌≡◌, map, true};
ghost use Rattle.alg_proof.specs.LemmaRows.{lemma_row_of};
ghost use Rattle.alg_lemma.specs.Proving.{all_may_join};
ghost use Rattle.alg_lemma.specs.PositivityLemmas.{through_positivity_lemmas};
ghost use Rattle.alg_lemma.specs.FactorLemmas.{factor_lemmas};

use alg_law::law_words::{A, B, C, D, INVERSE, MINUS, N, NEGATIVE, OVER, POWER, TIMES, ZERO};
use alg_law::{Class, Law, Need, PatSort, PatStmt};
use alg_proof::{LemmaRow, LemmaStep};
use alg_terms::{Rel, Sym};

/// where 0 < a: a ≠ 0
pub const NE_ZERO_OF_POS_ORDER: LemmaRow = LemmaRow {
    row: Law {
        name: "ne_zero_of_pos_order",
        needs: &[
            Need::Class(Class::AddMonoid),
            Need::Class(Class::LinearOrder),
        ],
        premises: &[PatStmt {
            rel: Rel::Lt,
            sort: PatSort::S,
            nodes: &[ZERO, A],
        }],
        conclusion: PatStmt {
            rel: Rel::Ne,
            sort: PatSort::S,
            nodes: &[A, ZERO],
        },
    },
    proof: &[
        LemmaStep::Law("ne_of_lt", PatSort::S, &[&[ZERO], &[A]], &[1]),
        LemmaStep::Law("ne_symm", PatSort::S, &[&[ZERO], &[A]], &[2]),
    ],
};

/// where a ^ n = c and b ^ n = d: (a * b) ^ n = c * d
pub const MUL_POW_OF: LemmaRow = LemmaRow {
    row: Law {
        name: "mul_pow_of",
        needs: &[Need::Class(Class::CommMonoid)],
        premises: &[
            PatStmt {
                rel: Rel::Eq,
                sort: PatSort::S,
                nodes: &[POWER, A, N, C],
            },
            PatStmt {
                rel: Rel::Eq,
                sort: PatSort::S,
                nodes: &[POWER, B, N, D],
            },
        ],
        conclusion: PatStmt {
            rel: Rel::Eq,
            sort: PatSort::S,
            nodes: &[POWER, TIMES, A, B, N, TIMES, C, D],
        },
    },
    proof: &[
        LemmaStep::Law("mul_pow", PatSort::S, &[&[A], &[B], &[N]], &[]),
        LemmaStep::Refl(&[POWER, B, N]),
        LemmaStep::Cong(Sym::Mul, &[1, 4]),
        LemmaStep::Trans(3, 5),
        LemmaStep::Refl(&[C]),
        LemmaStep::Cong(Sym::Mul, &[7, 2]),
        LemmaStep::Trans(6, 8),
    ],
};

/// where a * b = c: a ^ n * b ^ n = c ^ n
pub const POW_MUL_POW: LemmaRow = LemmaRow {
    row: Law {
        name: "pow_mul_pow",
        needs: &[Need::Class(Class::CommMonoid)],
        premises: &[PatStmt {
            rel: Rel::Eq,
            sort: PatSort::S,
            nodes: &[TIMES, A, B, C],
        }],
        conclusion: PatStmt {
            rel: Rel::Eq,
            sort: PatSort::S,
            nodes: &[TIMES, POWER, A, N, POWER, B, N, POWER, C, N],
        },
    },
    proof: &[
        LemmaStep::Law("mul_pow", PatSort::S, &[&[A], &[B], &[N]], &[]),
        LemmaStep::Symm(2),
        LemmaStep::Refl(&[N]),
        LemmaStep::Cong(Sym::Npow, &[1, 4]),
        LemmaStep::Trans(3, 5),
    ],
};

/// (a - b) * c = a * c - b * c
pub const SUB_MUL: LemmaRow = LemmaRow {
    row: Law {
        name: "sub_mul",
        needs: &[Need::Class(Class::Ring)],
        premises: &[],
        conclusion: PatStmt {
            rel: Rel::Eq,
            sort: PatSort::S,
            nodes: &[TIMES, MINUS, A, B, C, MINUS, TIMES, A, C, TIMES, B, C],
        },
    },
    proof: &[
        LemmaStep::Law("sub_eq_add_neg", PatSort::S, &[&[A], &[B]], &[]),
        LemmaStep::Law(
            "right_distrib",
            PatSort::S,
            &[&[A], &[NEGATIVE, B], &[C]],
            &[],
        ),
        LemmaStep::Lemma("neg_mul", PatSort::S, &[&[B], &[C]], &[]),
        LemmaStep::Law(
            "sub_eq_add_neg",
            PatSort::S,
            &[&[TIMES, A, C], &[TIMES, B, C]],
            &[],
        ),
        LemmaStep::Symm(4),
        LemmaStep::Refl(&[C]),
        LemmaStep::Cong(Sym::Mul, &[1, 6]),
        LemmaStep::Trans(7, 2),
        LemmaStep::Refl(&[TIMES, A, C]),
        LemmaStep::Cong(Sym::Add, &[9, 3]),
        LemmaStep::Trans(8, 10),
        LemmaStep::Trans(11, 5),
    ],
};

/// where a ≠ 0 and b ≠ 0: (a / b)⁻¹ = a⁻¹ * b
pub const DIV_INV_MUL: LemmaRow = LemmaRow {
    row: Law {
        name: "div_inv_mul",
        needs: &[Need::Class(Class::Field)],
        premises: &[
            PatStmt {
                rel: Rel::Ne,
                sort: PatSort::S,
                nodes: &[A, ZERO],
            },
            PatStmt {
                rel: Rel::Ne,
                sort: PatSort::S,
                nodes: &[B, ZERO],
            },
        ],
        conclusion: PatStmt {
            rel: Rel::Eq,
            sort: PatSort::S,
            nodes: &[INVERSE, OVER, A, B, TIMES, INVERSE, A, B],
        },
    },
    proof: &[
        LemmaStep::Lemma("div_inv0", PatSort::S, &[&[A], &[B]], &[1, 2]),
        LemmaStep::Law("div_eq_mul_inv0", PatSort::S, &[&[B], &[A]], &[]),
        LemmaStep::Law("mul_comm", PatSort::S, &[&[B], &[INVERSE, A]], &[]),
        LemmaStep::Trans(3, 4),
        LemmaStep::Trans(6, 5),
    ],
};

/// where a * b = c and a ≠ 0: a⁻¹ * c = b
pub const INV_MUL_OF: LemmaRow = LemmaRow {
    row: Law {
        name: "inv_mul_of",
        needs: &[Need::Class(Class::Field)],
        premises: &[
            PatStmt {
                rel: Rel::Eq,
                sort: PatSort::S,
                nodes: &[TIMES, A, B, C],
            },
            PatStmt {
                rel: Rel::Ne,
                sort: PatSort::S,
                nodes: &[A, ZERO],
            },
        ],
        conclusion: PatStmt {
            rel: Rel::Eq,
            sort: PatSort::S,
            nodes: &[TIMES, INVERSE, A, C, B],
        },
    },
    proof: &[
        LemmaStep::Symm(1),
        LemmaStep::Law("mul_assoc", PatSort::S, &[&[INVERSE, A], &[A], &[B]], &[]),
        LemmaStep::Symm(4),
        LemmaStep::Lemma("inv_mul_cancel0", PatSort::S, &[&[A]], &[2]),
        LemmaStep::Law("one_mul", PatSort::S, &[&[B]], &[]),
        LemmaStep::Refl(&[INVERSE, A]),
        LemmaStep::Cong(Sym::Mul, &[8, 3]),
        LemmaStep::Trans(9, 5),
        LemmaStep::Refl(&[B]),
        LemmaStep::Cong(Sym::Mul, &[6, 11]),
        LemmaStep::Trans(10, 12),
        LemmaStep::Trans(13, 7),
    ],
};

/// where a * b = c, a ≠ 0 and b ≠ 0: c ≠ 0
pub const NE_ZERO_OF_MUL: LemmaRow = LemmaRow {
    row: Law {
        name: "ne_zero_of_mul",
        needs: &[Need::Class(Class::Field)],
        premises: &[
            PatStmt {
                rel: Rel::Eq,
                sort: PatSort::S,
                nodes: &[TIMES, A, B, C],
            },
            PatStmt {
                rel: Rel::Ne,
                sort: PatSort::S,
                nodes: &[A, ZERO],
            },
            PatStmt {
                rel: Rel::Ne,
                sort: PatSort::S,
                nodes: &[B, ZERO],
            },
        ],
        conclusion: PatStmt {
            rel: Rel::Ne,
            sort: PatSort::S,
            nodes: &[C, ZERO],
        },
    },
    proof: &[
        LemmaStep::Law("mul_ne_zero", PatSort::S, &[&[A], &[B]], &[2, 3]),
        LemmaStep::Refl(&[ZERO]),
        LemmaStep::Subst(4, 1, 5),
    ],
};

static FACTORS: [LemmaRow; 7] = [
    NE_ZERO_OF_POS_ORDER,
    MUL_POW_OF,
    POW_MUL_POW,
    SUB_MUL,
    DIV_INV_MUL,
    INV_MUL_OF,
    NE_ZERO_OF_MUL,
];

/// Factors that are moved out of quotients and inverses.
pub fn factor_lemmas() -> &'static [LemmaRow]
    ensures rows { map lemma_row_of result.now ≡ factor_lemmas }
    ensures proved { all_may_join through_positivity_lemmas result.now ≡ true }
{
    &FACTORS
}
