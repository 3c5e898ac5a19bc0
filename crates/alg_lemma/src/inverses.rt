ghost use Rattle.std.specs.Prelude.{◌≡◌, map, true};
ghost use Rattle.alg_proof.specs.LemmaRows.{lemma_row_of};
ghost use Rattle.alg_lemma.specs.Proving.{all_may_join};
ghost use Rattle.alg_lemma.specs.SignLemmas.{through_sign_lemmas};
ghost use Rattle.alg_lemma.specs.InverseLemmas.{inverse_lemmas};

use alg_law::law_words::{A, B, INVERSE, NEGATIVE, ONE, TIMES, ZERO};
use alg_law::{Class, Law, Need, PatSort, PatStmt};
use alg_proof::{LemmaRow, LemmaStep};
use alg_terms::{Rel, Sym};

/// where a ≠ 0 and a * b = 1: a⁻¹ = b
pub const INV_UNIQUE: LemmaRow = LemmaRow {
    row: Law {
        name: "inv_unique",
        needs: &[Need::Class(Class::Field)],
        premises: &[
            PatStmt {
                rel: Rel::Ne,
                sort: PatSort::S,
                nodes: &[A, ZERO],
            },
            PatStmt {
                rel: Rel::Eq,
                sort: PatSort::S,
                nodes: &[TIMES, A, B, ONE],
            },
        ],
        conclusion: PatStmt {
            rel: Rel::Eq,
            sort: PatSort::S,
            nodes: &[INVERSE, A, B],
        },
    },
    proof: &[
        LemmaStep::Law("mul_one", PatSort::S, &[&[INVERSE, A]], &[]),
        LemmaStep::Symm(3),
        LemmaStep::Symm(2),
        LemmaStep::Law("mul_assoc", PatSort::S, &[&[INVERSE, A], &[A], &[B]], &[]),
        LemmaStep::Symm(6),
        LemmaStep::Law("mul_comm", PatSort::S, &[&[INVERSE, A], &[A]], &[]),
        LemmaStep::Law("mul_inv_cancel0", PatSort::S, &[&[A]], &[1]),
        LemmaStep::Trans(8, 9),
        LemmaStep::Law("one_mul", PatSort::S, &[&[B]], &[]),
        LemmaStep::Refl(&[INVERSE, A]),
        LemmaStep::Cong(Sym::Mul, &[12, 5]),
        LemmaStep::Trans(4, 13),
        LemmaStep::Trans(14, 7),
        LemmaStep::Refl(&[B]),
        LemmaStep::Cong(Sym::Mul, &[10, 16]),
        LemmaStep::Trans(15, 17),
        LemmaStep::Trans(18, 11),
    ],
};

/// where a ≠ 0: a⁻¹ * a = 1
pub const INV_MUL_CANCEL0: LemmaRow = LemmaRow {
    row: Law {
        name: "inv_mul_cancel0",
        needs: &[Need::Class(Class::Field)],
        premises: &[PatStmt {
            rel: Rel::Ne,
            sort: PatSort::S,
            nodes: &[A, ZERO],
        }],
        conclusion: PatStmt {
            rel: Rel::Eq,
            sort: PatSort::S,
            nodes: &[TIMES, INVERSE, A, A, ONE],
        },
    },
    proof: &[
        LemmaStep::Law("mul_comm", PatSort::S, &[&[INVERSE, A], &[A]], &[]),
        LemmaStep::Law("mul_inv_cancel0", PatSort::S, &[&[A]], &[1]),
        LemmaStep::Trans(2, 3),
    ],
};

/// where a ≠ 0: a⁻¹⁻¹ = a
pub const INV_INV0: LemmaRow = LemmaRow {
    row: Law {
        name: "inv_inv0",
        needs: &[Need::Class(Class::Field)],
        premises: &[PatStmt {
            rel: Rel::Ne,
            sort: PatSort::S,
            nodes: &[A, ZERO],
        }],
        conclusion: PatStmt {
            rel: Rel::Eq,
            sort: PatSort::S,
            nodes: &[INVERSE, INVERSE, A, A],
        },
    },
    proof: &[
        LemmaStep::Law("inv_ne_zero", PatSort::S, &[&[A]], &[1]),
        LemmaStep::Lemma("inv_mul_cancel0", PatSort::S, &[&[A]], &[1]),
        LemmaStep::Lemma("inv_unique", PatSort::S, &[&[INVERSE, A], &[A]], &[2, 3]),
    ],
};

/// where b ≠ 0: a * b * b⁻¹ = a
pub const MUL_INV_CANCEL_RIGHT0: LemmaRow = LemmaRow {
    row: Law {
        name: "mul_inv_cancel_right0",
        needs: &[Need::Class(Class::Field)],
        premises: &[PatStmt {
            rel: Rel::Ne,
            sort: PatSort::S,
            nodes: &[B, ZERO],
        }],
        conclusion: PatStmt {
            rel: Rel::Eq,
            sort: PatSort::S,
            nodes: &[TIMES, TIMES, A, B, INVERSE, B, A],
        },
    },
    proof: &[
        LemmaStep::Law("mul_assoc", PatSort::S, &[&[A], &[B], &[INVERSE, B]], &[]),
        LemmaStep::Law("mul_inv_cancel0", PatSort::S, &[&[B]], &[1]),
        LemmaStep::Law("mul_one", PatSort::S, &[&[A]], &[]),
        LemmaStep::Refl(&[A]),
        LemmaStep::Cong(Sym::Mul, &[5, 3]),
        LemmaStep::Trans(2, 6),
        LemmaStep::Trans(7, 4),
    ],
};

/// where a ≠ 0 and b ≠ 0: (a * b)⁻¹ = a⁻¹ * b⁻¹
pub const MUL_INV0: LemmaRow = LemmaRow {
    row: Law {
        name: "mul_inv0",
        needs: &[Need::Class(Class::Field)],
        premises: &[
            PatStmt {
                rel: Rel::Ne,
                sort: PatSort::S,
                nodes: &[A, ZERO],
            },
            PatStmt {
                rel: Rel::Ne,
                sort: PatSort::S,
                nodes: &[B, ZERO],
            },
        ],
        conclusion: PatStmt {
            rel: Rel::Eq,
            sort: PatSort::S,
            nodes: &[INVERSE, TIMES, A, B, TIMES, INVERSE, A, INVERSE, B],
        },
    },
    proof: &[
        LemmaStep::Lemma(
            "mul_mul_mul_comm",
            PatSort::S,
            &[&[A], &[B], &[INVERSE, A], &[INVERSE, B]],
            &[],
        ),
        LemmaStep::Law("mul_inv_cancel0", PatSort::S, &[&[A]], &[1]),
        LemmaStep::Law("mul_inv_cancel0", PatSort::S, &[&[B]], &[2]),
        LemmaStep::Law("one_mul", PatSort::S, &[&[ONE]], &[]),
        LemmaStep::Refl(&[TIMES, B, INVERSE, B]),
        LemmaStep::Cong(Sym::Mul, &[4, 7]),
        LemmaStep::Refl(&[ONE]),
        LemmaStep::Cong(Sym::Mul, &[9, 5]),
        LemmaStep::Trans(8, 10),
        LemmaStep::Trans(11, 6),
        LemmaStep::Trans(3, 12),
        LemmaStep::Law("mul_ne_zero", PatSort::S, &[&[A], &[B]], &[1, 2]),
        LemmaStep::Lemma(
            "inv_unique",
            PatSort::S,
            &[&[TIMES, A, B], &[TIMES, INVERSE, A, INVERSE, B]],
            &[14, 13],
        ),
    ],
};

/// where a ≠ 0: (-a)⁻¹ = -a⁻¹
pub const NEG_INV0: LemmaRow = LemmaRow {
    row: Law {
        name: "neg_inv0",
        needs: &[Need::Class(Class::Field)],
        premises: &[PatStmt {
            rel: Rel::Ne,
            sort: PatSort::S,
            nodes: &[A, ZERO],
        }],
        conclusion: PatStmt {
            rel: Rel::Eq,
            sort: PatSort::S,
            nodes: &[INVERSE, NEGATIVE, A, NEGATIVE, INVERSE, A],
        },
    },
    proof: &[
        LemmaStep::Law("mul_inv_cancel0", PatSort::S, &[&[A]], &[1]),
        LemmaStep::Lemma(
            "neg_mul_neg",
            PatSort::S,
            &[&[A], &[INVERSE, A], &[ONE]],
            &[2],
        ),
        LemmaStep::Law("neg_ne_zero", PatSort::S, &[&[A]], &[1]),
        LemmaStep::Lemma(
            "inv_unique",
            PatSort::S,
            &[&[NEGATIVE, A], &[NEGATIVE, INVERSE, A]],
            &[4, 3],
        ),
    ],
};

/// where a ≠ 0 and a⁻¹ = b: (-a)⁻¹ = -b
pub const NEG_INV_LIT: LemmaRow = LemmaRow {
    row: Law {
        name: "neg_inv_lit",
        needs: &[Need::Class(Class::Field)],
        premises: &[
            PatStmt {
                rel: Rel::Ne,
                sort: PatSort::S,
                nodes: &[A, ZERO],
            },
            PatStmt {
                rel: Rel::Eq,
                sort: PatSort::S,
                nodes: &[INVERSE, A, B],
            },
        ],
        conclusion: PatStmt {
            rel: Rel::Eq,
            sort: PatSort::S,
            nodes: &[INVERSE, NEGATIVE, A, NEGATIVE, B],
        },
    },
    proof: &[
        LemmaStep::Lemma("neg_inv0", PatSort::S, &[&[A]], &[1]),
        LemmaStep::Cong(Sym::Neg, &[2]),
        LemmaStep::Trans(3, 4),
    ],
};

/// 1⁻¹ = 1
pub const ONE_INV0: LemmaRow = LemmaRow {
    row: Law {
        name: "one_inv0",
        needs: &[Need::Class(Class::Field)],
        premises: &[],
        conclusion: PatStmt {
            rel: Rel::Eq,
            sort: PatSort::S,
            nodes: &[INVERSE, ONE, ONE],
        },
    },
    proof: &[
        LemmaStep::Law("one_ne_zero", PatSort::S, &[], &[]),
        LemmaStep::Law("one_mul", PatSort::S, &[&[ONE]], &[]),
        LemmaStep::Lemma("inv_unique", PatSort::S, &[&[ONE], &[ONE]], &[1, 2]),
    ],
};

static INVERSES: [LemmaRow; 8] = [
    INV_UNIQUE,
    INV_MUL_CANCEL0,
    INV_INV0,
    MUL_INV_CANCEL_RIGHT0,
    MUL_INV0,
    NEG_INV0,
    NEG_INV_LIT,
    ONE_INV0,
];

/// What is the inverse of what in a field.
pub fn inverse_lemmas() -> &'static [LemmaRow]
    ensures rows { map lemma_row_of result.now ≡ inverse_lemmas }
    ensures proved { all_may_join through_sign_lemmas result.now ≡ true }
{
    &INVERSES
}
