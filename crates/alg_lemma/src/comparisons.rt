ghost use Rattle.std.specs.Prelude.{◌≡◌, map, true};
ghost use Rattle.alg_proof.specs.LemmaRows.{lemma_row_of};
ghost use Rattle.alg_lemma.specs.Proving.{all_may_join};
ghost use Rattle.alg_lemma.specs.InequationLemmas.{through_inequation_lemmas};
ghost use Rattle.alg_lemma.specs.ComparisonLemmas.{comparison_lemmas};

use alg_law::law_words::{A, ABSOLUTE, B, C, INVERSE, NEGATIVE, OVER, PLUS, TIMES, ZERO};
use alg_law::{Class, Law, Need, PatSort, PatStmt};
use alg_proof::{LemmaRow, LemmaStep};
use alg_terms::Rel;

/// where a * c < b * c and 0 < c: a < b
pub const LT_OF_MUL: LemmaRow = LemmaRow {
    row: Law {
        name: "lt_of_mul",
        needs: &[
            Need::Class(Class::Field),
            Need::Class(Class::IsStrictOrderedRing),
        ],
        premises: &[
            PatStmt {
                rel: Rel::Lt,
                sort: PatSort::S,
                nodes: &[TIMES, A, C, TIMES, B, C],
            },
            PatStmt {
                rel: Rel::Lt,
                sort: PatSort::S,
                nodes: &[ZERO, C],
            },
        ],
        conclusion: PatStmt {
            rel: Rel::Lt,
            sort: PatSort::S,
            nodes: &[A, B],
        },
    },
    proof: &[
        LemmaStep::Lemma("ne_zero_of_pos", PatSort::S, &[&[C]], &[2]),
        LemmaStep::Law("inv_pos", PatSort::S, &[&[C]], &[2]),
        LemmaStep::Law(
            "mul_lt_mul_right",
            PatSort::S,
            &[&[TIMES, A, C], &[TIMES, B, C], &[INVERSE, C]],
            &[1, 4],
        ),
        LemmaStep::Lemma("mul_inv_cancel_right0", PatSort::S, &[&[A], &[C]], &[3]),
        LemmaStep::Lemma("mul_inv_cancel_right0", PatSort::S, &[&[B], &[C]], &[3]),
        LemmaStep::Subst(5, 6, 7),
    ],
};

/// where a * c ≤ b * c and 0 < c: a ≤ b
pub const LE_OF_MUL: LemmaRow = LemmaRow {
    row: Law {
        name: "le_of_mul",
        needs: &[
            Need::Class(Class::Field),
            Need::Class(Class::IsStrictOrderedRing),
        ],
        premises: &[
            PatStmt {
                rel: Rel::Le,
                sort: PatSort::S,
                nodes: &[TIMES, A, C, TIMES, B, C],
            },
            PatStmt {
                rel: Rel::Lt,
                sort: PatSort::S,
                nodes: &[ZERO, C],
            },
        ],
        conclusion: PatStmt {
            rel: Rel::Le,
            sort: PatSort::S,
            nodes: &[A, B],
        },
    },
    proof: &[
        LemmaStep::Lemma("ne_zero_of_pos", PatSort::S, &[&[C]], &[2]),
        LemmaStep::Law("inv_pos", PatSort::S, &[&[C]], &[2]),
        LemmaStep::Law("le_of_lt", PatSort::S, &[&[ZERO], &[INVERSE, C]], &[4]),
        LemmaStep::Law(
            "mul_le_mul_right",
            PatSort::S,
            &[&[TIMES, A, C], &[TIMES, B, C], &[INVERSE, C]],
            &[1, 5],
        ),
        LemmaStep::Lemma("mul_inv_cancel_right0", PatSort::S, &[&[A], &[C]], &[3]),
        LemmaStep::Lemma("mul_inv_cancel_right0", PatSort::S, &[&[B], &[C]], &[3]),
        LemmaStep::Subst(6, 7, 8),
    ],
};

/// where b < a: -a < -b
pub const NEG_LT_NEG: LemmaRow = LemmaRow {
    row: Law {
        name: "neg_lt_neg",
        needs: &[
            Need::Class(Class::Ring),
            Need::Class(Class::IsStrictOrderedRing),
        ],
        premises: &[PatStmt {
            rel: Rel::Lt,
            sort: PatSort::S,
            nodes: &[B, A],
        }],
        conclusion: PatStmt {
            rel: Rel::Lt,
            sort: PatSort::S,
            nodes: &[NEGATIVE, A, NEGATIVE, B],
        },
    },
    proof: &[
        LemmaStep::Law(
            "le_refl",
            PatSort::S,
            &[&[PLUS, NEGATIVE, A, NEGATIVE, B]],
            &[],
        ),
        LemmaStep::Law(
            "add_lt_add_le",
            PatSort::S,
            &[
                &[B],
                &[A],
                &[PLUS, NEGATIVE, A, NEGATIVE, B],
                &[PLUS, NEGATIVE, A, NEGATIVE, B],
            ],
            &[1, 2],
        ),
        LemmaStep::Lemma(
            "add_add_neg_cancel",
            PatSort::S,
            &[&[B], &[NEGATIVE, A]],
            &[],
        ),
        LemmaStep::Lemma(
            "add_neg_cancel_left",
            PatSort::S,
            &[&[A], &[NEGATIVE, B]],
            &[],
        ),
        LemmaStep::Subst(3, 4, 5),
    ],
};

/// where b ≤ a: -a ≤ -b
pub const NEG_LE_NEG: LemmaRow = LemmaRow {
    row: Law {
        name: "neg_le_neg",
        needs: &[
            Need::Class(Class::Ring),
            Need::Class(Class::IsStrictOrderedRing),
        ],
        premises: &[PatStmt {
            rel: Rel::Le,
            sort: PatSort::S,
            nodes: &[B, A],
        }],
        conclusion: PatStmt {
            rel: Rel::Le,
            sort: PatSort::S,
            nodes: &[NEGATIVE, A, NEGATIVE, B],
        },
    },
    proof: &[
        LemmaStep::Law(
            "le_refl",
            PatSort::S,
            &[&[PLUS, NEGATIVE, A, NEGATIVE, B]],
            &[],
        ),
        LemmaStep::Law(
            "add_le_add",
            PatSort::S,
            &[
                &[B],
                &[A],
                &[PLUS, NEGATIVE, A, NEGATIVE, B],
                &[PLUS, NEGATIVE, A, NEGATIVE, B],
            ],
            &[1, 2],
        ),
        LemmaStep::Lemma(
            "add_add_neg_cancel",
            PatSort::S,
            &[&[B], &[NEGATIVE, A]],
            &[],
        ),
        LemmaStep::Lemma(
            "add_neg_cancel_left",
            PatSort::S,
            &[&[A], &[NEGATIVE, B]],
            &[],
        ),
        LemmaStep::Subst(3, 4, 5),
    ],
};

/// where 0 < a: -a < 0
pub const NEG_LT_ZERO: LemmaRow = LemmaRow {
    row: Law {
        name: "neg_lt_zero",
        needs: &[
            Need::Class(Class::Ring),
            Need::Class(Class::IsStrictOrderedRing),
        ],
        premises: &[PatStmt {
            rel: Rel::Lt,
            sort: PatSort::S,
            nodes: &[ZERO, A],
        }],
        conclusion: PatStmt {
            rel: Rel::Lt,
            sort: PatSort::S,
            nodes: &[NEGATIVE, A, ZERO],
        },
    },
    proof: &[
        LemmaStep::Lemma("neg_lt_neg", PatSort::S, &[&[A], &[ZERO]], &[1]),
        LemmaStep::Refl(&[NEGATIVE, A]),
        LemmaStep::Lemma("neg_zero", PatSort::S, &[], &[]),
        LemmaStep::Subst(2, 3, 4),
    ],
};

/// where 0 < a and 0 ≤ b: -a < b
pub const NEG_LT_NONNEG: LemmaRow = LemmaRow {
    row: Law {
        name: "neg_lt_nonneg",
        needs: &[
            Need::Class(Class::Ring),
            Need::Class(Class::IsStrictOrderedRing),
        ],
        premises: &[
            PatStmt {
                rel: Rel::Lt,
                sort: PatSort::S,
                nodes: &[ZERO, A],
            },
            PatStmt {
                rel: Rel::Le,
                sort: PatSort::S,
                nodes: &[ZERO, B],
            },
        ],
        conclusion: PatStmt {
            rel: Rel::Lt,
            sort: PatSort::S,
            nodes: &[NEGATIVE, A, B],
        },
    },
    proof: &[
        LemmaStep::Lemma("neg_lt_zero", PatSort::S, &[&[A]], &[1]),
        LemmaStep::Law(
            "lt_of_lt_of_le",
            PatSort::S,
            &[&[NEGATIVE, A], &[ZERO], &[B]],
            &[3, 2],
        ),
    ],
};

/// where 0 < a and 0 ≤ b: -a ≤ b
pub const NEG_LE_NONNEG: LemmaRow = LemmaRow {
    row: Law {
        name: "neg_le_nonneg",
        needs: &[
            Need::Class(Class::Ring),
            Need::Class(Class::IsStrictOrderedRing),
        ],
        premises: &[
            PatStmt {
                rel: Rel::Lt,
                sort: PatSort::S,
                nodes: &[ZERO, A],
            },
            PatStmt {
                rel: Rel::Le,
                sort: PatSort::S,
                nodes: &[ZERO, B],
            },
        ],
        conclusion: PatStmt {
            rel: Rel::Le,
            sort: PatSort::S,
            nodes: &[NEGATIVE, A, B],
        },
    },
    proof: &[
        LemmaStep::Lemma("neg_lt_nonneg", PatSort::S, &[&[A], &[B]], &[1, 2]),
        LemmaStep::Law("le_of_lt", PatSort::S, &[&[NEGATIVE, A], &[B]], &[3]),
    ],
};

/// where 0 ≤ a: abs (-a) = a
pub const ABS_NEG_LIT: LemmaRow = LemmaRow {
    row: Law {
        name: "abs_neg_lit",
        needs: &[
            Need::Class(Class::Ring),
            Need::Class(Class::IsStrictOrderedRing),
        ],
        premises: &[PatStmt {
            rel: Rel::Le,
            sort: PatSort::S,
            nodes: &[ZERO, A],
        }],
        conclusion: PatStmt {
            rel: Rel::Eq,
            sort: PatSort::S,
            nodes: &[ABSOLUTE, NEGATIVE, A, A],
        },
    },
    proof: &[
        LemmaStep::Lemma("neg_le_neg", PatSort::S, &[&[A], &[ZERO]], &[1]),
        LemmaStep::Refl(&[NEGATIVE, A]),
        LemmaStep::Lemma("neg_zero", PatSort::S, &[], &[]),
        LemmaStep::Subst(2, 3, 4),
        LemmaStep::Law("abs_of_nonpos", PatSort::S, &[&[NEGATIVE, A]], &[5]),
        LemmaStep::Lemma("neg_neg", PatSort::S, &[&[A]], &[]),
        LemmaStep::Trans(6, 7),
    ],
};

/// where 0 < a and 0 < b: 0 < a / b
pub const DIV_POS: LemmaRow = LemmaRow {
    row: Law {
        name: "div_pos",
        needs: &[
            Need::Class(Class::Field),
            Need::Class(Class::IsStrictOrderedRing),
        ],
        premises: &[
            PatStmt {
                rel: Rel::Lt,
                sort: PatSort::S,
                nodes: &[ZERO, A],
            },
            PatStmt {
                rel: Rel::Lt,
                sort: PatSort::S,
                nodes: &[ZERO, B],
            },
        ],
        conclusion: PatStmt {
            rel: Rel::Lt,
            sort: PatSort::S,
            nodes: &[ZERO, OVER, A, B],
        },
    },
    proof: &[
        LemmaStep::Law("inv_pos", PatSort::S, &[&[B]], &[2]),
        LemmaStep::Law("mul_pos", PatSort::S, &[&[A], &[INVERSE, B]], &[1, 3]),
        LemmaStep::Refl(&[ZERO]),
        LemmaStep::Law("div_eq_mul_inv0", PatSort::S, &[&[A], &[B]], &[]),
        LemmaStep::Symm(6),
        LemmaStep::Subst(4, 5, 7),
    ],
};

static COMPARISONS: [LemmaRow; 9] = [
    LT_OF_MUL,
    LE_OF_MUL,
    NEG_LT_NEG,
    NEG_LE_NEG,
    NEG_LT_ZERO,
    NEG_LT_NONNEG,
    NEG_LE_NONNEG,
    ABS_NEG_LIT,
    DIV_POS,
];

/// The order of products and negations.
pub fn comparison_lemmas() -> &'static [LemmaRow]
    ensures rows { map lemma_row_of result.now ≡ comparison_lemmas }
    ensures proved { all_may_join through_inequation_lemmas result.now ≡ true }
{
    &COMPARISONS
}
