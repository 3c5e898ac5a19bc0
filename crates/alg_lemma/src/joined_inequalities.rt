ghost use Rattle.std.specs.Prelude.{◌≡◌, map, true};
ghost use Rattle.alg_proof.specs.LemmaRows.{lemma_row_of};
ghost use Rattle.alg_lemma.specs.Proving.{all_may_join};
ghost use Rattle.alg_lemma.specs.CommutingLemmas.{through_commuting_lemmas};
ghost use Rattle.alg_lemma.specs.JoinedInequalityLemmas.{joined_inequality_lemmas};

use alg_law::law_words::{A, B, C, D, INVERSE, MINUS, NEGATIVE, OVER, PLUS, TIMES, ZERO};
use alg_law::{Class, Law, Need, PatSort, PatStmt};
use alg_proof::{LemmaRow, LemmaStep};
use alg_terms::{Rel, Sym};

/// where a = b: a ≤ b
pub const LE_OF_EQ: LemmaRow = LemmaRow {
    row: Law {
        name: "le_of_eq",
        needs: &[Need::Class(Class::LinearOrder)],
        premises: &[PatStmt {
            rel: Rel::Eq,
            sort: PatSort::S,
            nodes: &[A, B],
        }],
        conclusion: PatStmt {
            rel: Rel::Le,
            sort: PatSort::S,
            nodes: &[A, B],
        },
    },
    proof: &[
        LemmaStep::Law("le_refl", PatSort::S, &[&[A]], &[]),
        LemmaStep::Refl(&[A]),
        LemmaStep::Subst(2, 3, 1),
    ],
};

/// where a ≤ b and c < d: a + c < b + d
pub const ADD_LE_ADD_LT: LemmaRow = LemmaRow {
    row: Law {
        name: "add_le_add_lt",
        needs: &[Need::Class(Class::IsStrictOrderedRing)],
        premises: &[
            PatStmt {
                rel: Rel::Le,
                sort: PatSort::S,
                nodes: &[A, B],
            },
            PatStmt {
                rel: Rel::Lt,
                sort: PatSort::S,
                nodes: &[C, D],
            },
        ],
        conclusion: PatStmt {
            rel: Rel::Lt,
            sort: PatSort::S,
            nodes: &[PLUS, A, C, PLUS, B, D],
        },
    },
    proof: &[
        LemmaStep::Law(
            "add_lt_add_le",
            PatSort::S,
            &[&[C], &[D], &[A], &[B]],
            &[2, 1],
        ),
        LemmaStep::Law("add_comm", PatSort::S, &[&[C], &[A]], &[]),
        LemmaStep::Law("add_comm", PatSort::S, &[&[D], &[B]], &[]),
        LemmaStep::Subst(3, 4, 5),
    ],
};

/// where a ≤ b and c = d: a + c ≤ b + d
pub const ADD_LE_EQ: LemmaRow = LemmaRow {
    row: Law {
        name: "add_le_eq",
        needs: &[Need::Class(Class::IsStrictOrderedRing)],
        premises: &[
            PatStmt {
                rel: Rel::Le,
                sort: PatSort::S,
                nodes: &[A, B],
            },
            PatStmt {
                rel: Rel::Eq,
                sort: PatSort::S,
                nodes: &[C, D],
            },
        ],
        conclusion: PatStmt {
            rel: Rel::Le,
            sort: PatSort::S,
            nodes: &[PLUS, A, C, PLUS, B, D],
        },
    },
    proof: &[
        LemmaStep::Lemma("le_of_eq", PatSort::S, &[&[C], &[D]], &[2]),
        LemmaStep::Law("add_le_add", PatSort::S, &[&[A], &[B], &[C], &[D]], &[1, 3]),
    ],
};

/// where a = b and c ≤ d: a + c ≤ b + d
pub const ADD_EQ_LE: LemmaRow = LemmaRow {
    row: Law {
        name: "add_eq_le",
        needs: &[Need::Class(Class::IsStrictOrderedRing)],
        premises: &[
            PatStmt {
                rel: Rel::Eq,
                sort: PatSort::S,
                nodes: &[A, B],
            },
            PatStmt {
                rel: Rel::Le,
                sort: PatSort::S,
                nodes: &[C, D],
            },
        ],
        conclusion: PatStmt {
            rel: Rel::Le,
            sort: PatSort::S,
            nodes: &[PLUS, A, C, PLUS, B, D],
        },
    },
    proof: &[
        LemmaStep::Lemma("le_of_eq", PatSort::S, &[&[A], &[B]], &[1]),
        LemmaStep::Law("add_le_add", PatSort::S, &[&[A], &[B], &[C], &[D]], &[3, 2]),
    ],
};

/// where a < b and c = d: a + c < b + d
pub const ADD_LT_EQ: LemmaRow = LemmaRow {
    row: Law {
        name: "add_lt_eq",
        needs: &[Need::Class(Class::IsStrictOrderedRing)],
        premises: &[
            PatStmt {
                rel: Rel::Lt,
                sort: PatSort::S,
                nodes: &[A, B],
            },
            PatStmt {
                rel: Rel::Eq,
                sort: PatSort::S,
                nodes: &[C, D],
            },
        ],
        conclusion: PatStmt {
            rel: Rel::Lt,
            sort: PatSort::S,
            nodes: &[PLUS, A, C, PLUS, B, D],
        },
    },
    proof: &[
        LemmaStep::Lemma("le_of_eq", PatSort::S, &[&[C], &[D]], &[2]),
        LemmaStep::Law(
            "add_lt_add_le",
            PatSort::S,
            &[&[A], &[B], &[C], &[D]],
            &[1, 3],
        ),
    ],
};

/// where a = b and c < d: a + c < b + d
pub const ADD_EQ_LT: LemmaRow = LemmaRow {
    row: Law {
        name: "add_eq_lt",
        needs: &[Need::Class(Class::IsStrictOrderedRing)],
        premises: &[
            PatStmt {
                rel: Rel::Eq,
                sort: PatSort::S,
                nodes: &[A, B],
            },
            PatStmt {
                rel: Rel::Lt,
                sort: PatSort::S,
                nodes: &[C, D],
            },
        ],
        conclusion: PatStmt {
            rel: Rel::Lt,
            sort: PatSort::S,
            nodes: &[PLUS, A, C, PLUS, B, D],
        },
    },
    proof: &[
        LemmaStep::Lemma("le_of_eq", PatSort::S, &[&[A], &[B]], &[1]),
        LemmaStep::Lemma(
            "add_le_add_lt",
            PatSort::S,
            &[&[A], &[B], &[C], &[D]],
            &[3, 2],
        ),
    ],
};

/// where a ≤ b and c = d: a - c ≤ b - d
pub const SUB_LE_EQ: LemmaRow = LemmaRow {
    row: Law {
        name: "sub_le_eq",
        needs: &[
            Need::Class(Class::Ring),
            Need::Class(Class::IsStrictOrderedRing),
        ],
        premises: &[
            PatStmt {
                rel: Rel::Le,
                sort: PatSort::S,
                nodes: &[A, B],
            },
            PatStmt {
                rel: Rel::Eq,
                sort: PatSort::S,
                nodes: &[C, D],
            },
        ],
        conclusion: PatStmt {
            rel: Rel::Le,
            sort: PatSort::S,
            nodes: &[MINUS, A, C, MINUS, B, D],
        },
    },
    proof: &[
        LemmaStep::Cong(Sym::Neg, &[2]),
        LemmaStep::Lemma(
            "add_le_eq",
            PatSort::S,
            &[&[A], &[B], &[NEGATIVE, C], &[NEGATIVE, D]],
            &[1, 3],
        ),
        LemmaStep::Law("sub_eq_add_neg", PatSort::S, &[&[A], &[C]], &[]),
        LemmaStep::Symm(5),
        LemmaStep::Law("sub_eq_add_neg", PatSort::S, &[&[B], &[D]], &[]),
        LemmaStep::Symm(7),
        LemmaStep::Subst(4, 6, 8),
    ],
};

/// where a < b and c = d: a - c < b - d
pub const SUB_LT_EQ: LemmaRow = LemmaRow {
    row: Law {
        name: "sub_lt_eq",
        needs: &[
            Need::Class(Class::Ring),
            Need::Class(Class::IsStrictOrderedRing),
        ],
        premises: &[
            PatStmt {
                rel: Rel::Lt,
                sort: PatSort::S,
                nodes: &[A, B],
            },
            PatStmt {
                rel: Rel::Eq,
                sort: PatSort::S,
                nodes: &[C, D],
            },
        ],
        conclusion: PatStmt {
            rel: Rel::Lt,
            sort: PatSort::S,
            nodes: &[MINUS, A, C, MINUS, B, D],
        },
    },
    proof: &[
        LemmaStep::Cong(Sym::Neg, &[2]),
        LemmaStep::Lemma(
            "add_lt_eq",
            PatSort::S,
            &[&[A], &[B], &[NEGATIVE, C], &[NEGATIVE, D]],
            &[1, 3],
        ),
        LemmaStep::Law("sub_eq_add_neg", PatSort::S, &[&[A], &[C]], &[]),
        LemmaStep::Symm(5),
        LemmaStep::Law("sub_eq_add_neg", PatSort::S, &[&[B], &[D]], &[]),
        LemmaStep::Symm(7),
        LemmaStep::Subst(4, 6, 8),
    ],
};

/// where a ≤ b and 0 ≤ c: c * a ≤ c * b
pub const MUL_LE_MUL_LEFT: LemmaRow = LemmaRow {
    row: Law {
        name: "mul_le_mul_left",
        needs: &[
            Need::Class(Class::CommSemiring),
            Need::Class(Class::IsStrictOrderedRing),
        ],
        premises: &[
            PatStmt {
                rel: Rel::Le,
                sort: PatSort::S,
                nodes: &[A, B],
            },
            PatStmt {
                rel: Rel::Le,
                sort: PatSort::S,
                nodes: &[ZERO, C],
            },
        ],
        conclusion: PatStmt {
            rel: Rel::Le,
            sort: PatSort::S,
            nodes: &[TIMES, C, A, TIMES, C, B],
        },
    },
    proof: &[
        LemmaStep::Law("mul_le_mul_right", PatSort::S, &[&[A], &[B], &[C]], &[1, 2]),
        LemmaStep::Law("mul_comm", PatSort::S, &[&[A], &[C]], &[]),
        LemmaStep::Law("mul_comm", PatSort::S, &[&[B], &[C]], &[]),
        LemmaStep::Subst(3, 4, 5),
    ],
};

/// where a < b and 0 < c: c * a < c * b
pub const MUL_LT_MUL_LEFT: LemmaRow = LemmaRow {
    row: Law {
        name: "mul_lt_mul_left",
        needs: &[
            Need::Class(Class::CommSemiring),
            Need::Class(Class::IsStrictOrderedRing),
        ],
        premises: &[
            PatStmt {
                rel: Rel::Lt,
                sort: PatSort::S,
                nodes: &[A, B],
            },
            PatStmt {
                rel: Rel::Lt,
                sort: PatSort::S,
                nodes: &[ZERO, C],
            },
        ],
        conclusion: PatStmt {
            rel: Rel::Lt,
            sort: PatSort::S,
            nodes: &[TIMES, C, A, TIMES, C, B],
        },
    },
    proof: &[
        LemmaStep::Law("mul_lt_mul_right", PatSort::S, &[&[A], &[B], &[C]], &[1, 2]),
        LemmaStep::Law("mul_comm", PatSort::S, &[&[A], &[C]], &[]),
        LemmaStep::Law("mul_comm", PatSort::S, &[&[B], &[C]], &[]),
        LemmaStep::Subst(3, 4, 5),
    ],
};

/// where a ≤ b and 0 ≤ c: a / c ≤ b / c
pub const DIV_LE_DIV_RIGHT: LemmaRow = LemmaRow {
    row: Law {
        name: "div_le_div_right",
        needs: &[
            Need::Class(Class::Field),
            Need::Class(Class::IsStrictOrderedRing),
        ],
        premises: &[
            PatStmt {
                rel: Rel::Le,
                sort: PatSort::S,
                nodes: &[A, B],
            },
            PatStmt {
                rel: Rel::Le,
                sort: PatSort::S,
                nodes: &[ZERO, C],
            },
        ],
        conclusion: PatStmt {
            rel: Rel::Le,
            sort: PatSort::S,
            nodes: &[OVER, A, C, OVER, B, C],
        },
    },
    proof: &[
        LemmaStep::Law("inv_nonneg", PatSort::S, &[&[C]], &[2]),
        LemmaStep::Law(
            "mul_le_mul_right",
            PatSort::S,
            &[&[A], &[B], &[INVERSE, C]],
            &[1, 3],
        ),
        LemmaStep::Law("div_eq_mul_inv0", PatSort::S, &[&[A], &[C]], &[]),
        LemmaStep::Symm(5),
        LemmaStep::Law("div_eq_mul_inv0", PatSort::S, &[&[B], &[C]], &[]),
        LemmaStep::Symm(7),
        LemmaStep::Subst(4, 6, 8),
    ],
};

/// where a < b and 0 < c: a / c < b / c
pub const DIV_LT_DIV_RIGHT: LemmaRow = LemmaRow {
    row: Law {
        name: "div_lt_div_right",
        needs: &[
            Need::Class(Class::Field),
            Need::Class(Class::IsStrictOrderedRing),
        ],
        premises: &[
            PatStmt {
                rel: Rel::Lt,
                sort: PatSort::S,
                nodes: &[A, B],
            },
            PatStmt {
                rel: Rel::Lt,
                sort: PatSort::S,
                nodes: &[ZERO, C],
            },
        ],
        conclusion: PatStmt {
            rel: Rel::Lt,
            sort: PatSort::S,
            nodes: &[OVER, A, C, OVER, B, C],
        },
    },
    proof: &[
        LemmaStep::Law("inv_pos", PatSort::S, &[&[C]], &[2]),
        LemmaStep::Law(
            "mul_lt_mul_right",
            PatSort::S,
            &[&[A], &[B], &[INVERSE, C]],
            &[1, 3],
        ),
        LemmaStep::Law("div_eq_mul_inv0", PatSort::S, &[&[A], &[C]], &[]),
        LemmaStep::Symm(5),
        LemmaStep::Law("div_eq_mul_inv0", PatSort::S, &[&[B], &[C]], &[]),
        LemmaStep::Symm(7),
        LemmaStep::Subst(4, 6, 8),
    ],
};

static JOINED_INEQUALITIES: [LemmaRow; 12] = [
    LE_OF_EQ,
    ADD_LE_ADD_LT,
    ADD_LE_EQ,
    ADD_EQ_LE,
    ADD_LT_EQ,
    ADD_EQ_LT,
    SUB_LE_EQ,
    SUB_LT_EQ,
    MUL_LE_MUL_LEFT,
    MUL_LT_MUL_LEFT,
    DIV_LE_DIV_RIGHT,
    DIV_LT_DIV_RIGHT,
];

/// Equations and inequalities that are added, subtracted, multiplied and divided.
pub fn joined_inequality_lemmas() -> &'static [LemmaRow]
    ensures rows { map lemma_row_of result.now ≡ joined_inequality_lemmas }
    ensures proved { all_may_join through_commuting_lemmas result.now ≡ true }
{
    &JOINED_INEQUALITIES
}
