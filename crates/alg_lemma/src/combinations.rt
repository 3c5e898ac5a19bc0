ghost use Rattle.std.specs.Prelude.{◌≡◌, map, true};
ghost use Rattle.alg_proof.specs.LemmaRows.{lemma_row_of};
ghost use Rattle.alg_lemma.specs.Proving.{all_may_join};
ghost use Rattle.alg_lemma.specs.WrittenTermLemmas.{through_written_term_lemmas};
ghost use Rattle.alg_lemma.specs.CombinationLemmas.{combination_lemmas};

use alg_law::law_words::{A, B, C, D, M, MINUS, N, NEGATIVE, ONE, PLUS, POWER, TIMES, ZERO};
use alg_law::{Class, Law, Need, PatSort, PatStmt};
use alg_proof::{LemmaRow, LemmaStep};
use alg_terms::{Rel, Sym};

/// where a - b = 0: a = b
pub const EQ_OF_SUB: LemmaRow = LemmaRow {
    row: Law {
        name: "eq_of_sub",
        needs: &[Need::Class(Class::AddGroup)],
        premises: &[PatStmt {
            rel: Rel::Eq,
            sort: PatSort::S,
            nodes: &[MINUS, A, B, ZERO],
        }],
        conclusion: PatStmt {
            rel: Rel::Eq,
            sort: PatSort::S,
            nodes: &[A, B],
        },
    },
    proof: &[
        LemmaStep::Law("zero_add", PatSort::S, &[&[B]], &[]),
        LemmaStep::Symm(2),
        LemmaStep::Symm(1),
        LemmaStep::Law("sub_eq_add_neg", PatSort::S, &[&[A], &[B]], &[]),
        LemmaStep::Law("add_assoc", PatSort::S, &[&[A], &[NEGATIVE, B], &[B]], &[]),
        LemmaStep::Law("neg_add_cancel", PatSort::S, &[&[B]], &[]),
        LemmaStep::Law("add_zero", PatSort::S, &[&[A]], &[]),
        LemmaStep::Refl(&[B]),
        LemmaStep::Cong(Sym::Add, &[4, 9]),
        LemmaStep::Cong(Sym::Add, &[5, 9]),
        LemmaStep::Trans(10, 11),
        LemmaStep::Trans(12, 6),
        LemmaStep::Refl(&[A]),
        LemmaStep::Cong(Sym::Add, &[14, 7]),
        LemmaStep::Trans(13, 15),
        LemmaStep::Trans(16, 8),
        LemmaStep::Trans(3, 17),
        LemmaStep::Symm(18),
    ],
};

/// where a = b: a - b = 0
pub const SUB_SELF_OF: LemmaRow = LemmaRow {
    row: Law {
        name: "sub_self_of",
        needs: &[Need::Class(Class::AddGroup)],
        premises: &[PatStmt {
            rel: Rel::Eq,
            sort: PatSort::S,
            nodes: &[A, B],
        }],
        conclusion: PatStmt {
            rel: Rel::Eq,
            sort: PatSort::S,
            nodes: &[MINUS, A, B, ZERO],
        },
    },
    proof: &[
        LemmaStep::Law("sub_eq_add_neg", PatSort::S, &[&[B], &[B]], &[]),
        LemmaStep::Lemma("add_neg_cancel", PatSort::S, &[&[B]], &[]),
        LemmaStep::Refl(&[B]),
        LemmaStep::Cong(Sym::Sub, &[1, 4]),
        LemmaStep::Trans(5, 2),
        LemmaStep::Trans(6, 3),
    ],
};

/// where c = d and a - b - (c - d) = 0: a = b
pub const EQ_OF_COMBO: LemmaRow = LemmaRow {
    row: Law {
        name: "eq_of_combo",
        needs: &[Need::Class(Class::AddGroup)],
        premises: &[
            PatStmt {
                rel: Rel::Eq,
                sort: PatSort::S,
                nodes: &[C, D],
            },
            PatStmt {
                rel: Rel::Eq,
                sort: PatSort::S,
                nodes: &[MINUS, MINUS, A, B, MINUS, C, D, ZERO],
            },
        ],
        conclusion: PatStmt {
            rel: Rel::Eq,
            sort: PatSort::S,
            nodes: &[A, B],
        },
    },
    proof: &[
        LemmaStep::Lemma("sub_self_of", PatSort::S, &[&[C], &[D]], &[1]),
        LemmaStep::Law(
            "sub_eq_add_neg",
            PatSort::S,
            &[&[MINUS, A, B], &[ZERO]],
            &[],
        ),
        LemmaStep::Lemma("neg_zero", PatSort::S, &[], &[]),
        LemmaStep::Law("add_zero", PatSort::S, &[&[MINUS, A, B]], &[]),
        LemmaStep::Refl(&[MINUS, A, B]),
        LemmaStep::Cong(Sym::Sub, &[7, 3]),
        LemmaStep::Trans(8, 4),
        LemmaStep::Cong(Sym::Add, &[7, 5]),
        LemmaStep::Trans(9, 10),
        LemmaStep::Trans(11, 6),
        LemmaStep::Symm(12),
        LemmaStep::Trans(13, 2),
        LemmaStep::Lemma("eq_of_sub", PatSort::S, &[&[A], &[B]], &[14]),
    ],
};

/// where a + b = c: a * d + 0 + (b * d + 0) = c * d + 0
pub const ADD_NODES: LemmaRow = LemmaRow {
    row: Law {
        name: "add_nodes",
        needs: &[Need::Class(Class::Semiring)],
        premises: &[PatStmt {
            rel: Rel::Eq,
            sort: PatSort::S,
            nodes: &[PLUS, A, B, C],
        }],
        conclusion: PatStmt {
            rel: Rel::Eq,
            sort: PatSort::S,
            nodes: &[
                PLUS, PLUS, TIMES, A, D, ZERO, PLUS, TIMES, B, D, ZERO, PLUS, TIMES, C, D, ZERO,
            ],
        },
    },
    proof: &[
        LemmaStep::Law("add_zero", PatSort::S, &[&[TIMES, A, D]], &[]),
        LemmaStep::Law("add_zero", PatSort::S, &[&[TIMES, B, D]], &[]),
        LemmaStep::Lemma("add_mul_right", PatSort::S, &[&[A], &[B], &[C], &[D]], &[1]),
        LemmaStep::Law("add_zero", PatSort::S, &[&[TIMES, C, D]], &[]),
        LemmaStep::Symm(5),
        LemmaStep::Refl(&[PLUS, TIMES, B, D, ZERO]),
        LemmaStep::Cong(Sym::Add, &[2, 7]),
        LemmaStep::Refl(&[TIMES, A, D]),
        LemmaStep::Cong(Sym::Add, &[9, 3]),
        LemmaStep::Trans(8, 10),
        LemmaStep::Trans(11, 4),
        LemmaStep::Trans(12, 6),
    ],
};

/// where a + b = 0: a * d + 0 + (b * d + 0) = 0
pub const ADD_NODES_ZERO: LemmaRow = LemmaRow {
    row: Law {
        name: "add_nodes_zero",
        needs: &[Need::Class(Class::Semiring)],
        premises: &[PatStmt {
            rel: Rel::Eq,
            sort: PatSort::S,
            nodes: &[PLUS, A, B, ZERO],
        }],
        conclusion: PatStmt {
            rel: Rel::Eq,
            sort: PatSort::S,
            nodes: &[PLUS, PLUS, TIMES, A, D, ZERO, PLUS, TIMES, B, D, ZERO, ZERO],
        },
    },
    proof: &[
        LemmaStep::Law("add_zero", PatSort::S, &[&[TIMES, A, D]], &[]),
        LemmaStep::Law("add_zero", PatSort::S, &[&[TIMES, B, D]], &[]),
        LemmaStep::Lemma("add_mul_right_zero", PatSort::S, &[&[A], &[B], &[D]], &[1]),
        LemmaStep::Refl(&[PLUS, TIMES, B, D, ZERO]),
        LemmaStep::Cong(Sym::Add, &[2, 5]),
        LemmaStep::Refl(&[TIMES, A, D]),
        LemmaStep::Cong(Sym::Add, &[7, 3]),
        LemmaStep::Trans(6, 8),
        LemmaStep::Trans(9, 4),
    ],
};

/// a * (1 * b + 0) = a * b + 0
pub const MUL_UNIT: LemmaRow = LemmaRow {
    row: Law {
        name: "mul_unit",
        needs: &[Need::Class(Class::Semiring)],
        premises: &[],
        conclusion: PatStmt {
            rel: Rel::Eq,
            sort: PatSort::S,
            nodes: &[TIMES, A, PLUS, TIMES, ONE, B, ZERO, PLUS, TIMES, A, B, ZERO],
        },
    },
    proof: &[
        LemmaStep::Law("mul_one", PatSort::S, &[&[A]], &[]),
        LemmaStep::Lemma(
            "mul_same_zero",
            PatSort::S,
            &[&[A], &[ONE], &[A], &[B]],
            &[1],
        ),
    ],
};

/// where b ^ m * b ^ n = c: (a * b ^ m + 0) * (1 * b ^ n + 0) = a * c + 0
pub const MUL_UNIT_JOIN: LemmaRow = LemmaRow {
    row: Law {
        name: "mul_unit_join",
        needs: &[Need::Class(Class::Semiring)],
        premises: &[PatStmt {
            rel: Rel::Eq,
            sort: PatSort::S,
            nodes: &[TIMES, POWER, B, M, POWER, B, N, C],
        }],
        conclusion: PatStmt {
            rel: Rel::Eq,
            sort: PatSort::S,
            nodes: &[
                TIMES, PLUS, TIMES, A, POWER, B, M, ZERO, PLUS, TIMES, ONE, POWER, B, N, ZERO,
                PLUS, TIMES, A, C, ZERO,
            ],
        },
    },
    proof: &[
        LemmaStep::Lemma(
            "mul_unit",
            PatSort::S,
            &[&[PLUS, TIMES, A, POWER, B, M, ZERO], &[POWER, B, N]],
            &[],
        ),
        LemmaStep::Lemma(
            "node_join",
            PatSort::S,
            &[&[A], &[B], &[C], &[M], &[N]],
            &[1],
        ),
        LemmaStep::Refl(&[ZERO]),
        LemmaStep::Cong(Sym::Add, &[3, 4]),
        LemmaStep::Trans(2, 5),
    ],
};

/// a * b + a * c = a * (b + c)
pub const DISTRIB_BACK: LemmaRow = LemmaRow {
    row: Law {
        name: "distrib_back",
        needs: &[Need::Class(Class::Semiring)],
        premises: &[],
        conclusion: PatStmt {
            rel: Rel::Eq,
            sort: PatSort::S,
            nodes: &[PLUS, TIMES, A, B, TIMES, A, C, TIMES, A, PLUS, B, C],
        },
    },
    proof: &[
        LemmaStep::Law("left_distrib", PatSort::S, &[&[A], &[B], &[C]], &[]),
        LemmaStep::Symm(1),
    ],
};

static COMBINATIONS: [LemmaRow; 8] = [
    EQ_OF_SUB,
    SUB_SELF_OF,
    EQ_OF_COMBO,
    ADD_NODES,
    ADD_NODES_ZERO,
    MUL_UNIT,
    MUL_UNIT_JOIN,
    DISTRIB_BACK,
];

/// Equations from differences that are 0, and short cuts for sums of products.
pub fn combination_lemmas() -> &'static [LemmaRow]
    ensures rows { map lemma_row_of result.now ≡ combination_lemmas }
    ensures proved { all_may_join through_written_term_lemmas result.now ≡ true }
{
    &COMBINATIONS
}
