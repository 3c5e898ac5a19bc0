ghost use Rattle.std.specs.Prelude.{◌≡◌, map, true};
ghost use Rattle.alg_proof.specs.LemmaRows.{lemma_row_of};
ghost use Rattle.alg_lemma.specs.Proving.{all_may_join};
ghost use Rattle.alg_lemma.specs.NodeSumLemmas.{through_node_sum_lemmas};
ghost use Rattle.alg_lemma.specs.NodePairLemmas.{node_pair_lemmas};

use alg_law::law_words::{A, B, C, D, M, N, PLUS, POWER, TIMES, ZERO};
use alg_law::{Class, Law, Need, PatSort, PatStmt};
use alg_proof::{LemmaRow, LemmaStep};
use alg_terms::{Rel, Sym};

/// where a + b = c: a + d + (b + 0) = c + d
pub const ADD_PAIR_RIGHT: LemmaRow = LemmaRow {
    row: Law {
        name: "add_pair_right",
        needs: &[Need::Class(Class::AddCommMonoid)],
        premises: &[PatStmt {
            rel: Rel::Eq,
            sort: PatSort::S,
            nodes: &[PLUS, A, B, C],
        }],
        conclusion: PatStmt {
            rel: Rel::Eq,
            sort: PatSort::S,
            nodes: &[PLUS, PLUS, A, D, PLUS, B, ZERO, PLUS, C, D],
        },
    },
    proof: &[
        LemmaStep::Law("add_zero", PatSort::S, &[&[B]], &[]),
        LemmaStep::Lemma("add_right_comm", PatSort::S, &[&[A], &[D], &[B]], &[]),
        LemmaStep::Refl(&[PLUS, A, D]),
        LemmaStep::Cong(Sym::Add, &[4, 2]),
        LemmaStep::Trans(5, 3),
        LemmaStep::Refl(&[D]),
        LemmaStep::Cong(Sym::Add, &[1, 7]),
        LemmaStep::Trans(6, 8),
    ],
};

/// where a + b = 0: a + c + (b + d) = c + d
pub const ADD_PAIR_DROP: LemmaRow = LemmaRow {
    row: Law {
        name: "add_pair_drop",
        needs: &[Need::Class(Class::AddCommMonoid)],
        premises: &[PatStmt {
            rel: Rel::Eq,
            sort: PatSort::S,
            nodes: &[PLUS, A, B, ZERO],
        }],
        conclusion: PatStmt {
            rel: Rel::Eq,
            sort: PatSort::S,
            nodes: &[PLUS, PLUS, A, C, PLUS, B, D, PLUS, C, D],
        },
    },
    proof: &[
        LemmaStep::Lemma(
            "add_add_add_comm",
            PatSort::S,
            &[&[A], &[C], &[B], &[D]],
            &[],
        ),
        LemmaStep::Law("zero_add", PatSort::S, &[&[PLUS, C, D]], &[]),
        LemmaStep::Refl(&[PLUS, C, D]),
        LemmaStep::Cong(Sym::Add, &[1, 4]),
        LemmaStep::Trans(2, 5),
        LemmaStep::Trans(6, 3),
    ],
};

/// where a + b = c: a + (b + d) = c + d
pub const ADD_FRONT: LemmaRow = LemmaRow {
    row: Law {
        name: "add_front",
        needs: &[Need::Class(Class::AddMonoid)],
        premises: &[PatStmt {
            rel: Rel::Eq,
            sort: PatSort::S,
            nodes: &[PLUS, A, B, C],
        }],
        conclusion: PatStmt {
            rel: Rel::Eq,
            sort: PatSort::S,
            nodes: &[PLUS, A, PLUS, B, D, PLUS, C, D],
        },
    },
    proof: &[
        LemmaStep::Law("add_assoc", PatSort::S, &[&[A], &[B], &[D]], &[]),
        LemmaStep::Symm(2),
        LemmaStep::Refl(&[D]),
        LemmaStep::Cong(Sym::Add, &[1, 4]),
        LemmaStep::Trans(3, 5),
    ],
};

/// where a + b = 0: a + (b + d) = d
pub const ADD_FRONT_DROP: LemmaRow = LemmaRow {
    row: Law {
        name: "add_front_drop",
        needs: &[Need::Class(Class::AddMonoid)],
        premises: &[PatStmt {
            rel: Rel::Eq,
            sort: PatSort::S,
            nodes: &[PLUS, A, B, ZERO],
        }],
        conclusion: PatStmt {
            rel: Rel::Eq,
            sort: PatSort::S,
            nodes: &[PLUS, A, PLUS, B, D, D],
        },
    },
    proof: &[
        LemmaStep::Law("add_assoc", PatSort::S, &[&[A], &[B], &[D]], &[]),
        LemmaStep::Symm(2),
        LemmaStep::Law("zero_add", PatSort::S, &[&[D]], &[]),
        LemmaStep::Refl(&[D]),
        LemmaStep::Cong(Sym::Add, &[1, 5]),
        LemmaStep::Trans(3, 6),
        LemmaStep::Trans(7, 4),
    ],
};

/// where b ^ m * b ^ n = c: a * c = (a * b ^ m + 0) * b ^ n
pub const NODE_SPLIT: LemmaRow = LemmaRow {
    row: Law {
        name: "node_split",
        needs: &[Need::Class(Class::Semiring)],
        premises: &[PatStmt {
            rel: Rel::Eq,
            sort: PatSort::S,
            nodes: &[TIMES, POWER, B, M, POWER, B, N, C],
        }],
        conclusion: PatStmt {
            rel: Rel::Eq,
            sort: PatSort::S,
            nodes: &[
                TIMES, A, C, TIMES, PLUS, TIMES, A, POWER, B, M, ZERO, POWER, B, N,
            ],
        },
    },
    proof: &[
        LemmaStep::Law("add_zero", PatSort::S, &[&[TIMES, A, POWER, B, M]], &[]),
        LemmaStep::Law(
            "mul_assoc",
            PatSort::S,
            &[&[A], &[POWER, B, M], &[POWER, B, N]],
            &[],
        ),
        LemmaStep::Refl(&[POWER, B, N]),
        LemmaStep::Cong(Sym::Mul, &[2, 4]),
        LemmaStep::Trans(5, 3),
        LemmaStep::Refl(&[A]),
        LemmaStep::Cong(Sym::Mul, &[7, 1]),
        LemmaStep::Trans(6, 8),
        LemmaStep::Symm(9),
    ],
};

/// where b ^ m * b ^ n = c: (a * b ^ m + 0) * b ^ n = a * c
pub const NODE_JOIN: LemmaRow = LemmaRow {
    row: Law {
        name: "node_join",
        needs: &[Need::Class(Class::Semiring)],
        premises: &[PatStmt {
            rel: Rel::Eq,
            sort: PatSort::S,
            nodes: &[TIMES, POWER, B, M, POWER, B, N, C],
        }],
        conclusion: PatStmt {
            rel: Rel::Eq,
            sort: PatSort::S,
            nodes: &[
                TIMES, PLUS, TIMES, A, POWER, B, M, ZERO, POWER, B, N, TIMES, A, C,
            ],
        },
    },
    proof: &[
        LemmaStep::Lemma(
            "node_split",
            PatSort::S,
            &[&[A], &[B], &[C], &[M], &[N]],
            &[1],
        ),
        LemmaStep::Symm(2),
    ],
};

static NODE_PAIRS: [LemmaRow; 6] = [
    ADD_PAIR_RIGHT,
    ADD_PAIR_DROP,
    ADD_FRONT,
    ADD_FRONT_DROP,
    NODE_SPLIT,
    NODE_JOIN,
];

/// Sums of two products by powers with their rests.
pub fn node_pair_lemmas() -> &'static [LemmaRow]
    ensures rows { map lemma_row_of result.now ≡ node_pair_lemmas }
    ensures proved { all_may_join through_node_sum_lemmas result.now ≡ true }
{
    &NODE_PAIRS
}
