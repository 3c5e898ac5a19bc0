ghost use Rattle.std.specs.Prelude.{◌≡◌, map, true};
ghost use Rattle.alg_proof.specs.LemmaRows.{lemma_row_of};
ghost use Rattle.alg_lemma.specs.Proving.{all_may_join};
ghost use Rattle.alg_lemma.specs.ComparisonLemmas.{through_comparison_lemmas};
ghost use Rattle.alg_lemma.specs.NodeSumLemmas.{node_sum_lemmas};

use alg_law::law_words::{A, B, C, D, PLUS, TIMES, ZERO};
use alg_law::{Class, Law, Need, PatSort, PatStmt};
use alg_proof::{LemmaRow, LemmaStep};
use alg_terms::{Rel, Sym};

/// where b + c = d: a + b + c = a + d
pub const ADD_TAIL: LemmaRow = LemmaRow {
    row: Law {
        name: "add_tail",
        needs: &[Need::Class(Class::AddMonoid)],
        premises: &[PatStmt {
            rel: Rel::Eq,
            sort: PatSort::S,
            nodes: &[PLUS, B, C, D],
        }],
        conclusion: PatStmt {
            rel: Rel::Eq,
            sort: PatSort::S,
            nodes: &[PLUS, PLUS, A, B, C, PLUS, A, D],
        },
    },
    proof: &[
        LemmaStep::Law("add_assoc", PatSort::S, &[&[A], &[B], &[C]], &[]),
        LemmaStep::Refl(&[A]),
        LemmaStep::Cong(Sym::Add, &[3, 1]),
        LemmaStep::Trans(2, 4),
    ],
};

/// a + 0 + b = a + b
pub const ADD_TAIL_ZERO: LemmaRow = LemmaRow {
    row: Law {
        name: "add_tail_zero",
        needs: &[Need::Class(Class::AddMonoid)],
        premises: &[],
        conclusion: PatStmt {
            rel: Rel::Eq,
            sort: PatSort::S,
            nodes: &[PLUS, PLUS, A, ZERO, B, PLUS, A, B],
        },
    },
    proof: &[
        LemmaStep::Law("add_zero", PatSort::S, &[&[A]], &[]),
        LemmaStep::Refl(&[B]),
        LemmaStep::Cong(Sym::Add, &[1, 2]),
    ],
};

/// where b + c = d: b + (a + c) = a + d
pub const ADD_HEAD: LemmaRow = LemmaRow {
    row: Law {
        name: "add_head",
        needs: &[Need::Class(Class::AddCommMonoid)],
        premises: &[PatStmt {
            rel: Rel::Eq,
            sort: PatSort::S,
            nodes: &[PLUS, B, C, D],
        }],
        conclusion: PatStmt {
            rel: Rel::Eq,
            sort: PatSort::S,
            nodes: &[PLUS, B, PLUS, A, C, PLUS, A, D],
        },
    },
    proof: &[
        LemmaStep::Lemma("add_left_comm", PatSort::S, &[&[B], &[A], &[C]], &[]),
        LemmaStep::Refl(&[A]),
        LemmaStep::Cong(Sym::Add, &[3, 1]),
        LemmaStep::Trans(2, 4),
    ],
};

/// b + (a + 0) = a + b
pub const ADD_HEAD_ZERO: LemmaRow = LemmaRow {
    row: Law {
        name: "add_head_zero",
        needs: &[Need::Class(Class::AddCommMonoid)],
        premises: &[],
        conclusion: PatStmt {
            rel: Rel::Eq,
            sort: PatSort::S,
            nodes: &[PLUS, B, PLUS, A, ZERO, PLUS, A, B],
        },
    },
    proof: &[
        LemmaStep::Law("add_zero", PatSort::S, &[&[A]], &[]),
        LemmaStep::Law("add_comm", PatSort::S, &[&[B], &[A]], &[]),
        LemmaStep::Refl(&[B]),
        LemmaStep::Cong(Sym::Add, &[3, 1]),
        LemmaStep::Trans(4, 2),
    ],
};

/// where a + b = c: a * d + b * d = c * d
pub const ADD_MUL_RIGHT: LemmaRow = LemmaRow {
    row: Law {
        name: "add_mul_right",
        needs: &[Need::Class(Class::Semiring)],
        premises: &[PatStmt {
            rel: Rel::Eq,
            sort: PatSort::S,
            nodes: &[PLUS, A, B, C],
        }],
        conclusion: PatStmt {
            rel: Rel::Eq,
            sort: PatSort::S,
            nodes: &[PLUS, TIMES, A, D, TIMES, B, D, TIMES, C, D],
        },
    },
    proof: &[
        LemmaStep::Law("right_distrib", PatSort::S, &[&[A], &[B], &[D]], &[]),
        LemmaStep::Symm(2),
        LemmaStep::Refl(&[D]),
        LemmaStep::Cong(Sym::Mul, &[1, 4]),
        LemmaStep::Trans(3, 5),
    ],
};

/// where a + b = 0: a * d + b * d = 0
pub const ADD_MUL_RIGHT_ZERO: LemmaRow = LemmaRow {
    row: Law {
        name: "add_mul_right_zero",
        needs: &[Need::Class(Class::Semiring)],
        premises: &[PatStmt {
            rel: Rel::Eq,
            sort: PatSort::S,
            nodes: &[PLUS, A, B, ZERO],
        }],
        conclusion: PatStmt {
            rel: Rel::Eq,
            sort: PatSort::S,
            nodes: &[PLUS, TIMES, A, D, TIMES, B, D, ZERO],
        },
    },
    proof: &[
        LemmaStep::Law("right_distrib", PatSort::S, &[&[A], &[B], &[D]], &[]),
        LemmaStep::Symm(2),
        LemmaStep::Refl(&[D]),
        LemmaStep::Cong(Sym::Mul, &[1, 4]),
        LemmaStep::Law("zero_mul", PatSort::S, &[&[D]], &[]),
        LemmaStep::Trans(3, 5),
        LemmaStep::Trans(7, 6),
    ],
};

/// where a + b = c: a + 0 + (b + d) = c + d
pub const ADD_PAIR_LEFT: LemmaRow = LemmaRow {
    row: Law {
        name: "add_pair_left",
        needs: &[Need::Class(Class::AddCommMonoid)],
        premises: &[PatStmt {
            rel: Rel::Eq,
            sort: PatSort::S,
            nodes: &[PLUS, A, B, C],
        }],
        conclusion: PatStmt {
            rel: Rel::Eq,
            sort: PatSort::S,
            nodes: &[PLUS, PLUS, A, ZERO, PLUS, B, D, PLUS, C, D],
        },
    },
    proof: &[
        LemmaStep::Law("add_zero", PatSort::S, &[&[A]], &[]),
        LemmaStep::Law("add_assoc", PatSort::S, &[&[A], &[B], &[D]], &[]),
        LemmaStep::Symm(3),
        LemmaStep::Refl(&[PLUS, B, D]),
        LemmaStep::Cong(Sym::Add, &[2, 5]),
        LemmaStep::Trans(6, 4),
        LemmaStep::Refl(&[D]),
        LemmaStep::Cong(Sym::Add, &[1, 8]),
        LemmaStep::Trans(7, 9),
    ],
};

static NODE_SUMS: [LemmaRow; 7] = [
    ADD_TAIL,
    ADD_TAIL_ZERO,
    ADD_HEAD,
    ADD_HEAD_ZERO,
    ADD_MUL_RIGHT,
    ADD_MUL_RIGHT_ZERO,
    ADD_PAIR_LEFT,
];

/// Sums in which one side is a product by a power and a rest.
pub fn node_sum_lemmas() -> &'static [LemmaRow]
    ensures rows { map lemma_row_of result.now ≡ node_sum_lemmas }
    ensures proved { all_may_join through_comparison_lemmas result.now ≡ true }
{
    &NODE_SUMS
}
