ghost use Rattle.std.specs.Prelude.{◌≡◌, map, true};
ghost use Rattle.alg_proof.specs.LemmaRows.{lemma_row_of};
ghost use Rattle.alg_lemma.specs.Proving.{all_may_join};
ghost use Rattle.alg_lemma.specs.NodeProductLemmas.{through_node_product_lemmas};
ghost use Rattle.alg_lemma.specs.MergingLemmas.{merging_lemmas};

use alg_law::law_words::{A, B, C, D, M, NATURAL_ONE, ONE, PLUS, POWER, TIMES, ZERO};
use alg_law::{Class, Law, Need, PatSort, PatStmt};
use alg_proof::{LemmaRow, LemmaStep};
use alg_terms::{Rel, Sym};

/// a * b = 0 + b * a
pub const LEAF_MONO: LemmaRow = LemmaRow {
    row: Law {
        name: "leaf_mono",
        needs: &[Need::Class(Class::CommSemiring)],
        premises: &[],
        conclusion: PatStmt {
            rel: Rel::Eq,
            sort: PatSort::S,
            nodes: &[TIMES, A, B, PLUS, ZERO, TIMES, B, A],
        },
    },
    proof: &[
        LemmaStep::Law("mul_comm", PatSort::S, &[&[A], &[B]], &[]),
        LemmaStep::Law("zero_add", PatSort::S, &[&[TIMES, B, A]], &[]),
        LemmaStep::Symm(2),
        LemmaStep::Trans(1, 3),
    ],
};

/// where b * c = d: a * b * c = a * d
pub const NODE_MONO: LemmaRow = LemmaRow {
    row: Law {
        name: "node_mono",
        needs: &[Need::Class(Class::Semigroup)],
        premises: &[PatStmt {
            rel: Rel::Eq,
            sort: PatSort::S,
            nodes: &[TIMES, B, C, D],
        }],
        conclusion: PatStmt {
            rel: Rel::Eq,
            sort: PatSort::S,
            nodes: &[TIMES, TIMES, A, B, C, TIMES, A, D],
        },
    },
    proof: &[
        LemmaStep::Law("mul_assoc", PatSort::S, &[&[A], &[B], &[C]], &[]),
        LemmaStep::Refl(&[A]),
        LemmaStep::Cong(Sym::Mul, &[3, 1]),
        LemmaStep::Trans(2, 4),
    ],
};

/// where b * c = d: (a * b + 0) * c = a * d
pub const NODE_MONO_ZERO: LemmaRow = LemmaRow {
    row: Law {
        name: "node_mono_zero",
        needs: &[Need::Class(Class::Semiring)],
        premises: &[PatStmt {
            rel: Rel::Eq,
            sort: PatSort::S,
            nodes: &[TIMES, B, C, D],
        }],
        conclusion: PatStmt {
            rel: Rel::Eq,
            sort: PatSort::S,
            nodes: &[TIMES, PLUS, TIMES, A, B, ZERO, C, TIMES, A, D],
        },
    },
    proof: &[
        LemmaStep::Law("add_zero", PatSort::S, &[&[TIMES, A, B]], &[]),
        LemmaStep::Lemma("node_mono", PatSort::S, &[&[A], &[B], &[C], &[D]], &[1]),
        LemmaStep::Refl(&[C]),
        LemmaStep::Cong(Sym::Mul, &[2, 4]),
        LemmaStep::Trans(5, 3),
    ],
};

/// where a + c = d: a + b + c = d + b
pub const MERGE_LEFT: LemmaRow = LemmaRow {
    row: Law {
        name: "merge_left",
        needs: &[Need::Class(Class::AddCommMonoid)],
        premises: &[PatStmt {
            rel: Rel::Eq,
            sort: PatSort::S,
            nodes: &[PLUS, A, C, D],
        }],
        conclusion: PatStmt {
            rel: Rel::Eq,
            sort: PatSort::S,
            nodes: &[PLUS, PLUS, A, B, C, PLUS, D, B],
        },
    },
    proof: &[
        LemmaStep::Lemma("add_right_comm", PatSort::S, &[&[A], &[B], &[C]], &[]),
        LemmaStep::Refl(&[B]),
        LemmaStep::Cong(Sym::Add, &[1, 3]),
        LemmaStep::Trans(2, 4),
    ],
};

/// where a + b = d: a + (b + c) = d + c
pub const MERGE_RIGHT: LemmaRow = LemmaRow {
    row: Law {
        name: "merge_right",
        needs: &[Need::Class(Class::AddMonoid)],
        premises: &[PatStmt {
            rel: Rel::Eq,
            sort: PatSort::S,
            nodes: &[PLUS, A, B, D],
        }],
        conclusion: PatStmt {
            rel: Rel::Eq,
            sort: PatSort::S,
            nodes: &[PLUS, A, PLUS, B, C, PLUS, D, C],
        },
    },
    proof: &[LemmaStep::Lemma("add_front", PatSort::S, &[&[A], &[B], &[D], &[C]], &[1])],
};

/// a ^ 1 * 1 = a
pub const MONO_FIRST: LemmaRow = LemmaRow {
    row: Law {
        name: "mono_first",
        needs: &[Need::Class(Class::Monoid)],
        premises: &[],
        conclusion: PatStmt {
            rel: Rel::Eq,
            sort: PatSort::S,
            nodes: &[TIMES, POWER, A, NATURAL_ONE, ONE, A],
        },
    },
    proof: &[
        LemmaStep::Law("mul_one", PatSort::S, &[&[POWER, A, NATURAL_ONE]], &[]),
        LemmaStep::Lemma("pow_one", PatSort::S, &[&[A]], &[]),
        LemmaStep::Trans(1, 2),
    ],
};

/// a ^ 1 * b = b * a
pub const MONO_NEXT: LemmaRow = LemmaRow {
    row: Law {
        name: "mono_next",
        needs: &[Need::Class(Class::CommMonoid)],
        premises: &[],
        conclusion: PatStmt {
            rel: Rel::Eq,
            sort: PatSort::S,
            nodes: &[TIMES, POWER, A, NATURAL_ONE, B, TIMES, B, A],
        },
    },
    proof: &[
        LemmaStep::Law(
            "mul_comm",
            PatSort::S,
            &[&[POWER, A, NATURAL_ONE], &[B]],
            &[],
        ),
        LemmaStep::Refl(&[B]),
        LemmaStep::Lemma("pow_one", PatSort::S, &[&[A]], &[]),
        LemmaStep::Cong(Sym::Mul, &[2, 3]),
        LemmaStep::Trans(1, 4),
    ],
};

/// where b ^ m * b ^ 1 = c: b ^ m * b = c
pub const MONO_ONE_MORE: LemmaRow = LemmaRow {
    row: Law {
        name: "mono_one_more",
        needs: &[Need::Class(Class::CommMonoid)],
        premises: &[PatStmt {
            rel: Rel::Eq,
            sort: PatSort::S,
            nodes: &[TIMES, POWER, B, M, POWER, B, NATURAL_ONE, C],
        }],
        conclusion: PatStmt {
            rel: Rel::Eq,
            sort: PatSort::S,
            nodes: &[TIMES, POWER, B, M, B, C],
        },
    },
    proof: &[
        LemmaStep::Refl(&[POWER, B, M]),
        LemmaStep::Lemma("pow_one", PatSort::S, &[&[B]], &[]),
        LemmaStep::Symm(3),
        LemmaStep::Cong(Sym::Mul, &[2, 4]),
        LemmaStep::Trans(5, 1),
    ],
};

/// where b * d = c: b * (a * d) = a * c
pub const MONO_AGAIN: LemmaRow = LemmaRow {
    row: Law {
        name: "mono_again",
        needs: &[Need::Class(Class::CommMonoid)],
        premises: &[PatStmt {
            rel: Rel::Eq,
            sort: PatSort::S,
            nodes: &[TIMES, B, D, C],
        }],
        conclusion: PatStmt {
            rel: Rel::Eq,
            sort: PatSort::S,
            nodes: &[TIMES, B, TIMES, A, D, TIMES, A, C],
        },
    },
    proof: &[
        LemmaStep::Lemma("mul_left_comm", PatSort::S, &[&[B], &[A], &[D]], &[]),
        LemmaStep::Refl(&[A]),
        LemmaStep::Cong(Sym::Mul, &[3, 1]),
        LemmaStep::Trans(2, 4),
    ],
};

static MERGES: [LemmaRow; 9] = [
    LEAF_MONO,
    NODE_MONO,
    NODE_MONO_ZERO,
    MERGE_LEFT,
    MERGE_RIGHT,
    MONO_FIRST,
    MONO_NEXT,
    MONO_ONE_MORE,
    MONO_AGAIN,
];

/// Sorted sums that are merged, and monomials that are put together.
pub fn merging_lemmas() -> &'static [LemmaRow]
    ensures rows { map lemma_row_of result.now ≡ merging_lemmas }
    ensures proved { all_may_join through_node_product_lemmas result.now ≡ true }
{
    &MERGES
}
