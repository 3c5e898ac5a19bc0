ghost use Rattle.std.specs.Prelude.{◌≡◌, map, true};
ghost use Rattle.alg_proof.specs.LemmaRows.{lemma_row_of};
ghost use Rattle.alg_lemma.specs.Proving.{all_may_join};
ghost use Rattle.alg_lemma.specs.MultipleLemmas.{through_multiple_lemmas};
ghost use Rattle.alg_lemma.specs.MultipleSumLemmas.{multiple_sum_lemmas};

use alg_law::law_words::{A, B, C, D, MINUS, MULTIPLE, NATURAL_ONE, NEGATIVE, PLUS, ZERO};
use alg_law::{Class, Law, Need, PatSort, PatStmt};
use alg_proof::{LemmaRow, LemmaStep};
use alg_terms::{Rel, Sym};

/// where -a = c: -(a + b) = c + -b
pub const NEG_SUM_POS: LemmaRow = LemmaRow {
    row: Law {
        name: "neg_sum_pos",
        needs: &[Need::Class(Class::AddCommGroup)],
        premises: &[PatStmt {
            rel: Rel::Eq,
            sort: PatSort::S,
            nodes: &[NEGATIVE, A, C],
        }],
        conclusion: PatStmt {
            rel: Rel::Eq,
            sort: PatSort::S,
            nodes: &[NEGATIVE, PLUS, A, B, PLUS, C, NEGATIVE, B],
        },
    },
    proof: &[
        LemmaStep::Refl(&[NEGATIVE, B]),
        LemmaStep::Lemma(
            "neg_sum",
            PatSort::S,
            &[&[A], &[B], &[C], &[NEGATIVE, B]],
            &[1, 2],
        ),
    ],
};

/// where -a = c: -(a + -b) = c + b
pub const NEG_SUM_NEG: LemmaRow = LemmaRow {
    row: Law {
        name: "neg_sum_neg",
        needs: &[Need::Class(Class::AddCommGroup)],
        premises: &[PatStmt {
            rel: Rel::Eq,
            sort: PatSort::S,
            nodes: &[NEGATIVE, A, C],
        }],
        conclusion: PatStmt {
            rel: Rel::Eq,
            sort: PatSort::S,
            nodes: &[NEGATIVE, PLUS, A, NEGATIVE, B, PLUS, C, B],
        },
    },
    proof: &[
        LemmaStep::Lemma("neg_neg", PatSort::S, &[&[B]], &[]),
        LemmaStep::Lemma(
            "neg_sum",
            PatSort::S,
            &[&[A], &[NEGATIVE, B], &[C], &[B]],
            &[1, 2],
        ),
    ],
};

/// where b + d = 0: a + b + (c + d) = a + c
pub const SUM_DROP: LemmaRow = LemmaRow {
    row: Law {
        name: "sum_drop",
        needs: &[Need::Class(Class::AddCommMonoid)],
        premises: &[PatStmt {
            rel: Rel::Eq,
            sort: PatSort::S,
            nodes: &[PLUS, B, D, ZERO],
        }],
        conclusion: PatStmt {
            rel: Rel::Eq,
            sort: PatSort::S,
            nodes: &[PLUS, PLUS, A, B, PLUS, C, D, PLUS, A, C],
        },
    },
    proof: &[
        LemmaStep::Lemma(
            "add_add_add_comm",
            PatSort::S,
            &[&[A], &[B], &[C], &[D]],
            &[],
        ),
        LemmaStep::Law("add_zero", PatSort::S, &[&[PLUS, A, C]], &[]),
        LemmaStep::Refl(&[PLUS, A, C]),
        LemmaStep::Cong(Sym::Add, &[4, 1]),
        LemmaStep::Trans(2, 5),
        LemmaStep::Trans(6, 3),
    ],
};

/// 0 + 1 • a = a
pub const SUM_FIRST: LemmaRow = LemmaRow {
    row: Law {
        name: "sum_first",
        needs: &[Need::Class(Class::AddMonoid)],
        premises: &[],
        conclusion: PatStmt {
            rel: Rel::Eq,
            sort: PatSort::S,
            nodes: &[PLUS, ZERO, MULTIPLE, NATURAL_ONE, A, A],
        },
    },
    proof: &[
        LemmaStep::Lemma("atom_sum", PatSort::S, &[&[A]], &[]),
        LemmaStep::Symm(1),
    ],
};

/// 0 + -(1 • a) = -a
pub const SUM_FIRST_NEG_ONE: LemmaRow = LemmaRow {
    row: Law {
        name: "sum_first_neg_one",
        needs: &[Need::Class(Class::AddGroup)],
        premises: &[],
        conclusion: PatStmt {
            rel: Rel::Eq,
            sort: PatSort::S,
            nodes: &[PLUS, ZERO, NEGATIVE, MULTIPLE, NATURAL_ONE, A, NEGATIVE, A],
        },
    },
    proof: &[
        LemmaStep::Law(
            "zero_add",
            PatSort::S,
            &[&[NEGATIVE, MULTIPLE, NATURAL_ONE, A]],
            &[],
        ),
        LemmaStep::Lemma("one_nsmul", PatSort::S, &[&[A]], &[]),
        LemmaStep::Cong(Sym::Neg, &[2]),
        LemmaStep::Trans(1, 3),
    ],
};

/// where a = c: a + 1 • b = c + b
pub const SUM_NEXT: LemmaRow = LemmaRow {
    row: Law {
        name: "sum_next",
        needs: &[Need::Class(Class::AddMonoid)],
        premises: &[PatStmt {
            rel: Rel::Eq,
            sort: PatSort::S,
            nodes: &[A, C],
        }],
        conclusion: PatStmt {
            rel: Rel::Eq,
            sort: PatSort::S,
            nodes: &[PLUS, A, MULTIPLE, NATURAL_ONE, B, PLUS, C, B],
        },
    },
    proof: &[
        LemmaStep::Lemma("one_nsmul", PatSort::S, &[&[B]], &[]),
        LemmaStep::Cong(Sym::Add, &[1, 2]),
    ],
};

/// where a = c: a + -b = c - b
pub const SUM_NEXT_NEG: LemmaRow = LemmaRow {
    row: Law {
        name: "sum_next_neg",
        needs: &[Need::Class(Class::AddGroup)],
        premises: &[PatStmt {
            rel: Rel::Eq,
            sort: PatSort::S,
            nodes: &[A, C],
        }],
        conclusion: PatStmt {
            rel: Rel::Eq,
            sort: PatSort::S,
            nodes: &[PLUS, A, NEGATIVE, B, MINUS, C, B],
        },
    },
    proof: &[
        LemmaStep::Refl(&[NEGATIVE, B]),
        LemmaStep::Cong(Sym::Add, &[1, 2]),
        LemmaStep::Law("sub_eq_add_neg", PatSort::S, &[&[C], &[B]], &[]),
        LemmaStep::Symm(4),
        LemmaStep::Trans(3, 5),
    ],
};

/// where a = c: a + -(1 • b) = c - b
pub const SUM_NEXT_NEG_ONE: LemmaRow = LemmaRow {
    row: Law {
        name: "sum_next_neg_one",
        needs: &[Need::Class(Class::AddGroup)],
        premises: &[PatStmt {
            rel: Rel::Eq,
            sort: PatSort::S,
            nodes: &[A, C],
        }],
        conclusion: PatStmt {
            rel: Rel::Eq,
            sort: PatSort::S,
            nodes: &[PLUS, A, NEGATIVE, MULTIPLE, NATURAL_ONE, B, MINUS, C, B],
        },
    },
    proof: &[
        LemmaStep::Lemma(
            "sum_next_neg",
            PatSort::S,
            &[&[A], &[MULTIPLE, NATURAL_ONE, B], &[C]],
            &[1],
        ),
        LemmaStep::Refl(&[C]),
        LemmaStep::Lemma("one_nsmul", PatSort::S, &[&[B]], &[]),
        LemmaStep::Cong(Sym::Sub, &[3, 4]),
        LemmaStep::Trans(2, 5),
    ],
};

static MULTIPLE_SUMS: [LemmaRow; 8] = [
    NEG_SUM_POS,
    NEG_SUM_NEG,
    SUM_DROP,
    SUM_FIRST,
    SUM_FIRST_NEG_ONE,
    SUM_NEXT,
    SUM_NEXT_NEG,
    SUM_NEXT_NEG_ONE,
];

/// Sums of multiples, and how they are written.
pub fn multiple_sum_lemmas() -> &'static [LemmaRow]
    ensures rows { map lemma_row_of result.now ≡ multiple_sum_lemmas }
    ensures proved { all_may_join through_multiple_lemmas result.now ≡ true }
{
    &MULTIPLE_SUMS
}
