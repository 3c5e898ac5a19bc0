ghost use Rattle.std.specs.Prelude.{◌≡◌, map, true};
ghost use Rattle.alg_proof.specs.LemmaRows.{lemma_row_of};
ghost use Rattle.alg_lemma.specs.Proving.{all_may_join};
ghost use Rattle.alg_lemma.specs.MergingLemmas.{through_merging_lemmas};
ghost use Rattle.alg_lemma.specs.WrittenTermLemmas.{written_term_lemmas};

use alg_law::law_words::{A, B, C, D, MINUS, NEGATIVE, ONE, PLUS, TIMES, ZERO};
use alg_law::{Class, Law, Need, PatSort, PatStmt};
use alg_proof::{LemmaRow, LemmaStep};
use alg_terms::{Rel, Sym};

/// 0 + a * 1 = a
pub const FIRST_ONE: LemmaRow = LemmaRow {
    row: Law {
        name: "first_one",
        needs: &[Need::Class(Class::Semiring)],
        premises: &[],
        conclusion: PatStmt {
            rel: Rel::Eq,
            sort: PatSort::S,
            nodes: &[PLUS, ZERO, TIMES, A, ONE, A],
        },
    },
    proof: &[
        LemmaStep::Law("zero_add", PatSort::S, &[&[TIMES, A, ONE]], &[]),
        LemmaStep::Law("mul_one", PatSort::S, &[&[A]], &[]),
        LemmaStep::Trans(1, 2),
    ],
};

/// 0 + a * -b = -(a * b)
pub const FIRST_NEG: LemmaRow = LemmaRow {
    row: Law {
        name: "first_neg",
        needs: &[Need::Class(Class::Ring)],
        premises: &[],
        conclusion: PatStmt {
            rel: Rel::Eq,
            sort: PatSort::S,
            nodes: &[PLUS, ZERO, TIMES, A, NEGATIVE, B, NEGATIVE, TIMES, A, B],
        },
    },
    proof: &[
        LemmaStep::Law("zero_add", PatSort::S, &[&[TIMES, A, NEGATIVE, B]], &[]),
        LemmaStep::Lemma("mul_neg", PatSort::S, &[&[A], &[B]], &[]),
        LemmaStep::Trans(1, 2),
    ],
};

/// 0 + a * -1 = -a
pub const FIRST_NEG_ONE: LemmaRow = LemmaRow {
    row: Law {
        name: "first_neg_one",
        needs: &[Need::Class(Class::Ring)],
        premises: &[],
        conclusion: PatStmt {
            rel: Rel::Eq,
            sort: PatSort::S,
            nodes: &[PLUS, ZERO, TIMES, A, NEGATIVE, ONE, NEGATIVE, A],
        },
    },
    proof: &[
        LemmaStep::Lemma("first_neg", PatSort::S, &[&[A], &[ONE]], &[]),
        LemmaStep::Law("mul_one", PatSort::S, &[&[A]], &[]),
        LemmaStep::Cong(Sym::Neg, &[2]),
        LemmaStep::Trans(1, 3),
    ],
};

/// 0 + 1 * a = a
pub const FIRST_CONST: LemmaRow = LemmaRow {
    row: Law {
        name: "first_const",
        needs: &[Need::Class(Class::Semiring)],
        premises: &[],
        conclusion: PatStmt {
            rel: Rel::Eq,
            sort: PatSort::S,
            nodes: &[PLUS, ZERO, TIMES, ONE, A, A],
        },
    },
    proof: &[
        LemmaStep::Law("zero_add", PatSort::S, &[&[TIMES, ONE, A]], &[]),
        LemmaStep::Law("one_mul", PatSort::S, &[&[A]], &[]),
        LemmaStep::Trans(1, 2),
    ],
};

/// where a = c: a + b = c + b
pub const NEXT_COEF: LemmaRow = LemmaRow {
    row: Law {
        name: "next_coef",
        needs: &[Need::Class(Class::AddMonoid)],
        premises: &[PatStmt {
            rel: Rel::Eq,
            sort: PatSort::S,
            nodes: &[A, C],
        }],
        conclusion: PatStmt {
            rel: Rel::Eq,
            sort: PatSort::S,
            nodes: &[PLUS, A, B, PLUS, C, B],
        },
    },
    proof: &[LemmaStep::Refl(&[B]), LemmaStep::Cong(Sym::Add, &[1, 2])],
};

/// where a = c: a + b * 1 = c + b
pub const NEXT_ONE: LemmaRow = LemmaRow {
    row: Law {
        name: "next_one",
        needs: &[Need::Class(Class::Semiring)],
        premises: &[PatStmt {
            rel: Rel::Eq,
            sort: PatSort::S,
            nodes: &[A, C],
        }],
        conclusion: PatStmt {
            rel: Rel::Eq,
            sort: PatSort::S,
            nodes: &[PLUS, A, TIMES, B, ONE, PLUS, C, B],
        },
    },
    proof: &[
        LemmaStep::Law("mul_one", PatSort::S, &[&[B]], &[]),
        LemmaStep::Cong(Sym::Add, &[1, 2]),
    ],
};

/// where a = c: a + b * -d = c - b * d
pub const NEXT_NEG: LemmaRow = LemmaRow {
    row: Law {
        name: "next_neg",
        needs: &[Need::Class(Class::Ring)],
        premises: &[PatStmt {
            rel: Rel::Eq,
            sort: PatSort::S,
            nodes: &[A, C],
        }],
        conclusion: PatStmt {
            rel: Rel::Eq,
            sort: PatSort::S,
            nodes: &[PLUS, A, TIMES, B, NEGATIVE, D, MINUS, C, TIMES, B, D],
        },
    },
    proof: &[
        LemmaStep::Lemma("mul_neg", PatSort::S, &[&[B], &[D]], &[]),
        LemmaStep::Cong(Sym::Add, &[1, 2]),
        LemmaStep::Law("sub_eq_add_neg", PatSort::S, &[&[C], &[TIMES, B, D]], &[]),
        LemmaStep::Symm(4),
        LemmaStep::Trans(3, 5),
    ],
};

/// where a = c: a + b * -1 = c - b
pub const NEXT_NEG_ONE: LemmaRow = LemmaRow {
    row: Law {
        name: "next_neg_one",
        needs: &[Need::Class(Class::Ring)],
        premises: &[PatStmt {
            rel: Rel::Eq,
            sort: PatSort::S,
            nodes: &[A, C],
        }],
        conclusion: PatStmt {
            rel: Rel::Eq,
            sort: PatSort::S,
            nodes: &[PLUS, A, TIMES, B, NEGATIVE, ONE, MINUS, C, B],
        },
    },
    proof: &[
        LemmaStep::Lemma("next_neg", PatSort::S, &[&[A], &[B], &[C], &[ONE]], &[1]),
        LemmaStep::Refl(&[C]),
        LemmaStep::Law("mul_one", PatSort::S, &[&[B]], &[]),
        LemmaStep::Cong(Sym::Sub, &[3, 4]),
        LemmaStep::Trans(2, 5),
    ],
};

/// where a = c: a + 1 * b = c + b
pub const NEXT_CONST: LemmaRow = LemmaRow {
    row: Law {
        name: "next_const",
        needs: &[Need::Class(Class::Semiring)],
        premises: &[PatStmt {
            rel: Rel::Eq,
            sort: PatSort::S,
            nodes: &[A, C],
        }],
        conclusion: PatStmt {
            rel: Rel::Eq,
            sort: PatSort::S,
            nodes: &[PLUS, A, TIMES, ONE, B, PLUS, C, B],
        },
    },
    proof: &[
        LemmaStep::Law("one_mul", PatSort::S, &[&[B]], &[]),
        LemmaStep::Cong(Sym::Add, &[1, 2]),
    ],
};

/// where a = c: a + 1 * -b = c - b
pub const NEXT_CONST_NEG: LemmaRow = LemmaRow {
    row: Law {
        name: "next_const_neg",
        needs: &[Need::Class(Class::Ring)],
        premises: &[PatStmt {
            rel: Rel::Eq,
            sort: PatSort::S,
            nodes: &[A, C],
        }],
        conclusion: PatStmt {
            rel: Rel::Eq,
            sort: PatSort::S,
            nodes: &[PLUS, A, TIMES, ONE, NEGATIVE, B, MINUS, C, B],
        },
    },
    proof: &[
        LemmaStep::Law("one_mul", PatSort::S, &[&[NEGATIVE, B]], &[]),
        LemmaStep::Cong(Sym::Add, &[1, 2]),
        LemmaStep::Law("sub_eq_add_neg", PatSort::S, &[&[C], &[B]], &[]),
        LemmaStep::Symm(4),
        LemmaStep::Trans(3, 5),
    ],
};

static WRITTEN_TERMS: [LemmaRow; 10] = [
    FIRST_ONE,
    FIRST_NEG,
    FIRST_NEG_ONE,
    FIRST_CONST,
    NEXT_COEF,
    NEXT_ONE,
    NEXT_NEG,
    NEXT_NEG_ONE,
    NEXT_CONST,
    NEXT_CONST_NEG,
];

/// Terms as they are written, first and later ones.
pub fn written_term_lemmas() -> &'static [LemmaRow]
    ensures rows { map lemma_row_of result.now ≡ written_term_lemmas }
    ensures proved { all_may_join through_merging_lemmas result.now ≡ true }
{
    &WRITTEN_TERMS
}
