ghost use Rattle.std.specs.Prelude.{◌≡◌, map, true};
ghost use Rattle.alg_proof.specs.LemmaRows.{lemma_row_of};
ghost use Rattle.alg_lemma.specs.Proving.{all_may_join};
ghost use Rattle.alg_lemma.specs.FactorLemmas.{through_factor_lemmas};
ghost use Rattle.alg_lemma.specs.CommutingLemmas.{commuting_lemmas};

use alg_law::law_words::{A, B, C, D, NEGATIVE, ONE, PLUS, TIMES, ZERO};
use alg_law::{Class, Law, Need, PatSort, PatStmt};
use alg_proof::{LemmaRow, LemmaStep};
use alg_terms::{Rel, Sym};

/// a = 1 * a + 0
pub const LETTER_NODE: LemmaRow = LemmaRow {
    row: Law {
        name: "letter_node",
        needs: &[Need::Class(Class::Semiring)],
        premises: &[],
        conclusion: PatStmt {
            rel: Rel::Eq,
            sort: PatSort::S,
            nodes: &[A, PLUS, TIMES, ONE, A, ZERO],
        },
    },
    proof: &[
        LemmaStep::Law("add_zero", PatSort::S, &[&[TIMES, ONE, A]], &[]),
        LemmaStep::Law("one_mul", PatSort::S, &[&[A]], &[]),
        LemmaStep::Trans(1, 2),
        LemmaStep::Symm(3),
    ],
};

/// a * 1 = 1 * a
pub const COMMUTE_ONE: LemmaRow = LemmaRow {
    row: Law {
        name: "commute_one",
        needs: &[Need::Class(Class::Monoid)],
        premises: &[],
        conclusion: PatStmt {
            rel: Rel::Eq,
            sort: PatSort::S,
            nodes: &[TIMES, A, ONE, TIMES, ONE, A],
        },
    },
    proof: &[
        LemmaStep::Law("mul_one", PatSort::S, &[&[A]], &[]),
        LemmaStep::Law("one_mul", PatSort::S, &[&[A]], &[]),
        LemmaStep::Symm(2),
        LemmaStep::Trans(1, 3),
    ],
};

/// where b + b = c and a * b = b * a: a * c = c * a
pub const COMMUTE_DOUBLE: LemmaRow = LemmaRow {
    row: Law {
        name: "commute_double",
        needs: &[Need::Class(Class::Semiring)],
        premises: &[
            PatStmt {
                rel: Rel::Eq,
                sort: PatSort::S,
                nodes: &[PLUS, B, B, C],
            },
            PatStmt {
                rel: Rel::Eq,
                sort: PatSort::S,
                nodes: &[TIMES, A, B, TIMES, B, A],
            },
        ],
        conclusion: PatStmt {
            rel: Rel::Eq,
            sort: PatSort::S,
            nodes: &[TIMES, A, C, TIMES, C, A],
        },
    },
    proof: &[
        LemmaStep::Law("left_distrib", PatSort::S, &[&[A], &[B], &[B]], &[]),
        LemmaStep::Law("right_distrib", PatSort::S, &[&[B], &[B], &[A]], &[]),
        LemmaStep::Symm(4),
        LemmaStep::Refl(&[TIMES, A, B]),
        LemmaStep::Cong(Sym::Add, &[2, 6]),
        LemmaStep::Trans(3, 7),
        LemmaStep::Refl(&[TIMES, B, A]),
        LemmaStep::Cong(Sym::Add, &[9, 2]),
        LemmaStep::Trans(8, 10),
        LemmaStep::Trans(11, 5),
        LemmaStep::Symm(1),
        LemmaStep::Refl(&[A]),
        LemmaStep::Cong(Sym::Mul, &[14, 13]),
        LemmaStep::Trans(15, 12),
        LemmaStep::Cong(Sym::Mul, &[1, 14]),
        LemmaStep::Trans(16, 17),
    ],
};

/// where b + b = d, d + 1 = c and a * b = b * a: a * c = c * a
pub const COMMUTE_ODD: LemmaRow = LemmaRow {
    row: Law {
        name: "commute_odd",
        needs: &[Need::Class(Class::Semiring)],
        premises: &[
            PatStmt {
                rel: Rel::Eq,
                sort: PatSort::S,
                nodes: &[PLUS, B, B, D],
            },
            PatStmt {
                rel: Rel::Eq,
                sort: PatSort::S,
                nodes: &[PLUS, D, ONE, C],
            },
            PatStmt {
                rel: Rel::Eq,
                sort: PatSort::S,
                nodes: &[TIMES, A, B, TIMES, B, A],
            },
        ],
        conclusion: PatStmt {
            rel: Rel::Eq,
            sort: PatSort::S,
            nodes: &[TIMES, A, C, TIMES, C, A],
        },
    },
    proof: &[
        LemmaStep::Lemma("commute_double", PatSort::S, &[&[A], &[B], &[D]], &[1, 3]),
        LemmaStep::Lemma("commute_one", PatSort::S, &[&[A]], &[]),
        LemmaStep::Law("left_distrib", PatSort::S, &[&[A], &[D], &[ONE]], &[]),
        LemmaStep::Law("right_distrib", PatSort::S, &[&[D], &[ONE], &[A]], &[]),
        LemmaStep::Symm(7),
        LemmaStep::Refl(&[TIMES, A, ONE]),
        LemmaStep::Cong(Sym::Add, &[4, 9]),
        LemmaStep::Trans(6, 10),
        LemmaStep::Refl(&[TIMES, D, A]),
        LemmaStep::Cong(Sym::Add, &[12, 5]),
        LemmaStep::Trans(11, 13),
        LemmaStep::Trans(14, 8),
        LemmaStep::Symm(2),
        LemmaStep::Refl(&[A]),
        LemmaStep::Cong(Sym::Mul, &[17, 16]),
        LemmaStep::Trans(18, 15),
        LemmaStep::Cong(Sym::Mul, &[2, 17]),
        LemmaStep::Trans(19, 20),
    ],
};

/// where a * b = b * a: a * -b = -b * a
pub const COMMUTE_NEG: LemmaRow = LemmaRow {
    row: Law {
        name: "commute_neg",
        needs: &[Need::Class(Class::Ring)],
        premises: &[PatStmt {
            rel: Rel::Eq,
            sort: PatSort::S,
            nodes: &[TIMES, A, B, TIMES, B, A],
        }],
        conclusion: PatStmt {
            rel: Rel::Eq,
            sort: PatSort::S,
            nodes: &[TIMES, A, NEGATIVE, B, TIMES, NEGATIVE, B, A],
        },
    },
    proof: &[
        LemmaStep::Lemma("mul_neg", PatSort::S, &[&[A], &[B]], &[]),
        LemmaStep::Lemma("neg_mul", PatSort::S, &[&[B], &[A]], &[]),
        LemmaStep::Symm(3),
        LemmaStep::Cong(Sym::Neg, &[1]),
        LemmaStep::Trans(2, 5),
        LemmaStep::Trans(6, 4),
    ],
};

/// where -a = b: a * -1 = b
pub const MUL_NEG_ONE: LemmaRow = LemmaRow {
    row: Law {
        name: "mul_neg_one",
        needs: &[Need::Class(Class::Ring)],
        premises: &[PatStmt {
            rel: Rel::Eq,
            sort: PatSort::S,
            nodes: &[NEGATIVE, A, B],
        }],
        conclusion: PatStmt {
            rel: Rel::Eq,
            sort: PatSort::S,
            nodes: &[TIMES, A, NEGATIVE, ONE, B],
        },
    },
    proof: &[
        LemmaStep::Lemma("mul_neg", PatSort::S, &[&[A], &[ONE]], &[]),
        LemmaStep::Law("mul_one", PatSort::S, &[&[A]], &[]),
        LemmaStep::Cong(Sym::Neg, &[3]),
        LemmaStep::Trans(2, 4),
        LemmaStep::Trans(5, 1),
    ],
};

/// where -a = b: -1 * a = b
pub const NEG_ONE_MUL: LemmaRow = LemmaRow {
    row: Law {
        name: "neg_one_mul",
        needs: &[Need::Class(Class::Ring)],
        premises: &[PatStmt {
            rel: Rel::Eq,
            sort: PatSort::S,
            nodes: &[NEGATIVE, A, B],
        }],
        conclusion: PatStmt {
            rel: Rel::Eq,
            sort: PatSort::S,
            nodes: &[TIMES, NEGATIVE, ONE, A, B],
        },
    },
    proof: &[
        LemmaStep::Lemma("neg_mul", PatSort::S, &[&[ONE], &[A]], &[]),
        LemmaStep::Law("one_mul", PatSort::S, &[&[A]], &[]),
        LemmaStep::Cong(Sym::Neg, &[3]),
        LemmaStep::Trans(2, 4),
        LemmaStep::Trans(5, 1),
    ],
};

/// where a * b = 0: a * (b * d + c) = a * c
pub const MUL_DROP: LemmaRow = LemmaRow {
    row: Law {
        name: "mul_drop",
        needs: &[Need::Class(Class::Semiring)],
        premises: &[PatStmt {
            rel: Rel::Eq,
            sort: PatSort::S,
            nodes: &[TIMES, A, B, ZERO],
        }],
        conclusion: PatStmt {
            rel: Rel::Eq,
            sort: PatSort::S,
            nodes: &[TIMES, A, PLUS, TIMES, B, D, C, TIMES, A, C],
        },
    },
    proof: &[
        LemmaStep::Law(
            "left_distrib",
            PatSort::S,
            &[&[A], &[TIMES, B, D], &[C]],
            &[],
        ),
        LemmaStep::Law("mul_assoc", PatSort::S, &[&[A], &[B], &[D]], &[]),
        LemmaStep::Symm(3),
        LemmaStep::Law("zero_mul", PatSort::S, &[&[D]], &[]),
        LemmaStep::Law("zero_add", PatSort::S, &[&[TIMES, A, C]], &[]),
        LemmaStep::Refl(&[TIMES, A, C]),
        LemmaStep::Cong(Sym::Add, &[4, 7]),
        LemmaStep::Trans(2, 8),
        LemmaStep::Refl(&[D]),
        LemmaStep::Cong(Sym::Mul, &[1, 10]),
        LemmaStep::Cong(Sym::Add, &[11, 7]),
        LemmaStep::Trans(9, 12),
        LemmaStep::Cong(Sym::Add, &[5, 7]),
        LemmaStep::Trans(13, 14),
        LemmaStep::Trans(15, 6),
    ],
};

static COMMUTING: [LemmaRow; 8] = [
    LETTER_NODE,
    COMMUTE_ONE,
    COMMUTE_DOUBLE,
    COMMUTE_ODD,
    COMMUTE_NEG,
    MUL_NEG_ONE,
    NEG_ONE_MUL,
    MUL_DROP,
];

/// Literals that change places with a tree, and products of sums of words.
pub fn commuting_lemmas() -> &'static [LemmaRow]
    ensures rows { map lemma_row_of result.now ≡ commuting_lemmas }
    ensures proved { all_may_join through_factor_lemmas result.now ≡ true }
{
    &COMMUTING
}
