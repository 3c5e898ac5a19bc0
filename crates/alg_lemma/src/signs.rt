ghost use Rattle.std.specs.Prelude.{◌≡◌, map, true};
ghost use Rattle.alg_proof.specs.LemmaRows.{lemma_row_of};
ghost use Rattle.alg_lemma.specs.Proving.{all_may_join};
ghost use Rattle.alg_lemma.specs.NegationLemmas.{through_negation_lemmas};
ghost use Rattle.alg_lemma.specs.SignLemmas.{sign_lemmas};

use alg_law::law_words::{
    A, B, C, M, MINUS, N, NATURAL_ONE, NATURAL_PLUS, NATURAL_ZERO, NEGATIVE, PLUS, POWER, TIMES,
};
use alg_law::{Class, Law, Need, PatSort, PatStmt};
use alg_proof::{LemmaRow, LemmaStep};
use alg_terms::{Rel, Sym};

/// where c + a = b: -a + b = c
pub const NEG_ADD_POS: LemmaRow = LemmaRow {
    row: Law {
        name: "neg_add_pos",
        needs: &[Need::Class(Class::AddCommGroup)],
        premises: &[PatStmt {
            rel: Rel::Eq,
            sort: PatSort::S,
            nodes: &[PLUS, C, A, B],
        }],
        conclusion: PatStmt {
            rel: Rel::Eq,
            sort: PatSort::S,
            nodes: &[PLUS, NEGATIVE, A, B, C],
        },
    },
    proof: &[
        LemmaStep::Law("add_comm", PatSort::S, &[&[NEGATIVE, A], &[B]], &[]),
        LemmaStep::Lemma("add_neg_pos", PatSort::S, &[&[B], &[A], &[C]], &[1]),
        LemmaStep::Trans(2, 3),
    ],
};

/// where b + c = a: -a + b = -c
pub const NEG_ADD_NEGR: LemmaRow = LemmaRow {
    row: Law {
        name: "neg_add_negr",
        needs: &[Need::Class(Class::AddCommGroup)],
        premises: &[PatStmt {
            rel: Rel::Eq,
            sort: PatSort::S,
            nodes: &[PLUS, B, C, A],
        }],
        conclusion: PatStmt {
            rel: Rel::Eq,
            sort: PatSort::S,
            nodes: &[PLUS, NEGATIVE, A, B, NEGATIVE, C],
        },
    },
    proof: &[
        LemmaStep::Law("add_comm", PatSort::S, &[&[NEGATIVE, A], &[B]], &[]),
        LemmaStep::Lemma("add_neg_neg", PatSort::S, &[&[B], &[A], &[C]], &[1]),
        LemmaStep::Trans(2, 3),
    ],
};

/// where c + b = a: a - b = c
pub const SUB_EQ_OF_ADD: LemmaRow = LemmaRow {
    row: Law {
        name: "sub_eq_of_add",
        needs: &[Need::Class(Class::AddGroup)],
        premises: &[PatStmt {
            rel: Rel::Eq,
            sort: PatSort::S,
            nodes: &[PLUS, C, B, A],
        }],
        conclusion: PatStmt {
            rel: Rel::Eq,
            sort: PatSort::S,
            nodes: &[MINUS, A, B, C],
        },
    },
    proof: &[
        LemmaStep::Law("sub_eq_add_neg", PatSort::S, &[&[A], &[B]], &[]),
        LemmaStep::Lemma("add_neg_pos", PatSort::S, &[&[A], &[B], &[C]], &[1]),
        LemmaStep::Trans(2, 3),
    ],
};

/// where a * b = c: -a * b = -c
pub const NEG_MUL_LIT: LemmaRow = LemmaRow {
    row: Law {
        name: "neg_mul_lit",
        needs: &[Need::Class(Class::Ring)],
        premises: &[PatStmt {
            rel: Rel::Eq,
            sort: PatSort::S,
            nodes: &[TIMES, A, B, C],
        }],
        conclusion: PatStmt {
            rel: Rel::Eq,
            sort: PatSort::S,
            nodes: &[TIMES, NEGATIVE, A, B, NEGATIVE, C],
        },
    },
    proof: &[
        LemmaStep::Lemma("neg_mul", PatSort::S, &[&[A], &[B]], &[]),
        LemmaStep::Cong(Sym::Neg, &[1]),
        LemmaStep::Trans(2, 3),
    ],
};

/// a * -b = -(a * b)
pub const MUL_NEG: LemmaRow = LemmaRow {
    row: Law {
        name: "mul_neg",
        needs: &[Need::Class(Class::Ring)],
        premises: &[],
        conclusion: PatStmt {
            rel: Rel::Eq,
            sort: PatSort::S,
            nodes: &[TIMES, A, NEGATIVE, B, NEGATIVE, TIMES, A, B],
        },
    },
    proof: &[
        LemmaStep::Law(
            "left_distrib",
            PatSort::S,
            &[&[A], &[B], &[NEGATIVE, B]],
            &[],
        ),
        LemmaStep::Symm(1),
        LemmaStep::Lemma("add_neg_cancel", PatSort::S, &[&[B]], &[]),
        LemmaStep::Law("mul_zero", PatSort::S, &[&[A]], &[]),
        LemmaStep::Refl(&[A]),
        LemmaStep::Cong(Sym::Mul, &[5, 3]),
        LemmaStep::Trans(2, 6),
        LemmaStep::Trans(7, 4),
        LemmaStep::Lemma(
            "eq_neg_of_add",
            PatSort::S,
            &[&[TIMES, A, B], &[TIMES, A, NEGATIVE, B]],
            &[8],
        ),
    ],
};

/// where a * b = c: a * -b = -c
pub const MUL_NEG_LIT: LemmaRow = LemmaRow {
    row: Law {
        name: "mul_neg_lit",
        needs: &[Need::Class(Class::Ring)],
        premises: &[PatStmt {
            rel: Rel::Eq,
            sort: PatSort::S,
            nodes: &[TIMES, A, B, C],
        }],
        conclusion: PatStmt {
            rel: Rel::Eq,
            sort: PatSort::S,
            nodes: &[TIMES, A, NEGATIVE, B, NEGATIVE, C],
        },
    },
    proof: &[
        LemmaStep::Lemma("mul_neg", PatSort::S, &[&[A], &[B]], &[]),
        LemmaStep::Cong(Sym::Neg, &[1]),
        LemmaStep::Trans(2, 3),
    ],
};

/// where a * b = c: -a * -b = c
pub const NEG_MUL_NEG: LemmaRow = LemmaRow {
    row: Law {
        name: "neg_mul_neg",
        needs: &[Need::Class(Class::Ring)],
        premises: &[PatStmt {
            rel: Rel::Eq,
            sort: PatSort::S,
            nodes: &[TIMES, A, B, C],
        }],
        conclusion: PatStmt {
            rel: Rel::Eq,
            sort: PatSort::S,
            nodes: &[TIMES, NEGATIVE, A, NEGATIVE, B, C],
        },
    },
    proof: &[
        LemmaStep::Lemma("neg_mul", PatSort::S, &[&[A], &[NEGATIVE, B]], &[]),
        LemmaStep::Lemma("mul_neg", PatSort::S, &[&[A], &[B]], &[]),
        LemmaStep::Lemma("neg_neg", PatSort::S, &[&[TIMES, A, B]], &[]),
        LemmaStep::Cong(Sym::Neg, &[3]),
        LemmaStep::Trans(2, 5),
        LemmaStep::Trans(6, 4),
        LemmaStep::Trans(7, 1),
    ],
};

/// a ^ 1 = a
pub const POW_ONE: LemmaRow = LemmaRow {
    row: Law {
        name: "pow_one",
        needs: &[Need::Class(Class::Monoid)],
        premises: &[],
        conclusion: PatStmt {
            rel: Rel::Eq,
            sort: PatSort::S,
            nodes: &[POWER, A, NATURAL_ONE, A],
        },
    },
    proof: &[
        LemmaStep::LitAdd(PatSort::Nat, 0, 1),
        LemmaStep::Symm(1),
        LemmaStep::Law("pow_succ", PatSort::S, &[&[A], &[NATURAL_ZERO]], &[]),
        LemmaStep::Law("pow_zero", PatSort::S, &[&[A]], &[]),
        LemmaStep::Law("one_mul", PatSort::S, &[&[A]], &[]),
        LemmaStep::Refl(&[A]),
        LemmaStep::Cong(Sym::Npow, &[6, 2]),
        LemmaStep::Trans(7, 3),
        LemmaStep::Cong(Sym::Mul, &[4, 6]),
        LemmaStep::Trans(8, 9),
        LemmaStep::Trans(10, 5),
    ],
};

/// where m + m = n, a ^ m = b and b * b = c: a ^ n = c
pub const POW_DOUBLE: LemmaRow = LemmaRow {
    row: Law {
        name: "pow_double",
        needs: &[Need::Class(Class::Monoid)],
        premises: &[
            PatStmt {
                rel: Rel::Eq,
                sort: PatSort::Nat,
                nodes: &[NATURAL_PLUS, M, M, N],
            },
            PatStmt {
                rel: Rel::Eq,
                sort: PatSort::S,
                nodes: &[POWER, A, M, B],
            },
            PatStmt {
                rel: Rel::Eq,
                sort: PatSort::S,
                nodes: &[TIMES, B, B, C],
            },
        ],
        conclusion: PatStmt {
            rel: Rel::Eq,
            sort: PatSort::S,
            nodes: &[POWER, A, N, C],
        },
    },
    proof: &[
        LemmaStep::Symm(1),
        LemmaStep::Law("pow_add", PatSort::S, &[&[A], &[M], &[M]], &[]),
        LemmaStep::Refl(&[A]),
        LemmaStep::Cong(Sym::Npow, &[6, 4]),
        LemmaStep::Trans(7, 5),
        LemmaStep::Refl(&[POWER, A, M]),
        LemmaStep::Cong(Sym::Mul, &[2, 9]),
        LemmaStep::Trans(8, 10),
        LemmaStep::Refl(&[B]),
        LemmaStep::Cong(Sym::Mul, &[12, 2]),
        LemmaStep::Trans(11, 13),
        LemmaStep::Trans(14, 3),
    ],
};

/// where m + 1 = n, a ^ m = b and b * a = c: a ^ n = c
pub const POW_NEXT: LemmaRow = LemmaRow {
    row: Law {
        name: "pow_next",
        needs: &[Need::Class(Class::Monoid)],
        premises: &[
            PatStmt {
                rel: Rel::Eq,
                sort: PatSort::Nat,
                nodes: &[NATURAL_PLUS, M, NATURAL_ONE, N],
            },
            PatStmt {
                rel: Rel::Eq,
                sort: PatSort::S,
                nodes: &[POWER, A, M, B],
            },
            PatStmt {
                rel: Rel::Eq,
                sort: PatSort::S,
                nodes: &[TIMES, B, A, C],
            },
        ],
        conclusion: PatStmt {
            rel: Rel::Eq,
            sort: PatSort::S,
            nodes: &[POWER, A, N, C],
        },
    },
    proof: &[
        LemmaStep::Symm(1),
        LemmaStep::Law("pow_succ", PatSort::S, &[&[A], &[M]], &[]),
        LemmaStep::Refl(&[A]),
        LemmaStep::Cong(Sym::Npow, &[6, 4]),
        LemmaStep::Trans(7, 5),
        LemmaStep::Cong(Sym::Mul, &[2, 6]),
        LemmaStep::Trans(8, 9),
        LemmaStep::Trans(10, 3),
    ],
};

static SIGNS: [LemmaRow; 10] = [
    NEG_ADD_POS,
    NEG_ADD_NEGR,
    SUB_EQ_OF_ADD,
    NEG_MUL_LIT,
    MUL_NEG,
    MUL_NEG_LIT,
    NEG_MUL_NEG,
    POW_ONE,
    POW_DOUBLE,
    POW_NEXT,
];

/// Differences, products with signs, and powers step by step.
pub fn sign_lemmas() -> &'static [LemmaRow]
    ensures rows { map lemma_row_of result.now ≡ sign_lemmas }
    ensures proved { all_may_join through_negation_lemmas result.now ≡ true }
{
    &SIGNS
}
