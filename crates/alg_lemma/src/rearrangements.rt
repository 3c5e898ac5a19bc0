ghost use Rattle.std.specs.Prelude.{◌≡◌, map, true};
ghost use Rattle.alg_proof.specs.LemmaRows.{lemma_row_of};
ghost use Rattle.alg_lemma.specs.Proving.{all_may_join};
ghost use Rattle.alg_lemma.specs.FirstLemmas.{through_first_lemmas};
ghost use Rattle.alg_lemma.specs.RearrangingLemmas.{rearranging_lemmas};

use alg_law::law_words::{
    A, B, C, D, M, N, NATURAL_PLUS, NATURAL_TIMES, NEGATIVE, PLUS, POWER, TIMES,
};
use alg_law::{Class, Law, Need, PatSort, PatStmt};
use alg_proof::{LemmaRow, LemmaStep};
use alg_terms::{Rel, Sym};

/// a + b + c = a + c + b
pub const ADD_RIGHT_COMM: LemmaRow = LemmaRow {
    row: Law {
        name: "add_right_comm",
        needs: &[Need::Class(Class::AddCommMonoid)],
        premises: &[],
        conclusion: PatStmt {
            rel: Rel::Eq,
            sort: PatSort::S,
            nodes: &[PLUS, PLUS, A, B, C, PLUS, PLUS, A, C, B],
        },
    },
    proof: &[
        LemmaStep::Law("add_assoc", PatSort::S, &[&[A], &[B], &[C]], &[]),
        LemmaStep::Law("add_comm", PatSort::S, &[&[B], &[C]], &[]),
        LemmaStep::Law("add_assoc", PatSort::S, &[&[A], &[C], &[B]], &[]),
        LemmaStep::Symm(3),
        LemmaStep::Refl(&[A]),
        LemmaStep::Cong(Sym::Add, &[5, 2]),
        LemmaStep::Trans(1, 6),
        LemmaStep::Trans(7, 4),
    ],
};

/// a + b + (c + d) = a + c + (b + d)
pub const ADD_ADD_ADD_COMM: LemmaRow = LemmaRow {
    row: Law {
        name: "add_add_add_comm",
        needs: &[Need::Class(Class::AddCommMonoid)],
        premises: &[],
        conclusion: PatStmt {
            rel: Rel::Eq,
            sort: PatSort::S,
            nodes: &[PLUS, PLUS, A, B, PLUS, C, D, PLUS, PLUS, A, C, PLUS, B, D],
        },
    },
    proof: &[
        LemmaStep::Law("add_assoc", PatSort::S, &[&[A], &[B], &[PLUS, C, D]], &[]),
        LemmaStep::Lemma("add_left_comm", PatSort::S, &[&[B], &[C], &[D]], &[]),
        LemmaStep::Law("add_assoc", PatSort::S, &[&[A], &[C], &[PLUS, B, D]], &[]),
        LemmaStep::Symm(3),
        LemmaStep::Refl(&[A]),
        LemmaStep::Cong(Sym::Add, &[5, 2]),
        LemmaStep::Trans(1, 6),
        LemmaStep::Trans(7, 4),
    ],
};

/// a * b * c = a * c * b
pub const MUL_RIGHT_COMM: LemmaRow = LemmaRow {
    row: Law {
        name: "mul_right_comm",
        needs: &[Need::Class(Class::CommMonoid)],
        premises: &[],
        conclusion: PatStmt {
            rel: Rel::Eq,
            sort: PatSort::S,
            nodes: &[TIMES, TIMES, A, B, C, TIMES, TIMES, A, C, B],
        },
    },
    proof: &[
        LemmaStep::Law("mul_assoc", PatSort::S, &[&[A], &[B], &[C]], &[]),
        LemmaStep::Law("mul_comm", PatSort::S, &[&[B], &[C]], &[]),
        LemmaStep::Law("mul_assoc", PatSort::S, &[&[A], &[C], &[B]], &[]),
        LemmaStep::Symm(3),
        LemmaStep::Refl(&[A]),
        LemmaStep::Cong(Sym::Mul, &[5, 2]),
        LemmaStep::Trans(1, 6),
        LemmaStep::Trans(7, 4),
    ],
};

/// a * b * (c * d) = a * c * (b * d)
pub const MUL_MUL_MUL_COMM: LemmaRow = LemmaRow {
    row: Law {
        name: "mul_mul_mul_comm",
        needs: &[Need::Class(Class::CommMonoid)],
        premises: &[],
        conclusion: PatStmt {
            rel: Rel::Eq,
            sort: PatSort::S,
            nodes: &[
                TIMES, TIMES, A, B, TIMES, C, D, TIMES, TIMES, A, C, TIMES, B, D,
            ],
        },
    },
    proof: &[
        LemmaStep::Law("mul_assoc", PatSort::S, &[&[A], &[B], &[TIMES, C, D]], &[]),
        LemmaStep::Lemma("mul_left_comm", PatSort::S, &[&[B], &[C], &[D]], &[]),
        LemmaStep::Law("mul_assoc", PatSort::S, &[&[A], &[C], &[TIMES, B, D]], &[]),
        LemmaStep::Symm(3),
        LemmaStep::Refl(&[A]),
        LemmaStep::Cong(Sym::Mul, &[5, 2]),
        LemmaStep::Trans(1, 6),
        LemmaStep::Trans(7, 4),
    ],
};

/// a + (-a + b) = b
pub const ADD_NEG_CANCEL_LEFT: LemmaRow = LemmaRow {
    row: Law {
        name: "add_neg_cancel_left",
        needs: &[Need::Class(Class::AddGroup)],
        premises: &[],
        conclusion: PatStmt {
            rel: Rel::Eq,
            sort: PatSort::S,
            nodes: &[PLUS, A, PLUS, NEGATIVE, A, B, B],
        },
    },
    proof: &[
        LemmaStep::Law("add_assoc", PatSort::S, &[&[A], &[NEGATIVE, A], &[B]], &[]),
        LemmaStep::Symm(1),
        LemmaStep::Lemma("add_neg_cancel", PatSort::S, &[&[A]], &[]),
        LemmaStep::Law("zero_add", PatSort::S, &[&[B]], &[]),
        LemmaStep::Refl(&[B]),
        LemmaStep::Cong(Sym::Add, &[3, 5]),
        LemmaStep::Trans(2, 6),
        LemmaStep::Trans(7, 4),
    ],
};

/// a + (b + -a) = b
pub const ADD_ADD_NEG_CANCEL: LemmaRow = LemmaRow {
    row: Law {
        name: "add_add_neg_cancel",
        needs: &[Need::Class(Class::AddCommGroup)],
        premises: &[],
        conclusion: PatStmt {
            rel: Rel::Eq,
            sort: PatSort::S,
            nodes: &[PLUS, A, PLUS, B, NEGATIVE, A, B],
        },
    },
    proof: &[
        LemmaStep::Lemma(
            "add_left_comm",
            PatSort::S,
            &[&[A], &[B], &[NEGATIVE, A]],
            &[],
        ),
        LemmaStep::Lemma("add_neg_cancel", PatSort::S, &[&[A]], &[]),
        LemmaStep::Law("add_zero", PatSort::S, &[&[B]], &[]),
        LemmaStep::Refl(&[B]),
        LemmaStep::Cong(Sym::Add, &[4, 2]),
        LemmaStep::Trans(1, 5),
        LemmaStep::Trans(6, 3),
    ],
};

/// where a ^ (m + n) = b: a ^ m * a ^ n = b
pub const POW_MUL_OF: LemmaRow = LemmaRow {
    row: Law {
        name: "pow_mul_of",
        needs: &[Need::Class(Class::Monoid)],
        premises: &[PatStmt {
            rel: Rel::Eq,
            sort: PatSort::S,
            nodes: &[POWER, A, NATURAL_PLUS, M, N, B],
        }],
        conclusion: PatStmt {
            rel: Rel::Eq,
            sort: PatSort::S,
            nodes: &[TIMES, POWER, A, M, POWER, A, N, B],
        },
    },
    proof: &[
        LemmaStep::Law("pow_add", PatSort::S, &[&[A], &[M], &[N]], &[]),
        LemmaStep::Symm(2),
        LemmaStep::Trans(3, 1),
    ],
};

/// where a ^ (m * n) = b: (a ^ m) ^ n = b
pub const POW_POW_OF: LemmaRow = LemmaRow {
    row: Law {
        name: "pow_pow_of",
        needs: &[Need::Class(Class::Monoid)],
        premises: &[PatStmt {
            rel: Rel::Eq,
            sort: PatSort::S,
            nodes: &[POWER, A, NATURAL_TIMES, M, N, B],
        }],
        conclusion: PatStmt {
            rel: Rel::Eq,
            sort: PatSort::S,
            nodes: &[POWER, POWER, A, M, N, B],
        },
    },
    proof: &[
        LemmaStep::Law("pow_mul", PatSort::S, &[&[A], &[M], &[N]], &[]),
        LemmaStep::Symm(2),
        LemmaStep::Trans(3, 1),
    ],
};

static REARRANGEMENTS: [LemmaRow; 8] = [
    ADD_RIGHT_COMM,
    ADD_ADD_ADD_COMM,
    MUL_RIGHT_COMM,
    MUL_MUL_MUL_COMM,
    ADD_NEG_CANCEL_LEFT,
    ADD_ADD_NEG_CANCEL,
    POW_MUL_OF,
    POW_POW_OF,
];

/// How sums and products are put in another order, and products of powers.
pub fn rearranging_lemmas() -> &'static [LemmaRow]
    ensures rows { map lemma_row_of result.now ≡ rearranging_lemmas }
    ensures proved { all_may_join through_first_lemmas result.now ≡ true }
{
    &REARRANGEMENTS
}
