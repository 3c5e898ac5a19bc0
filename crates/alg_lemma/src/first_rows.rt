ghost use Rattle.std.specs.Prelude.{◌≡◌, [], map, true};
ghost use Rattle.alg_proof.specs.LemmaRows.{lemma_row_of};
ghost use Rattle.alg_lemma.specs.Proving.{all_may_join};
ghost use Rattle.alg_lemma.specs.FirstLemmas.{first_lemmas};

use alg_law::law_words::{A, B, C, INVERSE, NEGATIVE, ONE, PLUS, TIMES, ZERO};
use alg_law::{Class, Law, Need, PatSort, PatStmt};
use alg_proof::{LemmaRow, LemmaStep};
use alg_terms::{Rel, Sym};

/// a + (b + c) = b + (a + c)
pub const ADD_LEFT_COMM: LemmaRow = LemmaRow {
    row: Law {
        name: "add_left_comm",
        needs: &[Need::Class(Class::AddCommMonoid)],
        premises: &[],
        conclusion: PatStmt {
            rel: Rel::Eq,
            sort: PatSort::S,
            nodes: &[PLUS, A, PLUS, B, C, PLUS, B, PLUS, A, C],
        },
    },
    proof: &[
        LemmaStep::Law("add_assoc", PatSort::S, &[&[A], &[B], &[C]], &[]),
        LemmaStep::Symm(1),
        LemmaStep::Law("add_comm", PatSort::S, &[&[A], &[B]], &[]),
        LemmaStep::Refl(&[C]),
        LemmaStep::Cong(Sym::Add, &[3, 4]),
        LemmaStep::Trans(2, 5),
        LemmaStep::Law("add_assoc", PatSort::S, &[&[B], &[A], &[C]], &[]),
        LemmaStep::Trans(6, 7),
    ],
};

/// a * (b * c) = b * (a * c)
pub const MUL_LEFT_COMM: LemmaRow = LemmaRow {
    row: Law {
        name: "mul_left_comm",
        needs: &[Need::Class(Class::CommMonoid)],
        premises: &[],
        conclusion: PatStmt {
            rel: Rel::Eq,
            sort: PatSort::S,
            nodes: &[TIMES, A, TIMES, B, C, TIMES, B, TIMES, A, C],
        },
    },
    proof: &[
        LemmaStep::Law("mul_assoc", PatSort::S, &[&[A], &[B], &[C]], &[]),
        LemmaStep::Symm(1),
        LemmaStep::Law("mul_comm", PatSort::S, &[&[A], &[B]], &[]),
        LemmaStep::Refl(&[C]),
        LemmaStep::Cong(Sym::Mul, &[3, 4]),
        LemmaStep::Trans(2, 5),
        LemmaStep::Law("mul_assoc", PatSort::S, &[&[B], &[A], &[C]], &[]),
        LemmaStep::Trans(6, 7),
    ],
};

/// a + -a = 0
pub const ADD_NEG_CANCEL: LemmaRow = LemmaRow {
    row: Law {
        name: "add_neg_cancel",
        needs: &[Need::Class(Class::AddGroup)],
        premises: &[],
        conclusion: PatStmt {
            rel: Rel::Eq,
            sort: PatSort::S,
            nodes: &[PLUS, A, NEGATIVE, A, ZERO],
        },
    },
    proof: &[
        LemmaStep::Law("zero_add", PatSort::S, &[&[PLUS, A, NEGATIVE, A]], &[]),
        LemmaStep::Symm(1),
        LemmaStep::Law("neg_add_cancel", PatSort::S, &[&[NEGATIVE, A]], &[]),
        LemmaStep::Symm(3),
        LemmaStep::Refl(&[PLUS, A, NEGATIVE, A]),
        LemmaStep::Cong(Sym::Add, &[4, 5]),
        LemmaStep::Trans(2, 6),
        LemmaStep::Law(
            "add_assoc",
            PatSort::S,
            &[
                &[NEGATIVE, NEGATIVE, A],
                &[NEGATIVE, A],
                &[PLUS, A, NEGATIVE, A],
            ],
            &[],
        ),
        LemmaStep::Trans(7, 8),
        LemmaStep::Law(
            "add_assoc",
            PatSort::S,
            &[&[NEGATIVE, A], &[A], &[NEGATIVE, A]],
            &[],
        ),
        LemmaStep::Symm(10),
        LemmaStep::Law("neg_add_cancel", PatSort::S, &[&[A]], &[]),
        LemmaStep::Refl(&[NEGATIVE, A]),
        LemmaStep::Cong(Sym::Add, &[12, 13]),
        LemmaStep::Trans(11, 14),
        LemmaStep::Law("zero_add", PatSort::S, &[&[NEGATIVE, A]], &[]),
        LemmaStep::Trans(15, 16),
        LemmaStep::Refl(&[NEGATIVE, NEGATIVE, A]),
        LemmaStep::Cong(Sym::Add, &[18, 17]),
        LemmaStep::Trans(9, 19),
        LemmaStep::Trans(20, 3),
    ],
};

/// a * a⁻¹ = 1
pub const MUL_INV_CANCEL: LemmaRow = LemmaRow {
    row: Law {
        name: "mul_inv_cancel",
        needs: &[Need::Class(Class::Group)],
        premises: &[],
        conclusion: PatStmt {
            rel: Rel::Eq,
            sort: PatSort::S,
            nodes: &[TIMES, A, INVERSE, A, ONE],
        },
    },
    proof: &[
        LemmaStep::Law("one_mul", PatSort::S, &[&[TIMES, A, INVERSE, A]], &[]),
        LemmaStep::Symm(1),
        LemmaStep::Law("inv_mul_cancel", PatSort::S, &[&[INVERSE, A]], &[]),
        LemmaStep::Symm(3),
        LemmaStep::Refl(&[TIMES, A, INVERSE, A]),
        LemmaStep::Cong(Sym::Mul, &[4, 5]),
        LemmaStep::Trans(2, 6),
        LemmaStep::Law(
            "mul_assoc",
            PatSort::S,
            &[
                &[INVERSE, INVERSE, A],
                &[INVERSE, A],
                &[TIMES, A, INVERSE, A],
            ],
            &[],
        ),
        LemmaStep::Trans(7, 8),
        LemmaStep::Law(
            "mul_assoc",
            PatSort::S,
            &[&[INVERSE, A], &[A], &[INVERSE, A]],
            &[],
        ),
        LemmaStep::Symm(10),
        LemmaStep::Law("inv_mul_cancel", PatSort::S, &[&[A]], &[]),
        LemmaStep::Refl(&[INVERSE, A]),
        LemmaStep::Cong(Sym::Mul, &[12, 13]),
        LemmaStep::Trans(11, 14),
        LemmaStep::Law("one_mul", PatSort::S, &[&[INVERSE, A]], &[]),
        LemmaStep::Trans(15, 16),
        LemmaStep::Refl(&[INVERSE, INVERSE, A]),
        LemmaStep::Cong(Sym::Mul, &[18, 17]),
        LemmaStep::Trans(9, 19),
        LemmaStep::Trans(20, 3),
    ],
};

/// a⁻¹⁻¹ = a
pub const INV_INV: LemmaRow = LemmaRow {
    row: Law {
        name: "inv_inv",
        needs: &[Need::Class(Class::Group)],
        premises: &[],
        conclusion: PatStmt {
            rel: Rel::Eq,
            sort: PatSort::S,
            nodes: &[INVERSE, INVERSE, A, A],
        },
    },
    proof: &[
        LemmaStep::Law("mul_one", PatSort::S, &[&[INVERSE, INVERSE, A]], &[]),
        LemmaStep::Symm(1),
        LemmaStep::Law("inv_mul_cancel", PatSort::S, &[&[A]], &[]),
        LemmaStep::Symm(3),
        LemmaStep::Refl(&[INVERSE, INVERSE, A]),
        LemmaStep::Cong(Sym::Mul, &[5, 4]),
        LemmaStep::Trans(2, 6),
        LemmaStep::Law(
            "mul_assoc",
            PatSort::S,
            &[&[INVERSE, INVERSE, A], &[INVERSE, A], &[A]],
            &[],
        ),
        LemmaStep::Symm(8),
        LemmaStep::Trans(7, 9),
        LemmaStep::Law("inv_mul_cancel", PatSort::S, &[&[INVERSE, A]], &[]),
        LemmaStep::Refl(&[A]),
        LemmaStep::Cong(Sym::Mul, &[11, 12]),
        LemmaStep::Trans(10, 13),
        LemmaStep::Law("one_mul", PatSort::S, &[&[A]], &[]),
        LemmaStep::Trans(14, 15),
    ],
};

/// (a * b)⁻¹ = b⁻¹ * a⁻¹
pub const MUL_INV_REV: LemmaRow = LemmaRow {
    row: Law {
        name: "mul_inv_rev",
        needs: &[Need::Class(Class::Group)],
        premises: &[],
        conclusion: PatStmt {
            rel: Rel::Eq,
            sort: PatSort::S,
            nodes: &[INVERSE, TIMES, A, B, TIMES, INVERSE, B, INVERSE, A],
        },
    },
    proof: &[
        LemmaStep::Law(
            "mul_assoc",
            PatSort::S,
            &[&[A], &[B], &[TIMES, INVERSE, B, INVERSE, A]],
            &[],
        ),
        LemmaStep::Law(
            "mul_assoc",
            PatSort::S,
            &[&[B], &[INVERSE, B], &[INVERSE, A]],
            &[],
        ),
        LemmaStep::Symm(2),
        LemmaStep::Lemma("mul_inv_cancel", PatSort::S, &[&[B]], &[]),
        LemmaStep::Refl(&[INVERSE, A]),
        LemmaStep::Cong(Sym::Mul, &[4, 5]),
        LemmaStep::Trans(3, 6),
        LemmaStep::Law("one_mul", PatSort::S, &[&[INVERSE, A]], &[]),
        LemmaStep::Trans(7, 8),
        LemmaStep::Refl(&[A]),
        LemmaStep::Cong(Sym::Mul, &[10, 9]),
        LemmaStep::Trans(1, 11),
        LemmaStep::Lemma("mul_inv_cancel", PatSort::S, &[&[A]], &[]),
        LemmaStep::Trans(12, 13),
        LemmaStep::Law("mul_one", PatSort::S, &[&[INVERSE, TIMES, A, B]], &[]),
        LemmaStep::Symm(15),
        LemmaStep::Symm(14),
        LemmaStep::Refl(&[INVERSE, TIMES, A, B]),
        LemmaStep::Cong(Sym::Mul, &[18, 17]),
        LemmaStep::Trans(16, 19),
        LemmaStep::Law(
            "mul_assoc",
            PatSort::S,
            &[
                &[INVERSE, TIMES, A, B],
                &[TIMES, A, B],
                &[TIMES, INVERSE, B, INVERSE, A],
            ],
            &[],
        ),
        LemmaStep::Symm(21),
        LemmaStep::Trans(20, 22),
        LemmaStep::Law("inv_mul_cancel", PatSort::S, &[&[TIMES, A, B]], &[]),
        LemmaStep::Refl(&[TIMES, INVERSE, B, INVERSE, A]),
        LemmaStep::Cong(Sym::Mul, &[24, 25]),
        LemmaStep::Trans(23, 26),
        LemmaStep::Law(
            "one_mul",
            PatSort::S,
            &[&[TIMES, INVERSE, B, INVERSE, A]],
            &[],
        ),
        LemmaStep::Trans(27, 28),
    ],
};

/// -a * b = -(a * b)
pub const NEG_MUL: LemmaRow = LemmaRow {
    row: Law {
        name: "neg_mul",
        needs: &[Need::Class(Class::Ring)],
        premises: &[],
        conclusion: PatStmt {
            rel: Rel::Eq,
            sort: PatSort::S,
            nodes: &[TIMES, NEGATIVE, A, B, NEGATIVE, TIMES, A, B],
        },
    },
    proof: &[
        LemmaStep::Law("add_zero", PatSort::S, &[&[TIMES, NEGATIVE, A, B]], &[]),
        LemmaStep::Symm(1),
        LemmaStep::Lemma("add_neg_cancel", PatSort::S, &[&[TIMES, A, B]], &[]),
        LemmaStep::Symm(3),
        LemmaStep::Refl(&[TIMES, NEGATIVE, A, B]),
        LemmaStep::Cong(Sym::Add, &[5, 4]),
        LemmaStep::Trans(2, 6),
        LemmaStep::Law(
            "add_assoc",
            PatSort::S,
            &[
                &[TIMES, NEGATIVE, A, B],
                &[TIMES, A, B],
                &[NEGATIVE, TIMES, A, B],
            ],
            &[],
        ),
        LemmaStep::Symm(8),
        LemmaStep::Trans(7, 9),
        LemmaStep::Law(
            "right_distrib",
            PatSort::S,
            &[&[NEGATIVE, A], &[A], &[B]],
            &[],
        ),
        LemmaStep::Symm(11),
        LemmaStep::Law("neg_add_cancel", PatSort::S, &[&[A]], &[]),
        LemmaStep::Refl(&[B]),
        LemmaStep::Cong(Sym::Mul, &[13, 14]),
        LemmaStep::Trans(12, 15),
        LemmaStep::Law("zero_mul", PatSort::S, &[&[B]], &[]),
        LemmaStep::Trans(16, 17),
        LemmaStep::Refl(&[NEGATIVE, TIMES, A, B]),
        LemmaStep::Cong(Sym::Add, &[18, 19]),
        LemmaStep::Trans(10, 20),
        LemmaStep::Law("zero_add", PatSort::S, &[&[NEGATIVE, TIMES, A, B]], &[]),
        LemmaStep::Trans(21, 22),
    ],
};

/// where 0 < a and 0 < b: 0 < a + b
pub const ADD_POS: LemmaRow = LemmaRow {
    row: Law {
        name: "add_pos",
        needs: &[Need::Class(Class::IsStrictOrderedRing)],
        premises: &[
            PatStmt {
                rel: Rel::Lt,
                sort: PatSort::S,
                nodes: &[ZERO, A],
            },
            PatStmt {
                rel: Rel::Lt,
                sort: PatSort::S,
                nodes: &[ZERO, B],
            },
        ],
        conclusion: PatStmt {
            rel: Rel::Lt,
            sort: PatSort::S,
            nodes: &[ZERO, PLUS, A, B],
        },
    },
    proof: &[
        LemmaStep::Law(
            "add_lt_add",
            PatSort::S,
            &[&[ZERO], &[A], &[ZERO], &[B]],
            &[1, 2],
        ),
        LemmaStep::Law("zero_add", PatSort::S, &[&[ZERO]], &[]),
        LemmaStep::Refl(&[PLUS, A, B]),
        LemmaStep::Subst(3, 4, 5),
    ],
};

static FIRST_ROWS: [LemmaRow; 8] = [
    ADD_LEFT_COMM,
    MUL_LEFT_COMM,
    ADD_NEG_CANCEL,
    MUL_INV_CANCEL,
    INV_INV,
    MUL_INV_REV,
    NEG_MUL,
    ADD_POS,
];

/// The first lemmas, each proved from the laws and those before it.
pub fn first_lemmas() -> &'static [LemmaRow]
    ensures rows { map lemma_row_of result.now ≡ first_lemmas }
    ensures proved { all_may_join [] result.now ≡ true }
{
    &FIRST_ROWS
}
