ghost use Rattle.std.specs.Prelude.{◌≡◌, map, true};
ghost use Rattle.alg_proof.specs.LemmaRows.{lemma_row_of};
ghost use Rattle.alg_lemma.specs.Proving.{all_may_join};
ghost use Rattle.alg_lemma.specs.FractionPowerLemmas.{through_fraction_power_lemmas};
ghost use Rattle.alg_lemma.specs.InequationLemmas.{inequation_lemmas};

use alg_law::law_words::{A, B, C, INVERSE, NEGATIVE, PLUS, TIMES, ZERO};
use alg_law::{Class, Law, Need, PatSort, PatStmt};
use alg_proof::{LemmaRow, LemmaStep};
use alg_terms::{Rel, Sym};

/// where a ≠ b: -a ≠ -b
pub const NEG_NE_NEG: LemmaRow = LemmaRow {
    row: Law {
        name: "neg_ne_neg",
        needs: &[Need::Class(Class::AddCommGroup)],
        premises: &[PatStmt {
            rel: Rel::Ne,
            sort: PatSort::S,
            nodes: &[A, B],
        }],
        conclusion: PatStmt {
            rel: Rel::Ne,
            sort: PatSort::S,
            nodes: &[NEGATIVE, A, NEGATIVE, B],
        },
    },
    proof: &[
        LemmaStep::Law("ne_symm", PatSort::S, &[&[A], &[B]], &[1]),
        LemmaStep::Law(
            "add_right_ne",
            PatSort::S,
            &[&[B], &[A], &[PLUS, NEGATIVE, A, NEGATIVE, B]],
            &[2],
        ),
        LemmaStep::Lemma(
            "add_add_neg_cancel",
            PatSort::S,
            &[&[B], &[NEGATIVE, A]],
            &[],
        ),
        LemmaStep::Lemma(
            "add_neg_cancel_left",
            PatSort::S,
            &[&[A], &[NEGATIVE, B]],
            &[],
        ),
        LemmaStep::Subst(3, 4, 5),
    ],
};

/// where a + b = c and c ≠ 0: -a ≠ b
pub const NEG_NE_POS: LemmaRow = LemmaRow {
    row: Law {
        name: "neg_ne_pos",
        needs: &[Need::Class(Class::AddCommGroup)],
        premises: &[
            PatStmt {
                rel: Rel::Eq,
                sort: PatSort::S,
                nodes: &[PLUS, A, B, C],
            },
            PatStmt {
                rel: Rel::Ne,
                sort: PatSort::S,
                nodes: &[C, ZERO],
            },
        ],
        conclusion: PatStmt {
            rel: Rel::Ne,
            sort: PatSort::S,
            nodes: &[NEGATIVE, A, B],
        },
    },
    proof: &[
        LemmaStep::Law("ne_symm", PatSort::S, &[&[C], &[ZERO]], &[2]),
        LemmaStep::Law(
            "add_right_ne",
            PatSort::S,
            &[&[ZERO], &[C], &[NEGATIVE, A]],
            &[3],
        ),
        LemmaStep::Symm(1),
        LemmaStep::Law("add_assoc", PatSort::S, &[&[A], &[B], &[NEGATIVE, A]], &[]),
        LemmaStep::Lemma("add_add_neg_cancel", PatSort::S, &[&[A], &[B]], &[]),
        LemmaStep::Refl(&[NEGATIVE, A]),
        LemmaStep::Cong(Sym::Add, &[5, 8]),
        LemmaStep::Trans(9, 6),
        LemmaStep::Trans(10, 7),
        LemmaStep::Law("zero_add", PatSort::S, &[&[NEGATIVE, A]], &[]),
        LemmaStep::Subst(4, 12, 11),
    ],
};

/// where a + b = c and c ≠ 0: b ≠ -a
pub const POS_NE_NEG: LemmaRow = LemmaRow {
    row: Law {
        name: "pos_ne_neg",
        needs: &[Need::Class(Class::AddCommGroup)],
        premises: &[
            PatStmt {
                rel: Rel::Eq,
                sort: PatSort::S,
                nodes: &[PLUS, A, B, C],
            },
            PatStmt {
                rel: Rel::Ne,
                sort: PatSort::S,
                nodes: &[C, ZERO],
            },
        ],
        conclusion: PatStmt {
            rel: Rel::Ne,
            sort: PatSort::S,
            nodes: &[B, NEGATIVE, A],
        },
    },
    proof: &[
        LemmaStep::Lemma("neg_ne_pos", PatSort::S, &[&[A], &[B], &[C]], &[1, 2]),
        LemmaStep::Law("ne_symm", PatSort::S, &[&[NEGATIVE, A], &[B]], &[3]),
    ],
};

/// where a * c ≠ b * c and c ≠ 0: a ≠ b
pub const NE_OF_MUL: LemmaRow = LemmaRow {
    row: Law {
        name: "ne_of_mul",
        needs: &[Need::Class(Class::Field)],
        premises: &[
            PatStmt {
                rel: Rel::Ne,
                sort: PatSort::S,
                nodes: &[TIMES, A, C, TIMES, B, C],
            },
            PatStmt {
                rel: Rel::Ne,
                sort: PatSort::S,
                nodes: &[C, ZERO],
            },
        ],
        conclusion: PatStmt {
            rel: Rel::Ne,
            sort: PatSort::S,
            nodes: &[A, B],
        },
    },
    proof: &[
        LemmaStep::Law("inv_ne_zero", PatSort::S, &[&[C]], &[2]),
        LemmaStep::Law(
            "mul_right_ne",
            PatSort::S,
            &[&[TIMES, A, C], &[TIMES, B, C], &[INVERSE, C]],
            &[1, 3],
        ),
        LemmaStep::Lemma("mul_inv_cancel_right0", PatSort::S, &[&[A], &[C]], &[2]),
        LemmaStep::Lemma("mul_inv_cancel_right0", PatSort::S, &[&[B], &[C]], &[2]),
        LemmaStep::Subst(4, 5, 6),
    ],
};

/// where 0 < a: a ≠ 0
pub const NE_ZERO_OF_POS: LemmaRow = LemmaRow {
    row: Law {
        name: "ne_zero_of_pos",
        needs: &[Need::Class(Class::IsStrictOrderedRing)],
        premises: &[PatStmt {
            rel: Rel::Lt,
            sort: PatSort::S,
            nodes: &[ZERO, A],
        }],
        conclusion: PatStmt {
            rel: Rel::Ne,
            sort: PatSort::S,
            nodes: &[A, ZERO],
        },
    },
    proof: &[
        LemmaStep::Law("ne_of_lt", PatSort::S, &[&[ZERO], &[A]], &[1]),
        LemmaStep::Law("ne_symm", PatSort::S, &[&[ZERO], &[A]], &[2]),
    ],
};

static INEQUATIONS: [LemmaRow; 5] = [
    NEG_NE_NEG,
    NEG_NE_POS,
    POS_NE_NEG,
    NE_OF_MUL,
    NE_ZERO_OF_POS,
];

/// What is unequal.
pub fn inequation_lemmas() -> &'static [LemmaRow]
    ensures rows { map lemma_row_of result.now ≡ inequation_lemmas }
    ensures proved { all_may_join through_fraction_power_lemmas result.now ≡ true }
{
    &INEQUATIONS
}
