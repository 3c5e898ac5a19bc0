ghost use Rattle.std.specs.Prelude.{◌≡◌, map, true};
ghost use Rattle.alg_proof.specs.LemmaRows.{lemma_row_of};
ghost use Rattle.alg_lemma.specs.Proving.{all_may_join};
ghost use Rattle.alg_lemma.specs.JoinedInequalityLemmas.{through_joined_inequality_lemmas};
ghost use Rattle.alg_lemma.specs.RestLemmas.{rest_lemmas};

use alg_law::law_words::{A, B, C, D, MINUS, NEGATIVE, PLUS, ZERO};
use alg_law::{Class, Law, Need, PatSort, PatStmt};
use alg_proof::{LemmaRow, LemmaStep};
use alg_terms::{Rel, Sym};

/// a - b + b = a
pub const SUB_ADD_CANCEL: LemmaRow = LemmaRow {
    row: Law {
        name: "sub_add_cancel",
        needs: &[Need::Class(Class::AddGroup)],
        premises: &[],
        conclusion: PatStmt {
            rel: Rel::Eq,
            sort: PatSort::S,
            nodes: &[PLUS, MINUS, A, B, B, A],
        },
    },
    proof: &[
        LemmaStep::Law("sub_eq_add_neg", PatSort::S, &[&[A], &[B]], &[]),
        LemmaStep::Law("add_assoc", PatSort::S, &[&[A], &[NEGATIVE, B], &[B]], &[]),
        LemmaStep::Law("neg_add_cancel", PatSort::S, &[&[B]], &[]),
        LemmaStep::Law("add_zero", PatSort::S, &[&[A]], &[]),
        LemmaStep::Refl(&[B]),
        LemmaStep::Cong(Sym::Add, &[1, 5]),
        LemmaStep::Trans(6, 2),
        LemmaStep::Refl(&[A]),
        LemmaStep::Cong(Sym::Add, &[8, 3]),
        LemmaStep::Trans(7, 9),
        LemmaStep::Trans(10, 4),
    ],
};

/// where a - b ≤ 0: a ≤ b
pub const LE_OF_SUB: LemmaRow = LemmaRow {
    row: Law {
        name: "le_of_sub",
        needs: &[
            Need::Class(Class::Ring),
            Need::Class(Class::IsStrictOrderedRing),
        ],
        premises: &[PatStmt {
            rel: Rel::Le,
            sort: PatSort::S,
            nodes: &[MINUS, A, B, ZERO],
        }],
        conclusion: PatStmt {
            rel: Rel::Le,
            sort: PatSort::S,
            nodes: &[A, B],
        },
    },
    proof: &[
        LemmaStep::Law("le_refl", PatSort::S, &[&[B]], &[]),
        LemmaStep::Law(
            "add_le_add",
            PatSort::S,
            &[&[MINUS, A, B], &[ZERO], &[B], &[B]],
            &[1, 2],
        ),
        LemmaStep::Lemma("sub_add_cancel", PatSort::S, &[&[A], &[B]], &[]),
        LemmaStep::Law("zero_add", PatSort::S, &[&[B]], &[]),
        LemmaStep::Subst(3, 4, 5),
    ],
};

/// where a - b < 0: a < b
pub const LT_OF_SUB: LemmaRow = LemmaRow {
    row: Law {
        name: "lt_of_sub",
        needs: &[
            Need::Class(Class::Ring),
            Need::Class(Class::IsStrictOrderedRing),
        ],
        premises: &[PatStmt {
            rel: Rel::Lt,
            sort: PatSort::S,
            nodes: &[MINUS, A, B, ZERO],
        }],
        conclusion: PatStmt {
            rel: Rel::Lt,
            sort: PatSort::S,
            nodes: &[A, B],
        },
    },
    proof: &[
        LemmaStep::Law("le_refl", PatSort::S, &[&[B]], &[]),
        LemmaStep::Law(
            "add_lt_add_le",
            PatSort::S,
            &[&[MINUS, A, B], &[ZERO], &[B], &[B]],
            &[1, 2],
        ),
        LemmaStep::Lemma("sub_add_cancel", PatSort::S, &[&[A], &[B]], &[]),
        LemmaStep::Law("zero_add", PatSort::S, &[&[B]], &[]),
        LemmaStep::Subst(3, 4, 5),
    ],
};

/// where a - b - (c - d) ≤ 0 and c ≤ d: a ≤ b
pub const LE_OF_COMBO: LemmaRow = LemmaRow {
    row: Law {
        name: "le_of_combo",
        needs: &[
            Need::Class(Class::Ring),
            Need::Class(Class::IsStrictOrderedRing),
        ],
        premises: &[
            PatStmt {
                rel: Rel::Le,
                sort: PatSort::S,
                nodes: &[MINUS, MINUS, A, B, MINUS, C, D, ZERO],
            },
            PatStmt {
                rel: Rel::Le,
                sort: PatSort::S,
                nodes: &[C, D],
            },
        ],
        conclusion: PatStmt {
            rel: Rel::Le,
            sort: PatSort::S,
            nodes: &[A, B],
        },
    },
    proof: &[
        LemmaStep::Refl(&[D]),
        LemmaStep::Lemma("sub_le_eq", PatSort::S, &[&[C], &[D], &[D], &[D]], &[2, 3]),
        LemmaStep::Refl(&[MINUS, C, D]),
        LemmaStep::Lemma("sub_self_of", PatSort::S, &[&[D], &[D]], &[3]),
        LemmaStep::Subst(4, 5, 6),
        LemmaStep::Law(
            "add_le_add",
            PatSort::S,
            &[
                &[MINUS, MINUS, A, B, MINUS, C, D],
                &[ZERO],
                &[MINUS, C, D],
                &[ZERO],
            ],
            &[1, 7],
        ),
        LemmaStep::Lemma(
            "sub_add_cancel",
            PatSort::S,
            &[&[MINUS, A, B], &[MINUS, C, D]],
            &[],
        ),
        LemmaStep::Law("zero_add", PatSort::S, &[&[ZERO]], &[]),
        LemmaStep::Subst(8, 9, 10),
        LemmaStep::Lemma("le_of_sub", PatSort::S, &[&[A], &[B]], &[11]),
    ],
};

/// where a - b - (c - d) < 0 and c ≤ d: a < b
pub const LT_OF_COMBO: LemmaRow = LemmaRow {
    row: Law {
        name: "lt_of_combo",
        needs: &[
            Need::Class(Class::Ring),
            Need::Class(Class::IsStrictOrderedRing),
        ],
        premises: &[
            PatStmt {
                rel: Rel::Lt,
                sort: PatSort::S,
                nodes: &[MINUS, MINUS, A, B, MINUS, C, D, ZERO],
            },
            PatStmt {
                rel: Rel::Le,
                sort: PatSort::S,
                nodes: &[C, D],
            },
        ],
        conclusion: PatStmt {
            rel: Rel::Lt,
            sort: PatSort::S,
            nodes: &[A, B],
        },
    },
    proof: &[
        LemmaStep::Refl(&[D]),
        LemmaStep::Lemma("sub_le_eq", PatSort::S, &[&[C], &[D], &[D], &[D]], &[2, 3]),
        LemmaStep::Refl(&[MINUS, C, D]),
        LemmaStep::Lemma("sub_self_of", PatSort::S, &[&[D], &[D]], &[3]),
        LemmaStep::Subst(4, 5, 6),
        LemmaStep::Law(
            "add_lt_add_le",
            PatSort::S,
            &[
                &[MINUS, MINUS, A, B, MINUS, C, D],
                &[ZERO],
                &[MINUS, C, D],
                &[ZERO],
            ],
            &[1, 7],
        ),
        LemmaStep::Lemma(
            "sub_add_cancel",
            PatSort::S,
            &[&[MINUS, A, B], &[MINUS, C, D]],
            &[],
        ),
        LemmaStep::Law("zero_add", PatSort::S, &[&[ZERO]], &[]),
        LemmaStep::Subst(8, 9, 10),
        LemmaStep::Lemma("lt_of_sub", PatSort::S, &[&[A], &[B]], &[11]),
    ],
};

/// where a - b - (c - d) ≤ 0 and c < d: a < b
pub const LT_OF_COMBO_LT: LemmaRow = LemmaRow {
    row: Law {
        name: "lt_of_combo_lt",
        needs: &[
            Need::Class(Class::Ring),
            Need::Class(Class::IsStrictOrderedRing),
        ],
        premises: &[
            PatStmt {
                rel: Rel::Le,
                sort: PatSort::S,
                nodes: &[MINUS, MINUS, A, B, MINUS, C, D, ZERO],
            },
            PatStmt {
                rel: Rel::Lt,
                sort: PatSort::S,
                nodes: &[C, D],
            },
        ],
        conclusion: PatStmt {
            rel: Rel::Lt,
            sort: PatSort::S,
            nodes: &[A, B],
        },
    },
    proof: &[
        LemmaStep::Refl(&[D]),
        LemmaStep::Lemma("sub_lt_eq", PatSort::S, &[&[C], &[D], &[D], &[D]], &[2, 3]),
        LemmaStep::Refl(&[MINUS, C, D]),
        LemmaStep::Lemma("sub_self_of", PatSort::S, &[&[D], &[D]], &[3]),
        LemmaStep::Subst(4, 5, 6),
        LemmaStep::Lemma(
            "add_le_add_lt",
            PatSort::S,
            &[
                &[MINUS, MINUS, A, B, MINUS, C, D],
                &[ZERO],
                &[MINUS, C, D],
                &[ZERO],
            ],
            &[1, 7],
        ),
        LemmaStep::Lemma(
            "sub_add_cancel",
            PatSort::S,
            &[&[MINUS, A, B], &[MINUS, C, D]],
            &[],
        ),
        LemmaStep::Law("zero_add", PatSort::S, &[&[ZERO]], &[]),
        LemmaStep::Subst(8, 9, 10),
        LemmaStep::Lemma("lt_of_sub", PatSort::S, &[&[A], &[B]], &[11]),
    ],
};

static RESTS: [LemmaRow; 6] = [
    SUB_ADD_CANCEL,
    LE_OF_SUB,
    LT_OF_SUB,
    LE_OF_COMBO,
    LT_OF_COMBO,
    LT_OF_COMBO_LT,
];

/// An inequality from another one and what is left over.
pub fn rest_lemmas() -> &'static [LemmaRow]
    ensures rows { map lemma_row_of result.now ≡ rest_lemmas }
    ensures proved { all_may_join through_joined_inequality_lemmas result.now ≡ true }
{
    &RESTS
}
