ghost use Rattle.std.specs.Prelude.{◌≡◌, map, true};
ghost use Rattle.alg_proof.specs.LemmaRows.{lemma_row_of};
ghost use Rattle.alg_lemma.specs.Proving.{all_may_join};
ghost use Rattle.alg_lemma.specs.RearrangingLemmas.{through_rearranging_lemmas};
ghost use Rattle.alg_lemma.specs.NegationLemmas.{negation_lemmas};

use alg_law::law_words::{A, B, C, NEGATIVE, PLUS, ZERO};
use alg_law::{Class, Law, Need, PatSort, PatStmt};
use alg_proof::{LemmaRow, LemmaStep};
use alg_terms::{Rel, Sym};

/// where a + b = 0: b = -a
pub const EQ_NEG_OF_ADD: LemmaRow = LemmaRow {
    row: Law {
        name: "eq_neg_of_add",
        needs: &[Need::Class(Class::AddGroup)],
        premises: &[PatStmt {
            rel: Rel::Eq,
            sort: PatSort::S,
            nodes: &[PLUS, A, B, ZERO],
        }],
        conclusion: PatStmt {
            rel: Rel::Eq,
            sort: PatSort::S,
            nodes: &[B, NEGATIVE, A],
        },
    },
    proof: &[
        LemmaStep::Law("zero_add", PatSort::S, &[&[B]], &[]),
        LemmaStep::Symm(2),
        LemmaStep::Law("neg_add_cancel", PatSort::S, &[&[A]], &[]),
        LemmaStep::Symm(4),
        LemmaStep::Law("add_assoc", PatSort::S, &[&[NEGATIVE, A], &[A], &[B]], &[]),
        LemmaStep::Law("add_zero", PatSort::S, &[&[NEGATIVE, A]], &[]),
        LemmaStep::Refl(&[B]),
        LemmaStep::Cong(Sym::Add, &[5, 8]),
        LemmaStep::Trans(9, 6),
        LemmaStep::Refl(&[NEGATIVE, A]),
        LemmaStep::Cong(Sym::Add, &[11, 1]),
        LemmaStep::Trans(10, 12),
        LemmaStep::Trans(13, 7),
        LemmaStep::Trans(3, 14),
    ],
};

/// -(-a) = a
pub const NEG_NEG: LemmaRow = LemmaRow {
    row: Law {
        name: "neg_neg",
        needs: &[Need::Class(Class::AddGroup)],
        premises: &[],
        conclusion: PatStmt {
            rel: Rel::Eq,
            sort: PatSort::S,
            nodes: &[NEGATIVE, NEGATIVE, A, A],
        },
    },
    proof: &[
        LemmaStep::Law("neg_add_cancel", PatSort::S, &[&[A]], &[]),
        LemmaStep::Lemma("eq_neg_of_add", PatSort::S, &[&[NEGATIVE, A], &[A]], &[1]),
        LemmaStep::Symm(2),
    ],
};

/// -0 = 0
pub const NEG_ZERO: LemmaRow = LemmaRow {
    row: Law {
        name: "neg_zero",
        needs: &[Need::Class(Class::AddGroup)],
        premises: &[],
        conclusion: PatStmt {
            rel: Rel::Eq,
            sort: PatSort::S,
            nodes: &[NEGATIVE, ZERO, ZERO],
        },
    },
    proof: &[
        LemmaStep::Law("zero_add", PatSort::S, &[&[ZERO]], &[]),
        LemmaStep::Lemma("eq_neg_of_add", PatSort::S, &[&[ZERO], &[ZERO]], &[1]),
        LemmaStep::Symm(2),
    ],
};

/// -a + -b = -(a + b)
pub const NEG_ADD_NEG: LemmaRow = LemmaRow {
    row: Law {
        name: "neg_add_neg",
        needs: &[Need::Class(Class::AddCommGroup)],
        premises: &[],
        conclusion: PatStmt {
            rel: Rel::Eq,
            sort: PatSort::S,
            nodes: &[PLUS, NEGATIVE, A, NEGATIVE, B, NEGATIVE, PLUS, A, B],
        },
    },
    proof: &[
        LemmaStep::Lemma(
            "add_add_add_comm",
            PatSort::S,
            &[&[A], &[B], &[NEGATIVE, A], &[NEGATIVE, B]],
            &[],
        ),
        LemmaStep::Lemma("add_neg_cancel", PatSort::S, &[&[A]], &[]),
        LemmaStep::Lemma("add_neg_cancel", PatSort::S, &[&[B]], &[]),
        LemmaStep::Law("zero_add", PatSort::S, &[&[ZERO]], &[]),
        LemmaStep::Refl(&[PLUS, B, NEGATIVE, B]),
        LemmaStep::Cong(Sym::Add, &[2, 5]),
        LemmaStep::Refl(&[ZERO]),
        LemmaStep::Cong(Sym::Add, &[7, 3]),
        LemmaStep::Trans(6, 8),
        LemmaStep::Trans(9, 4),
        LemmaStep::Trans(1, 10),
        LemmaStep::Lemma(
            "eq_neg_of_add",
            PatSort::S,
            &[&[PLUS, A, B], &[PLUS, NEGATIVE, A, NEGATIVE, B]],
            &[11],
        ),
    ],
};

/// where a + b = c: -a + -b = -c
pub const NEG_ADD_NEG_LIT: LemmaRow = LemmaRow {
    row: Law {
        name: "neg_add_neg_lit",
        needs: &[Need::Class(Class::AddCommGroup)],
        premises: &[PatStmt {
            rel: Rel::Eq,
            sort: PatSort::S,
            nodes: &[PLUS, A, B, C],
        }],
        conclusion: PatStmt {
            rel: Rel::Eq,
            sort: PatSort::S,
            nodes: &[PLUS, NEGATIVE, A, NEGATIVE, B, NEGATIVE, C],
        },
    },
    proof: &[
        LemmaStep::Lemma("neg_add_neg", PatSort::S, &[&[A], &[B]], &[]),
        LemmaStep::Cong(Sym::Neg, &[1]),
        LemmaStep::Trans(2, 3),
    ],
};

/// where c + b = a: a + -b = c
pub const ADD_NEG_POS: LemmaRow = LemmaRow {
    row: Law {
        name: "add_neg_pos",
        needs: &[Need::Class(Class::AddGroup)],
        premises: &[PatStmt {
            rel: Rel::Eq,
            sort: PatSort::S,
            nodes: &[PLUS, C, B, A],
        }],
        conclusion: PatStmt {
            rel: Rel::Eq,
            sort: PatSort::S,
            nodes: &[PLUS, A, NEGATIVE, B, C],
        },
    },
    proof: &[
        LemmaStep::Symm(1),
        LemmaStep::Law("add_assoc", PatSort::S, &[&[C], &[B], &[NEGATIVE, B]], &[]),
        LemmaStep::Lemma("add_neg_cancel", PatSort::S, &[&[B]], &[]),
        LemmaStep::Law("add_zero", PatSort::S, &[&[C]], &[]),
        LemmaStep::Refl(&[NEGATIVE, B]),
        LemmaStep::Cong(Sym::Add, &[2, 6]),
        LemmaStep::Trans(7, 3),
        LemmaStep::Refl(&[C]),
        LemmaStep::Cong(Sym::Add, &[9, 4]),
        LemmaStep::Trans(8, 10),
        LemmaStep::Trans(11, 5),
    ],
};

/// where a + c = b: a + -b = -c
pub const ADD_NEG_NEG: LemmaRow = LemmaRow {
    row: Law {
        name: "add_neg_neg",
        needs: &[Need::Class(Class::AddCommGroup)],
        premises: &[PatStmt {
            rel: Rel::Eq,
            sort: PatSort::S,
            nodes: &[PLUS, A, C, B],
        }],
        conclusion: PatStmt {
            rel: Rel::Eq,
            sort: PatSort::S,
            nodes: &[PLUS, A, NEGATIVE, B, NEGATIVE, C],
        },
    },
    proof: &[
        LemmaStep::Law("add_assoc", PatSort::S, &[&[C], &[A], &[NEGATIVE, B]], &[]),
        LemmaStep::Symm(2),
        LemmaStep::Law("add_comm", PatSort::S, &[&[C], &[A]], &[]),
        LemmaStep::Lemma("add_neg_cancel", PatSort::S, &[&[B]], &[]),
        LemmaStep::Refl(&[NEGATIVE, B]),
        LemmaStep::Cong(Sym::Add, &[4, 6]),
        LemmaStep::Trans(3, 7),
        LemmaStep::Cong(Sym::Add, &[1, 6]),
        LemmaStep::Trans(8, 9),
        LemmaStep::Trans(10, 5),
        LemmaStep::Lemma(
            "eq_neg_of_add",
            PatSort::S,
            &[&[C], &[PLUS, A, NEGATIVE, B]],
            &[11],
        ),
    ],
};

static NEGATIONS: [LemmaRow; 7] = [
    EQ_NEG_OF_ADD,
    NEG_NEG,
    NEG_ZERO,
    NEG_ADD_NEG,
    NEG_ADD_NEG_LIT,
    ADD_NEG_POS,
    ADD_NEG_NEG,
];

/// What is the negation of what, and sums with one.
pub fn negation_lemmas() -> &'static [LemmaRow]
    ensures rows { map lemma_row_of result.now ≡ negation_lemmas }
    ensures proved { all_may_join through_rearranging_lemmas result.now ≡ true }
{
    &NEGATIONS
}
