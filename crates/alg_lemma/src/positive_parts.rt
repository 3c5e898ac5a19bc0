ghost use Rattle.std.specs.Prelude.{◌≡◌, map, true};
ghost use Rattle.alg_proof.specs.LemmaRows.{lemma_row_of};
ghost use Rattle.alg_lemma.specs.Proving.{all_may_join};
ghost use Rattle.alg_lemma.specs.WordLemmas.{through_word_lemmas};
ghost use Rattle.alg_lemma.specs.PositivityLemmas.{positivity_lemmas};

use alg_law::law_words::{
    A, B, INVERSE, M, N, NATURAL_PLUS, NATURAL_ZERO, OVER, PLUS, POWER, ZERO,
};
use alg_law::{Class, Law, Need, PatSort, PatStmt};
use alg_proof::{LemmaRow, LemmaStep};
use alg_terms::{Rel, Sym};

/// where 0 ≤ a and a ≠ 0: 0 < a
pub const POS_OF_NONNEG_NE: LemmaRow = LemmaRow {
    row: Law {
        name: "pos_of_nonneg_ne",
        needs: &[Need::Class(Class::IsStrictOrderedRing)],
        premises: &[
            PatStmt {
                rel: Rel::Le,
                sort: PatSort::S,
                nodes: &[ZERO, A],
            },
            PatStmt {
                rel: Rel::Ne,
                sort: PatSort::S,
                nodes: &[A, ZERO],
            },
        ],
        conclusion: PatStmt {
            rel: Rel::Lt,
            sort: PatSort::S,
            nodes: &[ZERO, A],
        },
    },
    proof: &[
        LemmaStep::Law("ne_symm", PatSort::S, &[&[A], &[ZERO]], &[2]),
        LemmaStep::Law("lt_of_le_of_ne", PatSort::S, &[&[ZERO], &[A]], &[1, 3]),
    ],
};

/// where 0 < a and 0 ≤ b: 0 < a + b
pub const ADD_POS_NONNEG: LemmaRow = LemmaRow {
    row: Law {
        name: "add_pos_nonneg",
        needs: &[Need::Class(Class::IsStrictOrderedRing)],
        premises: &[
            PatStmt {
                rel: Rel::Lt,
                sort: PatSort::S,
                nodes: &[ZERO, A],
            },
            PatStmt {
                rel: Rel::Le,
                sort: PatSort::S,
                nodes: &[ZERO, B],
            },
        ],
        conclusion: PatStmt {
            rel: Rel::Lt,
            sort: PatSort::S,
            nodes: &[ZERO, PLUS, A, B],
        },
    },
    proof: &[
        LemmaStep::Law(
            "add_lt_add_le",
            PatSort::S,
            &[&[ZERO], &[A], &[ZERO], &[B]],
            &[1, 2],
        ),
        LemmaStep::Law("zero_add", PatSort::S, &[&[ZERO]], &[]),
        LemmaStep::Refl(&[PLUS, A, B]),
        LemmaStep::Subst(3, 4, 5),
    ],
};

/// where 0 ≤ a and 0 < b: 0 < a + b
pub const ADD_NONNEG_POS: LemmaRow = LemmaRow {
    row: Law {
        name: "add_nonneg_pos",
        needs: &[Need::Class(Class::IsStrictOrderedRing)],
        premises: &[
            PatStmt {
                rel: Rel::Le,
                sort: PatSort::S,
                nodes: &[ZERO, A],
            },
            PatStmt {
                rel: Rel::Lt,
                sort: PatSort::S,
                nodes: &[ZERO, B],
            },
        ],
        conclusion: PatStmt {
            rel: Rel::Lt,
            sort: PatSort::S,
            nodes: &[ZERO, PLUS, A, B],
        },
    },
    proof: &[
        LemmaStep::Lemma("add_pos_nonneg", PatSort::S, &[&[B], &[A]], &[2, 1]),
        LemmaStep::Refl(&[ZERO]),
        LemmaStep::Law("add_comm", PatSort::S, &[&[B], &[A]], &[]),
        LemmaStep::Subst(3, 4, 5),
    ],
};

/// where 0 ≤ a and 0 ≤ b: 0 ≤ a + b
pub const ADD_NONNEG: LemmaRow = LemmaRow {
    row: Law {
        name: "add_nonneg",
        needs: &[Need::Class(Class::IsStrictOrderedRing)],
        premises: &[
            PatStmt {
                rel: Rel::Le,
                sort: PatSort::S,
                nodes: &[ZERO, A],
            },
            PatStmt {
                rel: Rel::Le,
                sort: PatSort::S,
                nodes: &[ZERO, B],
            },
        ],
        conclusion: PatStmt {
            rel: Rel::Le,
            sort: PatSort::S,
            nodes: &[ZERO, PLUS, A, B],
        },
    },
    proof: &[
        LemmaStep::Law(
            "add_le_add",
            PatSort::S,
            &[&[ZERO], &[A], &[ZERO], &[B]],
            &[1, 2],
        ),
        LemmaStep::Law("zero_add", PatSort::S, &[&[ZERO]], &[]),
        LemmaStep::Refl(&[PLUS, A, B]),
        LemmaStep::Subst(3, 4, 5),
    ],
};

/// 0 < a ^ 0
pub const POW_ZERO_POS: LemmaRow = LemmaRow {
    row: Law {
        name: "pow_zero_pos",
        needs: &[Need::Class(Class::IsStrictOrderedRing)],
        premises: &[],
        conclusion: PatStmt {
            rel: Rel::Lt,
            sort: PatSort::S,
            nodes: &[ZERO, POWER, A, NATURAL_ZERO],
        },
    },
    proof: &[
        LemmaStep::Law("zero_lt_one", PatSort::S, &[], &[]),
        LemmaStep::Refl(&[ZERO]),
        LemmaStep::Law("pow_zero", PatSort::S, &[&[A]], &[]),
        LemmaStep::Symm(3),
        LemmaStep::Subst(1, 2, 4),
    ],
};

/// where m + m = n: 0 ≤ a ^ n
pub const EVEN_POW_NONNEG: LemmaRow = LemmaRow {
    row: Law {
        name: "even_pow_nonneg",
        needs: &[
            Need::Class(Class::Ring),
            Need::Class(Class::IsStrictOrderedRing),
        ],
        premises: &[PatStmt {
            rel: Rel::Eq,
            sort: PatSort::Nat,
            nodes: &[NATURAL_PLUS, M, M, N],
        }],
        conclusion: PatStmt {
            rel: Rel::Le,
            sort: PatSort::S,
            nodes: &[ZERO, POWER, A, N],
        },
    },
    proof: &[
        LemmaStep::Law("mul_self_nonneg", PatSort::S, &[&[POWER, A, M]], &[]),
        LemmaStep::Refl(&[ZERO]),
        LemmaStep::Law("pow_add", PatSort::S, &[&[A], &[M], &[M]], &[]),
        LemmaStep::Symm(4),
        LemmaStep::Refl(&[A]),
        LemmaStep::Cong(Sym::Npow, &[6, 1]),
        LemmaStep::Trans(5, 7),
        LemmaStep::Subst(2, 3, 8),
    ],
};

/// where m + m = n and a ≠ 0: 0 < a ^ n
pub const EVEN_POW_POS: LemmaRow = LemmaRow {
    row: Law {
        name: "even_pow_pos",
        needs: &[
            Need::Class(Class::Ring),
            Need::Class(Class::IsStrictOrderedRing),
        ],
        premises: &[
            PatStmt {
                rel: Rel::Eq,
                sort: PatSort::Nat,
                nodes: &[NATURAL_PLUS, M, M, N],
            },
            PatStmt {
                rel: Rel::Ne,
                sort: PatSort::S,
                nodes: &[A, ZERO],
            },
        ],
        conclusion: PatStmt {
            rel: Rel::Lt,
            sort: PatSort::S,
            nodes: &[ZERO, POWER, A, N],
        },
    },
    proof: &[
        LemmaStep::Lemma("even_pow_nonneg", PatSort::S, &[&[A], &[M], &[N]], &[1]),
        LemmaStep::Law("pow_ne_zero_ord", PatSort::S, &[&[A], &[N]], &[2]),
        LemmaStep::Lemma("pos_of_nonneg_ne", PatSort::S, &[&[POWER, A, N]], &[3, 4]),
    ],
};

/// where 0 ≤ a and 0 ≤ b: 0 ≤ a / b
pub const DIV_NONNEG: LemmaRow = LemmaRow {
    row: Law {
        name: "div_nonneg",
        needs: &[
            Need::Class(Class::Field),
            Need::Class(Class::IsStrictOrderedRing),
        ],
        premises: &[
            PatStmt {
                rel: Rel::Le,
                sort: PatSort::S,
                nodes: &[ZERO, A],
            },
            PatStmt {
                rel: Rel::Le,
                sort: PatSort::S,
                nodes: &[ZERO, B],
            },
        ],
        conclusion: PatStmt {
            rel: Rel::Le,
            sort: PatSort::S,
            nodes: &[ZERO, OVER, A, B],
        },
    },
    proof: &[
        LemmaStep::Law("inv_nonneg", PatSort::S, &[&[B]], &[2]),
        LemmaStep::Law("mul_nonneg", PatSort::S, &[&[A], &[INVERSE, B]], &[1, 3]),
        LemmaStep::Refl(&[ZERO]),
        LemmaStep::Law("div_eq_mul_inv0", PatSort::S, &[&[A], &[B]], &[]),
        LemmaStep::Symm(6),
        LemmaStep::Subst(4, 5, 7),
    ],
};

static POSITIVE_PARTS: [LemmaRow; 8] = [
    POS_OF_NONNEG_NE,
    ADD_POS_NONNEG,
    ADD_NONNEG_POS,
    ADD_NONNEG,
    POW_ZERO_POS,
    EVEN_POW_NONNEG,
    EVEN_POW_POS,
    DIV_NONNEG,
];

/// What is positive, or at least 0.
pub fn positivity_lemmas() -> &'static [LemmaRow]
    ensures rows { map lemma_row_of result.now ≡ positivity_lemmas }
    ensures proved { all_may_join through_word_lemmas result.now ≡ true }
{
    &POSITIVE_PARTS
}
