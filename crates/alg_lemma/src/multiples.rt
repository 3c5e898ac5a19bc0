ghost use Rattle.std.specs.Prelude.{◌≡◌, map, true};
ghost use Rattle.alg_proof.specs.LemmaRows.{lemma_row_of};
ghost use Rattle.alg_lemma.specs.Proving.{all_may_join};
ghost use Rattle.alg_lemma.specs.CombinationLemmas.{through_combination_lemmas};
ghost use Rattle.alg_lemma.specs.MultipleLemmas.{multiple_lemmas};

use alg_law::law_words::{
    A, B, C, D, M, MULTIPLE, N, NATURAL_ONE, NATURAL_PLUS, NATURAL_TIMES, NATURAL_ZERO, NEGATIVE,
    PLUS, ZERO,
};
use alg_law::{Class, Law, Need, PatSort, PatStmt};
use alg_proof::{LemmaRow, LemmaStep};
use alg_terms::{Rel, Sym};

/// 1 • a = a
pub const ONE_NSMUL: LemmaRow = LemmaRow {
    row: Law {
        name: "one_nsmul",
        needs: &[Need::Class(Class::AddMonoid)],
        premises: &[],
        conclusion: PatStmt {
            rel: Rel::Eq,
            sort: PatSort::S,
            nodes: &[MULTIPLE, NATURAL_ONE, A, A],
        },
    },
    proof: &[
        LemmaStep::LitAdd(PatSort::Nat, 0, 1),
        LemmaStep::Symm(1),
        LemmaStep::Law("succ_nsmul", PatSort::S, &[&[A], &[NATURAL_ZERO]], &[]),
        LemmaStep::Law("zero_nsmul", PatSort::S, &[&[A]], &[]),
        LemmaStep::Law("zero_add", PatSort::S, &[&[A]], &[]),
        LemmaStep::Refl(&[A]),
        LemmaStep::Cong(Sym::Nsmul, &[2, 6]),
        LemmaStep::Trans(7, 3),
        LemmaStep::Cong(Sym::Add, &[4, 6]),
        LemmaStep::Trans(8, 9),
        LemmaStep::Trans(10, 5),
    ],
};

/// a = 0 + 1 • a
pub const ATOM_SUM: LemmaRow = LemmaRow {
    row: Law {
        name: "atom_sum",
        needs: &[Need::Class(Class::AddMonoid)],
        premises: &[],
        conclusion: PatStmt {
            rel: Rel::Eq,
            sort: PatSort::S,
            nodes: &[A, PLUS, ZERO, MULTIPLE, NATURAL_ONE, A],
        },
    },
    proof: &[
        LemmaStep::Law("zero_add", PatSort::S, &[&[MULTIPLE, NATURAL_ONE, A]], &[]),
        LemmaStep::Lemma("one_nsmul", PatSort::S, &[&[A]], &[]),
        LemmaStep::Trans(1, 2),
        LemmaStep::Symm(3),
    ],
};

/// n • 0 = 0
pub const NSMUL_ZERO: LemmaRow = LemmaRow {
    row: Law {
        name: "nsmul_zero",
        needs: &[Need::Class(Class::AddMonoid)],
        premises: &[],
        conclusion: PatStmt {
            rel: Rel::Eq,
            sort: PatSort::S,
            nodes: &[MULTIPLE, N, ZERO, ZERO],
        },
    },
    proof: &[
        LemmaStep::Law("zero_nsmul", PatSort::S, &[&[ZERO]], &[]),
        LemmaStep::Symm(1),
        LemmaStep::Law(
            "mul_nsmul",
            PatSort::S,
            &[&[ZERO], &[N], &[NATURAL_ZERO]],
            &[],
        ),
        LemmaStep::Symm(3),
        LemmaStep::Law("mul_zero", PatSort::Nat, &[&[N]], &[]),
        LemmaStep::Refl(&[N]),
        LemmaStep::Cong(Sym::Nsmul, &[6, 2]),
        LemmaStep::Trans(7, 4),
        LemmaStep::Refl(&[ZERO]),
        LemmaStep::Cong(Sym::Nsmul, &[5, 9]),
        LemmaStep::Trans(8, 10),
        LemmaStep::Trans(11, 1),
    ],
};

/// where (m + n) • a = b: m • a + n • a = b
pub const NSMUL_COLLECT: LemmaRow = LemmaRow {
    row: Law {
        name: "nsmul_collect",
        needs: &[Need::Class(Class::AddMonoid)],
        premises: &[PatStmt {
            rel: Rel::Eq,
            sort: PatSort::S,
            nodes: &[MULTIPLE, NATURAL_PLUS, M, N, A, B],
        }],
        conclusion: PatStmt {
            rel: Rel::Eq,
            sort: PatSort::S,
            nodes: &[PLUS, MULTIPLE, M, A, MULTIPLE, N, A, B],
        },
    },
    proof: &[
        LemmaStep::Law("add_nsmul", PatSort::S, &[&[A], &[M], &[N]], &[]),
        LemmaStep::Symm(2),
        LemmaStep::Trans(3, 1),
    ],
};

/// where (m * n) • a = b: m • n • a = b
pub const NSMUL_NSMUL: LemmaRow = LemmaRow {
    row: Law {
        name: "nsmul_nsmul",
        needs: &[Need::Class(Class::AddMonoid)],
        premises: &[PatStmt {
            rel: Rel::Eq,
            sort: PatSort::S,
            nodes: &[MULTIPLE, NATURAL_TIMES, M, N, A, B],
        }],
        conclusion: PatStmt {
            rel: Rel::Eq,
            sort: PatSort::S,
            nodes: &[MULTIPLE, M, MULTIPLE, N, A, B],
        },
    },
    proof: &[
        LemmaStep::Law("mul_nsmul", PatSort::S, &[&[A], &[M], &[N]], &[]),
        LemmaStep::Symm(2),
        LemmaStep::Trans(3, 1),
    ],
};

/// where n • a = c and n • b = d: n • (a + b) = c + d
pub const NSMUL_SUM: LemmaRow = LemmaRow {
    row: Law {
        name: "nsmul_sum",
        needs: &[Need::Class(Class::AddCommMonoid)],
        premises: &[
            PatStmt {
                rel: Rel::Eq,
                sort: PatSort::S,
                nodes: &[MULTIPLE, N, A, C],
            },
            PatStmt {
                rel: Rel::Eq,
                sort: PatSort::S,
                nodes: &[MULTIPLE, N, B, D],
            },
        ],
        conclusion: PatStmt {
            rel: Rel::Eq,
            sort: PatSort::S,
            nodes: &[MULTIPLE, N, PLUS, A, B, PLUS, C, D],
        },
    },
    proof: &[
        LemmaStep::Law("nsmul_add", PatSort::S, &[&[A], &[B], &[N]], &[]),
        LemmaStep::Cong(Sym::Add, &[1, 2]),
        LemmaStep::Trans(3, 4),
    ],
};

/// where n • a = b: n • -a = -b
pub const NSMUL_NEG: LemmaRow = LemmaRow {
    row: Law {
        name: "nsmul_neg",
        needs: &[Need::Class(Class::AddCommGroup)],
        premises: &[PatStmt {
            rel: Rel::Eq,
            sort: PatSort::S,
            nodes: &[MULTIPLE, N, A, B],
        }],
        conclusion: PatStmt {
            rel: Rel::Eq,
            sort: PatSort::S,
            nodes: &[MULTIPLE, N, NEGATIVE, A, NEGATIVE, B],
        },
    },
    proof: &[
        LemmaStep::Law("nsmul_add", PatSort::S, &[&[A], &[NEGATIVE, A], &[N]], &[]),
        LemmaStep::Symm(2),
        LemmaStep::Lemma("add_neg_cancel", PatSort::S, &[&[A]], &[]),
        LemmaStep::Lemma("nsmul_zero", PatSort::S, &[&[N]], &[]),
        LemmaStep::Refl(&[N]),
        LemmaStep::Cong(Sym::Nsmul, &[6, 4]),
        LemmaStep::Trans(3, 7),
        LemmaStep::Trans(8, 5),
        LemmaStep::Lemma(
            "eq_neg_of_add",
            PatSort::S,
            &[&[MULTIPLE, N, A], &[MULTIPLE, N, NEGATIVE, A]],
            &[9],
        ),
        LemmaStep::Cong(Sym::Neg, &[1]),
        LemmaStep::Trans(10, 11),
    ],
};

static MULTIPLES: [LemmaRow; 7] = [
    ONE_NSMUL,
    ATOM_SUM,
    NSMUL_ZERO,
    NSMUL_COLLECT,
    NSMUL_NSMUL,
    NSMUL_SUM,
    NSMUL_NEG,
];

/// Multiples by numbers of ℕ.
pub fn multiple_lemmas() -> &'static [LemmaRow]
    ensures rows { map lemma_row_of result.now ≡ multiple_lemmas }
    ensures proved { all_may_join through_combination_lemmas result.now ≡ true }
{
    &MULTIPLES
}
