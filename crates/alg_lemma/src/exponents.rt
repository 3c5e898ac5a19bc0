ghost use Rattle.std.specs.Prelude.{◌≡◌, map, true};
ghost use Rattle.alg_proof.specs.LemmaRows.{lemma_row_of};
ghost use Rattle.alg_lemma.specs.Proving.{all_may_join};
ghost use Rattle.alg_lemma.specs.RestLemmas.{through_rest_lemmas};
ghost use Rattle.alg_lemma.specs.ExponentLemmas.{exponent_lemmas};

use alg_law::law_words::{
    A, B, C, D, M, N, NATURAL_ONE, NATURAL_PLUS, NATURAL_TIMES, NATURAL_ZERO, ONE, PLUS, POWER,
    TIMES, ZERO,
};
use alg_law::{Class, Law, Need, PatSort, PatStmt};
use alg_proof::{LemmaRow, LemmaStep};
use alg_terms::{Rel, Sym};

/// where a ^ m = b, a ^ n = c and b * c = d: a ^ (m + n) = d
pub const EXP_NEXT: LemmaRow = LemmaRow {
    row: Law {
        name: "exp_next",
        needs: &[Need::Class(Class::Monoid)],
        premises: &[
            PatStmt {
                rel: Rel::Eq,
                sort: PatSort::S,
                nodes: &[POWER, A, M, B],
            },
            PatStmt {
                rel: Rel::Eq,
                sort: PatSort::S,
                nodes: &[POWER, A, N, C],
            },
            PatStmt {
                rel: Rel::Eq,
                sort: PatSort::S,
                nodes: &[TIMES, B, C, D],
            },
        ],
        conclusion: PatStmt {
            rel: Rel::Eq,
            sort: PatSort::S,
            nodes: &[POWER, A, NATURAL_PLUS, M, N, D],
        },
    },
    proof: &[
        LemmaStep::Law("pow_add", PatSort::S, &[&[A], &[M], &[N]], &[]),
        LemmaStep::Refl(&[POWER, A, N]),
        LemmaStep::Cong(Sym::Mul, &[1, 5]),
        LemmaStep::Trans(4, 6),
        LemmaStep::Refl(&[B]),
        LemmaStep::Cong(Sym::Mul, &[8, 2]),
        LemmaStep::Trans(7, 9),
        LemmaStep::Trans(10, 3),
    ],
};

/// where a ^ n = b: a ^ (0 + n) = b
pub const EXP_FIRST: LemmaRow = LemmaRow {
    row: Law {
        name: "exp_first",
        needs: &[Need::Class(Class::Monoid)],
        premises: &[PatStmt {
            rel: Rel::Eq,
            sort: PatSort::S,
            nodes: &[POWER, A, N, B],
        }],
        conclusion: PatStmt {
            rel: Rel::Eq,
            sort: PatSort::S,
            nodes: &[POWER, A, NATURAL_PLUS, NATURAL_ZERO, N, B],
        },
    },
    proof: &[
        LemmaStep::Refl(&[A]),
        LemmaStep::Law("zero_add", PatSort::Nat, &[&[N]], &[]),
        LemmaStep::Cong(Sym::Npow, &[2, 3]),
        LemmaStep::Trans(4, 1),
    ],
};

/// where a ^ m = b and b ^ n = c: a ^ (m * n) = c
pub const EXP_TERM: LemmaRow = LemmaRow {
    row: Law {
        name: "exp_term",
        needs: &[Need::Class(Class::Monoid)],
        premises: &[
            PatStmt {
                rel: Rel::Eq,
                sort: PatSort::S,
                nodes: &[POWER, A, M, B],
            },
            PatStmt {
                rel: Rel::Eq,
                sort: PatSort::S,
                nodes: &[POWER, B, N, C],
            },
        ],
        conclusion: PatStmt {
            rel: Rel::Eq,
            sort: PatSort::S,
            nodes: &[POWER, A, NATURAL_TIMES, M, N, C],
        },
    },
    proof: &[
        LemmaStep::Law("pow_mul", PatSort::S, &[&[A], &[M], &[N]], &[]),
        LemmaStep::Refl(&[N]),
        LemmaStep::Cong(Sym::Npow, &[1, 4]),
        LemmaStep::Trans(3, 5),
        LemmaStep::Trans(6, 2),
    ],
};

/// where a ^ n = b: a ^ (1 * n) = b
pub const EXP_CONST: LemmaRow = LemmaRow {
    row: Law {
        name: "exp_const",
        needs: &[Need::Class(Class::Monoid)],
        premises: &[PatStmt {
            rel: Rel::Eq,
            sort: PatSort::S,
            nodes: &[POWER, A, N, B],
        }],
        conclusion: PatStmt {
            rel: Rel::Eq,
            sort: PatSort::S,
            nodes: &[POWER, A, NATURAL_TIMES, NATURAL_ONE, N, B],
        },
    },
    proof: &[
        LemmaStep::Refl(&[A]),
        LemmaStep::Law("one_mul", PatSort::Nat, &[&[N]], &[]),
        LemmaStep::Cong(Sym::Npow, &[2, 3]),
        LemmaStep::Trans(4, 1),
    ],
};

/// where a ^ m = b: a ^ (m * 1) = b
pub const EXP_ONE: LemmaRow = LemmaRow {
    row: Law {
        name: "exp_one",
        needs: &[Need::Class(Class::Monoid)],
        premises: &[PatStmt {
            rel: Rel::Eq,
            sort: PatSort::S,
            nodes: &[POWER, A, M, B],
        }],
        conclusion: PatStmt {
            rel: Rel::Eq,
            sort: PatSort::S,
            nodes: &[POWER, A, NATURAL_TIMES, M, NATURAL_ONE, B],
        },
    },
    proof: &[
        LemmaStep::Refl(&[A]),
        LemmaStep::Law("mul_one", PatSort::Nat, &[&[M]], &[]),
        LemmaStep::Cong(Sym::Npow, &[2, 3]),
        LemmaStep::Trans(4, 1),
    ],
};

/// where a ^ n = 0: a ^ (m + n) = 0
pub const EXP_ZERO: LemmaRow = LemmaRow {
    row: Law {
        name: "exp_zero",
        needs: &[Need::Class(Class::Semiring)],
        premises: &[PatStmt {
            rel: Rel::Eq,
            sort: PatSort::S,
            nodes: &[POWER, A, N, ZERO],
        }],
        conclusion: PatStmt {
            rel: Rel::Eq,
            sort: PatSort::S,
            nodes: &[POWER, A, NATURAL_PLUS, M, N, ZERO],
        },
    },
    proof: &[
        LemmaStep::Law("pow_add", PatSort::S, &[&[A], &[M], &[N]], &[]),
        LemmaStep::Law("mul_zero", PatSort::S, &[&[POWER, A, M]], &[]),
        LemmaStep::Refl(&[POWER, A, M]),
        LemmaStep::Cong(Sym::Mul, &[4, 1]),
        LemmaStep::Trans(2, 5),
        LemmaStep::Trans(6, 3),
    ],
};

/// where a ^ m = b: (a ^ n) ^ m = b ^ n
pub const EXP_SWAP: LemmaRow = LemmaRow {
    row: Law {
        name: "exp_swap",
        needs: &[Need::Class(Class::Monoid)],
        premises: &[PatStmt {
            rel: Rel::Eq,
            sort: PatSort::S,
            nodes: &[POWER, A, M, B],
        }],
        conclusion: PatStmt {
            rel: Rel::Eq,
            sort: PatSort::S,
            nodes: &[POWER, POWER, A, N, M, POWER, B, N],
        },
    },
    proof: &[
        LemmaStep::Law("pow_mul", PatSort::S, &[&[A], &[N], &[M]], &[]),
        LemmaStep::Symm(2),
        LemmaStep::Law("mul_comm", PatSort::Nat, &[&[N], &[M]], &[]),
        LemmaStep::Law("pow_mul", PatSort::S, &[&[A], &[M], &[N]], &[]),
        LemmaStep::Refl(&[A]),
        LemmaStep::Cong(Sym::Npow, &[6, 4]),
        LemmaStep::Trans(3, 7),
        LemmaStep::Trans(8, 5),
        LemmaStep::Refl(&[N]),
        LemmaStep::Cong(Sym::Npow, &[1, 10]),
        LemmaStep::Trans(9, 11),
    ],
};

/// where a ^ n = c and b ^ n = d: (a * b + 0) ^ n = c * (1 * d + 0)
pub const POW_NODE_MUL: LemmaRow = LemmaRow {
    row: Law {
        name: "pow_node_mul",
        needs: &[Need::Class(Class::CommSemiring)],
        premises: &[
            PatStmt {
                rel: Rel::Eq,
                sort: PatSort::S,
                nodes: &[POWER, A, N, C],
            },
            PatStmt {
                rel: Rel::Eq,
                sort: PatSort::S,
                nodes: &[POWER, B, N, D],
            },
        ],
        conclusion: PatStmt {
            rel: Rel::Eq,
            sort: PatSort::S,
            nodes: &[
                POWER, PLUS, TIMES, A, B, ZERO, N, TIMES, C, PLUS, TIMES, ONE, D, ZERO,
            ],
        },
    },
    proof: &[
        LemmaStep::Lemma(
            "pow_node",
            PatSort::S,
            &[&[A], &[B], &[C], &[D], &[N]],
            &[1, 2],
        ),
        LemmaStep::Lemma("mul_unit", PatSort::S, &[&[C], &[D]], &[]),
        LemmaStep::Symm(4),
        LemmaStep::Trans(3, 5),
    ],
};

static EXPONENTS: [LemmaRow; 8] = [
    EXP_NEXT,
    EXP_FIRST,
    EXP_TERM,
    EXP_CONST,
    EXP_ONE,
    EXP_ZERO,
    EXP_SWAP,
    POW_NODE_MUL,
];

/// Powers whose exponents are sums and products.
pub fn exponent_lemmas() -> &'static [LemmaRow]
    ensures rows { map lemma_row_of result.now ≡ exponent_lemmas }
    ensures proved { all_may_join through_rest_lemmas result.now ≡ true }
{
    &EXPONENTS
}
