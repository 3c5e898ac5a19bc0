ghost use Rattle.std.specs.Prelude.{◌≡◌, map, true};
ghost use Rattle.alg_proof.specs.LemmaRows.{lemma_row_of};
ghost use Rattle.alg_lemma.specs.Proving.{all_may_join};
ghost use Rattle.alg_lemma.specs.NodePairLemmas.{through_node_pair_lemmas};
ghost use Rattle.alg_lemma.specs.NodeProductLemmas.{node_product_lemmas};

use alg_law::law_words::{
    A, B, C, D, MINUS, N, NATURAL_ONE, NEGATIVE, ONE, PLUS, POWER, TIMES, ZERO,
};
use alg_law::{Class, Law, Need, PatSort, PatStmt};
use alg_proof::{LemmaRow, LemmaStep};
use alg_terms::{Rel, Sym};

/// where b * a = c: a * b = c
pub const MUL_SWAP: LemmaRow = LemmaRow {
    row: Law {
        name: "mul_swap",
        needs: &[Need::Class(Class::CommSemigroup)],
        premises: &[PatStmt {
            rel: Rel::Eq,
            sort: PatSort::S,
            nodes: &[TIMES, B, A, C],
        }],
        conclusion: PatStmt {
            rel: Rel::Eq,
            sort: PatSort::S,
            nodes: &[TIMES, A, B, C],
        },
    },
    proof: &[
        LemmaStep::Law("mul_comm", PatSort::S, &[&[A], &[B]], &[]),
        LemmaStep::Trans(2, 1),
    ],
};

/// where a * b = c: a * d * b = c * d
pub const MUL_NODE: LemmaRow = LemmaRow {
    row: Law {
        name: "mul_node",
        needs: &[Need::Class(Class::CommMonoid)],
        premises: &[PatStmt {
            rel: Rel::Eq,
            sort: PatSort::S,
            nodes: &[TIMES, A, B, C],
        }],
        conclusion: PatStmt {
            rel: Rel::Eq,
            sort: PatSort::S,
            nodes: &[TIMES, TIMES, A, D, B, TIMES, C, D],
        },
    },
    proof: &[
        LemmaStep::Lemma("mul_right_comm", PatSort::S, &[&[A], &[D], &[B]], &[]),
        LemmaStep::Refl(&[D]),
        LemmaStep::Cong(Sym::Mul, &[1, 3]),
        LemmaStep::Trans(2, 4),
    ],
};

/// where a * b = c: (a * d + 0) * b = c * d + 0
pub const MUL_NODE_ZERO: LemmaRow = LemmaRow {
    row: Law {
        name: "mul_node_zero",
        needs: &[Need::Class(Class::CommSemiring)],
        premises: &[PatStmt {
            rel: Rel::Eq,
            sort: PatSort::S,
            nodes: &[TIMES, A, B, C],
        }],
        conclusion: PatStmt {
            rel: Rel::Eq,
            sort: PatSort::S,
            nodes: &[TIMES, PLUS, TIMES, A, D, ZERO, B, PLUS, TIMES, C, D, ZERO],
        },
    },
    proof: &[
        LemmaStep::Law("add_zero", PatSort::S, &[&[TIMES, A, D]], &[]),
        LemmaStep::Lemma("mul_node", PatSort::S, &[&[A], &[B], &[C], &[D]], &[1]),
        LemmaStep::Law("add_zero", PatSort::S, &[&[TIMES, C, D]], &[]),
        LemmaStep::Symm(4),
        LemmaStep::Refl(&[B]),
        LemmaStep::Cong(Sym::Mul, &[2, 6]),
        LemmaStep::Trans(7, 3),
        LemmaStep::Trans(8, 5),
    ],
};

/// where a * b = c: a * (b * d) = c * d
pub const MUL_SAME: LemmaRow = LemmaRow {
    row: Law {
        name: "mul_same",
        needs: &[Need::Class(Class::Semigroup)],
        premises: &[PatStmt {
            rel: Rel::Eq,
            sort: PatSort::S,
            nodes: &[TIMES, A, B, C],
        }],
        conclusion: PatStmt {
            rel: Rel::Eq,
            sort: PatSort::S,
            nodes: &[TIMES, A, TIMES, B, D, TIMES, C, D],
        },
    },
    proof: &[
        LemmaStep::Law("mul_assoc", PatSort::S, &[&[A], &[B], &[D]], &[]),
        LemmaStep::Symm(2),
        LemmaStep::Refl(&[D]),
        LemmaStep::Cong(Sym::Mul, &[1, 4]),
        LemmaStep::Trans(3, 5),
    ],
};

/// where a * b = c: a * (b * d + 0) = c * d + 0
pub const MUL_SAME_ZERO: LemmaRow = LemmaRow {
    row: Law {
        name: "mul_same_zero",
        needs: &[Need::Class(Class::Semiring)],
        premises: &[PatStmt {
            rel: Rel::Eq,
            sort: PatSort::S,
            nodes: &[TIMES, A, B, C],
        }],
        conclusion: PatStmt {
            rel: Rel::Eq,
            sort: PatSort::S,
            nodes: &[TIMES, A, PLUS, TIMES, B, D, ZERO, PLUS, TIMES, C, D, ZERO],
        },
    },
    proof: &[
        LemmaStep::Law("add_zero", PatSort::S, &[&[TIMES, B, D]], &[]),
        LemmaStep::Lemma("mul_same", PatSort::S, &[&[A], &[B], &[C], &[D]], &[1]),
        LemmaStep::Law("add_zero", PatSort::S, &[&[TIMES, C, D]], &[]),
        LemmaStep::Symm(4),
        LemmaStep::Refl(&[A]),
        LemmaStep::Cong(Sym::Mul, &[6, 2]),
        LemmaStep::Trans(7, 3),
        LemmaStep::Trans(8, 5),
    ],
};

/// a = 1 * a ^ 1 + 0
pub const ATOM_NODE: LemmaRow = LemmaRow {
    row: Law {
        name: "atom_node",
        needs: &[Need::Class(Class::Semiring)],
        premises: &[],
        conclusion: PatStmt {
            rel: Rel::Eq,
            sort: PatSort::S,
            nodes: &[A, PLUS, TIMES, ONE, POWER, A, NATURAL_ONE, ZERO],
        },
    },
    proof: &[
        LemmaStep::Law(
            "add_zero",
            PatSort::S,
            &[&[TIMES, ONE, POWER, A, NATURAL_ONE]],
            &[],
        ),
        LemmaStep::Law("one_mul", PatSort::S, &[&[POWER, A, NATURAL_ONE]], &[]),
        LemmaStep::Lemma("pow_one", PatSort::S, &[&[A]], &[]),
        LemmaStep::Trans(1, 2),
        LemmaStep::Trans(4, 3),
        LemmaStep::Symm(5),
    ],
};

/// where a ^ n = c and b ^ n = d: (a * b + 0) ^ n = c * d + 0
pub const POW_NODE: LemmaRow = LemmaRow {
    row: Law {
        name: "pow_node",
        needs: &[Need::Class(Class::CommSemiring)],
        premises: &[
            PatStmt {
                rel: Rel::Eq,
                sort: PatSort::S,
                nodes: &[POWER, A, N, C],
            },
            PatStmt {
                rel: Rel::Eq,
                sort: PatSort::S,
                nodes: &[POWER, B, N, D],
            },
        ],
        conclusion: PatStmt {
            rel: Rel::Eq,
            sort: PatSort::S,
            nodes: &[POWER, PLUS, TIMES, A, B, ZERO, N, PLUS, TIMES, C, D, ZERO],
        },
    },
    proof: &[
        LemmaStep::Law("add_zero", PatSort::S, &[&[TIMES, A, B]], &[]),
        LemmaStep::Law("mul_pow", PatSort::S, &[&[A], &[B], &[N]], &[]),
        LemmaStep::Law("add_zero", PatSort::S, &[&[TIMES, C, D]], &[]),
        LemmaStep::Symm(5),
        LemmaStep::Refl(&[N]),
        LemmaStep::Cong(Sym::Npow, &[3, 7]),
        LemmaStep::Trans(8, 4),
        LemmaStep::Refl(&[POWER, B, N]),
        LemmaStep::Cong(Sym::Mul, &[1, 10]),
        LemmaStep::Trans(9, 11),
        LemmaStep::Refl(&[C]),
        LemmaStep::Cong(Sym::Mul, &[13, 2]),
        LemmaStep::Trans(12, 14),
        LemmaStep::Trans(15, 6),
    ],
};

/// where -b = c and a + c = d: a - b = d
pub const SUB_OF_NEG: LemmaRow = LemmaRow {
    row: Law {
        name: "sub_of_neg",
        needs: &[Need::Class(Class::AddGroup)],
        premises: &[
            PatStmt {
                rel: Rel::Eq,
                sort: PatSort::S,
                nodes: &[NEGATIVE, B, C],
            },
            PatStmt {
                rel: Rel::Eq,
                sort: PatSort::S,
                nodes: &[PLUS, A, C, D],
            },
        ],
        conclusion: PatStmt {
            rel: Rel::Eq,
            sort: PatSort::S,
            nodes: &[MINUS, A, B, D],
        },
    },
    proof: &[
        LemmaStep::Law("sub_eq_add_neg", PatSort::S, &[&[A], &[B]], &[]),
        LemmaStep::Refl(&[A]),
        LemmaStep::Cong(Sym::Add, &[4, 1]),
        LemmaStep::Trans(3, 5),
        LemmaStep::Trans(6, 2),
    ],
};

/// where -a = c and -b = d: -(a + b) = c + d
pub const NEG_SUM: LemmaRow = LemmaRow {
    row: Law {
        name: "neg_sum",
        needs: &[Need::Class(Class::AddCommGroup)],
        premises: &[
            PatStmt {
                rel: Rel::Eq,
                sort: PatSort::S,
                nodes: &[NEGATIVE, A, C],
            },
            PatStmt {
                rel: Rel::Eq,
                sort: PatSort::S,
                nodes: &[NEGATIVE, B, D],
            },
        ],
        conclusion: PatStmt {
            rel: Rel::Eq,
            sort: PatSort::S,
            nodes: &[NEGATIVE, PLUS, A, B, PLUS, C, D],
        },
    },
    proof: &[
        LemmaStep::Lemma("neg_add_neg", PatSort::S, &[&[A], &[B]], &[]),
        LemmaStep::Symm(3),
        LemmaStep::Cong(Sym::Add, &[1, 2]),
        LemmaStep::Trans(4, 5),
    ],
};

/// where -a = b: -(a * c) = b * c
pub const NEG_NODE: LemmaRow = LemmaRow {
    row: Law {
        name: "neg_node",
        needs: &[Need::Class(Class::Ring)],
        premises: &[PatStmt {
            rel: Rel::Eq,
            sort: PatSort::S,
            nodes: &[NEGATIVE, A, B],
        }],
        conclusion: PatStmt {
            rel: Rel::Eq,
            sort: PatSort::S,
            nodes: &[NEGATIVE, TIMES, A, C, TIMES, B, C],
        },
    },
    proof: &[
        LemmaStep::Lemma("neg_mul", PatSort::S, &[&[A], &[C]], &[]),
        LemmaStep::Symm(2),
        LemmaStep::Refl(&[C]),
        LemmaStep::Cong(Sym::Mul, &[1, 4]),
        LemmaStep::Trans(3, 5),
    ],
};

/// where -a = b: -(a * c + 0) = b * c + 0
pub const NEG_NODE_ZERO: LemmaRow = LemmaRow {
    row: Law {
        name: "neg_node_zero",
        needs: &[Need::Class(Class::Ring)],
        premises: &[PatStmt {
            rel: Rel::Eq,
            sort: PatSort::S,
            nodes: &[NEGATIVE, A, B],
        }],
        conclusion: PatStmt {
            rel: Rel::Eq,
            sort: PatSort::S,
            nodes: &[NEGATIVE, PLUS, TIMES, A, C, ZERO, PLUS, TIMES, B, C, ZERO],
        },
    },
    proof: &[
        LemmaStep::Lemma("neg_node", PatSort::S, &[&[A], &[B], &[C]], &[1]),
        LemmaStep::Lemma("neg_zero", PatSort::S, &[], &[]),
        LemmaStep::Lemma(
            "neg_sum",
            PatSort::S,
            &[&[TIMES, A, C], &[ZERO], &[TIMES, B, C], &[ZERO]],
            &[2, 3],
        ),
    ],
};

static NODE_PRODUCTS: [LemmaRow; 11] = [
    MUL_SWAP,
    MUL_NODE,
    MUL_NODE_ZERO,
    MUL_SAME,
    MUL_SAME_ZERO,
    ATOM_NODE,
    POW_NODE,
    SUB_OF_NEG,
    NEG_SUM,
    NEG_NODE,
    NEG_NODE_ZERO,
];

/// Products, powers and negations of products by powers with their rests.
pub fn node_product_lemmas() -> &'static [LemmaRow]
    ensures rows { map lemma_row_of result.now ≡ node_product_lemmas }
    ensures proved { all_may_join through_node_pair_lemmas result.now ≡ true }
{
    &NODE_PRODUCTS
}
