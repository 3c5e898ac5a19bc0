ghost use Rattle.std.specs.Prelude.{◌≡◌, map, true};
ghost use Rattle.alg_proof.specs.LemmaRows.{lemma_row_of};
ghost use Rattle.alg_lemma.specs.Proving.{all_may_join};
ghost use Rattle.alg_lemma.specs.MultipleSumLemmas.{through_multiple_sum_lemmas};
ghost use Rattle.alg_lemma.specs.WordLemmas.{word_lemmas};

use alg_law::law_words::{
    A, B, C, D, I, INTEGER_NEGATIVE, INTEGER_PLUS, INTEGER_POWER, INTEGER_TIMES, INVERSE, J, N,
    ONE, OVER, POWER, TIMES,
};
use alg_law::{Class, Law, Need, PatSort, PatStmt};
use alg_proof::{LemmaRow, LemmaStep};
use alg_terms::{Rel, Sym};

/// where b = a: a = 1 * b
pub const ATOM_WORD: LemmaRow = LemmaRow {
    row: Law {
        name: "atom_word",
        needs: &[Need::Class(Class::Monoid)],
        premises: &[PatStmt {
            rel: Rel::Eq,
            sort: PatSort::S,
            nodes: &[B, A],
        }],
        conclusion: PatStmt {
            rel: Rel::Eq,
            sort: PatSort::S,
            nodes: &[A, TIMES, ONE, B],
        },
    },
    proof: &[
        LemmaStep::Symm(1),
        LemmaStep::Law("one_mul", PatSort::S, &[&[B]], &[]),
        LemmaStep::Symm(3),
        LemmaStep::Trans(2, 4),
    ],
};

/// where b * c = 1: a * b * c = a
pub const WORD_CANCEL: LemmaRow = LemmaRow {
    row: Law {
        name: "word_cancel",
        needs: &[Need::Class(Class::Monoid)],
        premises: &[PatStmt {
            rel: Rel::Eq,
            sort: PatSort::S,
            nodes: &[TIMES, B, C, ONE],
        }],
        conclusion: PatStmt {
            rel: Rel::Eq,
            sort: PatSort::S,
            nodes: &[TIMES, TIMES, A, B, C, A],
        },
    },
    proof: &[
        LemmaStep::Law("mul_assoc", PatSort::S, &[&[A], &[B], &[C]], &[]),
        LemmaStep::Law("mul_one", PatSort::S, &[&[A]], &[]),
        LemmaStep::Refl(&[A]),
        LemmaStep::Cong(Sym::Mul, &[4, 1]),
        LemmaStep::Trans(2, 5),
        LemmaStep::Trans(6, 3),
    ],
};

/// where c⁻¹ = d: a * (b * c)⁻¹ = a * d * b⁻¹
pub const WORD_INV: LemmaRow = LemmaRow {
    row: Law {
        name: "word_inv",
        needs: &[Need::Class(Class::Group)],
        premises: &[PatStmt {
            rel: Rel::Eq,
            sort: PatSort::S,
            nodes: &[INVERSE, C, D],
        }],
        conclusion: PatStmt {
            rel: Rel::Eq,
            sort: PatSort::S,
            nodes: &[
                TIMES, A, INVERSE, TIMES, B, C, TIMES, TIMES, A, D, INVERSE, B,
            ],
        },
    },
    proof: &[
        LemmaStep::Lemma("mul_inv_rev", PatSort::S, &[&[B], &[C]], &[]),
        LemmaStep::Law("mul_assoc", PatSort::S, &[&[A], &[D], &[INVERSE, B]], &[]),
        LemmaStep::Symm(3),
        LemmaStep::Refl(&[A]),
        LemmaStep::Cong(Sym::Mul, &[5, 2]),
        LemmaStep::Refl(&[INVERSE, B]),
        LemmaStep::Cong(Sym::Mul, &[1, 7]),
        LemmaStep::Cong(Sym::Mul, &[5, 8]),
        LemmaStep::Trans(6, 9),
        LemmaStep::Trans(10, 4),
    ],
};

/// 1⁻¹ = 1
pub const ONE_INV: LemmaRow = LemmaRow {
    row: Law {
        name: "one_inv",
        needs: &[Need::Class(Class::Group)],
        premises: &[],
        conclusion: PatStmt {
            rel: Rel::Eq,
            sort: PatSort::S,
            nodes: &[INVERSE, ONE, ONE],
        },
    },
    proof: &[
        LemmaStep::Law("mul_one", PatSort::S, &[&[INVERSE, ONE]], &[]),
        LemmaStep::Symm(1),
        LemmaStep::Law("inv_mul_cancel", PatSort::S, &[&[ONE]], &[]),
        LemmaStep::Trans(2, 3),
    ],
};

/// a * 1⁻¹ = a
pub const WORD_INV_END: LemmaRow = LemmaRow {
    row: Law {
        name: "word_inv_end",
        needs: &[Need::Class(Class::Group)],
        premises: &[],
        conclusion: PatStmt {
            rel: Rel::Eq,
            sort: PatSort::S,
            nodes: &[TIMES, A, INVERSE, ONE, A],
        },
    },
    proof: &[
        LemmaStep::Refl(&[A]),
        LemmaStep::Lemma("one_inv", PatSort::S, &[], &[]),
        LemmaStep::Cong(Sym::Mul, &[1, 2]),
        LemmaStep::Law("mul_one", PatSort::S, &[&[A]], &[]),
        LemmaStep::Trans(3, 4),
    ],
};

/// where 1 * a = b: a = b
pub const INV_OF_WORD: LemmaRow = LemmaRow {
    row: Law {
        name: "inv_of_word",
        needs: &[Need::Class(Class::Monoid)],
        premises: &[PatStmt {
            rel: Rel::Eq,
            sort: PatSort::S,
            nodes: &[TIMES, ONE, A, B],
        }],
        conclusion: PatStmt {
            rel: Rel::Eq,
            sort: PatSort::S,
            nodes: &[A, B],
        },
    },
    proof: &[
        LemmaStep::Law("one_mul", PatSort::S, &[&[A]], &[]),
        LemmaStep::Symm(2),
        LemmaStep::Trans(3, 1),
    ],
};

/// where a * b⁻¹ = c: a / b = c
pub const DIV_OF_WORD: LemmaRow = LemmaRow {
    row: Law {
        name: "div_of_word",
        needs: &[Need::Class(Class::Group)],
        premises: &[PatStmt {
            rel: Rel::Eq,
            sort: PatSort::S,
            nodes: &[TIMES, A, INVERSE, B, C],
        }],
        conclusion: PatStmt {
            rel: Rel::Eq,
            sort: PatSort::S,
            nodes: &[OVER, A, B, C],
        },
    },
    proof: &[
        LemmaStep::Law("div_eq_mul_inv", PatSort::S, &[&[A], &[B]], &[]),
        LemmaStep::Trans(2, 1),
    ],
};

/// where a ^ (i + j) = b: a ^ i * a ^ j = b
pub const SYLLABLE_MUL: LemmaRow = LemmaRow {
    row: Law {
        name: "syllable_mul",
        needs: &[Need::Class(Class::Group)],
        premises: &[PatStmt {
            rel: Rel::Eq,
            sort: PatSort::S,
            nodes: &[INTEGER_POWER, A, INTEGER_PLUS, I, J, B],
        }],
        conclusion: PatStmt {
            rel: Rel::Eq,
            sort: PatSort::S,
            nodes: &[TIMES, INTEGER_POWER, A, I, INTEGER_POWER, A, J, B],
        },
    },
    proof: &[
        LemmaStep::Law("zpow_add", PatSort::S, &[&[A], &[I], &[J]], &[]),
        LemmaStep::Symm(2),
        LemmaStep::Trans(3, 1),
    ],
};

/// where a ^ (i * j) = b and (a ^ i) ^ j = (a ^ i) ^ n: (a ^ i) ^ n = b
pub const SYLLABLE_POW: LemmaRow = LemmaRow {
    row: Law {
        name: "syllable_pow",
        needs: &[Need::Class(Class::Group)],
        premises: &[
            PatStmt {
                rel: Rel::Eq,
                sort: PatSort::S,
                nodes: &[INTEGER_POWER, A, INTEGER_TIMES, I, J, B],
            },
            PatStmt {
                rel: Rel::Eq,
                sort: PatSort::S,
                nodes: &[
                    INTEGER_POWER,
                    INTEGER_POWER,
                    A,
                    I,
                    J,
                    POWER,
                    INTEGER_POWER,
                    A,
                    I,
                    N,
                ],
            },
        ],
        conclusion: PatStmt {
            rel: Rel::Eq,
            sort: PatSort::S,
            nodes: &[POWER, INTEGER_POWER, A, I, N, B],
        },
    },
    proof: &[
        LemmaStep::Symm(2),
        LemmaStep::Law("zpow_mul", PatSort::S, &[&[A], &[I], &[J]], &[]),
        LemmaStep::Symm(4),
        LemmaStep::Trans(3, 5),
        LemmaStep::Trans(6, 1),
    ],
};

/// (a ^ (-i))⁻¹ = a ^ i
pub const SYLLABLE_INV_NEG: LemmaRow = LemmaRow {
    row: Law {
        name: "syllable_inv_neg",
        needs: &[Need::Class(Class::Group)],
        premises: &[],
        conclusion: PatStmt {
            rel: Rel::Eq,
            sort: PatSort::S,
            nodes: &[
                INVERSE,
                INTEGER_POWER,
                A,
                INTEGER_NEGATIVE,
                I,
                INTEGER_POWER,
                A,
                I,
            ],
        },
    },
    proof: &[
        LemmaStep::Law("zpow_neg", PatSort::S, &[&[A], &[I]], &[]),
        LemmaStep::Lemma("inv_inv", PatSort::S, &[&[INTEGER_POWER, A, I]], &[]),
        LemmaStep::Cong(Sym::Inv, &[1]),
        LemmaStep::Trans(3, 2),
    ],
};

/// where a ^ n = b: (1 * a) ^ n = 1 * b
pub const ONE_MUL_POW: LemmaRow = LemmaRow {
    row: Law {
        name: "one_mul_pow",
        needs: &[Need::Class(Class::Monoid)],
        premises: &[PatStmt {
            rel: Rel::Eq,
            sort: PatSort::S,
            nodes: &[POWER, A, N, B],
        }],
        conclusion: PatStmt {
            rel: Rel::Eq,
            sort: PatSort::S,
            nodes: &[POWER, TIMES, ONE, A, N, TIMES, ONE, B],
        },
    },
    proof: &[
        LemmaStep::Law("one_mul", PatSort::S, &[&[A]], &[]),
        LemmaStep::Law("one_mul", PatSort::S, &[&[B]], &[]),
        LemmaStep::Symm(3),
        LemmaStep::Refl(&[N]),
        LemmaStep::Cong(Sym::Npow, &[2, 5]),
        LemmaStep::Trans(6, 1),
        LemmaStep::Trans(7, 4),
    ],
};

/// where a ^ i = b and b⁻¹ = c: a ^ (-i) = c
pub const ZPOW_NEG_LIT: LemmaRow = LemmaRow {
    row: Law {
        name: "zpow_neg_lit",
        needs: &[Need::Class(Class::Group)],
        premises: &[
            PatStmt {
                rel: Rel::Eq,
                sort: PatSort::S,
                nodes: &[INTEGER_POWER, A, I, B],
            },
            PatStmt {
                rel: Rel::Eq,
                sort: PatSort::S,
                nodes: &[INVERSE, B, C],
            },
        ],
        conclusion: PatStmt {
            rel: Rel::Eq,
            sort: PatSort::S,
            nodes: &[INTEGER_POWER, A, INTEGER_NEGATIVE, I, C],
        },
    },
    proof: &[
        LemmaStep::Law("zpow_neg", PatSort::S, &[&[A], &[I]], &[]),
        LemmaStep::Cong(Sym::Inv, &[1]),
        LemmaStep::Trans(3, 4),
        LemmaStep::Trans(5, 2),
    ],
};

/// where a = b: 1 * a = b
pub const WORD_FIRST: LemmaRow = LemmaRow {
    row: Law {
        name: "word_first",
        needs: &[Need::Class(Class::Monoid)],
        premises: &[PatStmt {
            rel: Rel::Eq,
            sort: PatSort::S,
            nodes: &[A, B],
        }],
        conclusion: PatStmt {
            rel: Rel::Eq,
            sort: PatSort::S,
            nodes: &[TIMES, ONE, A, B],
        },
    },
    proof: &[
        LemmaStep::Law("one_mul", PatSort::S, &[&[A]], &[]),
        LemmaStep::Trans(2, 1),
    ],
};

static WORD_ROWS: [LemmaRow; 13] = [
    ATOM_WORD,
    WORD_CANCEL,
    WORD_INV,
    ONE_INV,
    WORD_INV_END,
    INV_OF_WORD,
    DIV_OF_WORD,
    SYLLABLE_MUL,
    SYLLABLE_POW,
    SYLLABLE_INV_NEG,
    ONE_MUL_POW,
    ZPOW_NEG_LIT,
    WORD_FIRST,
];

/// Products of powers in a group.
pub fn word_lemmas() -> &'static [LemmaRow]
    ensures rows { map lemma_row_of result.now ≡ word_lemmas }
    ensures proved { all_may_join through_multiple_sum_lemmas result.now ≡ true }
{
    &WORD_ROWS
}
