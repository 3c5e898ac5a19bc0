ghost use Rattle.std.specs.Prelude.{◌≡◌, map};
ghost use Rattle.alg_law.specs.LawRows.{row_of};
ghost use Rattle.alg_law.specs.RingLaws.{semiring_laws, field_laws, unequal_laws};

use crate::classes::Class;
use crate::law_words::{A, B, C, INVERSE, N, NEGATIVE, ONE, PLUS, POWER, TIMES, ZERO};
use crate::patterns::{PatSort, PatStmt};
use crate::rows::{Law, Need};
use alg_terms::Rel;

/// a * (b + c) = a * b + a * c
pub const LEFT_DISTRIB: Law = Law {
    name: "left_distrib",
    needs: &[Need::Class(Class::Semiring)],
    premises: &[],
    conclusion: PatStmt {
        rel: Rel::Eq,
        sort: PatSort::S,
        nodes: &[TIMES, A, PLUS, B, C, PLUS, TIMES, A, B, TIMES, A, C],
    },
};

/// (a + b) * c = a * c + b * c
pub const RIGHT_DISTRIB: Law = Law {
    name: "right_distrib",
    needs: &[Need::Class(Class::Semiring)],
    premises: &[],
    conclusion: PatStmt {
        rel: Rel::Eq,
        sort: PatSort::S,
        nodes: &[TIMES, PLUS, A, B, C, PLUS, TIMES, A, C, TIMES, B, C],
    },
};

/// 0 * a = 0
pub const ZERO_MUL: Law = Law {
    name: "zero_mul",
    needs: &[Need::Class(Class::Semiring)],
    premises: &[],
    conclusion: PatStmt {
        rel: Rel::Eq,
        sort: PatSort::S,
        nodes: &[TIMES, ZERO, A, ZERO],
    },
};

/// a * 0 = 0
pub const MUL_ZERO: Law = Law {
    name: "mul_zero",
    needs: &[Need::Class(Class::Semiring)],
    premises: &[],
    conclusion: PatStmt {
        rel: Rel::Eq,
        sort: PatSort::S,
        nodes: &[TIMES, A, ZERO, ZERO],
    },
};

static SEMIRINGS: [Law; 4] = [LEFT_DISTRIB, RIGHT_DISTRIB, ZERO_MUL, MUL_ZERO];

/// How sums and products go together.
pub fn semiring_laws() -> &'static [Law]
    ensures { map row_of result.now ≡ semiring_laws }
{
    &SEMIRINGS
}

/// Where a ≠ 0: a * a⁻¹ = 1
pub const MUL_INV_CANCEL0: Law = Law {
    name: "mul_inv_cancel0",
    needs: &[Need::Class(Class::Field)],
    premises: &[PatStmt {
        rel: Rel::Ne,
        sort: PatSort::S,
        nodes: &[A, ZERO],
    }],
    conclusion: PatStmt {
        rel: Rel::Eq,
        sort: PatSort::S,
        nodes: &[TIMES, A, INVERSE, A, ONE],
    },
};

/// 0⁻¹ = 0
pub const INV_ZERO: Law = Law {
    name: "inv_zero",
    needs: &[Need::Class(Class::Field)],
    premises: &[],
    conclusion: PatStmt {
        rel: Rel::Eq,
        sort: PatSort::S,
        nodes: &[INVERSE, ZERO, ZERO],
    },
};

/// 1 ≠ 0
pub const ONE_NE_ZERO: Law = Law {
    name: "one_ne_zero",
    needs: &[Need::Class(Class::Field)],
    premises: &[],
    conclusion: PatStmt {
        rel: Rel::Ne,
        sort: PatSort::S,
        nodes: &[ONE, ZERO],
    },
};

/// Where a ≠ 0: a⁻¹ ≠ 0
pub const INV_NE_ZERO: Law = Law {
    name: "inv_ne_zero",
    needs: &[Need::Class(Class::Field)],
    premises: &[PatStmt {
        rel: Rel::Ne,
        sort: PatSort::S,
        nodes: &[A, ZERO],
    }],
    conclusion: PatStmt {
        rel: Rel::Ne,
        sort: PatSort::S,
        nodes: &[INVERSE, A, ZERO],
    },
};

/// Where a ≠ 0 and b ≠ 0: a * b ≠ 0
pub const MUL_NE_ZERO: Law = Law {
    name: "mul_ne_zero",
    needs: &[Need::Class(Class::Field)],
    premises: &[
        PatStmt {
            rel: Rel::Ne,
            sort: PatSort::S,
            nodes: &[A, ZERO],
        },
        PatStmt {
            rel: Rel::Ne,
            sort: PatSort::S,
            nodes: &[B, ZERO],
        },
    ],
    conclusion: PatStmt {
        rel: Rel::Ne,
        sort: PatSort::S,
        nodes: &[TIMES, A, B, ZERO],
    },
};

/// Where a ≠ 0: a ^ n ≠ 0
pub const POW_NE_ZERO: Law = Law {
    name: "pow_ne_zero",
    needs: &[Need::Class(Class::Field)],
    premises: &[PatStmt {
        rel: Rel::Ne,
        sort: PatSort::S,
        nodes: &[A, ZERO],
    }],
    conclusion: PatStmt {
        rel: Rel::Ne,
        sort: PatSort::S,
        nodes: &[POWER, A, N, ZERO],
    },
};

/// Where a ≠ b and c ≠ 0: a * c ≠ b * c
pub const MUL_RIGHT_NE: Law = Law {
    name: "mul_right_ne",
    needs: &[Need::Class(Class::Field)],
    premises: &[
        PatStmt {
            rel: Rel::Ne,
            sort: PatSort::S,
            nodes: &[A, B],
        },
        PatStmt {
            rel: Rel::Ne,
            sort: PatSort::S,
            nodes: &[C, ZERO],
        },
    ],
    conclusion: PatStmt {
        rel: Rel::Ne,
        sort: PatSort::S,
        nodes: &[TIMES, A, C, TIMES, B, C],
    },
};

static FIELDS: [Law; 7] = [
    MUL_INV_CANCEL0,
    INV_ZERO,
    ONE_NE_ZERO,
    INV_NE_ZERO,
    MUL_NE_ZERO,
    POW_NE_ZERO,
    MUL_RIGHT_NE,
];

/// The laws of fields.
pub fn field_laws() -> &'static [Law]
    ensures { map row_of result.now ≡ field_laws }
{
    &FIELDS
}

/// Where a ≠ 0 and b ≠ 0: a * b ≠ 0
pub const MUL_NE_ZERO_ORD: Law = Law {
    name: "mul_ne_zero_ord",
    needs: &[
        Need::Class(Class::Ring),
        Need::Class(Class::IsStrictOrderedRing),
    ],
    premises: &[
        PatStmt {
            rel: Rel::Ne,
            sort: PatSort::S,
            nodes: &[A, ZERO],
        },
        PatStmt {
            rel: Rel::Ne,
            sort: PatSort::S,
            nodes: &[B, ZERO],
        },
    ],
    conclusion: PatStmt {
        rel: Rel::Ne,
        sort: PatSort::S,
        nodes: &[TIMES, A, B, ZERO],
    },
};

/// Where a ≠ 0: a ^ n ≠ 0
pub const POW_NE_ZERO_ORD: Law = Law {
    name: "pow_ne_zero_ord",
    needs: &[
        Need::Class(Class::Ring),
        Need::Class(Class::IsStrictOrderedRing),
    ],
    premises: &[PatStmt {
        rel: Rel::Ne,
        sort: PatSort::S,
        nodes: &[A, ZERO],
    }],
    conclusion: PatStmt {
        rel: Rel::Ne,
        sort: PatSort::S,
        nodes: &[POWER, A, N, ZERO],
    },
};

/// Where a ≠ b: b ≠ a
pub const NE_SYMM: Law = Law {
    name: "ne_symm",
    needs: &[],
    premises: &[PatStmt {
        rel: Rel::Ne,
        sort: PatSort::S,
        nodes: &[A, B],
    }],
    conclusion: PatStmt {
        rel: Rel::Ne,
        sort: PatSort::S,
        nodes: &[B, A],
    },
};

/// Where a ≠ 0: -a ≠ 0
pub const NEG_NE_ZERO: Law = Law {
    name: "neg_ne_zero",
    needs: &[Need::Class(Class::AddGroup)],
    premises: &[PatStmt {
        rel: Rel::Ne,
        sort: PatSort::S,
        nodes: &[A, ZERO],
    }],
    conclusion: PatStmt {
        rel: Rel::Ne,
        sort: PatSort::S,
        nodes: &[NEGATIVE, A, ZERO],
    },
};

/// Where a ≠ b: a + c ≠ b + c
pub const ADD_RIGHT_NE: Law = Law {
    name: "add_right_ne",
    needs: &[Need::Class(Class::AddGroup)],
    premises: &[PatStmt {
        rel: Rel::Ne,
        sort: PatSort::S,
        nodes: &[A, B],
    }],
    conclusion: PatStmt {
        rel: Rel::Ne,
        sort: PatSort::S,
        nodes: &[PLUS, A, C, PLUS, B, C],
    },
};

static UNEQUAL: [Law; 5] = [
    MUL_NE_ZERO_ORD,
    POW_NE_ZERO_ORD,
    NE_SYMM,
    NEG_NE_ZERO,
    ADD_RIGHT_NE,
];

/// What is unequal, apart from fields.
pub fn unequal_laws() -> &'static [Law]
    ensures { map row_of result.now ≡ unequal_laws }
{
    &UNEQUAL
}
