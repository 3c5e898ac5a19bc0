ghost use Rattle.std.specs.Prelude.{◌≡◌, map};
ghost use Rattle.alg_law.specs.LawRows.{row_of};
ghost use Rattle.alg_law.specs.OrderedRingLaws.{ordered_semiring_laws, ordered_ring_laws};

use crate::classes::Class;
use crate::law_words::{
    A, ABSOLUTE, B, C, D, FACTORIAL, INVERSE, N, NEGATIVE, ONE, PLUS, POWER, TIMES, ZERO,
};
use crate::patterns::{PatSort, PatStmt};
use crate::rows::{Law, Need};
use alg_terms::Rel;

/// 0 < 1
pub const ZERO_LT_ONE: Law = Law {
    name: "zero_lt_one",
    needs: &[Need::Class(Class::IsStrictOrderedRing)],
    premises: &[],
    conclusion: PatStmt {
        rel: Rel::Lt,
        sort: PatSort::S,
        nodes: &[ZERO, ONE],
    },
};

/// Where a ≤ b and c ≤ d: a + c ≤ b + d
pub const ADD_LE_ADD: Law = Law {
    name: "add_le_add",
    needs: &[Need::Class(Class::IsStrictOrderedRing)],
    premises: &[
        PatStmt {
            rel: Rel::Le,
            sort: PatSort::S,
            nodes: &[A, B],
        },
        PatStmt {
            rel: Rel::Le,
            sort: PatSort::S,
            nodes: &[C, D],
        },
    ],
    conclusion: PatStmt {
        rel: Rel::Le,
        sort: PatSort::S,
        nodes: &[PLUS, A, C, PLUS, B, D],
    },
};

/// Where a < b and c < d: a + c < b + d
pub const ADD_LT_ADD: Law = Law {
    name: "add_lt_add",
    needs: &[Need::Class(Class::IsStrictOrderedRing)],
    premises: &[
        PatStmt {
            rel: Rel::Lt,
            sort: PatSort::S,
            nodes: &[A, B],
        },
        PatStmt {
            rel: Rel::Lt,
            sort: PatSort::S,
            nodes: &[C, D],
        },
    ],
    conclusion: PatStmt {
        rel: Rel::Lt,
        sort: PatSort::S,
        nodes: &[PLUS, A, C, PLUS, B, D],
    },
};

/// Where a < b and c ≤ d: a + c < b + d
pub const ADD_LT_ADD_LE: Law = Law {
    name: "add_lt_add_le",
    needs: &[Need::Class(Class::IsStrictOrderedRing)],
    premises: &[
        PatStmt {
            rel: Rel::Lt,
            sort: PatSort::S,
            nodes: &[A, B],
        },
        PatStmt {
            rel: Rel::Le,
            sort: PatSort::S,
            nodes: &[C, D],
        },
    ],
    conclusion: PatStmt {
        rel: Rel::Lt,
        sort: PatSort::S,
        nodes: &[PLUS, A, C, PLUS, B, D],
    },
};

/// Where 0 < a and 0 < b: 0 < a * b
pub const MUL_POS: Law = Law {
    name: "mul_pos",
    needs: &[Need::Class(Class::IsStrictOrderedRing)],
    premises: &[
        PatStmt {
            rel: Rel::Lt,
            sort: PatSort::S,
            nodes: &[ZERO, A],
        },
        PatStmt {
            rel: Rel::Lt,
            sort: PatSort::S,
            nodes: &[ZERO, B],
        },
    ],
    conclusion: PatStmt {
        rel: Rel::Lt,
        sort: PatSort::S,
        nodes: &[ZERO, TIMES, A, B],
    },
};

/// Where 0 ≤ a and 0 ≤ b: 0 ≤ a * b
pub const MUL_NONNEG: Law = Law {
    name: "mul_nonneg",
    needs: &[Need::Class(Class::IsStrictOrderedRing)],
    premises: &[
        PatStmt {
            rel: Rel::Le,
            sort: PatSort::S,
            nodes: &[ZERO, A],
        },
        PatStmt {
            rel: Rel::Le,
            sort: PatSort::S,
            nodes: &[ZERO, B],
        },
    ],
    conclusion: PatStmt {
        rel: Rel::Le,
        sort: PatSort::S,
        nodes: &[ZERO, TIMES, A, B],
    },
};

/// Where 0 < a: 0 < a ^ n
pub const POW_POS: Law = Law {
    name: "pow_pos",
    needs: &[Need::Class(Class::IsStrictOrderedRing)],
    premises: &[PatStmt {
        rel: Rel::Lt,
        sort: PatSort::S,
        nodes: &[ZERO, A],
    }],
    conclusion: PatStmt {
        rel: Rel::Lt,
        sort: PatSort::S,
        nodes: &[ZERO, POWER, A, N],
    },
};

/// Where 0 ≤ a: 0 ≤ a ^ n
pub const POW_NONNEG: Law = Law {
    name: "pow_nonneg",
    needs: &[Need::Class(Class::IsStrictOrderedRing)],
    premises: &[PatStmt {
        rel: Rel::Le,
        sort: PatSort::S,
        nodes: &[ZERO, A],
    }],
    conclusion: PatStmt {
        rel: Rel::Le,
        sort: PatSort::S,
        nodes: &[ZERO, POWER, A, N],
    },
};

/// Where a < b and 0 < c: a * c < b * c
pub const MUL_LT_MUL_RIGHT: Law = Law {
    name: "mul_lt_mul_right",
    needs: &[Need::Class(Class::IsStrictOrderedRing)],
    premises: &[
        PatStmt {
            rel: Rel::Lt,
            sort: PatSort::S,
            nodes: &[A, B],
        },
        PatStmt {
            rel: Rel::Lt,
            sort: PatSort::S,
            nodes: &[ZERO, C],
        },
    ],
    conclusion: PatStmt {
        rel: Rel::Lt,
        sort: PatSort::S,
        nodes: &[TIMES, A, C, TIMES, B, C],
    },
};

/// Where a ≤ b and 0 ≤ c: a * c ≤ b * c
pub const MUL_LE_MUL_RIGHT: Law = Law {
    name: "mul_le_mul_right",
    needs: &[Need::Class(Class::IsStrictOrderedRing)],
    premises: &[
        PatStmt {
            rel: Rel::Le,
            sort: PatSort::S,
            nodes: &[A, B],
        },
        PatStmt {
            rel: Rel::Le,
            sort: PatSort::S,
            nodes: &[ZERO, C],
        },
    ],
    conclusion: PatStmt {
        rel: Rel::Le,
        sort: PatSort::S,
        nodes: &[TIMES, A, C, TIMES, B, C],
    },
};

static ORDERED_SEMIRINGS: [Law; 10] = [
    ZERO_LT_ONE,
    ADD_LE_ADD,
    ADD_LT_ADD,
    ADD_LT_ADD_LE,
    MUL_POS,
    MUL_NONNEG,
    POW_POS,
    POW_NONNEG,
    MUL_LT_MUL_RIGHT,
    MUL_LE_MUL_RIGHT,
];

/// How order goes with sums, products and powers.
pub fn ordered_semiring_laws() -> &'static [Law]
    ensures { map row_of result.now ≡ ordered_semiring_laws }
{
    &ORDERED_SEMIRINGS
}

/// 0 ≤ a * a
pub const MUL_SELF_NONNEG: Law = Law {
    name: "mul_self_nonneg",
    needs: &[
        Need::Class(Class::Ring),
        Need::Class(Class::IsStrictOrderedRing),
    ],
    premises: &[],
    conclusion: PatStmt {
        rel: Rel::Le,
        sort: PatSort::S,
        nodes: &[ZERO, TIMES, A, A],
    },
};

/// Where 0 ≤ a: abs a = a
pub const ABS_OF_NONNEG: Law = Law {
    name: "abs_of_nonneg",
    needs: &[
        Need::Class(Class::Ring),
        Need::Class(Class::IsStrictOrderedRing),
    ],
    premises: &[PatStmt {
        rel: Rel::Le,
        sort: PatSort::S,
        nodes: &[ZERO, A],
    }],
    conclusion: PatStmt {
        rel: Rel::Eq,
        sort: PatSort::S,
        nodes: &[ABSOLUTE, A, A],
    },
};

/// Where a ≤ 0: abs a = -a
pub const ABS_OF_NONPOS: Law = Law {
    name: "abs_of_nonpos",
    needs: &[
        Need::Class(Class::Ring),
        Need::Class(Class::IsStrictOrderedRing),
    ],
    premises: &[PatStmt {
        rel: Rel::Le,
        sort: PatSort::S,
        nodes: &[A, ZERO],
    }],
    conclusion: PatStmt {
        rel: Rel::Eq,
        sort: PatSort::S,
        nodes: &[ABSOLUTE, A, NEGATIVE, A],
    },
};

/// 0 ≤ abs a
pub const ABS_NONNEG: Law = Law {
    name: "abs_nonneg",
    needs: &[
        Need::Class(Class::Ring),
        Need::Class(Class::IsStrictOrderedRing),
    ],
    premises: &[],
    conclusion: PatStmt {
        rel: Rel::Le,
        sort: PatSort::S,
        nodes: &[ZERO, ABSOLUTE, A],
    },
};

/// Where a ≠ 0: 0 < abs a
pub const ABS_POS: Law = Law {
    name: "abs_pos",
    needs: &[
        Need::Class(Class::Ring),
        Need::Class(Class::IsStrictOrderedRing),
    ],
    premises: &[PatStmt {
        rel: Rel::Ne,
        sort: PatSort::S,
        nodes: &[A, ZERO],
    }],
    conclusion: PatStmt {
        rel: Rel::Lt,
        sort: PatSort::S,
        nodes: &[ZERO, ABSOLUTE, A],
    },
};

/// Where 0 < a: 0 < a⁻¹
pub const INV_POS: Law = Law {
    name: "inv_pos",
    needs: &[
        Need::Class(Class::Field),
        Need::Class(Class::IsStrictOrderedRing),
    ],
    premises: &[PatStmt {
        rel: Rel::Lt,
        sort: PatSort::S,
        nodes: &[ZERO, A],
    }],
    conclusion: PatStmt {
        rel: Rel::Lt,
        sort: PatSort::S,
        nodes: &[ZERO, INVERSE, A],
    },
};

/// Where 0 ≤ a: 0 ≤ a⁻¹
pub const INV_NONNEG: Law = Law {
    name: "inv_nonneg",
    needs: &[
        Need::Class(Class::Field),
        Need::Class(Class::IsStrictOrderedRing),
    ],
    premises: &[PatStmt {
        rel: Rel::Le,
        sort: PatSort::S,
        nodes: &[ZERO, A],
    }],
    conclusion: PatStmt {
        rel: Rel::Le,
        sort: PatSort::S,
        nodes: &[ZERO, INVERSE, A],
    },
};

/// 0 ≤ a
pub const NAT_NONNEG: Law = Law {
    name: "nat_nonneg",
    needs: &[Need::IsNat],
    premises: &[],
    conclusion: PatStmt {
        rel: Rel::Le,
        sort: PatSort::S,
        nodes: &[ZERO, A],
    },
};

/// 0 < Nat.factorial a
pub const FACT_POS: Law = Law {
    name: "fact_pos",
    needs: &[Need::IsNat],
    premises: &[],
    conclusion: PatStmt {
        rel: Rel::Lt,
        sort: PatSort::S,
        nodes: &[ZERO, FACTORIAL, A],
    },
};

static ORDERED_RINGS: [Law; 9] = [
    MUL_SELF_NONNEG,
    ABS_OF_NONNEG,
    ABS_OF_NONPOS,
    ABS_NONNEG,
    ABS_POS,
    INV_POS,
    INV_NONNEG,
    NAT_NONNEG,
    FACT_POS,
];

/// The laws of absolute values, of inverses in order, and of the order of ℕ.
pub fn ordered_ring_laws() -> &'static [Law]
    ensures { map row_of result.now ≡ ordered_ring_laws }
{
    &ORDERED_RINGS
}
