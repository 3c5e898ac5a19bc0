ghost use Rattle.std.specs.Prelude.{◌≡◌, map};
ghost use Rattle.alg_law.specs.LawRows.{row_of};
ghost use Rattle.alg_law.specs.OrderLaws.{order_laws, min_max_laws};

use crate::classes::Class;
use crate::law_words::{A, B, C, GREATER, LESSER};
use crate::patterns::{PatSort, PatStmt};
use crate::rows::{Law, Need};
use alg_terms::Rel;

/// a ≤ a
pub const LE_REFL: Law = Law {
    name: "le_refl",
    needs: &[Need::Class(Class::LinearOrder)],
    premises: &[],
    conclusion: PatStmt {
        rel: Rel::Le,
        sort: PatSort::S,
        nodes: &[A, A],
    },
};

/// Where a < b: a ≤ b
pub const LE_OF_LT: Law = Law {
    name: "le_of_lt",
    needs: &[Need::Class(Class::LinearOrder)],
    premises: &[PatStmt {
        rel: Rel::Lt,
        sort: PatSort::S,
        nodes: &[A, B],
    }],
    conclusion: PatStmt {
        rel: Rel::Le,
        sort: PatSort::S,
        nodes: &[A, B],
    },
};

/// Where a < b: a ≠ b
pub const NE_OF_LT: Law = Law {
    name: "ne_of_lt",
    needs: &[Need::Class(Class::LinearOrder)],
    premises: &[PatStmt {
        rel: Rel::Lt,
        sort: PatSort::S,
        nodes: &[A, B],
    }],
    conclusion: PatStmt {
        rel: Rel::Ne,
        sort: PatSort::S,
        nodes: &[A, B],
    },
};

/// Where a ≤ b and a ≠ b: a < b
pub const LT_OF_LE_OF_NE: Law = Law {
    name: "lt_of_le_of_ne",
    needs: &[Need::Class(Class::LinearOrder)],
    premises: &[
        PatStmt {
            rel: Rel::Le,
            sort: PatSort::S,
            nodes: &[A, B],
        },
        PatStmt {
            rel: Rel::Ne,
            sort: PatSort::S,
            nodes: &[A, B],
        },
    ],
    conclusion: PatStmt {
        rel: Rel::Lt,
        sort: PatSort::S,
        nodes: &[A, B],
    },
};

/// Where a ≤ b and b ≤ c: a ≤ c
pub const LE_TRANS: Law = Law {
    name: "le_trans",
    needs: &[Need::Class(Class::LinearOrder)],
    premises: &[
        PatStmt {
            rel: Rel::Le,
            sort: PatSort::S,
            nodes: &[A, B],
        },
        PatStmt {
            rel: Rel::Le,
            sort: PatSort::S,
            nodes: &[B, C],
        },
    ],
    conclusion: PatStmt {
        rel: Rel::Le,
        sort: PatSort::S,
        nodes: &[A, C],
    },
};

/// Where a < b and b < c: a < c
pub const LT_TRANS: Law = Law {
    name: "lt_trans",
    needs: &[Need::Class(Class::LinearOrder)],
    premises: &[
        PatStmt {
            rel: Rel::Lt,
            sort: PatSort::S,
            nodes: &[A, B],
        },
        PatStmt {
            rel: Rel::Lt,
            sort: PatSort::S,
            nodes: &[B, C],
        },
    ],
    conclusion: PatStmt {
        rel: Rel::Lt,
        sort: PatSort::S,
        nodes: &[A, C],
    },
};

/// Where a < b and b ≤ c: a < c
pub const LT_OF_LT_OF_LE: Law = Law {
    name: "lt_of_lt_of_le",
    needs: &[Need::Class(Class::LinearOrder)],
    premises: &[
        PatStmt {
            rel: Rel::Lt,
            sort: PatSort::S,
            nodes: &[A, B],
        },
        PatStmt {
            rel: Rel::Le,
            sort: PatSort::S,
            nodes: &[B, C],
        },
    ],
    conclusion: PatStmt {
        rel: Rel::Lt,
        sort: PatSort::S,
        nodes: &[A, C],
    },
};

/// Where a ≤ b and b < c: a < c
pub const LT_OF_LE_OF_LT: Law = Law {
    name: "lt_of_le_of_lt",
    needs: &[Need::Class(Class::LinearOrder)],
    premises: &[
        PatStmt {
            rel: Rel::Le,
            sort: PatSort::S,
            nodes: &[A, B],
        },
        PatStmt {
            rel: Rel::Lt,
            sort: PatSort::S,
            nodes: &[B, C],
        },
    ],
    conclusion: PatStmt {
        rel: Rel::Lt,
        sort: PatSort::S,
        nodes: &[A, C],
    },
};

static ORDERS: [Law; 8] = [
    LE_REFL,
    LE_OF_LT,
    NE_OF_LT,
    LT_OF_LE_OF_NE,
    LE_TRANS,
    LT_TRANS,
    LT_OF_LT_OF_LE,
    LT_OF_LE_OF_LT,
];

/// The laws of linear orders.
pub fn order_laws() -> &'static [Law]
    ensures { map row_of result.now ≡ order_laws }
{
    &ORDERS
}

/// Where a ≤ b: min a b = a
pub const MIN_EQ_LEFT: Law = Law {
    name: "min_eq_left",
    needs: &[Need::Class(Class::LinearOrder)],
    premises: &[PatStmt {
        rel: Rel::Le,
        sort: PatSort::S,
        nodes: &[A, B],
    }],
    conclusion: PatStmt {
        rel: Rel::Eq,
        sort: PatSort::S,
        nodes: &[LESSER, A, B, A],
    },
};

/// Where b ≤ a: min a b = b
pub const MIN_EQ_RIGHT: Law = Law {
    name: "min_eq_right",
    needs: &[Need::Class(Class::LinearOrder)],
    premises: &[PatStmt {
        rel: Rel::Le,
        sort: PatSort::S,
        nodes: &[B, A],
    }],
    conclusion: PatStmt {
        rel: Rel::Eq,
        sort: PatSort::S,
        nodes: &[LESSER, A, B, B],
    },
};

/// Where b ≤ a: max a b = a
pub const MAX_EQ_LEFT: Law = Law {
    name: "max_eq_left",
    needs: &[Need::Class(Class::LinearOrder)],
    premises: &[PatStmt {
        rel: Rel::Le,
        sort: PatSort::S,
        nodes: &[B, A],
    }],
    conclusion: PatStmt {
        rel: Rel::Eq,
        sort: PatSort::S,
        nodes: &[GREATER, A, B, A],
    },
};

/// Where a ≤ b: max a b = b
pub const MAX_EQ_RIGHT: Law = Law {
    name: "max_eq_right",
    needs: &[Need::Class(Class::LinearOrder)],
    premises: &[PatStmt {
        rel: Rel::Le,
        sort: PatSort::S,
        nodes: &[A, B],
    }],
    conclusion: PatStmt {
        rel: Rel::Eq,
        sort: PatSort::S,
        nodes: &[GREATER, A, B, B],
    },
};

/// Where c < a and c < b: c < min a b
pub const LT_MIN: Law = Law {
    name: "lt_min",
    needs: &[Need::Class(Class::LinearOrder)],
    premises: &[
        PatStmt {
            rel: Rel::Lt,
            sort: PatSort::S,
            nodes: &[C, A],
        },
        PatStmt {
            rel: Rel::Lt,
            sort: PatSort::S,
            nodes: &[C, B],
        },
    ],
    conclusion: PatStmt {
        rel: Rel::Lt,
        sort: PatSort::S,
        nodes: &[C, LESSER, A, B],
    },
};

/// Where c ≤ a and c ≤ b: c ≤ min a b
pub const LE_MIN: Law = Law {
    name: "le_min",
    needs: &[Need::Class(Class::LinearOrder)],
    premises: &[
        PatStmt {
            rel: Rel::Le,
            sort: PatSort::S,
            nodes: &[C, A],
        },
        PatStmt {
            rel: Rel::Le,
            sort: PatSort::S,
            nodes: &[C, B],
        },
    ],
    conclusion: PatStmt {
        rel: Rel::Le,
        sort: PatSort::S,
        nodes: &[C, LESSER, A, B],
    },
};

/// Where a ≠ c and b ≠ c: min a b ≠ c
pub const MIN_NE: Law = Law {
    name: "min_ne",
    needs: &[Need::Class(Class::LinearOrder)],
    premises: &[
        PatStmt {
            rel: Rel::Ne,
            sort: PatSort::S,
            nodes: &[A, C],
        },
        PatStmt {
            rel: Rel::Ne,
            sort: PatSort::S,
            nodes: &[B, C],
        },
    ],
    conclusion: PatStmt {
        rel: Rel::Ne,
        sort: PatSort::S,
        nodes: &[LESSER, A, B, C],
    },
};

/// Where c < a: c < max a b
pub const LT_MAX_LEFT: Law = Law {
    name: "lt_max_left",
    needs: &[Need::Class(Class::LinearOrder)],
    premises: &[PatStmt {
        rel: Rel::Lt,
        sort: PatSort::S,
        nodes: &[C, A],
    }],
    conclusion: PatStmt {
        rel: Rel::Lt,
        sort: PatSort::S,
        nodes: &[C, GREATER, A, B],
    },
};

/// Where c < b: c < max a b
pub const LT_MAX_RIGHT: Law = Law {
    name: "lt_max_right",
    needs: &[Need::Class(Class::LinearOrder)],
    premises: &[PatStmt {
        rel: Rel::Lt,
        sort: PatSort::S,
        nodes: &[C, B],
    }],
    conclusion: PatStmt {
        rel: Rel::Lt,
        sort: PatSort::S,
        nodes: &[C, GREATER, A, B],
    },
};

/// Where c ≤ a: c ≤ max a b
pub const LE_MAX_LEFT: Law = Law {
    name: "le_max_left",
    needs: &[Need::Class(Class::LinearOrder)],
    premises: &[PatStmt {
        rel: Rel::Le,
        sort: PatSort::S,
        nodes: &[C, A],
    }],
    conclusion: PatStmt {
        rel: Rel::Le,
        sort: PatSort::S,
        nodes: &[C, GREATER, A, B],
    },
};

/// Where c ≤ b: c ≤ max a b
pub const LE_MAX_RIGHT: Law = Law {
    name: "le_max_right",
    needs: &[Need::Class(Class::LinearOrder)],
    premises: &[PatStmt {
        rel: Rel::Le,
        sort: PatSort::S,
        nodes: &[C, B],
    }],
    conclusion: PatStmt {
        rel: Rel::Le,
        sort: PatSort::S,
        nodes: &[C, GREATER, A, B],
    },
};

/// Where a ≠ c and b ≠ c: max a b ≠ c
pub const MAX_NE: Law = Law {
    name: "max_ne",
    needs: &[Need::Class(Class::LinearOrder)],
    premises: &[
        PatStmt {
            rel: Rel::Ne,
            sort: PatSort::S,
            nodes: &[A, C],
        },
        PatStmt {
            rel: Rel::Ne,
            sort: PatSort::S,
            nodes: &[B, C],
        },
    ],
    conclusion: PatStmt {
        rel: Rel::Ne,
        sort: PatSort::S,
        nodes: &[GREATER, A, B, C],
    },
};

static MIN_MAX: [Law; 12] = [
    MIN_EQ_LEFT,
    MIN_EQ_RIGHT,
    MAX_EQ_LEFT,
    MAX_EQ_RIGHT,
    LT_MIN,
    LE_MIN,
    MIN_NE,
    LT_MAX_LEFT,
    LT_MAX_RIGHT,
    LE_MAX_LEFT,
    LE_MAX_RIGHT,
    MAX_NE,
];

/// The laws of the lesser and the greater of two.
pub fn min_max_laws() -> &'static [Law]
    ensures { map row_of result.now ≡ min_max_laws }
{
    &MIN_MAX
}
