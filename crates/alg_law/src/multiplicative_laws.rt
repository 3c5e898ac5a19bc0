ghost use Rattle.std.specs.Prelude.{◌≡◌, map};
ghost use Rattle.alg_law.specs.LawRows.{row_of};
ghost use Rattle.alg_law.specs.MultiplicativeLaws.{product_laws, power_laws};

use crate::classes::Class;
use crate::law_words::{
    A, B, C, I, INTEGER_NEGATIVE, INTEGER_PLUS, INTEGER_POWER, INTEGER_TIMES, INVERSE, J, M, N,
    NATURAL_ONE, NATURAL_PLUS, NATURAL_TIMES, NATURAL_ZERO, ONE, OVER, POWER, TIMES,
};
use crate::patterns::{PatSort, PatStmt};
use crate::rows::{Law, Need};
use alg_terms::Rel;

/// a * b * c = a * (b * c)
pub const MUL_ASSOC: Law = Law {
    name: "mul_assoc",
    needs: &[Need::Class(Class::Semigroup)],
    premises: &[],
    conclusion: PatStmt {
        rel: Rel::Eq,
        sort: PatSort::S,
        nodes: &[TIMES, TIMES, A, B, C, TIMES, A, TIMES, B, C],
    },
};

/// a * b = b * a
pub const MUL_COMM: Law = Law {
    name: "mul_comm",
    needs: &[Need::Class(Class::CommSemigroup)],
    premises: &[],
    conclusion: PatStmt {
        rel: Rel::Eq,
        sort: PatSort::S,
        nodes: &[TIMES, A, B, TIMES, B, A],
    },
};

/// 1 * a = a
pub const ONE_MUL: Law = Law {
    name: "one_mul",
    needs: &[Need::Class(Class::Monoid)],
    premises: &[],
    conclusion: PatStmt {
        rel: Rel::Eq,
        sort: PatSort::S,
        nodes: &[TIMES, ONE, A, A],
    },
};

/// a * 1 = a
pub const MUL_ONE: Law = Law {
    name: "mul_one",
    needs: &[Need::Class(Class::Monoid)],
    premises: &[],
    conclusion: PatStmt {
        rel: Rel::Eq,
        sort: PatSort::S,
        nodes: &[TIMES, A, ONE, A],
    },
};

/// a⁻¹ * a = 1
pub const INV_MUL_CANCEL: Law = Law {
    name: "inv_mul_cancel",
    needs: &[Need::Class(Class::Group)],
    premises: &[],
    conclusion: PatStmt {
        rel: Rel::Eq,
        sort: PatSort::S,
        nodes: &[TIMES, INVERSE, A, A, ONE],
    },
};

/// a / b = a * b⁻¹
pub const DIV_EQ_MUL_INV: Law = Law {
    name: "div_eq_mul_inv",
    needs: &[Need::Class(Class::Group)],
    premises: &[],
    conclusion: PatStmt {
        rel: Rel::Eq,
        sort: PatSort::S,
        nodes: &[OVER, A, B, TIMES, A, INVERSE, B],
    },
};

/// a / b = a * b⁻¹
pub const DIV_EQ_MUL_INV0: Law = Law {
    name: "div_eq_mul_inv0",
    needs: &[Need::Class(Class::Field)],
    premises: &[],
    conclusion: PatStmt {
        rel: Rel::Eq,
        sort: PatSort::S,
        nodes: &[OVER, A, B, TIMES, A, INVERSE, B],
    },
};

static PRODUCTS: [Law; 7] = [
    MUL_ASSOC,
    MUL_COMM,
    ONE_MUL,
    MUL_ONE,
    INV_MUL_CANCEL,
    DIV_EQ_MUL_INV,
    DIV_EQ_MUL_INV0,
];

/// The laws of products, inverses and quotients.
pub fn product_laws() -> &'static [Law]
    ensures { map row_of result.now ≡ product_laws }
{
    &PRODUCTS
}

/// a ^ 0 = 1
pub const POW_ZERO: Law = Law {
    name: "pow_zero",
    needs: &[Need::Class(Class::Monoid)],
    premises: &[],
    conclusion: PatStmt {
        rel: Rel::Eq,
        sort: PatSort::S,
        nodes: &[POWER, A, NATURAL_ZERO, ONE],
    },
};

/// a ^ (n + 1) = a ^ n * a
pub const POW_SUCC: Law = Law {
    name: "pow_succ",
    needs: &[Need::Class(Class::Monoid)],
    premises: &[],
    conclusion: PatStmt {
        rel: Rel::Eq,
        sort: PatSort::S,
        nodes: &[
            POWER,
            A,
            NATURAL_PLUS,
            N,
            NATURAL_ONE,
            TIMES,
            POWER,
            A,
            N,
            A,
        ],
    },
};

/// a ^ (m + n) = a ^ m * a ^ n
pub const POW_ADD: Law = Law {
    name: "pow_add",
    needs: &[Need::Class(Class::Monoid)],
    premises: &[],
    conclusion: PatStmt {
        rel: Rel::Eq,
        sort: PatSort::S,
        nodes: &[
            POWER,
            A,
            NATURAL_PLUS,
            M,
            N,
            TIMES,
            POWER,
            A,
            M,
            POWER,
            A,
            N,
        ],
    },
};

/// a ^ (m * n) = (a ^ m) ^ n
pub const POW_MUL: Law = Law {
    name: "pow_mul",
    needs: &[Need::Class(Class::Monoid)],
    premises: &[],
    conclusion: PatStmt {
        rel: Rel::Eq,
        sort: PatSort::S,
        nodes: &[POWER, A, NATURAL_TIMES, M, N, POWER, POWER, A, M, N],
    },
};

/// 1 ^ n = 1
pub const ONE_POW: Law = Law {
    name: "one_pow",
    needs: &[Need::Class(Class::Monoid)],
    premises: &[],
    conclusion: PatStmt {
        rel: Rel::Eq,
        sort: PatSort::S,
        nodes: &[POWER, ONE, N, ONE],
    },
};

/// (a * b) ^ n = a ^ n * b ^ n
pub const MUL_POW: Law = Law {
    name: "mul_pow",
    needs: &[Need::Class(Class::CommMonoid)],
    premises: &[],
    conclusion: PatStmt {
        rel: Rel::Eq,
        sort: PatSort::S,
        nodes: &[POWER, TIMES, A, B, N, TIMES, POWER, A, N, POWER, B, N],
    },
};

/// a ^ (-i) = (a ^ i)⁻¹
pub const ZPOW_NEG: Law = Law {
    name: "zpow_neg",
    needs: &[Need::Class(Class::Group)],
    premises: &[],
    conclusion: PatStmt {
        rel: Rel::Eq,
        sort: PatSort::S,
        nodes: &[
            INTEGER_POWER,
            A,
            INTEGER_NEGATIVE,
            I,
            INVERSE,
            INTEGER_POWER,
            A,
            I,
        ],
    },
};

/// a ^ (-i) = (a ^ i)⁻¹
pub const ZPOW_NEG0: Law = Law {
    name: "zpow_neg0",
    needs: &[Need::Class(Class::Field)],
    premises: &[],
    conclusion: PatStmt {
        rel: Rel::Eq,
        sort: PatSort::S,
        nodes: &[
            INTEGER_POWER,
            A,
            INTEGER_NEGATIVE,
            I,
            INVERSE,
            INTEGER_POWER,
            A,
            I,
        ],
    },
};

/// a ^ (i + j) = a ^ i * a ^ j
pub const ZPOW_ADD: Law = Law {
    name: "zpow_add",
    needs: &[Need::Class(Class::Group)],
    premises: &[],
    conclusion: PatStmt {
        rel: Rel::Eq,
        sort: PatSort::S,
        nodes: &[
            INTEGER_POWER,
            A,
            INTEGER_PLUS,
            I,
            J,
            TIMES,
            INTEGER_POWER,
            A,
            I,
            INTEGER_POWER,
            A,
            J,
        ],
    },
};

/// a ^ (i * j) = (a ^ i) ^ j
pub const ZPOW_MUL: Law = Law {
    name: "zpow_mul",
    needs: &[Need::Class(Class::Group)],
    premises: &[],
    conclusion: PatStmt {
        rel: Rel::Eq,
        sort: PatSort::S,
        nodes: &[
            INTEGER_POWER,
            A,
            INTEGER_TIMES,
            I,
            J,
            INTEGER_POWER,
            INTEGER_POWER,
            A,
            I,
            J,
        ],
    },
};

static POWERS: [Law; 10] = [
    POW_ZERO, POW_SUCC, POW_ADD, POW_MUL, ONE_POW, MUL_POW, ZPOW_NEG, ZPOW_NEG0, ZPOW_ADD, ZPOW_MUL,
];

/// The laws of powers.
pub fn power_laws() -> &'static [Law]
    ensures { map row_of result.now ≡ power_laws }
{
    &POWERS
}
