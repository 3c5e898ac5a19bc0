ghost use Rattle.std.specs.Prelude.{◌≡◌, map};
ghost use Rattle.alg_law.specs.LawRows.{row_of};
ghost use Rattle.alg_law.specs.AdditiveLaws.{sum_laws, multiple_laws};

use crate::classes::Class;
use crate::law_words::{
    A, B, C, I, INTEGER_MULTIPLE, INTEGER_NEGATIVE, INTEGER_PLUS, INTEGER_TIMES, J, M, MINUS,
    MULTIPLE, N, NATURAL_ONE, NATURAL_PLUS, NATURAL_TIMES, NATURAL_ZERO, NEGATIVE, PLUS, ZERO,
};
use crate::patterns::{PatSort, PatStmt};
use crate::rows::{Law, Need};
use alg_terms::Rel;

/// a + b + c = a + (b + c)
pub const ADD_ASSOC: Law = Law {
    name: "add_assoc",
    needs: &[Need::Class(Class::AddMonoid)],
    premises: &[],
    conclusion: PatStmt {
        rel: Rel::Eq,
        sort: PatSort::S,
        nodes: &[PLUS, PLUS, A, B, C, PLUS, A, PLUS, B, C],
    },
};

/// 0 + a = a
pub const ZERO_ADD: Law = Law {
    name: "zero_add",
    needs: &[Need::Class(Class::AddMonoid)],
    premises: &[],
    conclusion: PatStmt {
        rel: Rel::Eq,
        sort: PatSort::S,
        nodes: &[PLUS, ZERO, A, A],
    },
};

/// a + 0 = a
pub const ADD_ZERO: Law = Law {
    name: "add_zero",
    needs: &[Need::Class(Class::AddMonoid)],
    premises: &[],
    conclusion: PatStmt {
        rel: Rel::Eq,
        sort: PatSort::S,
        nodes: &[PLUS, A, ZERO, A],
    },
};

/// a + b = b + a
pub const ADD_COMM: Law = Law {
    name: "add_comm",
    needs: &[Need::Class(Class::AddCommMonoid)],
    premises: &[],
    conclusion: PatStmt {
        rel: Rel::Eq,
        sort: PatSort::S,
        nodes: &[PLUS, A, B, PLUS, B, A],
    },
};

/// -a + a = 0
pub const NEG_ADD_CANCEL: Law = Law {
    name: "neg_add_cancel",
    needs: &[Need::Class(Class::AddGroup)],
    premises: &[],
    conclusion: PatStmt {
        rel: Rel::Eq,
        sort: PatSort::S,
        nodes: &[PLUS, NEGATIVE, A, A, ZERO],
    },
};

/// a - b = a + -b
pub const SUB_EQ_ADD_NEG: Law = Law {
    name: "sub_eq_add_neg",
    needs: &[Need::Class(Class::AddGroup)],
    premises: &[],
    conclusion: PatStmt {
        rel: Rel::Eq,
        sort: PatSort::S,
        nodes: &[MINUS, A, B, PLUS, A, NEGATIVE, B],
    },
};

static SUMS: [Law; 6] = [
    ADD_ASSOC,
    ZERO_ADD,
    ADD_ZERO,
    ADD_COMM,
    NEG_ADD_CANCEL,
    SUB_EQ_ADD_NEG,
];

/// The laws of sums and negations.
pub fn sum_laws() -> &'static [Law]
    ensures { map row_of result.now ≡ sum_laws }
{
    &SUMS
}

/// 0 • a = 0
pub const ZERO_NSMUL: Law = Law {
    name: "zero_nsmul",
    needs: &[Need::Class(Class::AddMonoid)],
    premises: &[],
    conclusion: PatStmt {
        rel: Rel::Eq,
        sort: PatSort::S,
        nodes: &[MULTIPLE, NATURAL_ZERO, A, ZERO],
    },
};

/// (n + 1) • a = n • a + a
pub const SUCC_NSMUL: Law = Law {
    name: "succ_nsmul",
    needs: &[Need::Class(Class::AddMonoid)],
    premises: &[],
    conclusion: PatStmt {
        rel: Rel::Eq,
        sort: PatSort::S,
        nodes: &[
            MULTIPLE,
            NATURAL_PLUS,
            N,
            NATURAL_ONE,
            A,
            PLUS,
            MULTIPLE,
            N,
            A,
            A,
        ],
    },
};

/// (m + n) • a = m • a + n • a
pub const ADD_NSMUL: Law = Law {
    name: "add_nsmul",
    needs: &[Need::Class(Class::AddMonoid)],
    premises: &[],
    conclusion: PatStmt {
        rel: Rel::Eq,
        sort: PatSort::S,
        nodes: &[
            MULTIPLE,
            NATURAL_PLUS,
            M,
            N,
            A,
            PLUS,
            MULTIPLE,
            M,
            A,
            MULTIPLE,
            N,
            A,
        ],
    },
};

/// (m * n) • a = m • n • a
pub const MUL_NSMUL: Law = Law {
    name: "mul_nsmul",
    needs: &[Need::Class(Class::AddMonoid)],
    premises: &[],
    conclusion: PatStmt {
        rel: Rel::Eq,
        sort: PatSort::S,
        nodes: &[
            MULTIPLE,
            NATURAL_TIMES,
            M,
            N,
            A,
            MULTIPLE,
            M,
            MULTIPLE,
            N,
            A,
        ],
    },
};

/// n • (a + b) = n • a + n • b
pub const NSMUL_ADD: Law = Law {
    name: "nsmul_add",
    needs: &[Need::Class(Class::AddCommMonoid)],
    premises: &[],
    conclusion: PatStmt {
        rel: Rel::Eq,
        sort: PatSort::S,
        nodes: &[
            MULTIPLE, N, PLUS, A, B, PLUS, MULTIPLE, N, A, MULTIPLE, N, B,
        ],
    },
};

/// (-i) • a = -(i • a)
pub const NEG_ZSMUL: Law = Law {
    name: "neg_zsmul",
    needs: &[Need::Class(Class::AddGroup)],
    premises: &[],
    conclusion: PatStmt {
        rel: Rel::Eq,
        sort: PatSort::S,
        nodes: &[
            INTEGER_MULTIPLE,
            INTEGER_NEGATIVE,
            I,
            A,
            NEGATIVE,
            INTEGER_MULTIPLE,
            I,
            A,
        ],
    },
};

/// (i + j) • a = i • a + j • a
pub const ADD_ZSMUL: Law = Law {
    name: "add_zsmul",
    needs: &[Need::Class(Class::AddGroup)],
    premises: &[],
    conclusion: PatStmt {
        rel: Rel::Eq,
        sort: PatSort::S,
        nodes: &[
            INTEGER_MULTIPLE,
            INTEGER_PLUS,
            I,
            J,
            A,
            PLUS,
            INTEGER_MULTIPLE,
            I,
            A,
            INTEGER_MULTIPLE,
            J,
            A,
        ],
    },
};

/// (i * j) • a = i • j • a
pub const MUL_ZSMUL: Law = Law {
    name: "mul_zsmul",
    needs: &[Need::Class(Class::AddGroup)],
    premises: &[],
    conclusion: PatStmt {
        rel: Rel::Eq,
        sort: PatSort::S,
        nodes: &[
            INTEGER_MULTIPLE,
            INTEGER_TIMES,
            I,
            J,
            A,
            INTEGER_MULTIPLE,
            I,
            INTEGER_MULTIPLE,
            J,
            A,
        ],
    },
};

/// i • (a + b) = i • a + i • b
pub const ZSMUL_ADD: Law = Law {
    name: "zsmul_add",
    needs: &[Need::Class(Class::AddCommGroup)],
    premises: &[],
    conclusion: PatStmt {
        rel: Rel::Eq,
        sort: PatSort::S,
        nodes: &[
            INTEGER_MULTIPLE,
            I,
            PLUS,
            A,
            B,
            PLUS,
            INTEGER_MULTIPLE,
            I,
            A,
            INTEGER_MULTIPLE,
            I,
            B,
        ],
    },
};

static MULTIPLES: [Law; 9] = [
    ZERO_NSMUL, SUCC_NSMUL, ADD_NSMUL, MUL_NSMUL, NSMUL_ADD, NEG_ZSMUL, ADD_ZSMUL, MUL_ZSMUL,
    ZSMUL_ADD,
];

/// The laws of multiples by numbers of ℕ and ℤ.
pub fn multiple_laws() -> &'static [Law]
    ensures { map row_of result.now ≡ multiple_laws }
{
    &MULTIPLES
}
