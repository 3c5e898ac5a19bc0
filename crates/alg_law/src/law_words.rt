use crate::patterns::{Pat, PatSort};
use alg_terms::Sym;

// the letters of trees of the sort, of ℕ and of ℤ
pub const A: Pat = Pat::Letter(0);

pub const B: Pat = Pat::Letter(1);

pub const C: Pat = Pat::Letter(2);

pub const D: Pat = Pat::Letter(3);

pub const M: Pat = Pat::Letter(4);

pub const N: Pat = Pat::Letter(5);

pub const I: Pat = Pat::Letter(6);

pub const J: Pat = Pat::Letter(7);

// literals
pub const ZERO: Pat = Pat::Lit {
    sort: PatSort::S,
    value: 0,
};

pub const ONE: Pat = Pat::Lit {
    sort: PatSort::S,
    value: 1,
};

pub const NATURAL_ZERO: Pat = Pat::Lit {
    sort: PatSort::Nat,
    value: 0,
};

pub const NATURAL_ONE: Pat = Pat::Lit {
    sort: PatSort::Nat,
    value: 1,
};

// symbols of the sort, of ℕ and of ℤ
pub const PLUS: Pat = Pat::App {
    sym: Sym::Add,
    sort: PatSort::S,
};

pub const TIMES: Pat = Pat::App {
    sym: Sym::Mul,
    sort: PatSort::S,
};

pub const MINUS: Pat = Pat::App {
    sym: Sym::Sub,
    sort: PatSort::S,
};

pub const OVER: Pat = Pat::App {
    sym: Sym::Div,
    sort: PatSort::S,
};

pub const NEGATIVE: Pat = Pat::App {
    sym: Sym::Neg,
    sort: PatSort::S,
};

pub const INVERSE: Pat = Pat::App {
    sym: Sym::Inv,
    sort: PatSort::S,
};

pub const POWER: Pat = Pat::App {
    sym: Sym::Npow,
    sort: PatSort::S,
};

pub const INTEGER_POWER: Pat = Pat::App {
    sym: Sym::Zpow,
    sort: PatSort::S,
};

pub const MULTIPLE: Pat = Pat::App {
    sym: Sym::Nsmul,
    sort: PatSort::S,
};

pub const INTEGER_MULTIPLE: Pat = Pat::App {
    sym: Sym::Zsmul,
    sort: PatSort::S,
};

pub const ABSOLUTE: Pat = Pat::App {
    sym: Sym::Abs,
    sort: PatSort::S,
};

pub const LESSER: Pat = Pat::App {
    sym: Sym::Min,
    sort: PatSort::S,
};

pub const GREATER: Pat = Pat::App {
    sym: Sym::Max,
    sort: PatSort::S,
};

pub const FACTORIAL: Pat = Pat::App {
    sym: Sym::Fact,
    sort: PatSort::S,
};

pub const NATURAL_PLUS: Pat = Pat::App {
    sym: Sym::Add,
    sort: PatSort::Nat,
};

pub const NATURAL_TIMES: Pat = Pat::App {
    sym: Sym::Mul,
    sort: PatSort::Nat,
};

pub const INTEGER_PLUS: Pat = Pat::App {
    sym: Sym::Add,
    sort: PatSort::Int,
};

pub const INTEGER_TIMES: Pat = Pat::App {
    sym: Sym::Mul,
    sort: PatSort::Int,
};

pub const INTEGER_NEGATIVE: Pat = Pat::App {
    sym: Sym::Neg,
    sort: PatSort::Int,
};
