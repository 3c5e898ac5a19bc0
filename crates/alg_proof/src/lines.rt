use crate::row_names::RowName;
use alg_expr::{ExprId, Items, Rel, Sort, Sym};

/// Which of the laws that lead from one kind of multiple or power to another.
#[derive(Clone, Copy, Debug, Drop)]
pub enum BridgeKind {
    /// `n • a = n * a`, in a semiring
    Smul,
    /// `n • a` with n in ℤ is `n • a` with n in ℕ, in an additive group
    Zsmul,
    /// `a ^ n` with n in ℤ is `a ^ n` with n in ℕ, in a group or field
    Zpow,
}

/// What a computation computes: the value of a function, or that one number divides another.
#[derive(Clone, Copy, Debug, Drop)]
pub enum ComputeHead {
    Named(Sym),
    Dvd,
}

/// A line of a proof. Lines are numbered from 1; the numbers of lines in a line are those of earlier lines.
#[derive(Debug, Drop)]
pub enum Line {
    /// `e = e`
    Refl(ExprId),
    /// `b = a`, from `a = b`
    Symm(u128),
    /// `a = c`, from `a = b` and `b = c`
    Trans(u128, u128),
    /// `f(a..) = f(b..)`, from `a = b` for each argument
    Cong(Sym, Items<u128>),
    /// `c R d`, from `a R b`, `a = c` and `b = d`, for any relation R
    Subst(u128, u128, u128),
    /// The conclusion of a law at a sort, for these trees in the order of its letters, from lines that are its premises.
    Law(RowName, Sort, Items<ExprId>, Items<u128>),
    /// The same of a lemma.
    Lemma(RowName, Sort, Items<ExprId>, Items<u128>),
    /// The hypothesis of the base with this number, from 1.
    Hyp(u128),
    /// The given statement.
    Rest,
    /// `m + n = r` for literals of a sort, with the literal r that is their sum
    LitAdd(Sort, u128, u128),
    /// `m * n = r` for literals of a sort, with the literal r that is their product
    LitMul(Sort, u128, u128),
    /// `m ≠ n`, `m < n` or `m ≤ n` for literals of a sort, where it holds
    LitRel(Rel, Sort, u128, u128),
    /// A bridge for a literal and a tree.
    Bridge(BridgeKind, u128, ExprId),
    /// The value of a function at numerals of a sort, or that one divides another.
    Compute(ComputeHead, Sort, Items<i128>),
}
