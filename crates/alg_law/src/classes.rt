ghost use Rattle.std.specs.Prelude.{◌≡◌, [], ◌∷◌};
ghost use Rattle.alg_law.specs.Classes.{class_key, all_of, is_among, gives, own_classes};

use alg_expr::Sort;

/// A class of Mathlib's hierarchy that a sort may have.
#[derive(Clone, Copy, Debug)]
pub enum Class {
    Semigroup,
    CommSemigroup,
    Monoid,
    CommMonoid,
    Group,
    CommGroup,
    AddMonoid,
    AddCommMonoid,
    AddGroup,
    AddCommGroup,
    Semiring,
    CommSemiring,
    Ring,
    CommRing,
    Field,
    LinearOrder,
    CharZero,
    IsStrictOrderedRing,
    LinearOrderedCommRing,
    LinearOrderedField,
}

impl Class {
    pub(crate) fn number(self) -> u8
        ensures { result ≡ class_key self }
    {
        match self {
            Class::Semigroup => 0,
            Class::CommSemigroup => 1,
            Class::Monoid => 2,
            Class::CommMonoid => 3,
            Class::Group => 4,
            Class::CommGroup => 5,
            Class::AddMonoid => 6,
            Class::AddCommMonoid => 7,
            Class::AddGroup => 8,
            Class::AddCommGroup => 9,
            Class::Semiring => 10,
            Class::CommSemiring => 11,
            Class::Ring => 12,
            Class::CommRing => 13,
            Class::Field => 14,
            Class::LinearOrder => 15,
            Class::CharZero => 16,
            Class::IsStrictOrderedRing => 17,
            Class::LinearOrderedCommRing => 18,
            Class::LinearOrderedField => 19,
        }
    }

    /// The class with all that follow from it.
    pub fn all(self) -> &'static [Class]
        ensures { result.now ≡ all_of self }
    {
        match self {
            Class::Semigroup => &[Class::Semigroup],
            Class::CommSemigroup => &[Class::CommSemigroup, Class::Semigroup],
            Class::Monoid => &[Class::Monoid, Class::Semigroup],
            Class::CommMonoid => &[
                Class::CommMonoid,
                Class::Monoid,
                Class::CommSemigroup,
                Class::Semigroup,
            ],
            Class::Group => &[Class::Group, Class::Monoid, Class::Semigroup],
            Class::CommGroup => &[
                Class::CommGroup,
                Class::Group,
                Class::CommMonoid,
                Class::Monoid,
                Class::CommSemigroup,
                Class::Semigroup,
            ],
            Class::AddMonoid => &[Class::AddMonoid],
            Class::AddCommMonoid => &[Class::AddCommMonoid, Class::AddMonoid],
            Class::AddGroup => &[Class::AddGroup, Class::AddMonoid],
            Class::AddCommGroup => &[
                Class::AddCommGroup,
                Class::AddGroup,
                Class::AddCommMonoid,
                Class::AddMonoid,
            ],
            Class::Semiring => &[
                Class::Semiring,
                Class::AddCommMonoid,
                Class::AddMonoid,
                Class::Monoid,
                Class::Semigroup,
            ],
            Class::CommSemiring => &[
                Class::CommSemiring,
                Class::Semiring,
                Class::AddCommMonoid,
                Class::AddMonoid,
                Class::CommMonoid,
                Class::Monoid,
                Class::CommSemigroup,
                Class::Semigroup,
            ],
            Class::Ring => &[
                Class::Ring,
                Class::Semiring,
                Class::AddCommGroup,
                Class::AddGroup,
                Class::AddCommMonoid,
                Class::AddMonoid,
                Class::Monoid,
                Class::Semigroup,
            ],
            Class::CommRing => &[
                Class::CommRing,
                Class::Ring,
                Class::CommSemiring,
                Class::Semiring,
                Class::AddCommGroup,
                Class::AddGroup,
                Class::AddCommMonoid,
                Class::AddMonoid,
                Class::CommMonoid,
                Class::Monoid,
                Class::CommSemigroup,
                Class::Semigroup,
            ],
            Class::Field => &[
                Class::Field,
                Class::CommRing,
                Class::Ring,
                Class::CommSemiring,
                Class::Semiring,
                Class::AddCommGroup,
                Class::AddGroup,
                Class::AddCommMonoid,
                Class::AddMonoid,
                Class::CommMonoid,
                Class::Monoid,
                Class::CommSemigroup,
                Class::Semigroup,
            ],
            Class::LinearOrder => &[Class::LinearOrder],
            Class::CharZero => &[Class::CharZero],
            Class::IsStrictOrderedRing => &[Class::IsStrictOrderedRing, Class::CharZero],
            Class::LinearOrderedCommRing => &[
                Class::LinearOrderedCommRing,
                Class::LinearOrder,
                Class::IsStrictOrderedRing,
                Class::CharZero,
                Class::CommRing,
                Class::Ring,
                Class::CommSemiring,
                Class::Semiring,
                Class::AddCommGroup,
                Class::AddGroup,
                Class::AddCommMonoid,
                Class::AddMonoid,
                Class::CommMonoid,
                Class::Monoid,
                Class::CommSemigroup,
                Class::Semigroup,
            ],
            Class::LinearOrderedField => &[
                Class::LinearOrderedField,
                Class::LinearOrder,
                Class::IsStrictOrderedRing,
                Class::CharZero,
                Class::Field,
                Class::CommRing,
                Class::Ring,
                Class::CommSemiring,
                Class::Semiring,
                Class::AddCommGroup,
                Class::AddGroup,
                Class::AddCommMonoid,
                Class::AddMonoid,
                Class::CommMonoid,
                Class::Monoid,
                Class::CommSemigroup,
                Class::Semigroup,
            ],
        }
    }
}

/// The classes of a built-in sort, without those that follow from them.
pub fn own(sort: Sort) -> &'static [Class]
    ensures { result.now ≡ own_classes sort }
{
    match sort {
        Sort::Nat => &[
            Class::CommSemiring,
            Class::LinearOrder,
            Class::IsStrictOrderedRing,
        ],
        Sort::Int => &[
            Class::CommRing,
            Class::LinearOrder,
            Class::IsStrictOrderedRing,
        ],
        Sort::Rat => &[Class::Field, Class::LinearOrder, Class::IsStrictOrderedRing],
        Sort::Decl(_) => &[],
    }
}

/// Whether the class is among these.
pub fn is_in(classes: &[Class], class: Class) -> bool
    ensures { result ≡ is_among classes.now class }
{
    for c in classes {
        if c.number() == class.number() {
            return true;
        }
    }
    false
}

/// Whether one of these classes gives the class: it is that one, or implies it.
pub fn any_gives(classes: &[Class], class: Class) -> bool
    ensures { result ≡ gives classes.now class }
{
    for c in classes {
        if is_in(c.all(), class) {
            return true;
        }
    }
    false
}
