ghost use Rattle.std.specs.Prelude.{◌≡◌};
ghost use Rattle.alg_law.specs.Classes.{all_of, is_among, gives, own_classes};
ghost use Rattle.alg_law.specs.Masks.{all_mask, own_mask};

use crate::classes::Class;
use alg_expr::Sort;

// a class and all that follow from it, a bit for each
const SEMIGROUP: u32 = 1;

const COMM_SEMIGROUP: u32 = 1 << 1 | SEMIGROUP;

const MONOID: u32 = 1 << 2 | SEMIGROUP;

const COMM_MONOID: u32 = 1 << 3 | MONOID | COMM_SEMIGROUP;

const GROUP: u32 = 1 << 4 | MONOID;

const COMM_GROUP: u32 = 1 << 5 | GROUP | COMM_MONOID;

const ADD_MONOID: u32 = 1 << 6;

const ADD_COMM_MONOID: u32 = 1 << 7 | ADD_MONOID;

const ADD_GROUP: u32 = 1 << 8 | ADD_MONOID;

const ADD_COMM_GROUP: u32 = 1 << 9 | ADD_GROUP | ADD_COMM_MONOID;

const SEMIRING: u32 = 1 << 10 | ADD_COMM_MONOID | MONOID;

const COMM_SEMIRING: u32 = 1 << 11 | SEMIRING | COMM_MONOID;

const RING: u32 = 1 << 12 | SEMIRING | ADD_COMM_GROUP;

const COMM_RING: u32 = 1 << 13 | RING | COMM_SEMIRING;

const FIELD: u32 = 1 << 14 | COMM_RING;

const LINEAR_ORDER: u32 = 1 << 15;

const CHAR_ZERO: u32 = 1 << 16;

const IS_STRICT_ORDERED_RING: u32 = 1 << 17 | CHAR_ZERO;

const LINEAR_ORDERED_COMM_RING: u32 = 1 << 18 | COMM_RING | LINEAR_ORDER | IS_STRICT_ORDERED_RING;

const LINEAR_ORDERED_FIELD: u32 = 1 << 19 | FIELD | LINEAR_ORDER | IS_STRICT_ORDERED_RING;

fn all(class: Class) -> u32
    ensures { result ≡ all_mask class }
{
    match class {
        Class::Semigroup => SEMIGROUP,
        Class::CommSemigroup => COMM_SEMIGROUP,
        Class::Monoid => MONOID,
        Class::CommMonoid => COMM_MONOID,
        Class::Group => GROUP,
        Class::CommGroup => COMM_GROUP,
        Class::AddMonoid => ADD_MONOID,
        Class::AddCommMonoid => ADD_COMM_MONOID,
        Class::AddGroup => ADD_GROUP,
        Class::AddCommGroup => ADD_COMM_GROUP,
        Class::Semiring => SEMIRING,
        Class::CommSemiring => COMM_SEMIRING,
        Class::Ring => RING,
        Class::CommRing => COMM_RING,
        Class::Field => FIELD,
        Class::LinearOrder => LINEAR_ORDER,
        Class::CharZero => CHAR_ZERO,
        Class::IsStrictOrderedRing => IS_STRICT_ORDERED_RING,
        Class::LinearOrderedCommRing => LINEAR_ORDERED_COMM_RING,
        Class::LinearOrderedField => LINEAR_ORDERED_FIELD,
    }
}

fn own(sort: Sort) -> u32
    ensures { result ≡ own_mask sort }
{
    match sort {
        Sort::Nat => COMM_SEMIRING | LINEAR_ORDER | IS_STRICT_ORDERED_RING,
        Sort::Int => COMM_RING | LINEAR_ORDER | IS_STRICT_ORDERED_RING,
        Sort::Rat => FIELD | LINEAR_ORDER | IS_STRICT_ORDERED_RING,
        Sort::Decl(_) => 0,
    }
}

/// Whether the first class is the second or implies it.
pub fn follows(class: Class, from: Class) -> bool
    ensures { result ≡ is_among (all_of from) class }
{
    all(from) >> class.number() & 1 == 1
}

/// Whether a built-in sort has the class.
pub fn is_own(sort: Sort, class: Class) -> bool
    ensures { result ≡ gives (own_classes sort) class }
{
    own(sort) >> class.number() & 1 == 1
}
