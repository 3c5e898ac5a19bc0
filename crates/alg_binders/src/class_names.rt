ghost use Rattle.std.specs.Prelude.{◌≡◌};
ghost use Rattle.alg_names.specs.Found.{found};
ghost use Rattle.alg_binders.specs.ClassNames.{multiplicative, additive, rings, ordered};
ghost use Rattle.alg_binders.specs.ClassNames as spec;

use alg_law::Class;

fn multiplicative_named(text: &str) -> Option<Class>
    ensures { result ≡ found multiplicative text.now }
{
    if text == "Semigroup" {
        Some(Class::Semigroup)
    } else if text == "CommSemigroup" {
        Some(Class::CommSemigroup)
    } else if text == "Monoid" {
        Some(Class::Monoid)
    } else if text == "CommMonoid" {
        Some(Class::CommMonoid)
    } else if text == "Group" {
        Some(Class::Group)
    } else if text == "CommGroup" {
        Some(Class::CommGroup)
    } else {
        None
    }
}

fn additive_named(text: &str) -> Option<Class>
    ensures { result ≡ found additive text.now }
{
    if text == "AddMonoid" {
        Some(Class::AddMonoid)
    } else if text == "AddCommMonoid" {
        Some(Class::AddCommMonoid)
    } else if text == "AddGroup" {
        Some(Class::AddGroup)
    } else if text == "AddCommGroup" {
        Some(Class::AddCommGroup)
    } else {
        None
    }
}

fn ring_named(text: &str) -> Option<Class>
    ensures { result ≡ found rings text.now }
{
    if text == "Semiring" {
        Some(Class::Semiring)
    } else if text == "CommSemiring" {
        Some(Class::CommSemiring)
    } else if text == "Ring" {
        Some(Class::Ring)
    } else if text == "CommRing" {
        Some(Class::CommRing)
    } else if text == "Field" {
        Some(Class::Field)
    } else {
        None
    }
}

fn ordered_named(text: &str) -> Option<Class>
    ensures { result ≡ found ordered text.now }
{
    if text == "LinearOrder" {
        Some(Class::LinearOrder)
    } else if text == "CharZero" {
        Some(Class::CharZero)
    } else if text == "IsStrictOrderedRing" {
        Some(Class::IsStrictOrderedRing)
    } else if text == "LinearOrderedCommRing" {
        Some(Class::LinearOrderedCommRing)
    } else if text == "LinearOrderedField" {
        Some(Class::LinearOrderedField)
    } else {
        None
    }
}

/// The class with this name.
pub fn class_named(text: &str) -> Option<Class>
    ensures { result ≡ spec.class_named text.now }
{
    if let Some(class) = multiplicative_named(text) {
        return Some(class);
    }
    if let Some(class) = additive_named(text) {
        return Some(class);
    }
    if let Some(class) = ring_named(text) {
        return Some(class);
    }
    ordered_named(text)
}
