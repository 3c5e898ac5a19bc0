//! The extensions that find the values of the functions of natural numbers and integers. Each is told apart by the
//! symbols that it covers; the lines are made in one place.
#![tactic(auto)]

pub mod choices;
pub mod differences;
pub mod divisors;
pub mod factorials;
pub mod fibonacci;
pub mod heads;
pub mod quotients;
pub mod remainders;
mod whole;

pub use choices::ChooseExt;
pub use differences::NatSubExt;
pub use divisors::GcdExt;
pub use factorials::FactExt;
pub use fibonacci::FibExt;
pub use heads::{Head, head_of};
pub use quotients::DivExt;
pub use remainders::ModExt;
