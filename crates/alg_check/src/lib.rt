//! The check of a certificate against the goals of a file that was read.
#![tactic(auto)]

pub mod answers;
pub mod checking;
mod entries;
mod following;
mod goals;
mod judging;
mod lines;
pub mod stops;
pub mod tallies;

pub use checking::check_certificate;
pub use stops::Stop;
pub use tallies::Tally;
