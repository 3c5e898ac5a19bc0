//! Classes, declarations and bases, which trees are well sorted under a base, and the table of the laws.
#![tactic(auto)]

pub mod additive_laws;
pub mod base;
pub mod classes;
mod combo;
pub mod copies;
pub mod declarations;
pub mod growing;
pub mod index;
pub mod law_index;
mod law_table;
pub mod law_words;
pub mod lending;
pub mod marks;
pub mod masks;
pub mod multiplicative_laws;
pub mod order_laws;
pub mod ordered_ring_laws;
pub mod patterns;
pub mod ring_laws;
pub mod rows;
pub mod shared;

pub use base::{Base, Signature, has};
pub use classes::Class;
pub use combo::{Combo, ComboStep};
pub use copies::{Copies, Declarations};
pub use declarations::Declared;
pub use growing::Growing;
pub use law_index::LawIndex;
pub use law_table::laws;
pub use lending::{Given, Lent};
pub use marks::{Mark, literal_class, mark_for, mark_for_head, mark_for_sort, relates, worse_of};
pub use patterns::{Pat, PatSort, PatStmt};
pub use rows::{Law, Need};
pub use shared::Shared;
