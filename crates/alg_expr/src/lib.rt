//! An arena of typed trees: each tree is kept once and named by an id, and contracts see an id as its tree.
#![tactic(auto)]

mod arena;
mod comparing;
mod ids;
mod importing;
mod items;
mod memory;
mod nodes;
mod text;

pub use alg_terms::{BadCause, GREATEST_LITERAL, Place, Rel, Sort, Sym};
pub use arena::{Arena, ExprFault};
pub use ids::{ExprId, Stmt, View};
pub use items::Items;
pub use memory::Memory;
pub use text::Text;
