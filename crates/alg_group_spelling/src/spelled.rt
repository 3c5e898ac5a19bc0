use alg_build::Rewriting;
use alg_group_stack::Syllable;

/// The word of a tree, and what leads from the tree to it.
#[derive(Debug, Drop)]
pub struct Spelled {
    pub word: Vec<Syllable>,
    pub turns: Rewriting,
}
