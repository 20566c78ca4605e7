//! A node of a trie.

ghost use Rattle.std.specs.Prelude.{◌<◌};

use crate::marks::Marks;

/// What is held at a beginning and below it.
#[derive(Drop)]
pub(crate) struct Node<V> {
    /// How many values are held at patterns that begin so.
    pub(crate) below: usize,
    /// Those held at the pattern that is this beginning, in order of insertion.
    pub(crate) values: Vec<V>,
    /// The tokens that patterns had right behind this beginning since there is a node for it.
    pub(crate) marks: Marks,
    ghost some: { 0 < below },
}
