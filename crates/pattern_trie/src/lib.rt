//! Values that are kept by patterns: a look-up by a subject finds those whose pattern matches.
//!
//! ```text
//! let mut trie = PatternTrie::new(alloc);
//! trie.insert(&pattern, serial)?;
//! let mut found = Vec::new(alloc);
//! trie.matching(&subject.lent(), &mut found)?;
//! trie.remove(&pattern, serial);
//! ```
//!
//! Read first: [`PatternTrie`]. The files in reading order: `node` is what stands for one beginning of patterns,
//! and `nodes` has all of them, found by a hash (`text_hasher`); `beginnings` enters a pattern and takes it out,
//! and `walks` finds what a subject reaches, by the tokens that may go on (`marks`).
#![tactic(auto)]

ghost use Rattle.std.specs.Prelude.{◌≡◌, List, [], ◌∷◌, ◌++◌, false, None, OnOk, OnErr};
ghost use Rattle.std.specs.List.Sorted.{IsPermutation};
ghost use Rattle.subj.specs.Names.{subject_fault};
ghost use Rattle.pattern_trie.specs.Matchers.{matching_values};
ghost use Rattle.pattern_trie.specs.Nodes.{IsLiteral};
ghost use Rattle.pattern_trie.specs.Starts.{node_count};
ghost use Rattle.pattern_trie.specs.Held.{Held, Holds, without_held};

use crate::beginnings::{enter_all, leave_all};
use crate::nodes::{Nodes, push_value, take_value};
use crate::walks::{add_values, gather};
use std::alloc::{AllocError, Global};
use std::collections::HashMap;
use std::hash::BuildHasherDefault;
use subj::{LentSubject, Pattern, Subject};

mod beginnings;
mod marks;
mod node;
mod nodes;
mod text_hasher;
mod walks;

/// Values, each held under a pattern: serials of subscriptions, or whatever else is copied and compared
/// by `==`.
#[derive(Drop)]
pub struct PatternTrie<V> {
    alloc: Global,
    nodes: Nodes<V>,
    /// Whether something was ever held under a pattern with a wildcard: if not, a subject is looked up as it stands.
    is_wild: bool,
    ghost filled: { ∥ ((held : List (Held V)) × Holds held nodes) ∥₁ },
    ghost literal: { is_wild ≡ false → IsLiteral nodes },
}

impl<V: Copy + PartialEq> PatternTrie<V> {
    /// A trie that holds nothing.
    pub fn new(alloc: Global) -> PatternTrie<V>
        ensures { Holds [] result.nodes }
    {
        PatternTrie {
            alloc,
            nodes: HashMap::with_hasher(alloc, BuildHasherDefault::new()),
            is_wild: false,
        }
    }

    /// Notes whether a pattern has a wildcard under which something is to be held.
    fn note_wild(&mut self, text: &[u8])
        ensures nodes { self.new.nodes ≡ self.old.nodes }
        ensures plain { self.new.is_wild ≡ false → subject_fault text.now ≡ None }
    {
        if Subject::fault(text).is_some() {
            self.is_wild = true;
        }
    }

    /// Holds one more value. Want of memory leaves the trie as it was.
    pub fn insert(&mut self, pattern: &Pattern, value: V) -> Result<(), AllocError>
        ensures ok { (held : List (Held V))
            → Holds held self.old.nodes
            → OnOk result (Holds (held ++ (pattern.now, value) ∷ []) self.new.nodes) }
        ensures err { (held : List (Held V))
            → Holds held self.old.nodes
            → OnErr result (Holds held self.new.nodes) }
    {
        let text = pattern.bytes();
        self.note_wild(text);
        enter_all(self.alloc, &mut self.nodes, text)?;
        if push_value(&mut self.nodes, text, value).is_err() {
            leave_all(&mut self.nodes, text);
            return Err(AllocError);
        }
        Ok(())
    }

    /// Holds the first value under the pattern that is equal to this one no longer. Takes no memory.
    pub fn remove(&mut self, pattern: &Pattern, value: V)
        ensures { (held : List (Held V))
            → Holds held self.old.nodes
            → Holds (without_held V.eq pattern.now value held) self.new.nodes }
    {
        let text = pattern.bytes();
        if take_value(&mut self.nodes, text, &value) {
            leave_all(&mut self.nodes, text);
        }
    }

    /// Adds the values held under the patterns that match the subject, once for each time that they
    /// are held. In which order they come is not said.
    pub fn matching(&self, subject: &LentSubject<'_>, found: &mut Vec<V>) -> Result<(), AllocError>
        ensures { (held : List (Held V))
            → Holds held self.now.nodes
            → OnOk result
            (IsPermutation (found.old.items ++ matching_values subject.now held) found.new.items) }
    {
        let text = subject.bytes();
        if !self.is_wild {
            return add_values(&self.nodes, text, found);
        }
        let mut path = Vec::with_capacity(self.alloc, text.len())?;
        gather(&self.nodes, &mut path, Some(text), found)
    }

    /// How many nodes there are: one for each beginning of the token lists of the patterns under
    /// which something is held, and one for the beginning without a token. Takes no memory.
    pub fn nodes(&self) -> usize
        ensures { (held : List (Held V)) → Holds held self.now.nodes → result ≡ node_count held }
    {
        self.nodes.len() + 1
    }
}
