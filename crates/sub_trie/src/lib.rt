//! The open subscriptions of a shard, found by the tokens of their patterns.
//!
//! ```text
//! let mut table = TrieTable::new(alloc)?;
//! table.add(sub)?;
//! table.remember(&subject.lent());
//! let found = table.matching(&subject.lent())?;
//! ```
//!
//! Read first: [`TrieTable`]. The files in reading order: `table` is the table; `opened` has the open subscriptions
//! with a trie of them, and `groups` the serials under a key, as those under one id of a connection; `recent` keeps
//! in mind what subjects matched, in a `slot` each.
#![tactic(auto)]

mod groups;
mod opened;
mod recent;
mod slot;
mod table;

pub use table::TrieTable;
