//! Definitions and lemmas about lists that the laws of other crates use; it has no code.
//!
//! ```text
//! // In code:
//! ghost use Rattle.list_laws.specs.Lists.{Each};
//! -- In definitions and in lemmas:
//! use Rattle.list_laws.specs.Lists.{Each}
//! use Rattle.list_laws.proofs.Lists.{each_cons}
//! ```
//!
//! What the crates above prove of shards, hubs, nodes and the cluster is said in these words.
#![tactic(auto)]
