//! What is told of interest.

use route_values::WeightedKey;
use subj::Key;

/// What the other servers are told. (NATS documentation, "Cluster Protocol": `RS+` and `RS-`.)
#[derive(Drop)]
pub enum Change {
    /// The key is there. It weighs 1 where it has no queue name, and else the number of its open
    /// subscriptions.
    Up(WeightedKey),
    /// The key has no open subscription any more.
    Gone(Key),
    /// No key is there any more: the server drains. Peers hear it as a snapshot without keys.
    Clear,
}
