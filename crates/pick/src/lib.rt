//! The choice of one server among several, by weight.
//!
//! ```text
//! let servers = [(first, 1), (second, 2)];
//! assert_eq!(rt; choose(&servers, 0), Some(first));
//! assert_eq!(rt; choose(&servers, 5), Some(second));
//! ```
//!
//! Read first: [`choose`].
#![tactic(auto)]

ghost use Rattle.std.specs.Prelude.{◌≡◌, ◌^◌, ◌<◌, ◌↔◌, IsNone, IfSome, Any, slice_get};
ghost use Rattle.pick.specs.Pick.{total_weight as total, units, pick_of, HasWeight};

use subj::NodeId;

/// How many units the servers have together.
fn total_weight(servers: &[(NodeId, u64)]) -> u64
    requires { total servers.now < 2 ^ 64 }
    ensures { result ≡ total servers.now }
{
    servers.iter().map(|(_, weight)| *weight).sum()
}

/// The server that has this unit, where each has as many as its weight, in order; units are counted
/// from 0. None just where there are no more than `unit` of them.
#[tactic(auto, using(crate::proofs::Units::here, crate::proofs::Units::behind))]
fn server_of_unit(servers: &[(NodeId, u64)], unit: u64) -> Option<NodeId>
    ensures { result ≡ slice_get (units servers.now) unit }
{
    let mut left = unit;
    for server in servers {
        let (node, weight) = *server;
        if left < weight {
            return Some(node);
        }
        left -= weight;
    }
    None
}

/// Picks one of the servers, each with a weight, by a word that the caller drew: the servers are
/// written down in the order handed in, each as often as its weight, and item `word mod total` of that
/// list is picked, counted from 0. A server of weight 0 is never picked. (Profile.)
///
/// None just where the weights come to 0, so also where there is no server. Takes no memory. Required:
/// the sum of the weights is below 2^64.
#[tactic(auto, using(crate::proofs::Units::picked_by_total, crate::proofs::Units::no_units, crate::proofs::Units::some_unit, crate::proofs::Units::has_weight))]
pub fn choose(weights: &[(NodeId, u64)], word: u64) -> Option<NodeId>
    requires { total weights.now < 2 ^ 64 }
    ensures pick { result ≡ pick_of weights.now word }
    ensures none { IsNone result ↔ (total weights.now ≡ 0) }
    ensures weighs { IfSome result (λ node. Any (HasWeight node) weights.now) }
{
    let total = total_weight(weights);
    if total == 0 {
        return None;
    }
    server_of_unit(weights, word % total)
}
