//! What a cluster as a value can say of itself, of the run that ends in it: laws over the definitions, each the contract of a
//! function that does nothing.

ghost use Rattle.world_law.specs.Changes.{LivesAreFound};
ghost use Rattle.world_law.specs.Echo.{EchoIsKept};
ghost use Rattle.world_law.specs.Headline.{IsCluster, Names, AreSent};
ghost use Rattle.world_law.specs.State.{Cluster, World};
ghost use Rattle.world_law.specs.Steps.{Carried};

use crate::laws::{echo_is_kept, names_are_unique, taken_frames_were_sent};

/// Each subscription that has not closed is open at its server, which is up in its incarnation.
pub fn carried_lives_are_open()
    ensures { (c : Cluster) → IsCluster c → (w : World) → Carried c w → LivesAreFound w }
{
    shard_core::entries_are_put();
    node_law::servers_follow_the_law();
    node_law::servers_stay_sound()
}

/// No two publications have one name, nor two subscriptions.
pub fn carried_names_are_unique()
    ensures { (c : Cluster) → IsCluster c → (w : World) → Carried c w → ∥ Names w ∥₁ }
{
    names_are_unique()
}

/// Each frame that a take from a peer gives was sent.
pub fn carried_frames_were_sent()
    ensures { (c : Cluster) (w : World) → Carried c w → ∥ AreSent w ∥₁ }
{
    taken_frames_were_sent()
}

/// What was published without echo was placed for no subscription of the connection that published it.
pub fn carried_echo_is_kept()
    ensures { (c : Cluster) → IsCluster c → (w : World) → Carried c w → ∥ EchoIsKept c w ∥₁ }
{
    echo_is_kept()
}
