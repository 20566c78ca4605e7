//! What a cluster answers.

ghost use Rattle.std.specs.Prelude.{◌≡◌};
ghost use Rattle.cluster_world.specs.InCode.{fault_in};

use node_core::Answer;
use world_law::WorldFault;

/// What a cluster answers to an event. (Profile.)
#[derive(Drop)]
pub enum Outcome {
    /// Why it is refused.
    Refused(WorldFault),
    /// What the server answers that it is for.
    Done(Answer),
}

impl Outcome {
    /// Why the event was refused; none where it was done.
    pub fn fault(&self) -> Option<WorldFault>
        ensures { result ≡ fault_in self.now }
    {
        match self {
            Outcome::Refused(fault) => Some(*fault),
            Outcome::Done(_) => None,
        }
    }
}

/// What came of a publish and of the events behind it.
#[derive(Drop)]
pub struct Delivery {
    /// Of the publish.
    pub published: Outcome,
    /// Of the events behind it, in order.
    pub worked: Vec<Outcome>,
}
