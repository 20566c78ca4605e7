//! Whether a server is at rest, and what it knows of another one, without memory; and what a publish owes.

ghost use Rattle.std.specs.Prelude.{◌≡◌, ⊤};
ghost use Rattle.subj.specs.Answers.{IsAnswered};
ghost use Rattle.hub_core.specs.Chosen.{IsPlanOf, publication_by};
ghost use Rattle.node_law.specs.Events.{Own, Publish};
ghost use Rattle.node_core.specs.Served.{refusal};
ghost use Rattle.std.specs.List.{list_all};
ghost use Rattle.hub_core.specs.Settled.{has_few_names as are_few};
ghost use Rattle.node_law.specs.Settled.{is_line_settled, is_node_settled, is_peer_settled, has_room_in};

use super::{Node, of_hub};
use claim_race::Race;
use hub_core::PublishPlan;
use node_law::NodeFault;
use node_parts::{ShardWithJobs, finished_by};
use sub_table::SubTable;
use subj::{ConnId, Failure, Message, Pub, Subject};

/// Whether no job waits or is in hand at any of the lines, and the hub was told of all openings and closings.
fn are_settled<T: SubTable>(lines: &[ShardWithJobs<T>]) -> bool
    ensures { result ≡ list_all is_line_settled lines.now }
{
    lines.iter().all(|line| line.is_settled())
}

/// Whether each connection of the lines has room for the messages that its open subscriptions are due of this one, all together.
fn have_room_for<T: SubTable>(lines: &[ShardWithJobs<T>], message: &Message) -> bool
    ensures { result ≡ list_all (has_room_in message.now) lines.now }
{
    lines.iter().all(|line| line.has_room_for(message))
}

impl<T: SubTable, R: Race> Node<T, R> {
    /// Whether no job waits or is in hand at any of its shards, its hub was told of all openings and closings and does not drain,
    /// and one more turn and one more publication have a number.
    pub fn is_settled(&self) -> bool
        ensures { result ≡ is_node_settled self.now.node }
    {
        are_settled(&self.lines) && self.side.hub().goes_on()
    }

    /// Whether the other server, at this place, is known as it runs: a session with its incarnation is kept, it is up, its
    /// interest is known, and there is room for a frame to it.
    pub fn knows(&self, place: usize, other: &Node<T, R>) -> bool
        ensures { result ≡ is_peer_settled self.now.node other.now.node other.now.server.inc place }
    {
        self.side.knows(place, &other.side)
    }

    /// Whether no more queue names want the subject than a publication may have.
    pub fn has_few_names(&self, subject: &Subject) -> bool
        ensures { result ≡ are_few self.now.server self.now.node.hub subject.now }
    {
        self.side.hub().has_few_names(&subject.lent())
    }

    /// Whether each connection has room for the messages that its open subscriptions are due of this one, all together.
    pub fn has_room_for(&self, message: &Message) -> bool
        ensures { result ≡ list_all (has_room_in message.now) self.now.node.lines }
    {
        have_room_for(&self.lines, message)
    }

    /// What a publish owes: [`Hub::plan_publish`](hub_core::Hub::plan_publish). It changes nothing. Refused as
    /// [`Node::publish`] is.
    pub fn plan_publish(
        &self,
        conn: ConnId,
        publication: &Pub,
        word: u64,
    ) -> Result<PublishPlan, Failure<NodeFault>>
        ensures { let p = publication_by conn publication.now word in
            IsAnswered (refusal self.now (Own (Publish p)))
            (λ plan. IsPlanOf self.now.server self.now.node.hub p plan.job plan.frames.items) ⊤
            result }
    {
        let count = self.lines.len();
        let finished = finished_by(&self.race, count as u64);
        of_hub(self.side.plan_publish(conn, publication, word, &finished))
    }
}
