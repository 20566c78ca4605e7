//! What a server is asked by, lent: why it is refused, and its step; and what is looked up of a server.

ghost use Rattle.std.specs.Prelude.{◌≡◌, []};
ghost use Rattle.subj.specs.Answers.{IsAnswered};
ghost use Rattle.node_law.specs.Events.{Own, OnInfo, OnConnect, Receive};
ghost use Rattle.node_core.specs.Outcome.{Does, did_of, with_frames};
ghost use Rattle.node_core.specs.Served.{refusal, told_of_received};
ghost use Rattle.node_core.specs.InCode.{result_in_code};
ghost use Rattle.node_law.specs.Steps.{shard_line};
ghost use Rattle.std.specs.Option.{option_copied};
ghost use Rattle.hub_core.specs.Publishing.{next_id as id_of_next};
ghost use Rattle.node_core.specs.Lent.{asked_of};
ghost use Rattle.node_law.specs.Sound.{SoundNode};

use super::Node;
use crate::answers::Answer;
use crate::did::Did;
use crate::event_ref::EventRef;
use crate::refused::{Refused, as_refused};
use claim_race::Race;
use node_law::NodeFault;
use node_parts::{Received, ShardWithJobs, place_of_shard};
use route_values::Numbered;
use std::alloc::Global;
use sub_table::SubTable;
use subj::{Failure, PubId, ServerIdentity};

/// What a server did that took a frame in so. Takes no memory.
fn did_of_receive(alloc: Global, received: Received) -> Did
    ensures { did_of result ≡ with_frames (told_of_received received) [] }
{
    match received {
        Received::Routed(turn) => Did::answer_alone(alloc, Answer::Routed(turn)),
        Received::Heard(mark) => Did::answer_alone(alloc, Answer::Heard(mark)),
    }
}

impl<T: SubTable, R: Race> Node<T, R> {
    /// Who it is.
    pub fn server(&self) -> &ServerIdentity
        ensures same { result.now ≡ self.now.server }
        ensures sound { SoundNode self.now.server self.now.node }
    {
        self.side.hub().server()
    }

    /// The shard of this number with the jobs that wait for it, where there is such a shard.
    pub fn line(&self, shard: u64) -> Option<&ShardWithJobs<T>>
        ensures { option_copied result ≡ shard_line self.now.node shard }
    {
        let place = place_of_shard(self.lines.len(), shard)?;
        Some(&self.lines[place])
    }

    /// What its next publication is called. Takes no memory.
    pub fn next_id(&self) -> PubId
        ensures { result ≡ id_of_next self.now.server self.now.node.hub }
    {
        self.side.hub().next_id()
    }

    /// Why it refuses the event: [`Node::fault`], where the parts of the event are lent.
    pub fn fault_of(&self, asked: &EventRef<'_>) -> Option<NodeFault>
        ensures { result ≡ refusal self.now (asked_of asked.now) }
    {
        match *asked {
            EventRef::Own(event) => self.own_fault(event),
            EventRef::Receive(frame) => self.receive_fault(frame),
            EventRef::OnInfo(session, info) => self.info_fault(session, info),
            EventRef::OnConnect(session, connect) => self.connect_fault(session, connect),
        }
    }

    /// Takes a frame of a peer.
    #[tactic(auto, using(crate::proofs::Outcomes::Sending::receive_does))]
    fn did_receive(&mut self, frame: &Numbered) -> Result<Did, Failure<NodeFault>>
        ensures { IsAnswered (refusal self.old (Receive frame.now))
            (λ did. Does self.old (Receive frame.now) (did_of did) self.new) (self.new ≡ self.old)
            result }
    {
        let received = self.receive(frame)?;
        Ok(did_of_receive(self.alloc, received))
    }

    /// The step of an event whose parts are lent.
    fn did_asked(&mut self, asked: &EventRef<'_>) -> Result<Did, Failure<NodeFault>>
        ensures { IsAnswered (refusal self.old (asked_of asked.now))
            (λ did. Does self.old (asked_of asked.now) (did_of did) self.new) (self.new ≡ self.old)
            result }
    {
        match *asked {
            EventRef::Own(event) => self.own_did(event),
            EventRef::Receive(frame) => self.did_receive(frame),
            EventRef::OnInfo(session, info) => self.did_info(session, info),
            EventRef::OnConnect(session, connect) => self.did_connect(session, connect),
        }
    }

    /// Makes the step of an event: [`Node::step`], where the parts of the event are lent.
    pub fn step_of(&mut self, asked: &EventRef<'_>) -> Result<Did, Refused>
        ensures { IsAnswered (refusal self.old (asked_of asked.now))
            (λ did. Does self.old (asked_of asked.now) (did_of did) self.new) (self.new ≡ self.old)
            (result_in_code result) }
    {
        as_refused(self.did_asked(asked))
    }
}
