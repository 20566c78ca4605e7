//! What a publication owes, planned before anything is changed: by who is in mind, or by a look at all who want its subject.

ghost use Rattle.std.specs.Prelude.{◌≡◌, false, ◌<◌, ◌+◌, ℕ, if◌then◌else◌, ⊤, Some, None, length, [], nat_lt, IfSome, slice_get};
ghost use Rattle.std.specs.Option.{option_copied};
ghost use Rattle.subj.specs.Answers.{IsAnswered};
ghost use Rattle.subj.specs.declared.limits.TheConstants.{MAX_COUNTER, MAX_QUEUE_NAMES};
ghost use Rattle.hub_core.specs.State.{Peer as KnownPeer};
ghost use Rattle.hub_core.specs.Events.{Publish, Issued};
ghost use Rattle.hub_core.specs.Hubs.{DoesStep};
ghost use Rattle.hub_core.specs.declared.faults.HubFault.TheVariants.{TooManyQueues};
ghost use Rattle.hub_core.specs.Publishing.{publish_refusal, frames_of};
ghost use Rattle.hub_core.specs.Chosen.{publication_by, IsPlanOf, KnowsPlain};
ghost use Rattle.hub_core.specs.Choice.{queue_names as wanted_names};
ghost use Rattle.hub_core.specs.Serving.{IsServed, ServesAlone};
ghost use Rattle.hub_core.specs.Audiences.{IsAudience};
ghost use Rattle.hub_core.specs.Local.{OwesLocalJob};

use crate::audience::{Audience, asked_next};
use crate::faults::HubFault;
use crate::hub::Hub;
use crate::publishing::{Outgoing, PublishPlan, frames_for, is_alone, is_name_wanted, own_job};
use std::alloc::AllocError;
use subj::{ConnId, Failure, Finished, Job, LentSubject, NodeId, Pub, QueueNames, Subject, Turn};

/// Who serves each queue name of a publication.
#[derive(Clone, Copy)]
struct Split<'a> {
    names: &'a QueueNames,
    /// By name, the server that serves it.
    servers: &'a [Option<NodeId>],
    /// By place, whether the server is a peer with a plain key that matches, where that is known.
    plain: Option<&'a [bool]>,
}

impl Hub {
    /// What a publication owes that has this turn and these queue names, each of which the server at its place serves.
    #[inline(always)]
    fn plan_by(
        &self,
        turn: Turn,
        conn: ConnId,
        publication: &Pub,
        word: u64,
        split: &Split<'_>,
    ) -> Result<PublishPlan, Failure<HubFault>>
        requires turn { turn ≡ self.now.state.issued + 1 }
        requires number { self.now.state.published < MAX_COUNTER }
        requires names { split.now.names.now
            ≡ wanted_names self.now.server self.now.state publication.now.message.subject }
        requires servers { IsServed self.now.server self.now.state
            (publication_by conn publication.now word) split.now.names.now split.now.servers.now }
        requires plain { (q : ℕ) (peer : KnownPeer)
            → slice_get self.now.state.peers q ≡ Some peer
            → KnowsPlain (option_copied split.now.plain) publication.now.message.subject q peer }
        ensures { IsAnswered None
            (λ plan.
            IsPlanOf self.now.server self.now.state (publication_by conn publication.now word)
            plan.job plan.frames.items)
            ⊤ result }
    {
        let _word = word;
        let out = Outgoing {
            alloc: self.alloc,
            server: &self.server,
            number: self.published + 1,
            message: &publication.message,
            names: split.names,
            servers: split.servers,
            plain: split.plain,
        };
        let frames = frames_for(&out, &self.peers)?;
        let job = own_job(&out, turn, conn, publication.echo)?;
        Ok(PublishPlan { job, frames })
    }

    /// What a publication owes that has this turn, where this is who wants its subject.
    fn plan_for(
        &self,
        turn: Turn,
        conn: ConnId,
        publication: &Pub,
        word: u64,
        audience: &Audience,
    ) -> Result<PublishPlan, Failure<HubFault>>
        requires turn { turn ≡ self.now.state.issued + 1 }
        requires number { self.now.state.published < MAX_COUNTER }
        requires audience { IsAudience self.now.server self.now.state.counts self.now.state.peers
            publication.now.message.subject audience.now }
        ensures { IsAnswered None
            (λ plan.
            IsPlanOf self.now.server self.now.state (publication_by conn publication.now word)
            plan.job plan.frames.items)
            ⊤ result }
    {
        let servers = audience.servers(self.alloc, word)?;
        let split = Split {
            names: &audience.names,
            servers: &servers,
            plain: Some(&audience.plain),
        };
        self.plan_by(turn, conn, publication, word, &split)
    }

    /// What a publication owes that has this turn, by a look at all who want its subject. Refused: 61 where more queue names
    /// want it than a publication may have.
    #[inline(never)]
    fn plan_named(
        &self,
        turn: Turn,
        conn: ConnId,
        publication: &Pub,
        word: u64,
    ) -> Result<PublishPlan, Failure<HubFault>>
        requires turn { turn ≡ self.now.state.issued + 1 }
        requires number { self.now.state.published < MAX_COUNTER }
        ensures { IsAnswered
            (if nat_lt MAX_QUEUE_NAMES
            (length (wanted_names self.now.server self.now.state publication.now.message.subject))
            then Some TooManyQueues
            else None)
            (λ plan.
            IsPlanOf self.now.server self.now.state (publication_by conn publication.now word)
            plan.job plan.frames.items)
            ⊤ result }
    {
        let (alloc, counts) = (self.alloc, self.counts.counts());
        let subject = publication.message.subject().lent();
        let audience = Audience::find(alloc, &self.server, counts, &self.peers, &subject)?;
        self.plan_for(turn, conn, publication, word, &audience)
    }

    /// The same of one that no queue name wants: no room is made for names and for their servers.
    #[inline(always)]
    fn plan_unnamed(
        &self,
        turn: Turn,
        conn: ConnId,
        publication: &Pub,
        word: u64,
    ) -> Result<PublishPlan, Failure<HubFault>>
        requires turn { turn ≡ self.now.state.issued + 1 }
        requires number { self.now.state.published < MAX_COUNTER }
        requires names { wanted_names self.now.server self.now.state publication.now.message.subject
            ≡ [] }
        ensures { IsAnswered None
            (λ plan.
            IsPlanOf self.now.server self.now.state (publication_by conn publication.now word)
            plan.job plan.frames.items)
            ⊤ result }
    {
        let names = QueueNames::new();
        let split = Split {
            names: &names,
            servers: &[],
            plain: None,
        };
        self.plan_by(turn, conn, publication, word, &split)
    }

    /// Who wants the subject, where that is in mind.
    pub(crate) fn audience_of(&self, subject: &LentSubject<'_>) -> Option<&Audience>
        ensures { IfSome result (λ audience.
            IsAudience self.now.server self.now.state.counts self.now.state.peers subject.now
            audience.now) }
    {
        match &self.memo {
            Some(memo) => memo.of(&self.server, &self.peers, subject),
            None => None,
        }
    }

    /// Notes that the subject was published on, and is not in mind.
    fn note(&self, subject: &Subject) {
        let last = self.asked.replace(None);
        self.asked.set(asked_next(last, subject));
    }

    /// Who wants the subject, where that is in mind. Where it is not, it notes that it was asked for, unless the server has no
    /// peer that is up and no queue name.
    fn audience_in_mind(&self, subject: &Subject) -> Option<&Audience>
        ensures { IfSome result (λ audience.
            IsAudience self.now.server self.now.state.counts self.now.state.peers subject.now
            audience.now) }
    {
        if !self.counts.is_queued() && is_alone(&self.server, &self.peers) {
            return None;
        }
        let audience = self.audience_of(&subject.lent());
        if audience.is_none() {
            self.note(subject);
        }
        audience
    }

    /// What a publication owes that has this turn, where no peer is eligible: the server serves all of the queue names
    /// itself.
    #[inline(always)]
    fn plan_alone(
        &self,
        turn: Turn,
        conn: ConnId,
        publication: &Pub,
        names: &QueueNames,
    ) -> Result<PublishPlan, Failure<HubFault>>
        requires turn { turn ≡ self.now.state.issued + 1 }
        requires number { self.now.state.published < MAX_COUNTER }
        requires names { ServesAlone self.now.server self.now.state publication.now.message.subject
            names.now }
        ensures { (word : ℕ)
            → IsAnswered None
            (λ plan.
            IsPlanOf self.now.server self.now.state (publication_by conn publication.now word)
            plan.job plan.frames.items)
            ⊤ result }
    {
        let queues = names.try_clone()?;
        let message = publication.message.try_clone()?;
        let job = Job {
            turn,
            id: self.next_id(),
            message,
            publisher: Some(conn),
            echo: publication.echo,
            queues,
        };
        Ok(PublishPlan {
            job,
            frames: Vec::new(self.alloc),
        })
    }

    /// Whether some queue name wants the subject.
    pub(crate) fn is_named(&self, subject: &LentSubject<'_>) -> bool
        ensures { result ≡ false → wanted_names self.now.server self.now.state subject.now ≡ [] }
    {
        is_name_wanted(&self.server, &self.counts, &self.peers, subject)
    }

    /// The queue names of those who want the subject, where no peer is eligible: the server serves them all itself, and owes a
    /// publication on it to its own shards alone.
    pub(crate) fn names_alone<'a>(
        &self,
        subject: &LentSubject<'_>,
        audience: &'a Audience,
    ) -> Option<&'a QueueNames>
        requires { IsAudience self.now.server self.now.state.counts self.now.state.peers subject.now
            audience.now }
        ensures alone { IfSome result (λ names.
            ServesAlone self.now.server self.now.state subject.now names.now) }
        ensures local { IfSome result (λ names.
            OwesLocalJob self.now.server self.now.state subject.now names.now) }
    {
        if !is_alone(&self.server, &self.peers) {
            return None;
        }
        let _valid = self.counts.counts().keys();
        let _ordered = audience.names.as_slice();
        Some(&audience.names)
    }

    /// What a publication owes that has this turn: by who is in mind, or by a look at who wants it. Refused as
    /// [`Hub::plan_named`] is.
    #[inline(always)]
    fn plan_at(
        &self,
        turn: Turn,
        conn: ConnId,
        publication: &Pub,
        word: u64,
    ) -> Result<PublishPlan, Failure<HubFault>>
        requires turn { turn ≡ self.now.state.issued + 1 }
        requires number { self.now.state.published < MAX_COUNTER }
        ensures { IsAnswered
            (if nat_lt MAX_QUEUE_NAMES
            (length (wanted_names self.now.server self.now.state publication.now.message.subject))
            then Some TooManyQueues
            else None)
            (λ plan.
            IsPlanOf self.now.server self.now.state (publication_by conn publication.now word)
            plan.job plan.frames.items)
            ⊤ result }
    {
        let subject = publication.message.subject();
        if let Some(audience) = self.audience_in_mind(subject) {
            if let Some(names) = self.names_alone(&subject.lent(), audience) {
                return self.plan_alone(turn, conn, publication, names);
            }
            return self.plan_for(turn, conn, publication, word, audience);
        }
        if self.is_named(&subject.lent()) {
            // bound first: the plan of most publications is then built where it goes, and not moved there
            let plan = self.plan_named(turn, conn, publication, word);
            return plan;
        }
        self.plan_unnamed(turn, conn, publication, word)
    }

    /// What a publish of the connection owes, where the word decides who serves each queue name. It changes
    /// nothing, and takes memory only for what somebody wants; copies of the message share its bytes.
    ///
    /// Refused: 60 where a shard is a window behind, of the last turns that the shards finished; 62 where
    /// the last number of a publication or the last turn was used; 61 where more queue names want it than a
    /// publication may have. (Profile.)
    #[inline(always)]
    pub fn plan_publish(
        &self,
        conn: ConnId,
        publication: &Pub,
        word: u64,
        finished: &Finished,
    ) -> Result<PublishPlan, Failure<HubFault>>
        ensures { IsAnswered
            (publish_refusal self.now.server self.now.state
            (publication_by conn publication.now word) finished.now)
            (λ plan.
            IsPlanOf self.now.server self.now.state (publication_by conn publication.now word)
            plan.job plan.frames.items)
            ⊤ result }
    {
        let turn = match self.next_turn(finished) {
            Ok(turn) => turn,
            Err(fault) => return Err(Failure::Refused(fault)),
        };
        self.plan_at(turn, conn, publication, word)
    }

    /// [`Hub::plan_publish`] and [`Hub::commit_publish`] together: the publication takes the next number
    /// and the next turn, its frames wait for their peers, and the job of the server's own shards is given.
    /// Any `Err` leaves all as it was.
    pub fn publish(
        &mut self,
        conn: ConnId,
        publication: &Pub,
        word: u64,
        finished: &Finished,
    ) -> Result<Job, Failure<HubFault>>
        ensures { let p = publication_by conn publication.now word in
            IsAnswered (publish_refusal self.old.server self.old.state p finished.now)
            (λ job.
            DoesStep self.old (Publish p finished.now)
            (Issued job (frames_of self.old.server self.old.state p)) self.new)
            (self.new ≡ self.old) result }
    {
        let PublishPlan { job, frames } = self.plan_publish(conn, publication, word, finished)?;
        self.commit_publish(frames);
        Ok(job)
    }
}
