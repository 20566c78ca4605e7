//! A job as it stands in a block.

ghost use Rattle.std.specs.Prelude.{◌≡◌, IfOk, IfSome};
ghost use Rattle.std.specs.Option.{option_copied};
ghost use Rattle.job_block.specs.Publications.{IsPublishable, content_by};
ghost use Rattle.job_block.specs.Kept.{IsKeptMessage, job_in};

use crate::kept::KeptJob;
use crate::publications::PublicationParts;
use std::alloc::{AllocError, Global};
use std::marker::Model;
use subj::{ConnId, Job, LentSubject, Message, PubId, QueueNames, Turn};

/// A job as it stands in a block.
///
/// Seen as the job.
#[derive(Drop)]
pub struct LentJob<'a> {
    text: &'a [u8],
    kept: &'a KeptJob,
    turn: Turn,
}

impl<'a> Model for LentJob<'a> {
    ghost use Rattle.subj.specs.declared.jobs.Job.{Job};
    ghost use Rattle.job_block.specs.Kept.{IsKeptMessage, job_in};

    ghost Value = { Job };

    ghost view = { λ lent. job_in lent.text.now lent.turn lent.kept.now };

    ghost invariant = { λ lent. IsKeptMessage lent.text.now lent.kept.now.message };
}

impl<'a> LentJob<'a> {
    /// The job that is kept so, beside this text.
    pub(crate) fn of(text: &'a [u8], kept: &'a KeptJob, turn: Turn) -> LentJob<'a>
        requires { IsKeptMessage text.now kept.now.message }
        ensures { result ≡ job_in text.now turn kept.now }
    {
        LentJob { text, kept, turn }
    }

    /// The place of the job in the order of the server's jobs.
    pub fn turn(&self) -> Turn
        ensures { result ≡ self.now.turn }
    {
        self.turn
    }

    /// Which publication it is.
    pub fn id(&self) -> PubId
        ensures { result ≡ self.now.id }
    {
        self.kept.id
    }

    /// The connection that published it, where that is one of this server.
    pub fn publisher(&self) -> Option<ConnId>
        ensures { result ≡ self.now.publisher }
    {
        self.kept.publisher
    }

    /// Whether the publisher's own subscriptions may get it.
    pub fn echo(&self) -> bool
        ensures { result ≡ self.now.echo }
    {
        self.kept.echo
    }

    /// The queue names that the server must serve.
    pub fn queues(&self) -> &'a QueueNames
        ensures { result.now ≡ self.now.queues }
    {
        &self.kept.queues
    }

    /// What it was published on.
    pub fn subject(&self) -> LentSubject<'a>
        ensures { result ≡ self.now.message.subject }
    {
        self.kept.message.subject(self.text)
    }

    /// What was published.
    pub fn publication(&self) -> PublicationParts<'a>
        ensures same { content_by result ≡ self.now.message }
        ensures valid { IsPublishable self.now.message }
    {
        self.kept.message.parts(self.text)
    }

    /// Its message, where that stands apart: where it was put so ([`JobBlock::push`](crate::JobBlock::push)), and where the job came with
    /// its message. Copies of the message share it.
    pub fn shared(&self) -> Option<&'a Message>
        ensures { IfSome (option_copied result) (λ message. message ≡ self.now.message) }
    {
        self.kept.message.shared()
    }

    /// The job as a value of its own: it shares the queue names, and a message that stands apart, and has a copy of any other.
    pub fn to_job(&self, alloc: Global) -> Result<Job, AllocError>
        ensures { IfOk result (λ job. job ≡ self.now) }
    {
        let message = self.kept.message.message(alloc, self.text)?;
        let queues = self.kept.queues.try_clone()?;
        Ok(Job {
            turn: self.turn,
            id: self.kept.id,
            message,
            publisher: self.kept.publisher,
            echo: self.kept.echo,
            queues,
        })
    }
}
