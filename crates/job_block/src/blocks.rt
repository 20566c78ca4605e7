//! A block of jobs.

ghost use Rattle.std.specs.Prelude.{◌≡◌, ◌+◌, ◌-◌, ◌*◌, ◌/◌, ◌^◌, ◌<◌, ◌≤◌, ◌==◌, ◌++◌, ◌∷◌, [], length, true, min, slice_get, vec_len, vec_capacity, IfOk, IfSome, OnOk, OnErr, Some, if◌then◌else◌};
ghost use Rattle.subj.specs.Numbers.{turn_of};
ghost use Rattle.job_block.specs.Publications.{IsPublishable, IsShort, content_by};
ghost use Rattle.job_block.specs.Blocks.{AreNumberedFrom, GoesOnAt, IsLast, IsLeft, IsPushed, job_of, kept_memory, turn_behind};

use crate::kept::{KeptJob, KeptMessage, Origin, keep, last_span, last_subject};
use crate::lent_jobs::LentJob;
use crate::publications::PublicationParts;
use std::alloc::{AllocError, Global};
use std::marker::Model;
use std::mem::size_of;
use subj::{MAX_COUNTER, Message, QueueNames, Turn};

/// How many bytes of memory the place of a job takes, the bytes of its message apart.
pub const JOB_BYTES: usize = size_of::<KeptJob>();

/// The most bytes of memory that a block keeps for other jobs. (Profile.)
pub const KEPT_BYTES: usize = 65_536;

/// The turn so far behind a turn. Required: it is one.
fn turn_after(first: Turn, count: usize) -> Turn
    requires { first + count ≤ MAX_COUNTER }
    ensures { result ≡ first + count }
{
    match Turn::new(first.get() + count as u64) {
        Some(turn) => turn,
        // required: it is one
        None => unreachable!(),
    }
}

/// Drops all items of a list. Its memory stays where it is to be kept, and else is given back.
fn empty<T: Drop>(list: &mut Vec<T>, keeps: bool)
    ensures items { list.new.items ≡ [] }
    ensures capacity { vec_capacity list.new ≡ (if keeps then vec_capacity list.old else 0) }
{
    list.clear();
    if !keeps {
        list.shrink_to_fit();
    }
}

/// Puts a job behind, for which there is room.
#[inline(always)]
fn put_job(
    kept: &mut Vec<KeptJob>,
    origin: Origin,
    queues: QueueNames,
    goes_on: bool,
    message: KeptMessage,
)
    requires { vec_len kept.old < vec_capacity kept.old }
    ensures { kept.new.items
        ≡ kept.old.items
        ++ record {
          id = origin.id;
          publisher = origin.publisher;
          echo = origin.echo;
          goes_on = goes_on;
          queues = queues;
          message = message;
        }
        ∷ [] }
{
    let Origin {
        id,
        publisher,
        echo,
    } = origin;
    kept.push_reserved(KeptJob {
        id,
        publisher,
        echo,
        goes_on,
        queues,
        message,
    });
}

/// No items, with memory for so many, where there is so much.
fn with_room<T: Drop>(alloc: Global, room: usize) -> Vec<T>
    ensures items { result.items ≡ [] }
    ensures capacity { vec_capacity result ≤ room }
{
    match Vec::with_capacity(alloc, room) {
        Ok(list) => list,
        Err(_) => Vec::new(alloc),
    }
}

/// Jobs of turns that follow one another, as of the publications that came in one read. The bytes of small publications, and of those
/// that nobody is known to want, stand one behind another in one text, where a subject that comes again at once stands once. One of
/// [`SHARED_BYTES`] and more that is wanted stands apart, as a message that all share, and so does each job that comes with its message.
/// So the job of a publication in the text takes no memory of its own, and its parts are seen without a copy.
///
/// The memory is used again for other jobs.
///
/// Seen as the turn of its first job, the list of its jobs, and how many bytes of memory it holds: for the places of jobs and for the
/// text. What stands apart is not counted, nor are queue names. (Profile.)
///
/// [`SHARED_BYTES`]: crate::SHARED_BYTES
pub struct JobBlock {
    /// The bytes of the messages that do not stand apart.
    text: Vec<u8>,
    kept: Vec<KeptJob>,
    first_turn: Turn,
}

/// One call, also for crates above: `docs/PROVING.md`, "What a proof costs".
impl Drop for JobBlock {
    fn drop(self) {
        let JobBlock {
            text: _,
            kept: _,
            first_turn: _,
        } = self;
    }
}

impl Model for JobBlock {
    ghost use Rattle.std.specs.Prelude.{◌+◌, ◌*◌, vec_capacity};
    ghost use Rattle.job_block.specs.declared.blocks.TheConstants.{JOB_BYTES};
    ghost use Rattle.job_block.specs.Blocks.{Block};
    ghost use Rattle.job_block.specs.Kept.{IsBlock, jobs_in};

    ghost Value = { Block };

    ghost view = { λ block. record {
      first_turn = block.first_turn;
      jobs = jobs_in block.text.items block.first_turn block.kept.items;
      memory = vec_capacity block.text + vec_capacity block.kept * JOB_BYTES;
    } };

    ghost invariant = { λ block.
        IsBlock block.text.items block.first_turn block.kept.items };
}

impl JobBlock {
    /// No jobs, with memory for the places of so many; the first will have this turn.
    pub fn new(alloc: Global, first_turn: Turn, room: usize) -> Result<JobBlock, AllocError>
        ensures { IfOk result (λ block.
            block ≡ record { first_turn = first_turn; jobs = []; memory = room * JOB_BYTES }) }
    {
        Ok(JobBlock {
            text: Vec::new(alloc),
            kept: Vec::with_capacity(alloc, room)?,
            first_turn,
        })
    }

    /// No jobs, and no memory; the first will have this turn.
    pub fn empty(alloc: Global, first_turn: Turn) -> JobBlock
        ensures { result ≡ record { first_turn = first_turn; jobs = []; memory = 0 } }
    {
        JobBlock {
            text: Vec::new(alloc),
            kept: Vec::new(alloc),
            first_turn,
        }
    }

    /// No jobs, with memory for as many as there are here, where there is so much: for at most half of [`KEPT_BYTES`] of text.
    pub fn empty_like(&self) -> JobBlock
        ensures first_turn { result.first_turn ≡ self.now.first_turn }
        ensures jobs { result.jobs ≡ [] }
        ensures memory { result.memory ≤ KEPT_BYTES / 2 + length self.now.jobs * JOB_BYTES }
    {
        let alloc = *self.text.allocator();
        let text_room = self.text.len().min(KEPT_BYTES / 2);
        JobBlock {
            text: with_room(alloc, text_room),
            kept: with_room(alloc, self.kept.len()),
            first_turn: self.first_turn,
        }
    }

    /// Drops all jobs; the first of others will have this turn. The memory is kept where it is at most [`KEPT_BYTES`], and else all of
    /// it is given back.
    pub fn clear(&mut self, first_turn: Turn)
        ensures { self.new
            ≡ record { first_turn = first_turn; jobs = []; memory = kept_memory self.old.memory } }
    {
        let keeps = self.memory() <= KEPT_BYTES;
        empty(&mut self.text, keeps);
        empty(&mut self.kept, keeps);
        self.first_turn = first_turn;
    }

    /// How many bytes of memory it holds; where they are more than a number can say, the greatest number.
    pub fn memory(&self) -> usize
        ensures { result ≡ min self.now.memory (2 ^ 64 - 1) }
    {
        self.text
            .capacity()
            .saturating_add(self.kept.capacity().saturating_mul(JOB_BYTES))
    }

    /// How many jobs there are.
    #[tactic(auto, using(crate::proofs::Places::jobs_length))]
    pub fn len(&self) -> usize
        ensures { result ≡ length self.now.jobs }
    {
        self.kept.len()
    }

    /// Whether there are no jobs.
    #[tactic(auto, using(crate::proofs::Places::jobs_length))]
    pub fn is_empty(&self) -> bool
        ensures { result ≡ (length self.now.jobs == 0) }
    {
        self.kept.is_empty()
    }

    /// The turn of the first job. The turns of the others go on from it.
    #[tactic(auto, using(crate::proofs::Places::numbered))]
    pub fn first_turn(&self) -> Turn
        ensures same { result ≡ self.now.first_turn }
        ensures numbered { AreNumberedFrom self.now.first_turn self.now.jobs }
    {
        self.first_turn
    }

    /// The turn that the next job will have. None just where there is no such turn.
    #[tactic(auto, using(crate::proofs::Places::jobs_length))]
    pub fn next_turn(&self) -> Option<Turn>
        ensures { result ≡ turn_of (turn_behind self.now) }
    {
        Turn::new(self.first_turn.get() + self.kept.len() as u64)
    }

    /// Puts the job of a publication behind, with the turn behind the last one's. Of one that is wanted and has
    /// [`SHARED_BYTES`](crate::SHARED_BYTES) or more, header block and payload together, a message is made that all share; any other is
    /// copied. Want of memory leaves all as it was. Required: the publication can be published, and there is a turn
    /// ([`JobBlock::next_turn`]).
    #[inline(never)]
    pub fn push(
        &mut self,
        publication: &PublicationParts<'_>,
        origin: Origin,
        queues: QueueNames,
        is_wanted: bool,
    ) -> Result<(), AllocError>
        requires valid { IsPublishable (content_by publication.now) }
        requires turn { turn_behind self.old ≤ MAX_COUNTER }
        ensures ok { OnOk result
            (IsPushed
            (job_of origin (turn_behind self.old) (content_by publication.now) queues) self.old
            self.new) }
        ensures err { OnErr result (IsLeft self.old self.new) }
    {
        self.kept.reserve(1)?;
        let goes_on = self.goes_on_with(&origin, publication, &queues);
        let subject = last_subject(&self.text, self.kept.as_slice(), publication.subject);
        let message = keep(&mut self.text, subject, publication, is_wanted)?;
        put_job(&mut self.kept, origin, queues, goes_on, message);
        Ok(())
    }

    /// The same of a publication of the subject, the publisher, the echo and the queue names of the last job, where there is one: a run
    /// goes on with it. Required, besides: all that is so, it has no header block, and at most [`SHORT_BYTES`](crate::SHORT_BYTES) of
    /// payload.
    pub fn push_next(
        &mut self,
        publication: &PublicationParts<'_>,
        origin: Origin,
        queues: QueueNames,
    ) -> Result<(), AllocError>
        requires last { 0 < length self.old.jobs
            → IsLast origin.publisher (content_by publication.now).subject origin.echo queues
            self.old.jobs }
        requires short { IsShort (content_by publication.now) }
        requires valid { IsPublishable (content_by publication.now) }
        requires turn { turn_behind self.old ≤ MAX_COUNTER }
        ensures ok { OnOk result
            (IsPushed
            (job_of origin (turn_behind self.old) (content_by publication.now) queues) self.old
            self.new) }
        ensures err { OnErr result (IsLeft self.old self.new) }
    {
        self.kept.reserve(1)?;
        let goes_on = !self.kept.is_empty();
        let subject = last_span(self.kept.as_slice());
        // it is short, so whether it is wanted makes no difference
        let message = keep(&mut self.text, subject, publication, false)?;
        put_job(&mut self.kept, origin, queues, goes_on, message);
        Ok(())
    }

    /// Puts the job of a message behind, with the turn behind the last one's. The message stays shared. Want of memory leaves all as
    /// it was. Required: there is a turn ([`JobBlock::next_turn`]).
    pub fn push_message(
        &mut self,
        message: Message,
        origin: Origin,
        queues: QueueNames,
    ) -> Result<(), AllocError>
        requires { turn_behind self.old ≤ MAX_COUNTER }
        ensures ok { OnOk result
            (IsPushed (job_of origin (turn_behind self.old) message queues) self.old self.new) }
        ensures err { OnErr result (IsLeft self.old self.new) }
    {
        self.kept.reserve(1)?;
        let goes_on = self.goes_on_with(&origin, &PublicationParts::of(&message), &queues);
        put_job(
            &mut self.kept,
            origin,
            queues,
            goes_on,
            KeptMessage::Shared(message),
        );
        Ok(())
    }

    /// Whether a run goes on, behind the last job, with one that comes from there and publishes these parts.
    fn goes_on_with(
        &self,
        origin: &Origin,
        publication: &PublicationParts<'_>,
        queues: &QueueNames,
    ) -> bool
        ensures { result ≡ true
            → GoesOnAt (self.now.jobs
            ++ job_of origin.now (turn_behind self.now) (content_by publication.now) queues.now
            ∷ []) (length self.now.jobs) }
    {
        match self.kept.last() {
            None => false,
            Some(last) => last.goes_on_with(&self.text, origin, publication, queues),
        }
    }

    /// The job at this place, counted from 0, without a copy.
    #[tactic(auto, using(crate::proofs::Places::jobs_length))]
    pub fn get(&self, place: usize) -> LentJob<'_>
        requires { place < length self.now.jobs }
        ensures { slice_get self.now.jobs place ≡ Some result }
    {
        let kept = &self.kept[place];
        LentJob::of(&self.text, kept, turn_after(self.first_turn, place))
    }

    /// The last job, where there is one.
    #[tactic(auto, using(crate::proofs::Places::jobs_length))]
    pub fn last(&self) -> Option<LentJob<'_>>
        ensures { result ≡ slice_get self.now.jobs (length self.now.jobs - 1) }
    {
        let place = self.kept.len().checked_sub(1)?;
        Some(self.get(place))
    }

    /// Whether a run goes on with the job at this place, counted from 0, behind the one before it.
    #[tactic(auto, using(crate::proofs::Places::jobs_length))]
    pub(crate) fn goes_on(&self, place: usize) -> bool
        requires { place < length self.now.jobs }
        ensures { result ≡ true → GoesOnAt self.now.jobs place }
    {
        self.kept[place].goes_on
    }
}
