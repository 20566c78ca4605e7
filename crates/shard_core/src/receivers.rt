//! Who receives a subject, noted for some subjects whose jobs come again.

ghost use Rattle.std.specs.Prelude.{◌≡◌, ◌<◌, ◌++◌, List, filter, length, IfSome, OnOk};
ghost use Rattle.sub_table.specs.Subscriptions.{gets};
ghost use Rattle.sub_table.specs.declared.Subscription.{Subscription as Opened};
ghost use Rattle.shard_core.specs.Notes.{AreNotedRightly, AreReceivers};
ghost use Rattle.shard_core.specs.Received.{receivers_of};
ghost use Rattle.shard_core.specs.Tallies.{lent_subs};

use crate::receiver::Receiver;
use std::alloc::{AllocError, Global};
use sub_table::Subscription;
use subj::LentSubject;

/// The most receivers of a subject that are noted. Where there are more they are looked up for each job: that costs little beside what is placed for
/// so many.
const MOST_RECEIVERS: usize = 128;

/// The most bytes that the heads of their messages take together, as far as the subject tells.
const MOST_BYTES: usize = 16_384;

/// For how many subjects receivers are noted, at most. With queue names and lists they take at most about 4 MB.
const PLACES: usize = 64;

/// Puts the receivers that these subscriptions are behind those that are there.
fn push_receivers(
    alloc: Global,
    subject: &LentSubject<'_>,
    matching: &[&Subscription],
    receivers: &mut Vec<Receiver>,
) -> Result<(), AllocError>
    ensures { OnOk result (receivers.new.items
        ≡ receivers.old.items ++ receivers_of subject.now (lent_subs matching.now)) }
{
    for sub in matching {
        receivers.push(Receiver::new(alloc, subject, sub)?)?;
    }
    Ok(())
}

/// Whether so many receivers of the subject are few enough to be noted.
fn are_few(subject: &LentSubject<'_>, count: usize) -> bool {
    count <= MOST_RECEIVERS && count.saturating_mul(subject.bytes().len()) <= MOST_BYTES
}

/// The receivers of one subject, in order of opening. They hold until a subscription is opened or closed, or has another maximum.
#[derive(Drop)]
pub(crate) struct Receivers {
    /// Whether they are noted.
    noted: bool,
    /// How many jobs of the subject came in a row since anything was opened or closed.
    jobs: u64,
    subject: Vec<u8>,
    receivers: Vec<Receiver>,
}

impl Receivers {
    /// None are noted.
    fn new(alloc: Global) -> Receivers
        ensures { (subs : List Opened) → AreNotedRightly subs result }
    {
        Receivers {
            noted: false,
            jobs: 0,
            subject: Vec::new(alloc),
            receivers: Vec::new(alloc),
        }
    }

    /// What is noted holds no longer. Takes no memory.
    fn forget(&mut self)
        ensures { (subs : List Opened) → AreNotedRightly subs self.new }
    {
        self.noted = false;
        self.jobs = 0;
    }

    /// Those of the subject, where they are noted.
    fn of(&self, subject: &[u8]) -> Option<&[Receiver]>
        ensures { (subs : List Opened)
            → AreNotedRightly subs self.now
            → IfSome result (λ receivers.
            receivers.now ≡ receivers_of subject.now (filter (gets subject.now) subs)) }
    {
        if !self.noted || self.subject.as_slice() != subject {
            return None;
        }
        Some(self.receivers.as_slice())
    }

    /// Counts one more job of the subject. Whether it is the second in a row, so that its receivers are worth noting: those of the
    /// first may be asked for once. None are noted then.
    fn is_second(&mut self, subject: &LentSubject<'_>) -> bool
        ensures { (subs : List Opened) → AreNotedRightly subs self.new }
    {
        self.noted = false;
        if self.jobs > 0 && self.subject.as_slice() == subject.bytes() {
            self.jobs = self.jobs.saturating_add(1);
            return self.jobs == 2;
        }
        self.subject.clear();
        self.jobs = match self.subject.extend_from_slice(subject.bytes()) {
            Ok(()) => 1,
            Err(_) => 0,
        };
        false
    }

    /// Notes those of the subject, which these subscriptions are, where they are few. Want of memory leaves none noted.
    fn note(
        &mut self,
        alloc: Global,
        subject: &LentSubject<'_>,
        matching: &[&Subscription],
    ) -> Result<(), AllocError>
        ensures { (subs : List Opened)
            → lent_subs matching.now ≡ filter (gets subject.now) subs
            → AreNotedRightly subs self.new }
    {
        self.noted = false;
        if !are_few(subject, matching.len()) {
            return Ok(());
        }
        self.subject.clear();
        self.receivers.clear();
        self.subject.extend_from_slice(subject.bytes())?;
        push_receivers(alloc, subject, matching, &mut self.receivers)?;
        self.noted = true;
        Ok(())
    }
}

/// The place of a subject: its length and its last two bytes choose it, since these differ most among subjects that are counted.
fn place_of(subject: &[u8]) -> usize
    ensures { result < PLACES }
{
    let len = subject.len();
    if len < 2 {
        return 0;
    }
    let tens = usize::from(subject[len - 2]);
    let ones = usize::from(subject[len - 1]);
    (len + tens * 10 + ones) % PLACES
}

/// The receivers of some subjects: of those whose jobs came last, each at its own place.
#[derive(Drop)]
pub struct ManyReceivers {
    alloc: Global,
    /// None before the first job, and then all.
    places: Vec<Receivers>,
    /// The place of the subject that is asked for.
    turned: usize,
}

impl ManyReceivers {
    /// None are noted.
    pub fn new(alloc: Global) -> ManyReceivers
        ensures { (subs : List Opened) → AreReceivers subs result }
    {
        ManyReceivers {
            alloc,
            places: Vec::new(alloc),
            turned: 0,
        }
    }

    /// What is noted holds no longer. Takes no memory.
    pub fn forget(&mut self)
        ensures { (subs : List Opened) → AreReceivers subs self.new }
    {
        for place in 0..self.places.len() {
            self.places[place].forget();
        }
    }

    /// Turns to the place of the subject, so that [`ManyReceivers::of`] finds those of it. Takes no memory.
    pub fn turn_to(&mut self, subject: &[u8])
        ensures { (subs : List Opened)
            → AreReceivers subs self.old
            → AreReceivers subs self.new }
    {
        self.turned = place_of(subject);
    }

    /// Those of the subject, where they are noted and this is the one that was turned to.
    pub fn of(&self, subject: &[u8]) -> Option<&[Receiver]>
        ensures { (subs : List Opened)
            → AreReceivers subs self.now
            → IfSome result (λ receivers.
            receivers.now ≡ receivers_of subject.now (filter (gets subject.now) subs)) }
    {
        match self.places.get(self.turned) {
            None => None,
            Some(receivers) => receivers.of(subject),
        }
    }

    /// The place of the subject. None where there is no memory for all of them.
    fn place(&mut self, subject: &[u8]) -> Option<usize>
        ensures there { IfSome result (λ place. place < length self.new.places.items) }
        ensures right { (subs : List Opened)
            → AreReceivers subs self.old
            → AreReceivers subs self.new }
    {
        while self.places.len() < PLACES {
            let Ok(()) = self.places.push(Receivers::new(self.alloc)) else {
                return None;
            };
        }
        Some(place_of(subject))
    }

    /// Counts one more job of the subject. Whether it is the second in a row of those at its place, so that its receivers are worth noting:
    /// those of the first may be asked for once. None are noted at its place then.
    pub fn is_second(&mut self, subject: &LentSubject<'_>) -> bool
        ensures { (subs : List Opened)
            → AreReceivers subs self.old
            → AreReceivers subs self.new }
    {
        match self.place(subject.bytes()) {
            None => false,
            Some(place) => self.places[place].is_second(subject),
        }
    }

    /// Notes those of the subject, which these subscriptions are, where they are few, in place of what was noted at its place. Want of memory
    /// leaves none noted there.
    pub fn note(
        &mut self,
        alloc: Global,
        subject: &LentSubject<'_>,
        matching: &[&Subscription],
    ) -> Result<(), AllocError>
        ensures { (subs : List Opened)
            → lent_subs matching.now ≡ filter (gets subject.now) subs
            → AreReceivers subs self.old
            → AreReceivers subs self.new }
    {
        match self.place(subject.bytes()) {
            None => Err(AllocError),
            Some(place) => self.places[place].note(alloc, subject, matching),
        }
    }
}
