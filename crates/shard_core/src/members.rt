//! The members of queue groups that match a subject, noted for all queue names of a job.

ghost use Rattle.std.specs.Prelude.{◌≡◌, ◌++◌, List, filter, OnOk, IfSome};
ghost use Rattle.sub_table.specs.Subscriptions.{gets};
ghost use Rattle.sub_table.specs.declared.Subscription.{Subscription as Opened};
ghost use Rattle.shard_core.specs.Members.{mark_of as mark, members_of, AreNoted};
ghost use Rattle.shard_core.specs.Tallies.{lent_subs};

use std::alloc::{AllocError, Global};
use sub_table::Subscription;
use subj::LentSubject;

/// What a mark is multiplied by at each byte: that of the Fowler-Noll-Vo hash.
const MARK_FACTOR: u64 = 1_099_511_628_211;

/// The mark of a queue name: a number that equal names share, and few others.
pub fn mark_of(name: &[u8]) -> u64
    ensures { result ≡ mark name.now }
{
    let mut mark = 0_u64;
    for byte in name {
        mark = mark
            .wrapping_mul(MARK_FACTOR)
            .wrapping_add(u64::from(*byte));
    }
    mark
}

/// A member of a queue group, by the mark of its queue name and by its serial.
#[derive(Clone, Copy)]
pub struct Member {
    pub mark: u64,
    pub serial: u64,
}

/// Puts the members among those that match behind what is there.
fn push_members(matching: &[&Subscription], members: &mut Vec<Member>) -> Result<(), AllocError>
    ensures { OnOk result
        (members.new.items ≡ members.old.items ++ members_of (lent_subs matching.now)) }
{
    for sub in matching {
        if let Some(name) = &sub.key.queue {
            let mark = mark_of(name.bytes());
            members.push(Member {
                mark,
                serial: sub.serial,
            })?;
        }
    }
    Ok(())
}

/// The members of queue groups that match one subject, in order of opening. They hold until a subscription
/// is opened or closed.
#[derive(Drop)]
pub struct Members {
    /// Whether they are noted.
    noted: bool,
    subject: Vec<u8>,
    members: Vec<Member>,
}

impl Members {
    /// None are noted.
    pub fn new(alloc: Global) -> Members
        ensures { (subs : List Opened) → AreNoted subs result }
    {
        Members {
            noted: false,
            subject: Vec::new(alloc),
            members: Vec::new(alloc),
        }
    }

    /// What is noted holds no longer. Takes no memory.
    pub fn forget(&mut self)
        ensures { (subs : List Opened) → AreNoted subs self.new }
    {
        self.noted = false;
    }

    /// The members that match the subject, where they are noted.
    pub fn of(&self, subject: &LentSubject<'_>) -> Option<&[Member]>
        ensures { (subs : List Opened)
            → AreNoted subs self.now
            → IfSome result (λ members. members.now ≡ members_of (filter (gets subject.now) subs)) }
    {
        if !self.noted || self.subject.as_slice() != subject.bytes() {
            return None;
        }
        Some(self.members.as_slice())
    }

    /// Notes the members among those that match the subject. Want of memory leaves none noted.
    pub fn note(
        &mut self,
        subject: &LentSubject<'_>,
        matching: &[&Subscription],
    ) -> Result<(), AllocError>
        ensures { (subs : List Opened)
            → lent_subs matching.now ≡ filter (gets subject.now) subs
            → AreNoted subs self.new }
    {
        self.noted = false;
        self.subject.clear();
        self.members.clear();
        self.subject.extend_from_slice(subject.bytes())?;
        push_members(matching, &mut self.members)?;
        self.noted = true;
        Ok(())
    }
}
