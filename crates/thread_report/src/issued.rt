//! The publications that a hub gave to its shards, by name.

ghost use Rattle.std.specs.Prelude.{◌≡◌, ◌≤◌, ◌++◌, IfOk, OnOk, option_to_list};
ghost use Rattle.thread_report.specs.Issued.{issued_by, issued_on as jobs_on, owned, turns_in};

use std::alloc::{AllocError, Global};
use subj::{PubId, Turn};
use thread_node::{HubEntry, HubEvent, HubTold};

/// A publication that was given to the shards: the turn of its job, and what names it. (Profile.)
#[derive(Clone, Copy, PartialEq, Eq)]
pub enum IssuedJob {
    /// Of one of the server's own clients: its number among these in this life of the server, from 1.
    Own { turn: Turn, number: u64 },
    /// Of a peer, which sent it by this name.
    Routed { turn: Turn, id: PubId },
}

/// The turn of the job that an answer tells.
fn turn_in(told: HubTold) -> Option<Turn>
    ensures { option_to_list result ≡ turns_in told }
{
    match told {
        HubTold::Issued { turn, .. } | HubTold::Routed(turn) => Some(turn),
        _ => None,
    }
}

/// How many publications of own clients an entry takes, 0 or 1.
fn count_own(entry: &HubEntry) -> u64
    ensures count { result ≡ owned entry.now.event entry.now.told }
    ensures few { result ≤ 1 }
{
    match &entry.event {
        HubEvent::Publish { .. } => match entry.told {
            HubTold::Issued { .. } | HubTold::Routed(_) => 1,
            _ => 0,
        },
        _ => 0,
    }
}

/// The job of an entry, where the next publication of an own client has this number.
fn job_by(next: u64, entry: &HubEntry) -> Option<IssuedJob>
    ensures { option_to_list result ≡ issued_by next entry.now.event entry.now.told }
{
    match &entry.event {
        HubEvent::Publish { .. } => {
            let turn = turn_in(entry.told)?;
            Some(IssuedJob::Own { turn, number: next })
        }
        HubEvent::Receive { frame, .. } => {
            let turn = turn_in(entry.told)?;
            let id = PubId {
                origin: frame.from(),
                inc: frame.inc(),
                number: frame.number(),
            };
            Some(IssuedJob::Routed { turn, id })
        }
        _ => None,
    }
}

/// Adds a job, where there is one.
fn add(jobs: &mut Vec<IssuedJob>, job: Option<IssuedJob>) -> Result<(), AllocError>
    ensures { OnOk result (jobs.new.items ≡ jobs.old.items ++ option_to_list job) }
{
    let Some(job) = job else { return Ok(()) };
    jobs.push(job)?;
    Ok(())
}

/// All jobs that the hub gave to the shards, in order.
pub(crate) fn issued_on(alloc: Global, tape: &[HubEntry]) -> Result<Vec<IssuedJob>, AllocError>
    ensures { IfOk result (λ jobs. jobs.items ≡ jobs_on 1 tape.now) }
{
    let mut jobs = Vec::new(alloc);
    let mut next = 1;
    for entry in tape {
        add(&mut jobs, job_by(next, entry))?;
        next += count_own(entry);
    }
    Ok(jobs)
}
