//! Who wants a subject, at all servers: the queue names with what each server weighs for them, and the servers with a plain key.

ghost use Rattle.std.specs.Prelude.{◌≡◌, ◌<◌, List, [], map, length, true, if◌then◌else◌, nat_lt, ⊤, Some, None, IfOk, IfSome};
ghost use Rattle.subj.specs.Answers.{IsAnswered};
ghost use Rattle.subj.specs.declared.limits.TheConstants.{MAX_QUEUE_NAMES};
ghost use Rattle.pick.specs.Pick.{pick_of};
ghost use Rattle.hub_core.specs.declared.faults.HubFault.TheVariants.{TooManyQueues};
ghost use Rattle.hub_core.specs.Choice.{weights_from, names_from};
ghost use Rattle.interest.specs.Matches.{names_in};
ghost use Rattle.hub_core.specs.Audiences.{IsAudience, IsInMind, eligible_from, plain_of};
ghost use Rattle.interest.specs.Counts.{Counts};

use crate::faults::HubFault;
use crate::peers::Peer;
use crate::publishing::{gather_names, is_eligible, push_copy, weight_at};
use interest::{FoundNames, Local};
use pick::choose;
use std::alloc::{AllocError, Global};
use std::marker::Model;
use subj::{Failure, LentSubject, NodeId, QueueName, QueueNames, ServerIdentity, Subject};

/// What each server weighs for one queue name, in the order of the servers.
///
/// Seen as their list.
#[derive(Drop)]
pub(crate) struct Weights {
    servers: Vec<(NodeId, u64)>,
}

impl Model for Weights {
    ghost use Rattle.std.specs.Prelude.{List, ◌<◌, ◌^◌};
    ghost use Rattle.pick.specs.Pick.{Weighted, total_weight};

    ghost Value = { List Weighted };

    ghost view = { λ weights. weights.servers.items };

    ghost invariant = { λ weights. total_weight weights.servers.items < 2 ^ 64 };
}

impl Weights {
    /// What the servers weigh for the name, of those that want the subject.
    fn find(
        alloc: Global,
        server: &ServerIdentity,
        counts: &Local,
        peers: &[Peer],
        subject: &LentSubject<'_>,
        name: &QueueName,
    ) -> Result<Weights, AllocError>
        requires { length peers.now ≡ length server.now.names }
        ensures { IfOk result (λ weights.
            weights ≡ weights_from server.now counts.now subject.now name.now 0 peers.now) }
    {
        let _me = server.me();
        let mut servers = Vec::with_capacity(alloc, peers.len())?;
        for (place, peer) in peers.iter().enumerate() {
            let weight = weight_at(server, counts, subject, name, place, peer);
            servers.push_reserved((server.names()[place], weight));
        }
        Ok(Weights { servers })
    }

    /// The server that the word picks by them. Takes no memory. (Profile.)
    fn pick(&self, word: u64) -> Option<NodeId>
        ensures { result ≡ pick_of self.now word }
    {
        choose(&self.servers, word)
    }
}

/// Who wants a subject: all that a publication on it owes but for the word that picks who serves each queue name.
#[derive(Drop)]
pub(crate) struct Audience {
    /// The queue names, in the order of bytes.
    pub names: QueueNames,
    /// What the servers weigh for each of them.
    weights: Vec<Weights>,
    /// By place, whether the server is a peer with a plain key that matches.
    pub plain: Vec<bool>,
}

/// Copies of the names, in order.
fn copies_of(alloc: Global, names: &FoundNames<'_>) -> Result<Vec<QueueName>, AllocError>
    ensures { IfOk result (λ copies. copies.items ≡ names.now) }
{
    let mut copies = Vec::new(alloc);
    for place in 0..names.len() {
        push_copy(alloc, &mut copies, names.get(place), true)?;
    }
    Ok(copies)
}

/// The queue names that want the subject. Refused where they are more than a publication may have.
fn names_wanting(
    alloc: Global,
    server: &ServerIdentity,
    counts: &Local,
    peers: &[Peer],
    subject: &LentSubject<'_>,
) -> Result<QueueNames, Failure<HubFault>>
    ensures { let all =
        names_from server.now subject.now 0 peers.now (names_in subject.now counts.now []) in
        IsAnswered (if nat_lt MAX_QUEUE_NAMES (length all) then Some TooManyQueues else None)
        (λ names. names ≡ all) ⊤ result }
{
    let mut found = FoundNames::new();
    let Ok(()) = gather_names(server, counts, peers, subject, &mut found) else {
        return Err(Failure::Refused(HubFault::TooManyQueues));
    };
    let copies = copies_of(alloc, &found)?;
    let names = QueueNames::from_names(alloc, copies)?;
    Ok(names.unwrap())
}

/// What the servers weigh for each of these names.
fn weights_of(
    alloc: Global,
    server: &ServerIdentity,
    counts: &Local,
    peers: &[Peer],
    subject: &LentSubject<'_>,
    names: &[QueueName],
) -> Result<Vec<Weights>, AllocError>
    requires { length peers.now ≡ length server.now.names }
    ensures { IfOk result (λ weights.
        weights.items
        ≡ map (λ name. weights_from server.now counts.now subject.now name 0 peers.now) names.now) }
{
    let mut weights = Vec::with_capacity(alloc, names.len())?;
    for name in names {
        let found = Weights::find(alloc, server, counts, peers, subject, name)?;
        weights.push_reserved(found);
    }
    Ok(weights)
}

/// By place, whether a plain key of the peer matches the subject.
fn plain_at(
    alloc: Global,
    peers: &[Peer],
    subject: &LentSubject<'_>,
) -> Result<Vec<bool>, AllocError>
    ensures { IfOk result (λ plain. plain.items ≡ plain_of subject.now peers.now) }
{
    let mut plain = Vec::with_capacity(alloc, peers.len())?;
    for peer in peers {
        plain.push_reserved(peer.heard.has_plain(subject));
    }
    Ok(plain)
}

impl Audience {
    /// Who wants the subject. Refused where more queue names do than a publication may have.
    pub fn find(
        alloc: Global,
        server: &ServerIdentity,
        counts: &Local,
        peers: &[Peer],
        subject: &LentSubject<'_>,
    ) -> Result<Audience, Failure<HubFault>>
        requires { length peers.now ≡ length server.now.names }
        ensures { IsAnswered
            (if nat_lt MAX_QUEUE_NAMES
            (length
            (names_from server.now subject.now 0 peers.now (names_in subject.now counts.now [])))
            then Some TooManyQueues
            else None)
            (λ audience. IsAudience server.now counts.now peers.now subject.now audience) ⊤ result }
    {
        let names = names_wanting(alloc, server, counts, peers, subject)?;
        let weights = weights_of(alloc, server, counts, peers, subject, names.as_slice())?;
        let plain = plain_at(alloc, peers, subject)?;
        Ok(Audience {
            names,
            weights,
            plain,
        })
    }

    /// The server that serves each of the queue names, where one is picked by the word.
    pub fn servers(&self, alloc: Global, word: u64) -> Result<Vec<Option<NodeId>>, AllocError>
        ensures { IfOk result (λ servers.
            servers.items ≡ map (λ weights. pick_of weights word) self.now.weights.items) }
    {
        let mut servers = Vec::with_capacity(alloc, self.weights.len())?;
        for weights in &self.weights {
            servers.push_reserved(weights.pick(word));
        }
        Ok(servers)
    }
}

/// By place, which servers are eligible peers.
fn eligible_in(
    alloc: Global,
    server: &ServerIdentity,
    peers: &[Peer],
) -> Result<Vec<bool>, AllocError>
    ensures { IfOk result (λ eligible. eligible.items ≡ eligible_from server.now 0 peers.now) }
{
    let mut eligible = Vec::with_capacity(alloc, peers.len())?;
    for (place, peer) in peers.iter().enumerate() {
        eligible.push_reserved(is_eligible(server, place, peer));
    }
    Ok(eligible)
}

/// Whether just these servers are eligible peers.
fn are_eligible(server: &ServerIdentity, peers: &[Peer], eligible: &[bool]) -> bool
    ensures { result ≡ true → eligible_from server.now 0 peers.now ≡ eligible.now }
{
    if eligible.len() != peers.len() {
        return false;
    }
    for (place, peer) in peers.iter().enumerate() {
        if is_eligible(server, place, peer) != eligible[place] {
            return false;
        }
    }
    true
}

/// Who wants a subject, as long as the same peers are eligible and nothing of what they want has changed.
#[derive(Drop)]
pub(crate) struct AudienceMemo {
    subject: Subject,
    eligible: Vec<bool>,
    audience: Audience,
}

impl AudienceMemo {
    /// Who wants the subject now. None where there is no memory for it, or where too many queue names do.
    pub fn find(
        alloc: Global,
        server: &ServerIdentity,
        counts: &Local,
        peers: &[Peer],
        subject: Subject,
    ) -> Option<AudienceMemo>
        requires { length peers.now ≡ length server.now.names }
        ensures { IsInMind server.now counts.now peers.now result }
    {
        let Ok(eligible) = eligible_in(alloc, server, peers) else {
            return None;
        };
        let Ok(audience) = Audience::find(alloc, server, counts, peers, &subject.lent()) else {
            return None;
        };
        Some(AudienceMemo {
            subject,
            eligible,
            audience,
        })
    }

    /// Who wants the subject, where it is the one in mind and the same peers are eligible.
    pub fn of(
        &self,
        server: &ServerIdentity,
        peers: &[Peer],
        subject: &LentSubject<'_>,
    ) -> Option<&Audience>
        ensures { (counts : Counts)
            → IsInMind server.now counts peers.now (Some self.now)
            → IfSome result (λ audience.
            IsAudience server.now counts peers.now subject.now audience.now) }
    {
        if self.subject.bytes() != subject.bytes() || !are_eligible(server, peers, &self.eligible) {
            return None;
        }
        Some(&self.audience)
    }
}

/// What is in mind, unless it is to be forgotten.
pub(crate) fn kept_unless(is_forgotten: bool, memo: Option<AudienceMemo>) -> Option<AudienceMemo>
    ensures { result ≡ (if is_forgotten then None else memo) }
{
    if is_forgotten {
        return None;
    }
    memo
}

/// A subject that was asked for.
#[derive(Drop)]
pub(crate) struct Asked {
    pub subject: Subject,
    /// Whether it was so twice in a row.
    pub is_again: bool,
}

/// What was asked for, once this subject is asked for behind it.
pub(crate) fn asked_next(last: Option<Asked>, subject: &Subject) -> Option<Asked> {
    if let Some(last) = last {
        if last.subject.bytes() == subject.bytes() {
            return Some(Asked {
                subject: last.subject,
                is_again: true,
            });
        }
    }
    match subject.try_clone() {
        Ok(subject) => Some(Asked {
            subject,
            is_again: false,
        }),
        Err(_) => None,
    }
}
