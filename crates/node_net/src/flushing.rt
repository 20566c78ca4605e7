//! What was put for clients and other servers is taken and written.

ghost use Rattle.std.specs.Prelude.{◌≡◌, ◌⊎◌, [], ◌∷◌, ◌++◌, length, slice_get, true, false, None, is_none, IfSome, OnOk};
ghost use Rattle.std.specs.Bool.{OnFalse};
ghost use Rattle.slab.specs.Slab.{get};
ghost use Rattle.route_frames.specs.Canonical.{frame_bytes};
ghost use Rattle.route_values.specs.declared.frames.RouteFrame.TheVariants as route;
ghost use Rattle.server_calls.specs.Routed.{took, taken_of};
ghost use Rattle.node_net.specs.Keyed.{ChangesAt, EachStays};
ghost use Rattle.node_net.specs.Sending.{SendsTaken, IsLimited, KeepsStream};
ghost use Rattle.node_net.specs.Taking.{all_parts, keys_of, client_in, LendsAt, TakesOne, TakesOn, SendsPart, SendsEach, GoesOnAt, FlushesSome, FlushesAll};
ghost use Rattle.node_net.specs.Telling.{spelling, PostsSome, TellsFrames, TellsSome, TellsPeer};

use crate::clients::Clients;
use crate::connection::{Cause, Ending};
use crate::connections::{Connections, last_bytes};
use crate::holds::{swap_dirty_conns, take_frames};
use crate::limits::{BUSY_BYTES, FRAMES, PEER_BACKLOG, POSTS, TAKEN_AT_ONCE};
use crate::loops::{Loops, Mail, Mails};
use crate::parts::{Parts, let_go_beyond};
use crate::server::Server;
use crate::taken::Taken;
use net_streams::Stream;
use route_frames::{Numbered, RouteFrame, encode};
use server_calls::{HubCalls, ServerCalls, ShardCalls};
use shard_core::DirtyConns;
use std::alloc::{AllocError, Global};
use std::sync::Wait;
use subj::{Failure, MAX_PAYLOAD};

/// The key at this place of a list.
fn key_at(keys: &[usize], place: usize) -> Option<usize>
    ensures { result ≡ slice_get keys.now place }
{
    keys.get(place).copied()
}

/// Which connections may have something that waits for them.
#[derive(Clone, Copy)]
pub(crate) enum Awaited<'a> {
    /// All of so many keys.
    All(usize),
    These(&'a [usize]),
}

impl Awaited<'_> {
    /// How many there are.
    #[tactic(auto, using(crate::proofs::TakingLemmas::count_all))]
    pub fn count(self) -> usize
        ensures { result ≡ length (keys_of self.entry) }
    {
        match self {
            Awaited::All(count) => count,
            Awaited::These(keys) => keys.len(),
        }
    }

    /// The key at this place among them.
    #[tactic(auto, using(crate::proofs::TakingLemmas::key_all, crate::proofs::TakingLemmas::key_none))]
    fn key(self, place: usize) -> Option<usize>
        ensures { result ≡ slice_get (keys_of self.entry) place }
    {
        match self {
            Awaited::All(count) if place < count => Some(place),
            Awaited::All(_) => None,
            Awaited::These(keys) => key_at(keys, place),
        }
    }
}

impl<S: Stream> Connections<S> {
    /// Takes what waits for clients of the shard, which is held, from this place among these on, until enough is taken. The place where it goes
    /// on.
    #[tactic(auto, using(crate::proofs::TakingLemmas::taken_none, crate::proofs::TakingLemmas::taken_to, crate::proofs::TakingLemmas::taken_all))]
    pub fn take_from<H: ShardCalls>(
        &mut self,
        shard: &mut H,
        awaited: Awaited<'_>,
        from: usize,
        taken: &mut Taken,
    ) -> Result<usize, AllocError>
        ensures { TakesOn H.takes H.number (keys_of awaited.entry) from result self.old.table
            shard.old (all_parts taken.old) self.new.table shard.new (all_parts taken.new) }
    {
        let count = awaited.count();
        for place in from..count {
            if taken.is_enough() {
                return Ok(place);
            }
            let Some(key) = awaited.key(place) else {
                return Ok(place);
            };
            if self.take_one(shard, key, taken).is_err() {
                return Err(AllocError);
            }
        }
        Ok(count)
    }

    /// Takes what waits for a client of the shard. One that its shard has shut is closed.
    fn take_one<H: ShardCalls>(
        &mut self,
        shard: &mut H,
        key: usize,
        taken: &mut Taken,
    ) -> Result<(), AllocError>
        ensures { (taken.old.last ≡ None)
            → TakesOne H.takes H.number key self.old.table shard.old (all_parts taken.old)
            self.new.table shard.new (all_parts taken.new) }
    {
        if !self.is_of_shard(key, shard.shard()) {
            return Ok(());
        }
        if !taken.begin_part() {
            return Ok(());
        }
        let is_slow = self.shut_if_slow(&*shard, key);
        let lent = self.lend(shard, key, &mut taken.lent);
        self.blame_if_slow(key, is_slow, taken.lent.len());
        self.put_part(key, taken, lent.is_ok());
        lent
    }

    /// The server ends a client that is slow, for which so many bytes are about to be written.
    #[tactic(auto, using(crate::proofs::TakingLemmas::each_blamed, crate::proofs::TakingLemmas::each_kept))]
    fn blame_if_slow(&mut self, key: usize, is_slow: bool, taken: usize)
        ensures { EachStays KeepsStream self.old.table self.new.table }
    {
        if is_slow {
            self.blame(key, Cause::Slow, taken);
        }
    }

    /// Whether it is the connection of a client of this shard.
    fn is_of_shard(&self, key: usize, shard: u64) -> bool
        ensures { OnFalse result (IfSome (get self.entry.now.table key) (λ connection.
            client_in shard connection.link ≡ None)) }
    {
        match self.table.get(key) {
            None => false,
            Some(connection) => connection.client_of(shard).is_some(),
        }
    }

    /// Closes a client that its shard has shut. Whether it was open before.
    #[tactic(auto, using(crate::proofs::KeyedLemmas::changes_none, crate::proofs::KeyedLemmas::changes_some))]
    fn shut_if_slow<H: ShardCalls>(&mut self, shard: &H, key: usize) -> bool
        ensures { ChangesAt IsLimited key self.old.table self.new.table }
    {
        let deadline = last_bytes(self.now);
        let was_open = match self.table.get_mut(key) {
            None => false,
            Some(connection) => connection.shut_if_slow(shard, deadline),
        };
        self.await_deadline(key);
        was_open
    }

    /// Takes what waits for a client of the shard out of its outbox, and puts it behind what stands there.
    fn lend<H: ShardCalls>(
        &self,
        shard: &mut H,
        key: usize,
        lent: &mut Vec<u8>,
    ) -> Result<(), AllocError>
        ensures { LendsAt H.takes H.number self.entry.now.table key lent.old.items shard.old
            lent.new.items shard.new }
    {
        match self.table.get(key) {
            None => Ok(()),
            Some(connection) => connection.take_from(shard, lent),
        }
    }

    /// Puts what was taken for a client among what was taken for all, where there is something to be done for it: it is to be closed, and
    /// nothing more waits for it, or something was taken.
    fn put_part(&self, key: usize, taken: &mut Taken, is_all: bool)
        ensures { ((taken.old.lent.items ≡ []) × (all_parts taken.new ≡ all_parts taken.old))
            ⊎ (all_parts taken.new ≡ taken.old.parts ++ (key, taken.old.lent.items) ∷ []) }
    {
        let is_shut = match self.table.get(key) {
            None => false,
            Some(connection) => connection.ending() == Ending::Shut,
        };
        if !taken.lent.is_empty() || (is_all && is_shut) {
            taken.put_part(key);
        }
    }

    /// Writes what was taken for each client.
    #[tactic(auto, using(crate::proofs::TakingLemmas::sends_no_last))]
    fn write_parts(&mut self, taken: &Taken)
        ensures { SendsEach S.gave S.wrote self.old.table (all_parts taken.now) self.new.table }
    {
        self.write_all(&taken.parts);
        if let Some(key) = taken.last {
            self.write_part(key, &taken.lent);
        }
    }

    /// Writes parts.
    #[tactic(auto, using(crate::proofs::TakingLemmas::sends_all))]
    fn write_all(&mut self, parts: &Parts)
        ensures { SendsEach S.gave S.wrote self.old.table parts.now self.new.table }
    {
        for place in 0..parts.count() {
            match parts.get(place) {
                None => {}
                Some((key, bytes)) => self.write_part(key, bytes),
            }
        }
    }

    /// Sends a connection what was taken for it.
    #[tactic(auto, using(crate::proofs::KeyedLemmas::changes_none, crate::proofs::KeyedLemmas::changes_some))]
    fn send_part(&mut self, key: usize, bytes: &[u8])
        ensures { ChangesAt (SendsTaken S.gave S.wrote bytes.now) key self.old.table
            self.new.table }
    {
        if let Some(connection) = self.table.get_mut(key) {
            connection.send_taken(bytes);
        }
    }

    /// The place where it goes on, of so many. Where there was no memory to take what waits, that is behind the last one, and it is noted that
    /// something may wait for any client.
    fn go_on(&mut self, came: Result<usize, AllocError>, count: usize) -> usize
        ensures table { self.new.table ≡ self.old.table }
        ensures place { GoesOnAt count came result self.new }
    {
        match came {
            Ok(place) => place,
            Err(_) => {
                self.is_short = true;
                self.awaits_any = true;
                count
            }
        }
    }

    /// Writes the part of a connection.
    fn write_part(&mut self, key: usize, bytes: &[u8])
        ensures { ChangesAt (SendsPart S.gave S.wrote bytes.now) key self.old.table self.new.table }
    {
        self.send_part(key, bytes);
        self.rest_later(key);
        self.note_quiet(key);
        self.leave_if_gone(key);
    }
}

/// Puts the connections of the clients that something was put for into the list, and behind them those that were served.
fn put_keys(
    clients: &Clients,
    dirty_conns: &DirtyConns,
    served: &[usize],
    keys: &mut Vec<usize>,
) -> Result<(), AllocError> {
    for id in dirty_conns.conns() {
        if let Some(key) = clients.key_of(*id) {
            keys.push(key)?;
        }
    }
    keys.extend_from_slice(served)
}

/// How many frames are taken at once for another server for which so many bytes wait already: no more than have room, as large as they
/// may be, and one at least.
fn frames_beside(backlog: usize) -> usize {
    let room = PEER_BACKLOG.saturating_sub(backlog) / MAX_PAYLOAD;
    room.min(FRAMES).max(1)
}

/// Takes at most so many frames that wait for the server at this place, of a hub that is held; none where there is no such one.
pub(crate) fn frames_of<H: HubCalls>(
    hub: &mut H,
    alloc: Global,
    peer: usize,
    count: usize,
) -> Result<Vec<Numbered>, AllocError>
    ensures { H.routed hub.old (took peer count (taken_of (λ frames. frames.items) result))
        hub.new }
{
    match hub.take_frames(peer, count) {
        Ok(frames) => Ok(frames),
        Err(Failure::Refused(_)) => Ok(Vec::new(alloc)),
        Err(Failure::OutOfMemory) => Err(AllocError),
    }
}

/// Encodes a frame behind what is encoded.
fn encode_frame(frame: Numbered, encoded: &mut Vec<u8>) -> Result<(), AllocError>
    ensures { OnOk result
        (encoded.new.items ≡ encoded.old.items ++ frame_bytes (route.Numbered frame)) }
{
    encode(&RouteFrame::Numbered(frame), encoded)
}

/// Encodes frames behind what is encoded.
#[tactic(auto, using(crate::proofs::TellingLemmas::spelling_more, crate::proofs::TellingLemmas::spelling_none))]
fn encode_frames(frames: Vec<Numbered>, encoded: &mut Vec<u8>) -> Result<(), AllocError>
    ensures { OnOk result (encoded.new.items ≡ encoded.old.items ++ spelling frames.items) }
{
    for frame in frames {
        encode_frame(frame, encoded)?;
    }
    Ok(())
}

/// Takes at most so many frames that wait for the server at this place, and spells them behind its mail. Whether there were some. Where there is no
/// memory for that once they are taken, the mail says so.
fn post<C: ServerCalls, R: Wait>(
    rt: &R,
    node: C,
    alloc: Global,
    peer: usize,
    count: usize,
    mail: &mut Mail,
) -> Result<bool, AllocError>
    ensures { PostsSome C.Hub.routed peer count mail.old mail.new }
{
    match take_frames(rt, node, alloc, peer, count) {
        Ok(frames) => {
            let is_some = !frames.is_empty();
            mail.is_lost |= encode_frames(frames, &mut mail.bytes).is_err();
            Ok(is_some)
        }
        Err(_) => Err(AllocError),
    }
}

impl<'l, S: Stream, C: ServerCalls> Server<'l, S, C> {
    /// Takes and writes what waits for clients: for those that something was put for, and for those that
    /// were served.
    pub(crate) fn flush<R: Wait>(&mut self, rt: &R) {
        self.put = 0;
        let served = std::mem::replace(&mut self.connections.awaited, Vec::new(self.alloc));
        let is_any = std::mem::replace(&mut self.connections.awaits_any, false);
        for place in 0..self.node.shards() {
            let number = place.saturating_add(1);
            if self.owns(number) {
                self.flush_shard(rt, number, &served, is_any);
            }
        }
    }

    /// Takes and writes what waits for the clients of a shard.
    fn flush_shard<R: Wait>(&mut self, rt: &R, number: u64, served: &[usize], is_any: bool) {
        swap_dirty_conns(rt, self.node, number, &mut self.dirty_conns);
        let mut keys = Vec::new(self.alloc);
        if is_any
            || self.dirty_conns.is_any()
            || put_keys(&self.clients, &self.dirty_conns, served, &mut keys).is_err()
        {
            let all = Awaited::All(self.connections.table.capacity());
            self.flush_awaited(rt, number, all);
        } else {
            self.flush_awaited(rt, number, Awaited::These(&keys));
        }
    }

    /// Takes and writes what waits for clients of a shard, which are among these. What was kept for them is written first.
    fn flush_awaited<R: Wait>(&mut self, rt: &R, number: u64, awaited: Awaited<'_>) {
        for place in 0..awaited.count() {
            if let Some(key) = awaited.key(place) {
                self.connections.write_kept(key);
            }
        }
        self.flush_all(rt, number, awaited);
    }

    /// Takes what waits for clients of a shard, which are among these, some at a time, and writes it.
    #[tactic(auto, using(crate::proofs::TakingLemmas::flushed_none, crate::proofs::TakingLemmas::flushed_more, crate::proofs::TakingLemmas::flushed_all, crate::proofs::TakingLemmas::flushed_last))]
    fn flush_all<R: Wait>(&mut self, rt: &R, number: u64, awaited: Awaited<'_>)
        ensures { FlushesAll C.Shard.takes C.Shard.number (C.lacks self.old.node) S.gave S.wrote
            number (keys_of awaited.entry) self.old.connections self.new.connections }
    {
        let mut place = 0;
        for _round in 0..u64::MAX {
            if place >= awaited.count() {
                return;
            }
            place = self.flush_some(rt, number, awaited, place);
        }
    }

    /// Takes what waits for clients of a shard, from this place among these on, until enough is taken, and writes it. The place where it
    /// goes on.
    fn flush_some<R: Wait>(
        &mut self,
        rt: &R,
        number: u64,
        awaited: Awaited<'_>,
        place: usize,
    ) -> usize
        ensures flushed { FlushesSome C.Shard.takes C.Shard.number (C.lacks self.old.node) S.gave
            S.wrote number (keys_of awaited.entry) place result self.old.connections
            self.new.connections }
        ensures node { self.new.node ≡ self.old.node }
    {
        let came = self
            .connections
            .take_some(rt, self.node, number, awaited, place, &mut self.taken);
        self.connections.write_parts(&self.taken);
        self.taken.let_go_beyond(BUSY_BYTES);
        self.connections.go_on(came, awaited.count())
    }

    /// Takes and writes what waits for other servers.
    pub(crate) fn write_frames<R: Wait>(&mut self, rt: &R) {
        if !self.connections.has_told {
            return;
        }
        self.connections.has_told = false;
        match self.loops {
            Some(loops) if !self.place.is_first() => self.post_frames(rt, loops),
            Some(loops) => {
                self.cut_posted(rt, loops);
                self.write_to_peers(rt);
            }
            None => self.write_to_peers(rt),
        }
    }

    /// Closes the routes to the servers whose sessions were cut while another loop collected.
    fn cut_posted<R: Wait>(&mut self, rt: &R, loops: &Loops<'_>) {
        for peer in 0..self.peers.count() {
            if loops.is_cut(rt, peer) {
                if let Some(key) = self.peers.kept_connection(peer) {
                    self.connections.give_up_for(key, Cause::Full);
                }
            }
        }
    }

    /// The same of the loop that has the routes.
    fn write_to_peers<R: Wait>(&mut self, rt: &R) {
        for peer in 0..self.peers.count() {
            if let Some(key) = self.peers.kept_connection(peer) {
                self.write_to_peer(rt, peer, key);
                self.connections.watch(key);
                self.connections.await_deadline(key);
            }
        }
    }

    /// Puts what waits for other servers into their mail, where the first loop finds it.
    fn post_frames<R: Wait>(&mut self, rt: &R, loops: &Loops<'_>) {
        for peer in 0..self.peers.count() {
            for _round in 0..POSTS {
                if !self.post_some(rt, loops, peer) {
                    break;
                }
            }
        }
    }

    /// Puts at most so many frames that wait for another server into its mail as are taken at once. Whether there were some.
    fn post_some<R: Wait>(&mut self, rt: &R, loops: &Loops<'_>, peer: usize) -> bool {
        let mut mails = loops.mails(rt);
        let posted = self.post_held(rt, &mut mails, peer);
        drop(mails);
        if posted {
            loops.tell_first();
        }
        posted
    }

    /// The same while the mail is held.
    fn post_held<R: Wait>(&mut self, rt: &R, mails: &mut Mails, peer: usize) -> bool {
        let Some(mail) = mails.get_mut(peer) else {
            return false;
        };
        if !mail.takes() {
            return false;
        }
        match post(rt, self.node, self.alloc, peer, FRAMES, mail) {
            Ok(is_some) => is_some,
            Err(_) => {
                self.connections.has_told = true;
                self.connections.is_short = true;
                false
            }
        }
    }

    /// Takes and writes what waits for another server. What its stream does not take is kept, up to [`PEER_BACKLOG`]: then its route is
    /// cut. A server for whose frames there is no memory once they are taken is cut too, since it would miss them.
    #[tactic(auto, using(crate::proofs::TellingLemmas::told_none, crate::proofs::TellingLemmas::told_more, crate::proofs::TellingLemmas::told_all, crate::proofs::TellingLemmas::told_full))]
    fn write_to_peer<R: Wait>(&mut self, rt: &R, peer: usize, key: usize)
        ensures { TellsPeer C.Hub.routed S.gave S.wrote (is_none self.old.loops) peer key
            self.old.connections.table self.new.connections.table }
    {
        let loops = self.loops;
        for _round in 0..u64::MAX {
            let Some(backlog) = self.connections.backlog(peer, key) else {
                return;
            };
            if backlog >= PEER_BACKLOG {
                self.connections.give_up_for(key, Cause::Full);
                return;
            }
            if !self.write_some(rt, loops, peer, key, frames_beside(backlog)) {
                return;
            }
        }
    }

    /// Takes and writes at most so many frames that wait for another server, behind what other loops have put into its mail, where there are some.
    /// Whether there were such frames.
    fn write_some<R: Wait>(
        &mut self,
        rt: &R,
        loops: Option<&Loops<'_>>,
        peer: usize,
        key: usize,
        count: usize,
    ) -> bool
        ensures { TellsSome C.Hub.routed S.gave S.wrote (is_none loops.entry) peer count key
            self.old.connections.table self.new.connections.table }
    {
        match loops {
            None => self.write_alone(rt, peer, key, count),
            Some(loops) => self.write_beside(rt, loops, peer, key, count),
        }
    }

    /// The same where there are other loops.
    fn write_beside<R: Wait>(
        &mut self,
        rt: &R,
        loops: &Loops<'_>,
        peer: usize,
        key: usize,
        count: usize,
    ) -> bool
        ensures { TellsSome C.Hub.routed S.gave S.wrote false peer count key
            self.old.connections.table self.new.connections.table }
    {
        let mut mails = loops.mails(rt);
        self.write_held(rt, &mut mails, peer, key, count)
    }

    /// The same while the mail is held.
    fn write_held<R: Wait>(
        &mut self,
        rt: &R,
        mails: &mut Mails,
        peer: usize,
        key: usize,
        count: usize,
    ) -> bool
        ensures { TellsSome C.Hub.routed S.gave S.wrote false peer count key
            self.old.connections.table self.new.connections.table }
    {
        match mails.get_mut(peer) {
            None => self.write_alone(rt, peer, key, count),
            Some(mail) => self.write_mail(rt, mail, peer, key, count),
        }
    }

    /// The same where no other loop has put anything into the mail.
    #[tactic(auto, using(crate::proofs::TellingLemmas::tells_some))]
    fn write_alone<R: Wait>(&mut self, rt: &R, peer: usize, key: usize, count: usize) -> bool
        ensures told { TellsSome C.Hub.routed S.gave S.wrote true peer count key
            self.old.connections.table self.new.connections.table }
        ensures again { TellsSome C.Hub.routed S.gave S.wrote false peer count key
            self.old.connections.table self.new.connections.table }
    {
        match take_frames(rt, self.node, self.alloc, peer, count) {
            Ok(frames) => self.write_taken(key, frames),
            Err(_) => {
                self.connections.has_told = true;
                self.connections.is_short = true;
                false
            }
        }
    }

    /// Writes the mail of another server, where other loops have put some, and behind it at most so many frames that wait for it. Whether there were
    /// some of these.
    #[tactic(auto, using(crate::proofs::TellingLemmas::tells_mail))]
    fn write_mail<R: Wait>(
        &mut self,
        rt: &R,
        mail: &mut Mail,
        peer: usize,
        key: usize,
        count: usize,
    ) -> bool
        ensures { TellsSome C.Hub.routed S.gave S.wrote false peer count key
            self.old.connections.table self.new.connections.table }
    {
        let posted = post(rt, self.node, self.alloc, peer, count, mail);
        self.connections.send_mail(key, mail);
        mail.bytes.clear();
        let_go_beyond(self.alloc, &mut mail.bytes, TAKEN_AT_ONCE);
        mail.backlog = self.connections.backlog(peer, key).unwrap_or(0);
        match posted {
            Ok(is_some) => is_some,
            Err(_) => {
                self.connections.has_told = true;
                self.connections.is_short = true;
                false
            }
        }
    }

    /// Writes frames that were taken for another server. Whether there were some.
    #[tactic(auto, using(crate::proofs::TellingLemmas::tells_frames))]
    fn write_taken(&mut self, key: usize, frames: Vec<Numbered>) -> bool
        ensures { TellsFrames S.gave S.wrote key [] frames.items self.old.connections.table
            self.new.connections.table }
    {
        if frames.is_empty() {
            return false;
        }
        self.encoded.clear();
        let is_whole = encode_frames(frames, &mut self.encoded).is_ok();
        self.connections.send_encoded(key, &self.encoded, is_whole);
        self.connections.leave_if_gone(key);
        let_go_beyond(self.alloc, &mut self.encoded, TAKEN_AT_ONCE);
        true
    }
}
