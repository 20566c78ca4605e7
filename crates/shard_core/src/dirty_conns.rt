//! For which connections something was put.

ghost use Rattle.std.specs.Prelude.{◌≡◌, ℕ, ◌||◌, true, false, nat_eq};
ghost use Rattle.std.specs.List.{list_any};
ghost use Rattle.shard_core.specs.Dirty.{is_dirty, none_dirty};

use std::alloc::Global;
use std::marker::Model;
use std::mem;
use subj::ConnId;

/// Whether the connection is the last one of these.
fn is_last(conns: &Vec<ConnId>, conn: ConnId) -> bool
    ensures { result ≡ true → list_any (nat_eq conn) conns.now.items ≡ true }
{
    if conns.is_empty() {
        return false;
    }
    conns[conns.len() - 1] == conn
}

/// Puts the connection behind the others, of which there are at most so many. Whether it stands among them: not for want
/// of memory, and not where there are as many.
fn push_within(conns: &mut Vec<ConnId>, conn: ConnId, count: usize) -> bool
    ensures put { result ≡ true → list_any (nat_eq conn) conns.new.items ≡ true }
    ensures kept { (other : ℕ)
        → list_any (nat_eq other) conns.old.items ≡ true
        → list_any (nat_eq other) conns.new.items ≡ true }
{
    if is_last(conns, conn) {
        return true;
    }
    conns.len() < count && conns.push(conn).is_ok()
}

/// The connections for which something was put since this was last asked for, or that it may be any of them:
/// so it is once more was put than there are connections. No connection is left out of it; one may be told
/// more than once, and one may be gone. Also whether half of the room for what waits for one of them was used.
///
/// Seen as these three.
#[derive(Drop)]
pub struct DirtyConns {
    conns: Vec<ConnId>,
    is_any: bool,
    is_urgent: bool,
}

impl Model for DirtyConns {
    ghost use Rattle.shard_core.specs.Dirty.{Dirty};

    ghost Value = { Dirty };

    ghost view = { λ d. record { conns = d.conns.items; any = d.is_any; urgent = d.is_urgent } };
}

impl DirtyConns {
    /// None.
    pub fn new(alloc: Global) -> DirtyConns
        ensures { result ≡ none_dirty }
    {
        DirtyConns {
            conns: Vec::new(alloc),
            is_any: false,
            is_urgent: false,
        }
    }

    /// Whether it may be any connection.
    pub fn is_any(&self) -> bool
        ensures { result ≡ self.now.any }
    {
        self.is_any
    }

    /// Whether half of the room was used of a connection that something was put for.
    pub fn is_urgent(&self) -> bool
        ensures { result ≡ self.now.urgent }
    {
        self.is_urgent
    }

    /// The connections that are told by themselves.
    pub fn conns(&self) -> &[ConnId]
        ensures { result.now ≡ self.now.conns }
    {
        &self.conns
    }

    /// None again. Its memory is kept.
    pub fn clear(&mut self)
        ensures { self.new ≡ none_dirty }
    {
        self.conns.clear();
        self.is_any = false;
        self.is_urgent = false;
    }

    /// Hands out what is told, in place of what `out` tells, whose memory is used from here on. None is told then.
    pub(crate) fn hand_over(&mut self, out: &mut DirtyConns)
        ensures given { out.new ≡ self.old }
        ensures left { self.new ≡ none_dirty }
    {
        out.clear();
        mem::swap(self, out);
    }

    /// Something was put for a connection, which is one of so many, and of whose room half may be used.
    pub(crate) fn note(&mut self, conn: ConnId, count: usize, is_half_full: bool)
        ensures dirty { is_dirty conn self.new ≡ true }
        ensures kept { (other : ℕ)
            → is_dirty other self.old ≡ true
            → is_dirty other self.new ≡ true }
        ensures urgent { self.new.urgent ≡ (self.old.urgent || is_half_full) }
    {
        self.is_urgent |= is_half_full;
        if self.is_any || push_within(&mut self.conns, conn, count) {
            return;
        }
        self.conns.clear();
        self.is_any = true;
    }
}
