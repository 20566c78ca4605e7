//! The servers of a cluster.

ghost use Rattle.std.specs.Prelude.{◌≡◌, ◌<◌, ◌≤◌, length, IfOk, All, None, true};
ghost use Rattle.std.specs.List.{position, list_any};
ghost use Rattle.std.specs.Str.{bytes_eq};
ghost use Rattle.subj.specs.Names.{node_name_fault};
ghost use Rattle.subj.specs.Servers.{IsServer, server_of, are_apart as apart, is_peer as peer, own_name};

use crate::identities::Incarnation;
use crate::limits::{MAX_NODES, MAX_SHARDS};
use crate::node_ids::NodeId;
use std::alloc::{AllocError, Global};
use std::marker::Model;

/// Whether one of the servers has this name.
fn is_listed(name: NodeId, names: &[NodeId]) -> bool
    ensures same { result ≡ list_any (bytes_eq name) names.now }
    ensures valid { node_name_fault name ≡ None }
{
    let bytes = name.bytes();
    names.iter().any(|other| bytes == other.bytes())
}

/// Whether no two servers have one name.
fn are_apart(names: &[NodeId]) -> bool
    ensures same { result ≡ apart names.now }
    ensures valid { result ≡ true → All (λ name. node_name_fault name ≡ None) names.now }
{
    let mut names = names;
    while let Some((name, others)) = names.split_first() {
        if is_listed(*name, others) {
            return false;
        }
        names = others;
    }
    true
}

/// One life of a server: the servers of its cluster, in the order in which all of them list them, its
/// own place among them, its incarnation, and how many shards it has. (Profile.)
///
/// Seen as these. There are 1 to [`MAX_NODES`] names, all apart, and 1 to [`MAX_SHARDS`] shards; places
/// are counted from 0.
pub struct ServerIdentity {
    names: Vec<NodeId>,
    me: usize,
    inc: Incarnation,
    shards: u64,
}

/// One call, also for crates above: `docs/PROVING.md`, "What a proof costs".
impl Drop for ServerIdentity {
    fn drop(self) {
        let ServerIdentity {
            names: _,
            me: _,
            inc: _,
            shards: _,
        } = self;
    }
}

impl Model for ServerIdentity {
    ghost use Rattle.subj.specs.Servers.{ServerIdentity};

    ghost Value = { ServerIdentity };

    ghost use Rattle.subj.specs.Servers.{IsServer};

    ghost view = { λ s. record {
      names = s.names.items;
      me = s.me;
      inc = s.inc;
      shards = s.shards;
    } };

    ghost invariant = { λ s.
        IsServer (record { names = s.names.items; me = s.me; inc = s.inc; shards = s.shards }) };
}

impl ServerIdentity {
    /// None just where two names are one, there are more than [`MAX_NODES`], the place is of none of
    /// them, or the number of shards is not 1 to [`MAX_SHARDS`].
    #[tactic(auto, using(crate::proofs::Apart::tested))]
    pub fn new(
        names: Vec<NodeId>,
        me: usize,
        inc: Incarnation,
        shards: u64,
    ) -> Option<ServerIdentity>
        ensures { result
            ≡ server_of (record { names = names.items; me = me; inc = inc; shards = shards }) }
    {
        if names.len() as u64 > MAX_NODES || me >= names.len() {
            return None;
        }
        if shards == 0 || shards > MAX_SHARDS {
            return None;
        }
        if !are_apart(&names) {
            return None;
        }
        Some(ServerIdentity {
            names,
            me,
            inc,
            shards,
        })
    }

    /// The names of the servers, each at its place.
    pub fn names(&self) -> &[NodeId]
        ensures { result.now ≡ self.now.names }
    {
        &self.names
    }

    /// The server's own place.
    pub fn me(&self) -> usize
        ensures same { result ≡ self.now.me }
        ensures listed { result < length self.now.names }
        ensures server { IsServer self.now }
    {
        self.me
    }

    /// The server's own name.
    pub fn name(&self) -> NodeId
        ensures { result ≡ own_name self.now }
    {
        self.names[self.me]
    }

    /// This life's incarnation.
    pub fn inc(&self) -> Incarnation
        ensures { result ≡ self.now.inc }
    {
        self.inc
    }

    /// How many shards the server has, 1 to [`MAX_SHARDS`].
    pub fn shards(&self) -> u64
        ensures same { result ≡ self.now.shards }
        ensures some { 1 ≤ result }
        ensures few { result ≤ MAX_SHARDS }
    {
        self.shards
    }

    /// The place of the server of this name, or None where none has it.
    pub fn place(&self, name: NodeId) -> Option<usize>
        ensures { result ≡ position (λ other. bytes_eq other name) self.now.names }
    {
        self.names
            .iter()
            .position(|other| other.bytes() == name.bytes())
    }

    /// Whether another server of the cluster stands at the place.
    pub fn is_peer(&self, place: usize) -> bool
        ensures same { result ≡ peer self.now place }
    {
        place != self.me && place < self.names.len()
    }

    /// A copy.
    pub fn try_clone(&self, alloc: Global) -> Result<ServerIdentity, AllocError>
        ensures { IfOk result (λ server. server ≡ self.now) }
    {
        let names = Vec::from_slice(alloc, &self.names)?;
        Ok(ServerIdentity {
            names,
            me: self.me,
            inc: self.inc,
            shards: self.shards,
        })
    }
}
