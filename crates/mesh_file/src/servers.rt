//! What the file says of one server; what servers share, and their order.

ghost use Rattle.std.specs.Prelude.{◌≡◌, ◌<◌, ◌≤◌, ◌^◌, length, true, IfOk, MatchOption};
ghost use Rattle.std.specs.List.{position, position_or_len};
ghost use Rattle.std.specs.List.Sorted.{IsPermutation};
ghost use Rattle.subj.specs.QueueNames.{are_rising};
ghost use Rattle.mesh_file.specs.Pairs.{AllApart, AreApart, IsFirstPair, IsFirstShared, IsPairOf};
ghost use Rattle.mesh_file.specs.Servers.{shares, is_before_server, names_of};

use crate::addresses::{RouteAddress, is_same_clients, is_same_route};
use crate::faults::{Pair, Shared};
use std::alloc::{AllocError, Global};
use std::fmt;
use std::fmt::{Display, Formatter, Write};
use std::net::SocketAddr;
use subj::{HostText, NodeId};

/// A server of the mesh: its name, where its clients connect, where the other servers do, and the host that INFO tells, where that is
/// not the address of `clients`. (Profile.)
///
/// Of a server of a [`MeshFile`](crate::MeshFile), both ports are from 1, the host of `routes` is no wildcard address, and `clients` and
/// `routes` are apart: they have two ports, or two addresses neither of which may be the other.
#[derive(Clone, Copy)]
pub struct MeshServer {
    pub name: NodeId,
    pub clients: SocketAddr,
    pub routes: RouteAddress,
    pub advertise: Option<HostText>,
}

impl MeshServer {
    ghost use Rattle.std.specs.Prelude.{◌≡◌};
    ghost use Rattle.mesh_file.specs.Servers.{shares, is_before_server};

    /// Whether another server shares this with it.
    pub(crate) fn shares(&self, shared: Shared, other: &MeshServer) -> bool
        ensures { result ≡ shares shared self.now other.now }
    {
        match shared {
            Shared::Name => self.name.bytes() == other.name.bytes(),
            Shared::Routes => is_same_route(&self.routes, &other.routes),
            Shared::Clients => is_same_clients(self.clients, other.clients),
        }
    }

    /// Whether its name is before the other's in the order of bytes.
    pub(crate) fn is_before(&self, other: &MeshServer) -> bool
        ensures { result ≡ is_before_server self.now other.now }
    {
        self.name.bytes().cmp(other.name.bytes()).is_lt()
    }
}

impl Display for MeshServer {
    fn fmt<W: Write>(&self, f: &mut Formatter<W>) -> fmt::Result {
        write!(
            f,
            "{} clients {} routes {}",
            self.name.text(),
            self.clients,
            self.routes
        )?;
        match &self.advertise {
            None => Ok(()),
            Some(host) => write!(f, " advertise {host}"),
        }
    }
}

/// The place among these servers, counted from 0, of the first that shares this with the server.
fn first_sharing(server: &MeshServer, others: &[MeshServer], shared: Shared) -> Option<usize>
    ensures { result ≡ position (λ other. shares shared server.now other) others.now }
{
    others.iter().position(|other| server.shares(shared, other))
}

/// The places, counted from 0, of the first two servers that share this: of all such pairs that with the least first place, and of these
/// that with the least second one.
fn first_pair(servers: &[MeshServer], shared: Shared) -> Option<(usize, usize)>
    ensures { MatchOption result (AreApart shared servers.now) (IsFirstPair shared servers.now) }
{
    for (first, server) in servers.iter().enumerate() {
        let (_, rest) = servers.split_at(first + 1);
        if let Some(behind) = first_sharing(server, rest, shared) {
            return Some((first, first + 1 + behind));
        }
    }
    None
}

/// The first two servers that share this.
fn pair_of(servers: &[MeshServer], shared: Shared) -> Option<Pair>
    requires { length servers.now < 2 ^ 63 }
    ensures { MatchOption result (AreApart shared servers.now) (IsPairOf shared servers.now) }
{
    let (first, second) = first_pair(servers, shared)?;
    Some(Pair {
        shared,
        first: first + 1,
        second: second + 1,
    })
}

/// The first two servers that share what they may not: their name, or else their routes, or else their clients.
pub(crate) fn first_shared(servers: &[MeshServer]) -> Option<Pair>
    requires { length servers.now < 2 ^ 63 }
    ensures { MatchOption result (AllApart servers.now) (IsFirstShared servers.now) }
{
    if let Some(pair) = pair_of(servers, Shared::Name) {
        return Some(pair);
    }
    if let Some(pair) = pair_of(servers, Shared::Routes) {
        return Some(pair);
    }
    pair_of(servers, Shared::Clients)
}

/// The place, counted from 0, of the first server that is behind this one in the order of names.
fn first_behind(server: &MeshServer, servers: &[MeshServer]) -> Option<usize>
    ensures { result ≡ position (λ other. is_before_server server.now other) servers.now }
{
    servers.iter().position(|other| server.is_before(other))
}

/// Where a server belongs among servers in the order of their names.
fn place_for(server: &MeshServer, servers: &[MeshServer]) -> usize
    ensures same { result
        ≡ position_or_len (λ other. is_before_server server.now other) servers.now }
    ensures within { result ≤ length servers.now }
{
    match first_behind(server, servers) {
        Some(place) => place,
        None => servers.len(),
    }
}

/// The servers in the order of their names. Required: no two have one name.
pub(crate) fn in_order(alloc: Global, servers: &[MeshServer]) -> Result<Vec<MeshServer>, AllocError>
    requires { AreApart Shared.Name servers.now }
    ensures same { IfOk result (λ ordered. IsPermutation servers.now ordered.items) }
    ensures rising { IfOk result (λ ordered. are_rising (names_of ordered.items) ≡ true) }
{
    let mut ordered = Vec::new(alloc);
    for server in servers {
        let place = place_for(server, &ordered);
        ordered.insert(place, *server)?;
    }
    Ok(ordered)
}
