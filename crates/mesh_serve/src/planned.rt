//! The servers of a process before their sockets are bound: who they are, and where clients and other servers connect to each. They are those of a
//! command line, or the one of a mesh whose servers are of processes of their own, as a file describes it.

ghost use Rattle.std.specs.Prelude.{◌≡◌, ◌<◌, ◌+◌, ◌*◌, ◌%◌, ◌^◌, IfOk};
ghost use Rattle.router_command.specs.Ranges.{AreWithin};
ghost use Rattle.subj.specs.declared.limits.TheConstants.{MAX_NODES};

use crate::faults::{NodeFault, ServeFault};
use log::LevelFilter;
use mesh_file::{MeshFile, MeshServer, RouteAddress, RouteHost};
use peer_proof::Secret;
use router_command::{NodeOptions, Options};
use std::alloc::{AllocError, Global};
use std::fmt::Write;
use std::io;
use std::net::{IpAddr, Ipv4Addr, Net, SocketAddr, ToSocketAddrs};
use subj::{HostText, Incarnation, MAX_NODES, NameFault, NodeId, ServerIdentity};

/// Where clients and other servers connect to a server.
#[derive(Clone, Copy)]
pub(crate) struct Ends {
    pub clients: SocketAddr,
    pub routes: SocketAddr,
}

/// A server before its sockets are bound.
#[derive(Drop)]
pub(crate) struct PlannedServer {
    pub life: ServerIdentity,
    pub ends: Ends,
    /// The host that its clients are told.
    pub host: HostText,
    /// The seed of the words by which it chooses who serves a queue group.
    pub word: u64,
    /// The secret by which it knows the other servers, where the mesh has one.
    pub secret: Option<Secret>,
}

/// The servers of a process, and where other servers connect to each server of the mesh, in their order.
#[derive(Drop)]
pub(crate) struct Plan {
    pub servers: Vec<PlannedServer>,
    pub routes: Vec<RouteAddress>,
}

/// What the servers of a process are told beside.
#[derive(Clone, Copy)]
pub(crate) struct Orders<'a> {
    /// After how many clients they end, where they do.
    pub stop_after: Option<u64>,
    /// How many loops share the shards of each.
    pub loops: u64,
    /// How many seconds a drain may take.
    pub drain_seconds: u64,
    /// Which events standard error tells.
    pub log_level: LevelFilter,
    /// At which path they are told to drain.
    pub control: Option<&'a str>,
}

impl<'a> Orders<'a> {
    /// What the options of a mesh say.
    pub fn of(options: &Options<'a>) -> Orders<'a> {
        Orders {
            stop_after: options.stop_after,
            loops: options.loops,
            drain_seconds: options.drain_seconds,
            log_level: options.log_level,
            control: options.control,
        }
    }

    /// What the options of one server of a mesh say: it has no end but its drain.
    pub fn of_node(options: &NodeOptions<'a>) -> Orders<'a> {
        Orders {
            stop_after: None,
            loops: options.loops,
            drain_seconds: options.drain_seconds,
            log_level: options.log_level,
            control: options.control,
        }
    }
}

/// The host of an address, as INFO tells it where nothing else is given: an IPv6 address stands without brackets, and an address for all of the
/// machine as it is, as nats-server has it.
fn host_at(address: SocketAddr) -> HostText {
    let mut host = HostText::new();
    // an address has fewer bytes than there is room for
    let _ = write!(host, "{}", address.ip());
    host
}

/// The routes at this address.
fn routes_at(address: SocketAddr) -> RouteAddress {
    RouteAddress {
        host: RouteHost::Ip(address.ip()),
        port: address.port(),
    }
}

/// Where clients and other servers connect to the server at this place: at ports of this machine alone.
fn ends_of(options: &Options<'_>, place: u16) -> Ends
    requires within { AreWithin options.now }
    requires place { place < options.now.nodes }
{
    Ends {
        clients: SocketAddr::from((Ipv4Addr::LOCALHOST, options.client_port(place))),
        routes: SocketAddr::from((Ipv4Addr::LOCALHOST, options.route_port(place))),
    }
}

/// The name of the server of this number below 100: `n` and its digits.
fn numbered(number: u8) -> Result<NodeId, NameFault>
    requires { number < 100 }
{
    if number < 10 {
        return NodeId::read(&[b'n', b'0' + number]);
    }
    NodeId::read(&[b'n', b'0' + number / 10, b'0' + number % 10])
}

/// The name of the server at this place, `n1` at the first.
fn name_of(place: u16) -> Result<NodeId, ServeFault> {
    if place as u64 >= MAX_NODES {
        return Err(ServeFault::NoCluster);
    }
    match numbered(place as u8 + 1) {
        Ok(name) => Ok(name),
        Err(_) => Err(ServeFault::NoCluster),
    }
}

/// The life of the server at this place.
fn life_of(alloc: Global, options: &Options<'_>, place: u16) -> Result<ServerIdentity, ServeFault> {
    let mut names = Vec::new(alloc);
    for other in 0..options.nodes {
        names.push(name_of(other)?)?;
    }
    match ServerIdentity::new(names, place as usize, options.inc, options.shards) {
        Some(life) => Ok(life),
        None => Err(ServeFault::NoCluster),
    }
}

/// The server at this place. The seed of its words is another one than that of each other server, so that no two of them choose alike.
fn planned_server(
    alloc: Global,
    options: &Options<'_>,
    place: u16,
) -> Result<PlannedServer, ServeFault>
    requires within { AreWithin options.now }
    requires place { place < options.now.nodes }
    ensures { IfOk result (λ server. server.word ≡ (options.now.word + place) % 2 ^ 64) }
{
    let ends = ends_of(options, place);
    Ok(PlannedServer {
        life: life_of(alloc, options, place)?,
        ends,
        host: host_at(ends.clients),
        word: options.word.wrapping_add(u64::from(place)),
        secret: None,
    })
}

/// Puts the server at this place behind the others.
fn push_planned(
    plan: &mut Plan,
    alloc: Global,
    options: &Options<'_>,
    place: u16,
) -> Result<(), ServeFault>
    requires within { AreWithin options.now }
    requires place { place < options.now.nodes }
{
    let routes = [routes_at(ends_of(options, place).routes)];
    plan.routes.extend_from_slice(&routes)?;
    plan.servers.push(planned_server(alloc, options, place)?)?;
    Ok(())
}

/// All servers of the mesh that the options tell of, which are of one process.
pub(crate) fn plan_of(alloc: Global, options: &Options<'_>) -> Result<Plan, ServeFault>
    requires { AreWithin options.now }
{
    let mut plan = Plan {
        servers: Vec::new(alloc),
        routes: Vec::new(alloc),
    };
    for place in 0..options.nodes {
        push_planned(&mut plan, alloc, options, place)?;
    }
    Ok(plan)
}

/// The line that tells that the server of this name can be reached: where clients and other servers connect.
pub(crate) fn ready_text(alloc: Global, name: NodeId, ends: Ends) -> Result<String, AllocError> {
    let Ends { clients, routes } = ends;
    format!(in alloc; "{} clients {clients} routes {routes}", name.text())
}

/// The line that tells that the server at this place, counted from 0, can be reached: where clients and other servers connect.
pub fn ready_line(alloc: Global, options: &Options<'_>, place: u16) -> Result<String, ServeFault>
    requires within { AreWithin options.now }
    requires place { place < options.now.nodes }
{
    let name = name_of(place)?;
    Ok(ready_text(alloc, name, ends_of(options, place))?)
}

/// Whether the address is that of one host: not `0.0.0.0`, and not `[::]`.
pub(crate) fn is_of_host(address: SocketAddr) -> bool {
    let ip: IpAddr = address.ip().to_canonical();
    !ip.is_unspecified()
}

/// Where a server binds its port for routes: at the first address that its host has. It waits for the look-up of a name.
fn own_address<R: Net>(rt: &R, routes: &RouteAddress) -> io::Result<SocketAddr> {
    let name = match routes.host {
        RouteHost::Ip(ip) => return Ok(SocketAddr::new(ip, routes.port)),
        RouteHost::Name(name) => name,
    };
    for address in (name.as_str(), routes.port).to_socket_addrs(rt)? {
        if is_of_host(address) {
            return Ok(address);
        }
    }
    Err(io::Error::from(io::ErrorKind::NotFound))
}

/// The ends of this server of a mesh: those that the file has.
fn ends_at<R: Net>(rt: &R, server: &MeshServer) -> Result<Ends, NodeFault> {
    match own_address(rt, &server.routes) {
        Ok(routes) => Ok(Ends {
            clients: server.clients,
            routes,
        }),
        Err(error) => Err(NodeFault::Unresolved {
            server: server.name,
            error,
        }),
    }
}

/// Where other servers connect to each server of the mesh, in their order; to the one at this place at the address where it binds.
fn routes_of(
    alloc: Global,
    mesh: &MeshFile,
    place: usize,
    bound: SocketAddr,
) -> Result<Vec<RouteAddress>, ServeFault> {
    let mut all = Vec::new(alloc);
    for (other, server) in mesh.servers().iter().enumerate() {
        let routes = if other == place {
            routes_at(bound)
        } else {
            server.routes
        };
        all.push(routes)?;
    }
    Ok(all)
}

/// The life of the server at this place of the mesh, in this incarnation.
fn life_at(
    alloc: Global,
    mesh: &MeshFile,
    place: usize,
    inc: Incarnation,
) -> Result<ServerIdentity, ServeFault> {
    let mut names = Vec::new(alloc);
    for server in mesh.servers() {
        names.push(server.name)?;
    }
    match ServerIdentity::new(names, place, inc, mesh.shards()) {
        Some(life) => Ok(life),
        None => Err(ServeFault::NoCluster),
    }
}

/// The seed of the words of the server at this place in this incarnation. Each life of each server has another one, so that no two
/// of them choose alike.
fn seed_at(place: usize, inc: Incarnation) -> u64
    ensures { result ≡ (inc * MAX_NODES + place) % 2 ^ 64 }
{
    inc.get().wrapping_mul(MAX_NODES).wrapping_add(place as u64)
}

/// The host that INFO tells the clients of a server: the one that it advertises, or that of the clients' address.
fn told_host(server: &MeshServer) -> HostText {
    match server.advertise {
        Some(host) => host,
        None => host_at(server.clients),
    }
}

/// The server at this place of the mesh, with these ends, alone, the host that its clients are told, and the secret by which it knows the others.
fn servers_at(
    alloc: Global,
    mesh: &MeshFile,
    place: usize,
    inc: Incarnation,
    ends: Ends,
    host: HostText,
    secret: Option<Secret>,
) -> Result<Vec<PlannedServer>, ServeFault> {
    let planned = PlannedServer {
        life: life_at(alloc, mesh, place, inc)?,
        ends,
        host,
        word: seed_at(place, inc),
        secret,
    };
    let mut servers = Vec::new(alloc);
    servers.push(planned)?;
    Ok(servers)
}

/// The server at this place of the mesh, alone, in this incarnation and with this secret, where there is one.
pub(crate) fn plan_at<R: Net>(
    rt: &R,
    alloc: Global,
    mesh: &MeshFile,
    place: usize,
    inc: Incarnation,
    secret: Option<Secret>,
) -> Result<Plan, NodeFault> {
    let Some(server) = mesh.servers().get(place) else {
        return Err(NodeFault::Served(ServeFault::NoCluster));
    };
    let ends = ends_at(rt, server)?;
    let routes = routes_of(alloc, mesh, place, ends.routes)?;
    let servers = servers_at(alloc, mesh, place, inc, ends, told_host(server), secret)?;
    Ok(Plan { servers, routes })
}
