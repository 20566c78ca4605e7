//! What is done at the start of a process that serves: its sockets are bound, the names of other servers' hosts are looked up, and its servers run.
//!
//! A name is looked up in a thread of its own, as long as the process runs, so that no server waits for a name. These threads end with the process:
//! nobody waits for a look-up.

ghost use Rattle.router_command.specs.Ranges.{AreWithin};

use crate::control::{bind_control, remove_control};
use crate::faults::{NodeFault, SecretFileFault, ServeFault};
use crate::planned::{Ends, Orders, Plan, PlannedServer, is_of_host, plan_at, plan_of, ready_text};
use crate::running::run_all;
use event_log::EventLog;
use incarnation_file::{FileDisk, raise};
use mesh_file::{MeshFile, RouteAddress, RouteHost};
use mio::net::TcpListener;
use mio::{Poll, Waker};
use node_net::{Control, LoopWord, PeerAddresses, ServerControl, Shutdown, Sockets, WAKER};
use peer_proof::{MOST_SECRET, Secret};
use router_command::{NodeOptions, Options};
use server_calls::LoopPlace;
use server_events::Event;
use std::alloc::{AllocError, Global};
use std::fs::{File, Files};
use std::io::Read;
use std::net::{Net, SocketAddr, TcpListener as Listener, TcpStream as Stream, ToSocketAddrs};
use std::os::unix::fs::MetadataExt;
use std::random::RandomSource;
use std::rt::Clock;
use std::sync::{Arc, Wait};
use std::thread::Threads;
use std::time::Duration;
use std::{fs, io, thread};
use subj::{HostText, Incarnation, NodeId, ServerIdentity};

/// The bits of a file's mode that let its group or others read, write or run it.
const SHARED: u32 = 0o077;

/// The most bytes of a file with a secret that are read: those of the secret, the line feed behind it, and one that is too many.
const MOST_READ: u64 = MOST_SECRET as u64 + 2;

/// For how many seconds nothing is looked up where the server is reached and nobody else came.
const LONGEST_PAUSE: u64 = 30;

/// The same where the name has no address.
const SHORTEST_PAUSE: u64 = 1;

/// A server before it runs.
#[derive(Drop)]
pub(crate) struct BoundServer {
    pub planned: PlannedServer,
    /// Which loop polls the sockets: its first one.
    pub first: LoopPlace,
    pub sockets: Sockets,
    /// What each of its other loops polls.
    pub sides: Vec<SidePoll>,
}

/// A loop that is not the first of its server's, and what it polls.
#[derive(Drop)]
pub(crate) struct SidePoll {
    pub place: LoopPlace,
    pub poll: Poll,
}

/// What the threads of a process share while one of them runs.
pub(crate) struct Shared {
    /// Where other servers are reached, and whence they come.
    pub addresses: PeerAddresses,
    /// When the servers of the process stop.
    pub shutdown: Shutdown,
}

/// One call, also for crates above: `docs/PROVING.md`, "What a proof costs".
impl Drop for Shared {
    fn drop(self) {
        let Shared {
            addresses: _,
            shutdown: _,
        } = self;
    }
}

/// A mesh before it runs: its servers, where other servers connect to each, and what they share.
#[derive(Drop)]
struct BoundMesh {
    servers: Vec<BoundServer>,
    routes: Vec<RouteAddress>,
    shared: Arc<Shared>,
}

/// A server of the mesh whose host has a name.
#[derive(Clone, Copy)]
struct NamedPeer {
    /// The server at which it is told what comes of the name.
    server: NodeId,
    peer: NodeId,
    place: usize,
    name: HostText,
    port: u16,
}

/// Binds an address.
fn bind<R: Net>(rt: &R, address: SocketAddr) -> Result<TcpListener, ServeFault> {
    match TcpListener::bind(rt, address) {
        Ok(listener) => Ok(listener),
        Err(error) => Err(ServeFault::Address { address, error }),
    }
}

/// The sockets of a server.
fn sockets<R: Net>(rt: &R, ends: Ends) -> Result<Sockets, ServeFault> {
    Ok(Sockets {
        poll: Poll::new(rt)?,
        clients: bind(rt, ends.clients)?,
        routes: bind(rt, ends.routes)?,
        control: None,
    })
}

/// The loop at this place, of so many.
fn loop_at(place: u64, loops: u64) -> Result<LoopPlace, ServeFault> {
    match LoopPlace::new(place, loops) {
        Some(place) => Ok(place),
        None => Err(ServeFault::NoCluster),
    }
}

/// What each loop of a server polls but the first, where there are so many.
fn side_polls<R: Net>(rt: &R, alloc: Global, loops: u64) -> Result<Vec<SidePoll>, ServeFault> {
    let mut all = Vec::new(alloc);
    for place in 1..loops {
        let place = loop_at(place, loops)?;
        let poll = Poll::new(rt)?;
        all.push(SidePoll { place, poll })?;
    }
    Ok(all)
}

/// What wakes the loops of a server.
fn words(alloc: Global, server: &BoundServer) -> Result<Vec<LoopWord>, ServeFault> {
    let mut all = Vec::new(alloc);
    all.push(LoopWord::new(Waker::new(server.sockets.poll.registry(), WAKER)?))?;
    for side in &server.sides {
        all.push(LoopWord::new(Waker::new(side.poll.registry(), WAKER)?))?;
    }
    Ok(all)
}

/// Puts a server of so many loops behind the others, with its sockets bound.
fn push_bound<R: Net>(
    all: &mut Vec<BoundServer>,
    rt: &R,
    planned: PlannedServer,
    loops: u64,
) -> Result<(), ServeFault> {
    let first = loop_at(0, loops)?;
    let sockets = sockets(rt, planned.ends)?;
    let sides = side_polls(rt, *all.allocator(), loops)?;
    all.push(BoundServer {
        planned,
        first,
        sockets,
        sides,
    })?;
    Ok(())
}

/// These servers, of so many loops each, with their sockets bound.
fn bound_servers<R: Net>(
    rt: &R,
    alloc: Global,
    planned: Vec<PlannedServer>,
    loops: u64,
) -> Result<Vec<BoundServer>, ServeFault> {
    let mut all = Vec::new(alloc);
    for server in planned {
        push_bound(&mut all, rt, server, loops)?;
    }
    Ok(all)
}

/// What wakes each server, and tells it to drain.
fn controls(alloc: Global, servers: &[BoundServer]) -> Result<Vec<ServerControl>, ServeFault> {
    let mut all = Vec::new(alloc);
    for server in servers {
        all.push(ServerControl::new(words(alloc, server)?))?;
    }
    Ok(all)
}

/// The servers of a process, with their sockets bound, and when they stop, for which each is woken.
fn servers_to_wake<R: Net>(
    rt: &R,
    alloc: Global,
    planned: Vec<PlannedServer>,
    orders: Orders<'_>,
) -> Result<(Vec<BoundServer>, Shutdown), ServeFault> {
    let servers = bound_servers(rt, alloc, planned, orders.loops)?;
    let controls = controls(alloc, &servers)?;
    let mut shutdown = Shutdown::new(orders.stop_after, controls);
    shutdown.set_drain_seconds(orders.drain_seconds);
    if let Some(first) = servers.first() {
        shutdown.set_first_place(first.planned.life.me());
    }
    Ok((servers, shutdown))
}

/// Where other servers are reached, by what is known of these routes without looking up a name.
fn known_addresses(alloc: Global, routes: &[RouteAddress]) -> Result<PeerAddresses, AllocError> {
    let mut known = Vec::new(alloc);
    for routes in routes {
        known.push(match routes.host {
            RouteHost::Ip(ip) => Some(SocketAddr::new(ip, routes.port)),
            RouteHost::Name(_) => None,
        })?;
    }
    PeerAddresses::new(alloc, &known)
}

/// What the threads share of a process whose mesh has these routes.
fn share(
    alloc: Global,
    routes: &[RouteAddress],
    shutdown: Shutdown,
) -> Result<Arc<Shared>, AllocError> {
    let addresses = known_addresses(alloc, routes)?;
    let shared = Shared {
        addresses,
        shutdown,
    };
    Ok(Arc::new(alloc, shared)?)
}

/// The servers of a plan, whose sockets are bound.
fn bound_mesh<R: Net>(
    rt: &R,
    alloc: Global,
    plan: Plan,
    orders: Orders<'_>,
) -> Result<BoundMesh, ServeFault> {
    let Plan { servers, routes } = plan;
    let (servers, shutdown) = servers_to_wake(rt, alloc, servers, orders)?;
    let shared = share(alloc, &routes, shutdown)?;
    Ok(BoundMesh {
        servers,
        routes,
        shared,
    })
}

/// Has the first server take what operators say at this path.
fn control_at<R: Files + Net>(
    rt: &R,
    alloc: Global,
    bound: &mut BoundMesh,
    path: &str,
) -> Result<(), ServeFault> {
    let listener = bind_control(rt, path)?;
    if let Some(first) = bound.servers.first_mut() {
        first.sockets.control = Some(Control::new(alloc, listener));
    }
    Ok(())
}

/// The addresses of a name with this port, none of them twice; there is none where the look-up failed. May wait for long.
fn look_up<R: Net>(
    rt: &R,
    alloc: Global,
    name: &str,
    port: u16,
) -> Result<Vec<SocketAddr>, AllocError> {
    let mut all = Vec::new(alloc);
    if let Ok(found) = (name, port).to_socket_addrs(rt) {
        for address in found {
            if is_of_host(address) && !all.contains(&address) {
                all.push(address)?;
            }
        }
    }
    Ok(all)
}

/// Waits for a pause of so many seconds, or until the name of the server at this place is to be looked up although the pause is not over: the server
/// is not reached, or somebody has come from an address of no server, who may be it.
fn pause<R: Clock>(rt: &R, shared: &Shared, place: usize, seconds: u64) {
    let strangers = shared.addresses.strangers();
    for _second in 0..seconds {
        thread::sleep(rt, Duration::from_secs(1));
        if !shared.addresses.is_reached(place) || shared.addresses.strangers() != strangers {
            return;
        }
    }
}

impl NamedPeer {
    /// The server at this place, where its host has a name. What comes of the name is told at this server.
    fn at(life: &ServerIdentity, place: usize, routes: &RouteAddress) -> Option<NamedPeer> {
        let peer = life.names().get(place).copied()?;
        match routes.host {
            RouteHost::Ip(_) => None,
            RouteHost::Name(name) => Some(NamedPeer {
                server: life.name(),
                peer,
                place,
                name,
                port: routes.port,
            }),
        }
    }

    /// The name has these addresses now, after so many look-ups without one. It is told where they are others than before, or there were such
    /// look-ups. Whether there is an address.
    fn take<R: Wait + Clock>(
        &self,
        rt: &R,
        addresses: Vec<SocketAddr>,
        failures: u64,
        shared: &Shared,
        log: &EventLog,
    ) -> bool {
        let Some(address) = addresses.first().copied() else {
            return false;
        };
        let has_changed = shared.addresses.set(rt, self.place, addresses);
        if has_changed {
            shared.shutdown.wake_all();
        }
        if has_changed || failures > 0 {
            let peer = self.peer;
            let event = Event::PeerResolved {
                peer,
                address,
                failures,
            };
            log.tell(rt, self.server, event);
        }
        true
    }

    /// Looks the name up once, after so many look-ups without an address. How many there are now.
    fn look<R: Wait + Net<Listener = Listener, Stream = Stream> + Clock>(
        &self,
        rt: &R,
        alloc: Global,
        failures: u64,
        shared: &Shared,
        log: &EventLog,
    ) -> u64 {
        let found = match look_up(rt, alloc, self.name.as_str(), self.port) {
            Ok(addresses) => self.take(rt, addresses, failures, shared, log),
            Err(_) => return failures,
        };
        if found {
            return 0;
        }
        if failures == 0 {
            let peer = self.peer;
            log.tell(rt, self.server, Event::PeerUnresolved { peer });
        }
        failures.saturating_add(1)
    }

    /// Looks the name up again and again, until the servers of the process stop. May wait, and for ever.
    fn look_on<R: Wait + Net<Listener = Listener, Stream = Stream> + Clock>(
        &self,
        rt: &R,
        alloc: Global,
        shared: &Shared,
        log: &EventLog,
    ) {
        let mut failures = 0;
        for _look in rt.forever() {
            if shared.shutdown.is_over() {
                return;
            }
            failures = self.look(rt, alloc, failures, shared, log);
            let seconds = if failures > 0 {
                SHORTEST_PAUSE
            } else {
                LONGEST_PAUSE
            };
            pause(rt, shared, self.place, seconds);
        }
    }

    /// Begins a thread that looks the name up. It ends with the process, and nobody waits for it.
    fn start<
        R: Threads
            + Wait
            + Net<Listener = Listener, Stream = Stream>
            + Clock
            + Copy
            + Send
            + 'static,
    >(
        self,
        rt: &R,
        alloc: Global,
        shared: Arc<Shared>,
        log: Arc<EventLog>,
    ) -> Result<(), ServeFault> {
        let own = *rt;
        match thread::spawn(rt, move || self.look_on(&own, alloc, &shared, &log)) {
            Ok(_) => Ok(()),
            Err(_) => Err(ServeFault::NoNames),
        }
    }
}

/// Has the names of hosts looked up that this server dials, the only one of its process where there are names, as long as the process runs: behind a
/// look-up that gave no address after a second; behind one that gave one after a second where its server is not reached or somebody came from an
/// address of no server, and after half a minute else. Addresses that a name had stay while it has none. What comes of it is told at this server.
fn look_up_names<
    R: Threads + Wait + Net<Listener = Listener, Stream = Stream> + Clock + Copy + Send + 'static,
>(
    rt: &R,
    alloc: Global,
    life: &ServerIdentity,
    routes: &[RouteAddress],
    shared: &Arc<Shared>,
    log: &Arc<EventLog>,
) -> Result<(), ServeFault> {
    for (place, routes) in routes.iter().enumerate() {
        if let Some(peer) = NamedPeer::at(life, place, routes) {
            let shared = Arc::try_clone(shared)?;
            let log = Arc::try_clone(log)?;
            peer.start(rt, alloc, shared, log)?;
        }
    }
    Ok(())
}

/// Tells on standard output that all servers can be reached, a line each, and then the log where each listens.
fn tell_ready<R: Wait + Clock + Print>(
    rt: &R,
    alloc: Global,
    servers: &[BoundServer],
    log: &EventLog,
) -> io::Result<()> {
    for server in servers {
        let line = ready_text(alloc, server.planned.life.name(), server.planned.ends)?;
        println!(rt; "{line}")?;
    }
    for server in servers {
        let Ends { clients, routes } = server.planned.ends;
        let listening = Event::Listening { clients, routes };
        log.tell(rt, server.planned.life.name(), listening);
    }
    Ok(())
}

/// Tells standard output and the log that the mesh is ready, and runs it, whose sockets are bound.
fn run_told<R>(
    rt: &R,
    alloc: Global,
    bound: BoundMesh,
    log: &Arc<EventLog>,
) -> Result<(), ServeFault>
where
    R: Threads
        + Wait
        + Net<Listener = Listener, Stream = Stream>
        + RandomSource
        + Clock
        + Print
        + Copy
        + Send
        + Sync
        + 'static,
{
    let BoundMesh {
        servers,
        routes,
        shared,
    } = bound;
    if let Some(first) = servers.first() {
        look_up_names(rt, alloc, &first.planned.life, &routes, &shared, log)?;
    }
    tell_ready(rt, alloc, &servers, log)?;
    run_all(rt, alloc, servers, &shared, log)
}

/// Serves a mesh whose sockets are bound, and tells standard error of it.
fn serve_logged<R>(
    rt: &R,
    alloc: Global,
    orders: Orders<'_>,
    bound: BoundMesh,
) -> Result<(), ServeFault>
where
    R: Threads
        + Wait
        + Net<Listener = Listener, Stream = Stream>
        + RandomSource
        + Clock
        + Print
        + Eprint
        + Copy
        + Send
        + Sync
        + 'static,
{
    let log = EventLog::start(rt, alloc, orders.log_level)?;
    let ended = run_told(rt, alloc, bound, &log);
    log.end(rt);
    ended
}

/// Serves the servers of a plan, each in threads of its own. They take what operators say where a path is given, whose file is gone at the end.
fn serve_plan<R>(rt: &R, alloc: Global, plan: Plan, orders: Orders<'_>) -> Result<(), ServeFault>
where
    R: Threads
        + Wait
        + Net<Listener = Listener, Stream = Stream>
        + RandomSource
        + Files
        + Clock
        + Print
        + Eprint
        + Copy
        + Send
        + Sync
        + 'static,
{
    let mut bound = bound_mesh(rt, alloc, plan, orders)?;
    let Some(path) = orders.control else {
        return serve_logged(rt, alloc, orders, bound);
    };
    control_at(rt, alloc, &mut bound, path)?;
    let ended = serve_logged(rt, alloc, orders, bound);
    remove_control(rt, path);
    ended
}

/// Serves the mesh that the options tell of, each server in a thread of its own. When all sockets are bound, a
/// line for each server is on standard output. It ends where the options say so: never, or once so many
/// clients have come and all of them have gone; and once all servers have drained, which they are told at the path of the options, and by
/// [`ask_drain`](crate::ask_drain). Standard error tells what happens meanwhile, as far as the options let it.
///
/// An address that is not to be had is told, and of a server that cannot go on its name and the
/// cause; the others stop then too. Required: options as [`Options::new`] gives them. May wait, and for ever.
pub fn serve<R>(rt: &R, alloc: Global, options: &Options<'_>) -> Result<(), ServeFault>
where
    R: Threads
        + Wait
        + Net<Listener = Listener, Stream = Stream>
        + RandomSource
        + Files
        + Clock
        + Print
        + Eprint
        + Copy
        + Send
        + Sync
        + 'static,
    requires { AreWithin options.now }
{
    let plan = plan_of(alloc, options)?;
    serve_plan(rt, alloc, plan, Orders::of(options))
}

/// The mesh that the file at this path describes.
fn read_mesh<R: Files + Alloc<A = Global>>(rt: &R, path: &str) -> Result<MeshFile, NodeFault> {
    match fs::read_to_string(rt, path) {
        Ok(text) => Ok(MeshFile::read(rt.alloc(), &text)?),
        Err(error) => Err(NodeFault::Unread(error)),
    }
}

/// Tells on standard output what the file at this path means. The error says why it describes no mesh, or that
/// standard output failed.
pub fn check_mesh<R: Files + Print + Alloc<A = Global>>(
    rt: &R,
    path: &str,
) -> Result<(), NodeFault> {
    let mesh = read_mesh(rt, path)?;
    match print!(rt; "{mesh}") {
        Ok(()) => Ok(()),
        Err(error) => Err(NodeFault::Served(ServeFault::Failed(error))),
    }
}

/// The bytes of the file at this path, which nobody but its owner may have, as far as a secret may have them.
fn secret_bytes<R: Files<File = File>>(
    rt: &R,
    alloc: Global,
    path: &str,
) -> Result<Vec<u8>, SecretFileFault> {
    let file = File::open(rt, path)?;
    if file.metadata()?.mode() & SHARED != 0 {
        return Err(SecretFileFault::Shared);
    }
    let mut bytes = Vec::new(alloc);
    file.take(MOST_READ).read_to_end(&mut bytes)?;
    Ok(bytes)
}

/// The secret of the mesh, where it has one.
fn secret_of<R: Files<File = File>>(
    rt: &R,
    alloc: Global,
    mesh: &MeshFile,
) -> Result<Option<Secret>, SecretFileFault> {
    let Some(path) = mesh.secret_file() else {
        return Ok(None);
    };
    let bytes = secret_bytes(rt, alloc, path)?;
    match Secret::read(&bytes) {
        Ok(secret) => Ok(Some(secret)),
        Err(fault) => Err(SecretFileFault::Bad(fault)),
    }
}

/// Tells at the start in which incarnation the server is, and, where the mesh has no secret, that nothing but their addresses tells its peers from
/// others.
fn tell_life<R: Print + Eprint>(
    rt: &R,
    name: NodeId,
    inc: Incarnation,
    has_secret: bool,
) -> Result<(), ServeFault> {
    println!(rt; "{} incarnation {}", name.text(), inc.get())?;
    if has_secret {
        return Ok(());
    }
    eprintln!(rt;
        "nats_mesh: whoever connects to the routes from a host of the mesh is taken for one of its servers"
    )?;
    Ok(())
}

/// The server of the mesh that the options tell of, in its next incarnation, and the folder that holds that.
fn next_life<'a, R: Net + Files<File = File> + Print + Eprint + Alloc<A = Global>>(
    rt: &'a R,
    alloc: Global,
    options: &NodeOptions<'_>,
    mesh: &MeshFile,
) -> Result<(Plan, FileDisk<'a, R>), NodeFault> {
    let Some(place) = mesh.place_of(options.name) else {
        return Err(NodeFault::NotInMesh(options.name));
    };
    let shards = mesh.shards();
    if options.loops > shards {
        return Err(NodeFault::TooManyLoops { shards });
    }
    let secret = secret_of(rt, alloc, mesh)?;
    let mut disk = FileDisk::open(rt, options.state)?;
    let inc = raise(alloc, &mut disk, options.name, options.least_inc)?;
    tell_life(rt, options.name, inc, secret.is_some())?;
    let plan = plan_at(rt, alloc, mesh, place, inc, secret)?;
    Ok((plan, disk))
}

/// Serves one server of the mesh that the options' file describes, and takes part in the mesh as soon as the others are reached.
///
/// The file is read first, then that of the secret where there is one, and the server's incarnation is raised in its folder before any socket opens;
/// the folder is this process's until the end. Then standard output tells the incarnation, and where clients and other servers connect. It ends once
/// the server has drained, which it is told at the path of the options, by [`ask_drain`](crate::ask_drain). The error is the first cause, in the
/// order of [`NodeFault`]. May wait, and for ever.
pub fn serve_node<R>(rt: &R, alloc: Global, options: &NodeOptions<'_>) -> Result<(), NodeFault>
where
    R: Threads
        + Wait
        + Net<Listener = Listener, Stream = Stream>
        + RandomSource
        + Files<File = File>
        + Clock
        + Print
        + Eprint
        + Alloc<A = Global>
        + Copy
        + Send
        + Sync
        + 'static,
{
    let mesh = read_mesh(rt, options.mesh)?;
    let (plan, _disk) = next_life(rt, alloc, options, &mesh)?;
    match serve_plan(rt, alloc, plan, Orders::of_node(options)) {
        Ok(()) => Ok(()),
        Err(fault) => Err(NodeFault::Served(fault)),
    }
}
