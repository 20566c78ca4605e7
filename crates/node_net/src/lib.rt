//! The connections of one server and its event loop: it reads sockets, makes the calls that clients and routes ask
//! for, and writes what waits.
//!
//! ```text
//! let mut server: Server<MemStream, _> = Server::new(alloc, &node, life, host, 4222, 0)?;
//! let mut stream = MemStream::new(alloc);
//! stream.feed(b"PING\r\n")?;
//! let key = server.add(rt, stream, Side::Client)?;
//! server.turn(rt, &[key]);
//! ```
//!
//! The server is whatever makes the calls of `server_calls`.
//!
//! Read first: [`Server`], [`Sockets`], [`PeerAddresses`]. The files in reading order: `client_link` and
//! `route_link` make calls of what was read, and tell what they have come to (`runs`); a `handshake` is what a
//! route begins with where the mesh has a secret, and `proving` is what the server does of it; `connection` has one
//! of them with its stream (`read_size`: how much is read of it at once); `laws` says that what is sent to it keeps
//! its order, that the turns of a client are runs of its life, and that a route reads all that came; `connections`
//! has all of them, and what is noted of each until it is done; `server` takes them and lets them go, and finds
//! those of clients (`clients`) and of other servers (`peers`); `turning` and `flushing` are a turn of its loop, by
//! what was `taken` for clients, in `parts`, `draining` is what a server that drains does, and `running` is the
//! loop, which reaches other servers at their `addresses`, and is told by operators over a `control` socket. All
//! that these ask of the server's shards and of its hub they ask by `holds`, which alone takes the locks.
//! `shutdown` says when the loop ends, and which server drains, the `limits` when and how much of everything, and
//! `faults` why no stream is taken.
#![tactic(auto)]

mod addresses;
mod arrivals;
mod client_link;
mod clients;
mod connection;
mod connections;
mod control;
mod draining;
mod faults;
mod flushing;
mod handshake;
mod holds;
mod laws;
mod limits;
mod loops;
mod parts;
mod peers;
mod placing;
mod proving;
mod read_size;
mod route_link;
mod running;
mod runs;
mod server;
mod shutdown;
mod taken;
mod turning;

pub use addresses::PeerAddresses;
pub use control::{Control, DRAIN, DRAINS, NO_SERVER};
pub use faults::AddFault;
pub use laws::{routes_read_what_came, sent_bytes_keep_their_order, turns_are_served};
pub use loops::{LoopWord, Loops};
pub use net_streams::{MemStream, Stream, StreamFault};
pub use running::{Sockets, WAKER};
pub use server::{Server, Side, shard_of_client};
pub use shutdown::{ServerControl, Shutdown};
