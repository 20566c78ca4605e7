//! The bytes of a connection: it reads and writes a socket, or a stand-in in memory, and keeps in order what the
//! stream has not taken yet.
//!
//! ```text
//! let mut wire = Wire::new(MemStream::new(alloc).with_room(4));
//! let mut outgoing = Outgoing::new(alloc);
//! outgoing.append(b"PONG\r\n")?;
//! outgoing.write_to(&mut wire);
//! assert_eq!(rt; wire.stream().written(), b"PONG".as_slice());
//! ```
//!
//! Over any stream, whatever it takes at a time: what it took is the beginning of what it should be given, in
//! order, nothing twice and nothing left out, and the bytes behind that still wait (`Outgoing::write_to`, and for
//! all runs of writes together `bytes_keep_their_order`). Behind a fault no write is made.
//!
//! Read first: [`Stream`], [`Wire`], [`Outgoing`]. The files in reading order: `stream` is what a connection needs,
//! `sockets` and `mem_stream` have it, and a socket may end in `silence`; `wire` reads and writes one and notes its
//! end; `outgoing` keeps what it did not take; `laws` speak of all runs of writes together.
#![tactic(auto)]

mod laws;
mod mem_stream;
mod outgoing;
mod silence;
mod sockets;
mod stream;
mod wire;

pub use laws::{bytes_keep_their_order, memory_holds_what_it_took};
pub use mem_stream::MemStream;
pub use outgoing::Outgoing;
pub use silence::end_unanswered;
pub use stream::{Stream, StreamFault};
pub use wire::Wire;
