//! Serves one client over a reader and a writer, as `nats_mesh pipe` does over standard input and output; the
//! output is a function of the input bytes alone.
//!
//! ```text
//! let mut source = Raw::new(rt.reader());
//! let mut sink = Raw::new(io::writer(rt));
//! let end = pipe_run::<PlainRace, _, _>(rt.alloc(), &mut source, &mut sink)?;
//! ```
//!
//! Read first: [`pipe_run`], [`PipeEnd`], [`PipeFault`]. The files in reading order: `pipe` is the loop and what
//! its contract says of all bytes that were written, and how a program ends then; `pipe_server` makes the server's
//! calls, and answers each thing that the connection asks.
#![tactic(auto)]

mod faults;
mod pipe;
mod pipe_server;

pub use faults::PipeFault;
pub use pipe::{PipeEnd, pipe_complaint, pipe_run, pipe_status};
