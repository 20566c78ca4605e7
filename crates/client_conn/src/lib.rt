//! What one client's connection asks of its server: bytes go in, asks come out, and their answers go in.
//!
//! ```text
//! conn.feed(b"SUB orders.* 1\r\n")?;
//! if let Some(ask) = conn.next()? {
//!     let answer = serve(ask);
//!     conn.answer(answer);
//! }
//! ```
//!
//! The asks are a function of the bytes and of the answers, however the bytes were cut
//! (`asks_follow_bytes_and_answers`).
//!
//! Read first: [`ClientAction`], [`Conn`], [`Refusal`]. The files in reading order: `ask` is what is asked;
//! `open_asks` keeps the asks that wait for their answers; `conn` reads the items of a stream, asks for what they
//! want, and is the connection; `faults` has why it reads no bytes.
#![tactic(auto)]

mod ask;
mod conn;
mod faults;
mod laws;
mod open_asks;

pub use ask::{ClientAction, Refusal};
pub use conn::Conn;
pub use faults::ReadFault;
pub use laws::asks_follow_bytes_and_answers;
