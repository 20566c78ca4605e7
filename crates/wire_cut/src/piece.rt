//! What a cutter gives.

/// A piece of a stream, without the CR LF behind it. It borrows from the cutter that gave it.
#[derive(Clone, Copy, PartialEq, Eq)]
pub enum Piece<'a> {
    /// A control line.
    Line(&'a [u8]),
    /// A payload, of the size that the line before it announced.
    Payload(&'a [u8]),
}
