//! Why a connection reads no bytes.

use thiserror::Error;

/// Why no bytes were read. The connection is as it was.
#[derive(Clone, Copy, Debug, PartialEq, Eq, Error)]
pub enum ReadFault {
    /// The connection reads nothing any more. The source was not asked.
    #[error("the connection reads nothing any more")]
    Closed,
    /// The source's read failed.
    #[error("reading failed")]
    Failed,
    /// There was no memory for the bytes. The source was not asked.
    #[error("out of memory")]
    OutOfMemory,
}
