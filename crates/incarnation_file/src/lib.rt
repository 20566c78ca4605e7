//! Keeps the incarnation of a server in a file, so that no two lives of the server have the same incarnation.
//!
//! ```text
//! let mut disk = FileDisk::open(rt, "/var/lib/nats_mesh/n1")?;
//! let incarnation = raise(alloc, &mut disk, server, None)?;
//! // `disk` has the lock of the folder: keep it as long as the server runs.
//! ```
//!
//! Read first: [`Disk`], [`raise`], [`FileDisk`]. The files in reading order: `Disk` (in `disk`) is what a disk
//! does, and what the next start may find of it, and `MemoryDisk` a disk that fails as it is told; `FileDisk`
//! (`file_disk`) is a folder of the system. `raise` (`raising`) takes the next number, from the line of the file,
//! and `all_lives` is the law of many starts. The faults stand where they are told, in words for an operator: their
//! texts name the files of the folder, and whoever tells them names the folder, which they do not know.
#![tactic(auto)]

mod disk;
mod file_disk;
mod raising;

pub use disk::{Crashes, Disk, Failing, MemoryDisk, OpenFault, Step, StepFault};
pub use file_disk::FileDisk;
pub use raising::{End, Life, RaiseFault, all_lives, raise};
