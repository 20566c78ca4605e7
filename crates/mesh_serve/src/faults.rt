//! Why a mesh is not served, and why none drains.

use event_log::StartFault;
use incarnation_file::{OpenFault, RaiseFault};
use mesh_file::MeshFault;
use peer_proof::SecretFault;
use std::alloc::{AllocError, AllocFailed};
use std::fmt::{Display, Formatter, Write};
use std::net::SocketAddr;
use std::{fmt, io};
use subj::{Failure, NodeId};

/// Why a mesh is not served any more.
#[derive(Drop)]
pub enum ServeFault {
    /// The address is not to be had.
    Address {
        address: SocketAddr,
        error: io::Error,
    },
    /// The socket where the servers are told to drain is not to be had.
    Control(io::Error),
    /// A socket, or standard output, failed before the servers ran.
    Failed(io::Error),
    /// The servers would be no cluster.
    NoCluster,
    /// No thread was to be had for what standard error is told.
    NoLog,
    /// No thread was to be had for looking up the name of a host.
    NoNames,
    /// No thread was to be had for the server of this name.
    NoThread {
        server: NodeId,
    },
    /// The server of this name could not go on: a socket, the clock or its memory failed.
    Stopped {
        server: NodeId,
        error: io::Error,
    },
    /// There was no memory.
    OutOfMemory,
}

impl Display for ServeFault {
    fn fmt<W: Write>(&self, f: &mut Formatter<W>) -> fmt::Result {
        match self {
            ServeFault::Address { address, error } => {
                write!(f, "{address} is not to be had: {error}")
            }
            ServeFault::Control(error) => {
                write!(f, "the socket of --control is not to be had: {error}")
            }
            ServeFault::Failed(error) => Display::fmt(error, f),
            ServeFault::NoCluster => f.write_str("the servers are no cluster"),
            ServeFault::NoLog => f.write_str("no thread for what standard error is told"),
            ServeFault::NoNames => f.write_str("no thread for looking up the name of a host"),
            ServeFault::NoThread { server } => {
                write!(f, "{} cannot run: no thread for it", server.text())
            }
            ServeFault::Stopped { server, error } => {
                write!(f, "{} cannot go on: {error}", server.text())
            }
            ServeFault::OutOfMemory => f.write_str("out of memory"),
        }
    }
}

impl From<AllocError> for ServeFault {
    fn from(_: AllocError) -> ServeFault {
        ServeFault::OutOfMemory
    }
}

impl<T: Drop> From<AllocFailed<T>> for ServeFault {
    fn from(_: AllocFailed<T>) -> ServeFault {
        ServeFault::OutOfMemory
    }
}

impl From<StartFault> for ServeFault {
    fn from(fault: StartFault) -> ServeFault {
        match fault {
            StartFault::NoThread => ServeFault::NoLog,
            StartFault::OutOfMemory => ServeFault::OutOfMemory,
        }
    }
}

impl From<io::Error> for ServeFault {
    fn from(error: io::Error) -> ServeFault {
        ServeFault::Failed(error)
    }
}

/// Why a file has no secret that is taken. The causes stand in the order in which they are found.
#[derive(Drop)]
pub enum SecretFileFault {
    /// It cannot be read.
    Unread(io::Error),
    /// Its mode lets others than its owner have it.
    Shared,
    /// It has too few bytes, or too many.
    Bad(SecretFault),
}

impl Display for SecretFileFault {
    fn fmt<W: Write>(&self, f: &mut Formatter<W>) -> fmt::Result {
        match self {
            SecretFileFault::Unread(error) => write!(f, "it cannot be read: {error}"),
            SecretFileFault::Shared => {
                f.write_str("its mode lets others than its owner have it: 0600 is wanted")
            }
            SecretFileFault::Bad(fault) => Display::fmt(fault, f),
        }
    }
}

impl From<io::Error> for SecretFileFault {
    fn from(error: io::Error) -> SecretFileFault {
        SecretFileFault::Unread(error)
    }
}

/// Why one server of a mesh is not served. The causes stand in the order in which they are found.
#[derive(Drop)]
pub enum NodeFault {
    /// The file of the mesh cannot be read.
    Unread(io::Error),
    /// The file describes no mesh.
    NoMesh(MeshFault),
    /// The file has no server of this name.
    NotInMesh(NodeId),
    /// The server would have more loops than shards, of which the file gives it so many.
    TooManyLoops { shards: u64 },
    /// The file of the mesh names one that has no secret that is taken.
    Secret(SecretFileFault),
    /// The folder of the server's incarnation is not to be had.
    Folder(OpenFault),
    /// The server gets no incarnation.
    NoIncarnation(RaiseFault),
    /// The host of this server's routes has no address.
    Unresolved { server: NodeId, error: io::Error },
    /// The server is not served any more, or there was no memory.
    Served(ServeFault),
}

impl NodeFault {
    /// Whether the command line or the file of the mesh is to be mended: a further start would end the same way.
    pub fn is_given(&self) -> bool {
        matches!(
            self,
            NodeFault::Unread(_)
                | NodeFault::NoMesh(_)
                | NodeFault::NotInMesh(_)
                | NodeFault::TooManyLoops { .. }
                | NodeFault::Secret(_)
        )
    }
}

impl Display for NodeFault {
    fn fmt<W: Write>(&self, f: &mut Formatter<W>) -> fmt::Result {
        match self {
            NodeFault::Unread(error) => write!(f, "the file of the mesh cannot be read: {error}"),
            NodeFault::NoMesh(fault) => write!(f, "the file of the mesh: {fault}"),
            NodeFault::NotInMesh(name) => {
                write!(f, "the file of the mesh has no server {}", name.text())
            }
            NodeFault::TooManyLoops { shards } => {
                write!(
                    f,
                    "--loops is above the shards of the mesh, {shards}: each loop has a shard of its own"
                )
            }
            NodeFault::Secret(fault) => write!(f, "the secret_file of the mesh: {fault}"),
            NodeFault::Folder(fault) => Display::fmt(fault, f),
            NodeFault::NoIncarnation(fault) => Display::fmt(fault, f),
            NodeFault::Unresolved { server, error } => {
                write!(
                    f,
                    "the routes of {} have no address: {error}",
                    server.text()
                )
            }
            NodeFault::Served(fault) => Display::fmt(fault, f),
        }
    }
}

impl From<Failure<MeshFault>> for NodeFault {
    fn from(fault: Failure<MeshFault>) -> NodeFault {
        match fault {
            Failure::Refused(fault) => NodeFault::NoMesh(fault),
            Failure::OutOfMemory => NodeFault::Served(ServeFault::OutOfMemory),
        }
    }
}

impl From<SecretFileFault> for NodeFault {
    fn from(fault: SecretFileFault) -> NodeFault {
        NodeFault::Secret(fault)
    }
}

impl From<OpenFault> for NodeFault {
    fn from(fault: OpenFault) -> NodeFault {
        NodeFault::Folder(fault)
    }
}

impl From<RaiseFault> for NodeFault {
    fn from(fault: RaiseFault) -> NodeFault {
        NodeFault::NoIncarnation(fault)
    }
}

impl From<ServeFault> for NodeFault {
    fn from(fault: ServeFault) -> NodeFault {
        NodeFault::Served(fault)
    }
}

/// Why no server drains that was told to.
#[derive(Drop)]
pub enum DrainFault {
    /// Nothing is at the path.
    NoSocket,
    /// A socket is left there, and the process that had it is gone.
    NobodyListens,
    /// The socket is not reached.
    NotReached(io::Error),
    /// None of the servers has the name.
    NoServer,
    /// There was no answer, or one that says nothing.
    NoAnswer,
}

impl Display for DrainFault {
    fn fmt<W: Write>(&self, f: &mut Formatter<W>) -> fmt::Result {
        match self {
            DrainFault::NoSocket => f.write_str("nothing is at the path: no mesh is served there"),
            DrainFault::NobodyListens => {
                f.write_str("nobody listens at the path: the process that did has ended")
            }
            DrainFault::NotReached(error) => write!(f, "the path cannot be reached: {error}"),
            DrainFault::NoServer => f.write_str("no server there has this name"),
            DrainFault::NoAnswer => f.write_str("the mesh there has not answered"),
        }
    }
}
