//! Reads the file that describes a mesh of servers on several machines.
//!
//! ```text
//! let mesh = MeshFile::read(alloc, text)?;
//! let place = mesh.place_of(NodeId::read(b"n2")?).ok_or("no such server")?;
//! let server = mesh.servers()[place];
//! listen(server.clients, server.routes.port)?;
//! print!(rt; "{mesh}")?;
//! ```
//!
//! Read first: [`MeshFile`], [`MeshServer`], [`MeshFault`]. The files in reading order: [`MeshFile`] (`mesh`) is
//! what a file says, [`MeshServer`] (`servers`) what it says of one server, and [`MeshFault`] (`faults`) why a text
//! is no such file. `tables` reads the tables of the file and the keys of each server, `addresses` the texts of
//! addresses and of hosts, and `servers` compares servers and puts them in order.
#![tactic(auto)]

mod addresses;
mod faults;
mod mesh;
mod servers;
mod tables;

pub use addresses::{MAX_LABEL, RouteAddress, RouteHost};
pub use faults::{
    KeyText, MAX_KEY_TEXT, MeshFault, Pair, ServerFault, ServerKey, Shared, ValueFault,
};
pub use mesh::MeshFile;
pub use servers::MeshServer;
pub use tables::DEFAULT_SHARDS;
