//! What the file says.

ghost use Rattle.std.specs.Prelude.{◌≡◌, IfOk, MatchResult, option_map, string_bytes};
ghost use Rattle.std.specs.Option.{option_copied};
ghost use Rattle.std.specs.List.{position};
ghost use Rattle.std.specs.Str.{bytes_eq};
ghost use Rattle.toml.specs.View.{table_view};

use crate::faults::MeshFault;
use crate::servers::MeshServer;
use crate::tables::{entries_of, keys_of, ordered_servers, table_of};
use std::alloc::{AllocError, Global};
use std::fmt;
use std::fmt::{Display, Formatter, Write};
use std::marker::Model;
use subj::{Failure, NodeId};
use toml::Table;

/// A mesh of servers, as one file describes it for all of them: how many shards each has, where the secret of their routes is kept, and
/// the servers.
///
/// Seen as these. There are 1 to [`subj::MAX_SHARDS`] shards and 1 to [`subj::MAX_NODES`] servers, in strictly rising order of the bytes
/// of their names. (Profile.)
pub struct MeshFile {
    shards: u64,
    secret_file: Option<String>,
    servers: Vec<MeshServer>,
}

/// One call, also for crates above: `docs/PROVING.md`, "What a proof costs".
impl Drop for MeshFile {
    fn drop(self) {
        let MeshFile {
            shards: _,
            secret_file: _,
            servers: _,
        } = self;
    }
}

impl Model for MeshFile {
    ghost use Rattle.std.specs.Prelude.{option_map, string_bytes};
    ghost use Rattle.mesh_file.specs.Mesh.{Mesh, IsMesh};

    ghost Value = { Mesh };

    ghost view = { λ mesh. record {
      shards = mesh.shards;
      secret_file = option_map string_bytes mesh.secret_file;
      servers = mesh.servers.items;
    } };

    ghost invariant = { λ mesh.
        IsMesh (record {
          shards = mesh.shards;
          secret_file = option_map string_bytes mesh.secret_file;
          servers = mesh.servers.items;
        }) };
}

/// A copy of a text, where there is one.
fn copy_of(alloc: Global, text: Option<&str>) -> Result<Option<String>, AllocError>
    ensures { IfOk result (λ copy. option_map string_bytes copy ≡ option_copied text.entry) }
{
    match text {
        None => Ok(None),
        Some(text) => Ok(Some(String::from_str(alloc, text)?)),
    }
}

impl MeshFile {
    ghost use Rattle.mesh_file.specs.Mesh.{IsMesh, IsMeshFile, IsNoMeshFile, IsMeshOf, IsFileFault, IsFailure};

    /// The mesh that the file of this text describes.
    ///
    /// Refused by the first fault, in the order that [`MeshFault`] tells; that the line of a syntax fault is the right one is only tested.
    /// Want of memory is told where the text cannot be read for it, or what was read before the first fault cannot be kept.
    pub fn read(alloc: Global, text: &str) -> Result<MeshFile, Failure<MeshFault>>
        ensures { MatchResult result (IsMeshFile text.now) (IsFailure (IsNoMeshFile text.now)) }
    {
        let file = table_of(alloc, text)?;
        MeshFile::of_table(alloc, &file)
    }

    /// The mesh that a table describes.
    fn of_table(alloc: Global, file: &Table) -> Result<MeshFile, Failure<MeshFault>>
        ensures { MatchResult result (IsMeshOf (table_view file.now))
            (IsFailure (IsFileFault (table_view file.now))) }
    {
        let keys = match keys_of(file) {
            Ok(keys) => keys,
            Err(fault) => return Err(Failure::Refused(fault)),
        };
        let entries = match entries_of(file) {
            Ok(entries) => entries,
            Err(fault) => return Err(Failure::Refused(fault)),
        };
        let servers = ordered_servers(alloc, entries)?;
        let secret_file = copy_of(alloc, keys.secret_file)?;
        Ok(MeshFile {
            shards: keys.shards,
            secret_file,
            servers,
        })
    }

    /// How many shards each server has, 1 to [`subj::MAX_SHARDS`].
    pub fn shards(&self) -> u64
        ensures same { result ≡ self.now.shards }
        ensures valid { IsMesh self.now }
    {
        self.shards
    }

    /// The path of the file that has the secret of the routes, where there is one: a path of one byte or more.
    pub fn secret_file(&self) -> Option<&str>
        ensures { option_copied result ≡ self.now.secret_file }
    {
        match &self.secret_file {
            None => None,
            Some(path) => Some(path.as_str()),
        }
    }

    /// The servers, 1 to [`subj::MAX_NODES`], in strictly rising order of the bytes of their names. A server's place in this order is its
    /// place in the cluster's list of names: so a server that reads a file with one server more agrees with the others on who has which
    /// name and address, and on all that follows from the order.
    pub fn servers(&self) -> &[MeshServer]
        ensures same { result.now ≡ self.now.servers }
        ensures valid { IsMesh self.now }
    {
        &self.servers
    }

    /// The place of the server of this name among [`MeshFile::servers`], counted from 0. None just where none has it.
    pub fn place_of(&self, name: NodeId) -> Option<usize>
        ensures { result ≡ position (λ server. bytes_eq server.name name) self.now.servers }
    {
        self.servers
            .iter()
            .position(|server| server.name.bytes() == name.bytes())
    }
}

/// So many of a thing.
#[derive(Clone, Copy)]
struct Counted<'a>(u64, &'a str);

impl Display for Counted<'_> {
    fn fmt<W: Write>(&self, f: &mut Formatter<W>) -> fmt::Result {
        let Counted(count, thing) = *self;
        let ending = if count == 1 { "" } else { "s" };
        write!(f, "{count} {thing}{ending}")
    }
}

/// Where the secret of the routes is kept, where there is one.
#[derive(Clone, Copy)]
struct Secret<'a>(Option<&'a str>);

impl Display for Secret<'_> {
    fn fmt<W: Write>(&self, f: &mut Formatter<W>) -> fmt::Result {
        match self.0 {
            None => f.write_str("no secret: peers are known by their addresses alone"),
            Some(path) => write!(f, "secret in {path}"),
        }
    }
}

/// What `check` tells: a line for the mesh, and one for each server in order, each with its end.
impl Display for MeshFile {
    fn fmt<W: Write>(&self, f: &mut Formatter<W>) -> fmt::Result {
        let servers = Counted(self.servers.len() as u64, "server");
        let shards = Counted(self.shards, "shard");
        let secret = Secret(self.secret_file());
        writeln!(f, "mesh {servers}, {shards}, {secret}")?;
        for server in &self.servers {
            writeln!(f, "{server}")?;
        }
        Ok(())
    }
}
