//! Why a text is no file of a mesh.

ghost use Rattle.std.specs.Prelude.{◌≡◌};
ghost use Rattle.std.specs.Fmt.Cut.{IsTextOrCut};
ghost use Rattle.mesh_file.specs.Entries.{key_name};

use arrayvec::ArrayString;
use std::error::Error;
use std::fmt;
use std::fmt::{Debug, Display, Formatter, InlineText, Write};
use subj::{MAX_NODE_NAME, MAX_NODES, MAX_SHARDS};

/// The most bytes of an unknown key that are told.
pub const MAX_KEY_TEXT: usize = 64;

/// An unknown key, cut to [`MAX_KEY_TEXT`] bytes: one that is longer ends in dots.
pub type KeyText = ArrayString<MAX_KEY_TEXT>;

/// The key as it is told.
pub(crate) fn key_text(key: &str) -> KeyText
    ensures { IsTextOrCut MAX_KEY_TEXT key.now result.bytes }
{
    let shown = InlineText::<MAX_KEY_TEXT>::of(key);
    match KeyText::from(shown.as_str()) {
        Ok(text) => text,
        Err(_) => KeyText::new(),
    }
}

/// A key of a server, in the order in which they are read.
#[derive(Clone, Copy)]
pub enum ServerKey {
    Name,
    Clients,
    Routes,
    Advertise,
}

impl ServerKey {
    /// How it is spelt.
    pub fn text(self) -> &'static str
        ensures { result.now ≡ key_name self }
    {
        match self {
            ServerKey::Name => "name",
            ServerKey::Clients => "clients",
            ServerKey::Routes => "routes",
            ServerKey::Advertise => "advertise",
        }
    }
}

/// What its value has to be.
#[derive(Clone, Copy)]
struct Wanted(ServerKey);

impl Display for Wanted {
    fn fmt<W: Write>(&self, f: &mut Formatter<W>) -> fmt::Result {
        match self.0 {
            ServerKey::Name => {
                write!(
                    f,
                    "1 to {MAX_NODE_NAME} letters, digits, - and _ are wanted"
                )
            }
            ServerKey::Clients => f.write_str(
                "an IP address and a port from 1 to 65535 are wanted, \
                 as \"0.0.0.0:4222\" or \"[::]:4222\"",
            ),
            ServerKey::Routes => f.write_str(
                "a host and a port from 1 to 65535 are wanted, \
                 as \"10.0.0.1:6222\" or \"n1.example:6222\"",
            ),
            ServerKey::Advertise => f.write_str(
                "a host's name or an IP address is wanted, as \"nats-1.example\"",
            ),
        }
    }
}

/// What is wrong with the value of a key.
#[derive(Clone, Copy)]
pub enum ValueFault {
    /// The key has to be there, and is not.
    Missing,
    /// The value is no string.
    NotText,
    /// The string is not of the form that the key wants.
    BadForm,
}

impl ValueFault {
    fn text(self) -> &'static str {
        match self {
            ValueFault::Missing => "missing",
            ValueFault::NotText => "not a string",
            ValueFault::BadForm => "not of this form",
        }
    }
}

/// What two servers may not share, in the order in which it is looked for.
#[derive(Clone, Copy)]
pub enum Shared {
    /// The name, byte for byte.
    Name,
    /// The host of routes, whatever the case of a name's letters, and the port.
    Routes,
    /// The address and the port of clients, where the address is neither a wildcard nor a loopback one.
    Clients,
}

impl Shared {
    fn key(self) -> ServerKey {
        match self {
            Shared::Name => ServerKey::Name,
            Shared::Routes => ServerKey::Routes,
            Shared::Clients => ServerKey::Clients,
        }
    }
}

/// Two servers that share what they may not, by their places in the file, counted from 1.
#[derive(Clone, Copy)]
pub struct Pair {
    pub shared: Shared,
    pub first: usize,
    pub second: usize,
}

impl Display for Pair {
    fn fmt<W: Write>(&self, f: &mut Formatter<W>) -> fmt::Result {
        write!(
            f,
            "server[{}].{}: the same as of server[{}]; each server wants its own",
            self.second,
            self.shared.key().text(),
            self.first
        )
    }
}

/// What is wrong with one server. (Profile.)
#[derive(Clone, Copy)]
pub enum ServerFault {
    /// The entry is no table.
    NotTable,
    /// The value of a key is not what the key wants.
    Value(ServerKey, ValueFault),
    /// The address of routes is a wildcard, to which nobody can connect.
    WildcardRoutes,
    /// There is a key that no server has. Of several, that which is least in the order of bytes.
    UnknownKey(KeyText),
    /// Clients and routes have one port, at addresses that may be the same.
    OnePort,
}

/// Tells of a key that a table, which is named before it, does not have; of those that it has, the names.
fn tell_unknown<W: Write>(
    f: &mut Formatter<W>,
    table: &str,
    key: &KeyText,
    known: &str,
) -> fmt::Result {
    write!(f, "{table}unknown key {key:?}; {known} are wanted")
}

impl Display for ServerFault {
    fn fmt<W: Write>(&self, f: &mut Formatter<W>) -> fmt::Result {
        match self {
            ServerFault::NotTable => f.write_str(
                ": not a table; each server is wanted as [[server]]",
            ),
            ServerFault::Value(key, fault) => {
                write!(f, ".{}: {}; {}", key.text(), fault.text(), Wanted(*key))
            }
            ServerFault::WildcardRoutes => f.write_str(
                ".routes: a wildcard address; \
                 the one is wanted at which other servers reach this one",
            ),
            ServerFault::UnknownKey(key) => {
                tell_unknown(f, ": ", key, "name, clients, routes and advertise")
            }
            ServerFault::OnePort => f.write_str(
                ".routes: the port of clients, at an address that may be the same; \
                 another port is wanted",
            ),
        }
    }
}

/// Why a text is no file of a mesh. (Profile.)
///
/// The first fault is told, in the order in which they stand here: syntax; then the keys of `mesh`; an unknown key beside `mesh` and
/// `server`; the number of servers; then each server in the order of the file, by its keys in the order of [`ServerKey`], an unknown key,
/// and its ports; and last what two servers share, in the order of [`Shared`].
#[derive(Clone, Copy)]
pub enum MeshFault {
    /// The text is no TOML. The line is counted from 1.
    Syntax { line: usize, cause: toml::de::Error },
    /// `mesh` is no table.
    MeshNotTable,
    /// `mesh.shards` is not a whole number from 1 to [`MAX_SHARDS`].
    Shards,
    /// `mesh.secret_file` is not a string of one byte or more.
    SecretFile,
    /// `mesh` has a key that is not known. Of several, that which is least in the order of bytes.
    UnknownMeshKey(KeyText),
    /// The file has a key beside `mesh` and `server`. Of several, that which is least in the order of bytes.
    UnknownKey(KeyText),
    /// `server` is no array.
    ServersNotArray,
    /// There is no server, or more than [`MAX_NODES`].
    ServerCount(usize),
    /// A server, counted from 1 in the order of the file, is at fault by itself.
    Server { number: usize, fault: ServerFault },
    /// Two servers share what they may not. Of several such pairs that whose first server is the first in the file, and of these that
    /// whose second one is.
    Pair(Pair),
}

impl Display for MeshFault {
    fn fmt<W: Write>(&self, f: &mut Formatter<W>) -> fmt::Result {
        match self {
            MeshFault::Syntax { line, cause } => write!(f, "line {line}: {}", cause.message()),
            MeshFault::MeshNotTable => f.write_str("mesh: not a table; it is wanted as [mesh]"),
            MeshFault::Shards => {
                write!(
                    f,
                    "mesh.shards: a whole number from 1 to {MAX_SHARDS} is wanted"
                )
            }
            MeshFault::SecretFile => f.write_str(
                "mesh.secret_file: the path of a file is wanted, a string of one byte or more",
            ),
            MeshFault::UnknownMeshKey(key) => {
                tell_unknown(f, "mesh: ", key, "shards and secret_file")
            }
            MeshFault::UnknownKey(key) => tell_unknown(f, "", key, "mesh and server"),
            MeshFault::ServersNotArray => f.write_str(
                "server: not an array; each server is wanted as [[server]]",
            ),
            MeshFault::ServerCount(count) => {
                write!(f, "server: there are {count}; 1 to {MAX_NODES} are wanted")
            }
            MeshFault::Server { number, fault } => write!(f, "server[{number}]{fault}"),
            MeshFault::Pair(pair) => Display::fmt(pair, f),
        }
    }
}

/// As it is told.
impl Debug for MeshFault {
    fn fmt<W: Write>(&self, f: &mut Formatter<W>) -> fmt::Result {
        Display::fmt(self, f)
    }
}

impl Error for MeshFault {}
