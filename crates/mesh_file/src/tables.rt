//! The tables of the file, which keys they may have, and the keys of a server.

ghost use Rattle.std.specs.Prelude.{◌≡◌, ◌<◌, ◌≤◌, ◌^◌, [], length, map, Ok, Err, All, IfOk, OnOk, MatchOption, MatchResult, None, option_map, Some, IfSome};
ghost use Rattle.std.specs.Option.{option_copied};
ghost use Rattle.toml.specs.View.{view, table_view};
ghost use Rattle.mesh_file.specs.Addresses.{is_wildcard_host as wildcard_host};
ghost use Rattle.mesh_file.specs.Entries.{text_of as string_of, needed_text as needed_string, IsName, IsNoName, IsClients, IsNoClients, IsRoutes, IsNoRoutes, IsAdvertise, IsNoAdvertise, IsRead, IsNotRead, IsServerOf, IsFirstFault, IsServerIn, IsNoServer};
ghost use Rattle.mesh_file.specs.Mesh.{AddsServer, AreServers, IsFailure, IsFirstEntryFault, shards_of as shards_said, secret_of as secret_said, AreKeys, IsKeyFault, IsHead, IsNoHead, AreEntries, IsEntriesFault, AreOrdered, IsServersFault, IsTextOf, IsNoTable};
ghost use Rattle.mesh_file.specs.Servers.{IsServer};
ghost use Rattle.toml.specs.Data.{get_member};
ghost use Rattle.mesh_file.specs.Keys.{keys_of, knows as knows_key, unknown_key as unknown_in, TellsUnknown};

use crate::addresses::{
    RouteAddress, RouteHost, advertised_host, is_wildcard, may_clash, route_address, socket_address,
};
use crate::faults::{KeyText, MeshFault, ServerFault, ServerKey, ValueFault, key_text};
use crate::servers::{MeshServer, first_shared, in_order};
use std::alloc::{AllocError, Global};
use std::net::SocketAddr;
use std::slice;
use subj::{Failure, HostText, MAX_NODES, MAX_SHARDS, NodeId};
use toml::{Table, Value};

/// The string of a key, where the key is there.
fn text_of<'a>(table: &'a Table, key: ServerKey) -> Result<Option<&'a str>, ServerFault>
    ensures { MatchResult result
        (λ text. string_of key (table_view table.now) ≡ Ok (option_copied text))
        (λ fault. string_of key (table_view table.now) ≡ Err fault) }
{
    let Some(value) = value_of(table, key.text()) else {
        return Ok(None);
    };
    match value.as_str() {
        Some(text) => Ok(Some(text)),
        None => Err(ServerFault::Value(key, ValueFault::NotText)),
    }
}

/// The string of a key that has to be there.
fn needed_text<'a>(table: &'a Table, key: ServerKey) -> Result<&'a str, ServerFault>
    ensures { MatchResult result
        (λ text. needed_string key (table_view table.now) ≡ Ok text.now)
        (λ fault. needed_string key (table_view table.now) ≡ Err fault) }
{
    match text_of(table, key)? {
        Some(text) => Ok(text),
        None => Err(ServerFault::Value(key, ValueFault::Missing)),
    }
}

fn name_in(table: &Table) -> Result<NodeId, ServerFault>
    ensures { MatchResult result (IsName (table_view table.now)) (IsNoName (table_view table.now)) }
{
    let text = needed_text(table, ServerKey::Name)?;
    match NodeId::read(text.as_bytes()) {
        Ok(name) => Ok(name),
        Err(_) => Err(ServerFault::Value(ServerKey::Name, ValueFault::BadForm)),
    }
}

fn clients_in(table: &Table) -> Result<SocketAddr, ServerFault>
    ensures { MatchResult result
        (IsClients (table_view table.now)) (IsNoClients (table_view table.now)) }
{
    let text = needed_text(table, ServerKey::Clients)?;
    match socket_address(text) {
        Some(clients) => Ok(clients),
        None => Err(ServerFault::Value(ServerKey::Clients, ValueFault::BadForm)),
    }
}

fn is_wildcard_host(host: &RouteHost) -> bool
    ensures { result ≡ wildcard_host host.now }
{
    match host {
        RouteHost::Ip(ip) => is_wildcard(*ip),
        RouteHost::Name(_) => false,
    }
}

fn routes_in(table: &Table) -> Result<RouteAddress, ServerFault>
    ensures read { MatchResult result
        (IsRoutes (table_view table.now)) (IsNoRoutes (table_view table.now)) }
    ensures port { IfOk result (λ routes. 1 ≤ routes.port) }
{
    let text = needed_text(table, ServerKey::Routes)?;
    let Some(routes) = route_address(text) else {
        return Err(ServerFault::Value(ServerKey::Routes, ValueFault::BadForm));
    };
    if is_wildcard_host(&routes.host) {
        return Err(ServerFault::WildcardRoutes);
    }
    Ok(routes)
}

fn advertise_in(table: &Table) -> Result<Option<HostText>, ServerFault>
    ensures { MatchResult result
        (IsAdvertise (table_view table.now)) (IsNoAdvertise (table_view table.now)) }
{
    let Some(text) = text_of(table, ServerKey::Advertise)? else {
        return Ok(None);
    };
    match advertised_host(text) {
        Some(host) => Ok(Some(host)),
        None => Err(ServerFault::Value(ServerKey::Advertise, ValueFault::BadForm)),
    }
}

/// The server whose keys a table has, whatever other keys there are.
fn described_in(table: &Table) -> Result<MeshServer, ServerFault>
    ensures read { MatchResult result
        (IsRead (table_view table.now)) (IsNotRead (table_view table.now)) }
    ensures port { IfOk result (λ server. 1 ≤ server.routes.port) }
{
    Ok(MeshServer {
        name: name_in(table)?,
        clients: clients_in(table)?,
        routes: routes_in(table)?,
        advertise: advertise_in(table)?,
    })
}

/// The server that a table describes.
fn server_in(table: &Table) -> Result<MeshServer, ServerFault>
    ensures read { MatchResult result
        (IsServerOf (table_view table.now)) (IsFirstFault (table_view table.now)) }
    ensures valid { IfOk result IsServer }
{
    let server = described_in(table)?;
    if let Some(key) = unknown_key(table, TableKind::Server) {
        return Err(ServerFault::UnknownKey(key));
    }
    if may_clash(server.clients, &server.routes) {
        return Err(ServerFault::OnePort);
    }
    Ok(server)
}

/// The server that an entry of `server` describes.
fn server_of(entry: &Value) -> Result<MeshServer, ServerFault>
    ensures read { MatchResult result (IsServerIn (view entry.now)) (IsNoServer (view entry.now)) }
    ensures valid { IfOk result IsServer }
{
    match entry.as_table() {
        Some(table) => server_in(table),
        None => Err(ServerFault::NotTable),
    }
}

/// Puts the server that an entry describes behind those that are there, or tells why the entry describes none.
fn add_server(
    servers: &mut Vec<MeshServer>,
    entry: &Value,
) -> Result<Option<ServerFault>, AllocError>
    ensures { IfOk result (λ refused. MatchOption refused
        (AddsServer (view entry.now) servers.old.items servers.new.items)
        (IsNoServer (view entry.now))) }
{
    match server_of(entry) {
        Ok(server) => {
            // no `push`: it would hand the server back where there is no memory, and nobody wants it
            servers.extend_from_slice(slice::from_ref(&server))?;
            Ok(None)
        }
        Err(fault) => Ok(Some(fault)),
    }
}

/// Reads the servers that the entries describe, in the order of the file. Required: there is none yet.
fn read_servers(entries: &[Value], servers: &mut Vec<MeshServer>) -> Result<(), Failure<MeshFault>>
    requires short { length entries.now < 2 ^ 63 }
    requires empty { servers.old.items ≡ [] }
    ensures read { MatchResult result (λ _. AreServers (map view entries.now) servers.new.items)
        (IsFailure (IsFirstEntryFault (map view entries.now))) }
    ensures valid { OnOk result (All IsServer servers.new.items) }
{
    for (at, entry) in entries.iter().enumerate() {
        let refused = add_server(servers, entry)?;
        if let Some(fault) = refused {
            return Err(Failure::Refused(MeshFault::Server {
                number: at + 1,
                fault,
            }));
        }
    }
    Ok(())
}

/// The servers that the entries describe, in the order of the file.
pub(crate) fn servers_of(
    alloc: Global,
    entries: &[Value],
) -> Result<Vec<MeshServer>, Failure<MeshFault>>
    requires { length entries.now < 2 ^ 63 }
    ensures read { MatchResult result (λ servers. AreServers (map view entries.now) servers.items)
        (IsFailure (IsFirstEntryFault (map view entries.now))) }
    ensures valid { IfOk result (λ servers. All IsServer servers.items) }
{
    let mut servers = Vec::new(alloc);
    read_servers(entries, &mut servers)?;
    Ok(servers)
}

/// The tables of a file: the file itself, `mesh`, and a server.
#[derive(Clone, Copy)]
pub(crate) enum TableKind {
    File,
    Mesh,
    Server,
}

impl TableKind {
    /// The keys that such a table may have.
    fn keys(self) -> &'static [&'static str]
        ensures { map (λ key. key.now) result.now ≡ keys_of self }
    {
        match self {
            TableKind::File => &["mesh", "server"],
            TableKind::Mesh => &["shards", "secret_file"],
            TableKind::Server => &["name", "clients", "routes", "advertise"],
        }
    }

    /// Whether such a table may have the key.
    fn knows(self, key: &str) -> bool
        ensures { result ≡ knows_key self key.now }
    {
        self.keys().contains(&key)
    }
}

/// The value of a key of a table.
pub(crate) fn value_of<'a>(table: &'a Table, key: &str) -> Option<&'a Value>
    ensures { option_map (λ value. view value.now) result
        ≡ get_member key.now (table_view table.now) }
{
    table.get(key)
}

/// The first key of a table that it may not have, in the order of bytes.
pub(crate) fn unknown_key(table: &Table, kind: TableKind) -> Option<KeyText>
    ensures { MatchOption result (unknown_in kind (table_view table.now) ≡ None)
        (λ told. TellsUnknown kind (table_view table.now) told.bytes) }
{
    for key in table.keys() {
        if !kind.knows(key.as_str()) {
            return Some(key_text(key.as_str()));
        }
    }
    None
}

/// How many shards a server has where the file does not say.
pub const DEFAULT_SHARDS: u64 = 2;

/// The line of a place in a text, counted from 1.
fn line_at(text: &str, place: usize) -> usize {
    let mut line = 1;
    for (at, byte) in text.as_bytes().iter().enumerate() {
        if at < place && *byte == b'\n' {
            line += 1;
        }
    }
    line
}

/// The table that a text is.
pub(crate) fn table_of(alloc: Global, text: &str) -> Result<Table, Failure<MeshFault>>
    ensures { MatchResult result (λ file. IsTextOf text.now (table_view file))
        (IsFailure (IsNoTable text.now)) }
{
    match toml::table_from_str(alloc, text) {
        Ok(table) => Ok(table),
        Err(cause) => match cause.span() {
            None => Err(Failure::OutOfMemory),
            Some(span) => Err(Failure::Refused(MeshFault::Syntax {
                line: line_at(text, span.start),
                cause,
            })),
        },
    }
}

/// What `mesh` says: how many shards each server has, and at which path the secret of the routes is.
#[derive(Clone, Copy)]
pub(crate) struct MeshKeys<'a> {
    pub(crate) shards: u64,
    pub(crate) secret_file: Option<&'a str>,
}

/// How many shards each server has. None just where the value is no whole number from 1 to [`MAX_SHARDS`].
fn shards_in(table: &Table) -> Option<u64>
    ensures same { result ≡ shards_said (table_view table.now) }
    ensures within { IfSome result (λ shards. (1 ≤ shards) × (shards ≤ MAX_SHARDS)) }
{
    let Some(value) = value_of(table, "shards") else {
        return Some(DEFAULT_SHARDS);
    };
    let shards = value.as_integer()?;
    if shards < 1 || shards > MAX_SHARDS as i64 {
        return None;
    }
    Some(shards as u64)
}

/// The path of the secret, where there is one. None just where the value is no string of one byte or more.
fn secret_file_in(table: &Table) -> Option<Option<&str>>
    ensures { MatchOption result (secret_said (table_view table.now) ≡ None)
        (λ path. secret_said (table_view table.now) ≡ Some (option_copied path)) }
{
    let Some(value) = value_of(table, "secret_file") else {
        return Some(None);
    };
    let path = value.as_str()?;
    if path.is_empty() {
        return None;
    }
    Some(Some(path))
}

/// What a table `mesh` says.
fn keys_in(table: &Table) -> Result<MeshKeys<'_>, MeshFault>
    ensures said { MatchResult result
        (λ keys. AreKeys (table_view table.now) keys.shards (option_copied keys.secret_file))
        (IsKeyFault (table_view table.now)) }
    ensures within { IfOk result (λ keys. (1 ≤ keys.shards) × (keys.shards ≤ MAX_SHARDS)) }
{
    let Some(shards) = shards_in(table) else {
        return Err(MeshFault::Shards);
    };
    let Some(secret_file) = secret_file_in(table) else {
        return Err(MeshFault::SecretFile);
    };
    if let Some(key) = unknown_key(table, TableKind::Mesh) {
        return Err(MeshFault::UnknownMeshKey(key));
    }
    Ok(MeshKeys {
        shards,
        secret_file,
    })
}

/// What the file says of `mesh`, which may be left out.
pub(crate) fn keys_of(file: &Table) -> Result<MeshKeys<'_>, MeshFault>
    ensures said { MatchResult result
        (λ keys. IsHead (table_view file.now) keys.shards (option_copied keys.secret_file))
        (IsNoHead (table_view file.now)) }
    ensures within { IfOk result (λ keys. (1 ≤ keys.shards) × (keys.shards ≤ MAX_SHARDS)) }
{
    let Some(value) = value_of(file, "mesh") else {
        return Ok(MeshKeys {
            shards: DEFAULT_SHARDS,
            secret_file: None,
        });
    };
    match value.as_table() {
        Some(table) => keys_in(table),
        None => Err(MeshFault::MeshNotTable),
    }
}

/// The entries of `server`, 1 to [`MAX_NODES`].
pub(crate) fn entries_of(file: &Table) -> Result<&[Value], MeshFault>
    ensures { MatchResult result
        (λ entries. AreEntries (table_view file.now) (map view entries.now))
        (IsEntriesFault (table_view file.now)) }
{
    if let Some(key) = unknown_key(file, TableKind::File) {
        return Err(MeshFault::UnknownKey(key));
    }
    let Some(value) = value_of(file, "server") else {
        return Err(MeshFault::ServerCount(0));
    };
    let Some(entries) = value.as_array() else {
        return Err(MeshFault::ServersNotArray);
    };
    let entries = entries.as_slice();
    if entries.is_empty() || entries.len() as u64 > MAX_NODES {
        return Err(MeshFault::ServerCount(entries.len()));
    }
    Ok(entries)
}

/// The servers that the entries describe, in the order of their names.
pub(crate) fn ordered_servers(
    alloc: Global,
    entries: &[Value],
) -> Result<Vec<MeshServer>, Failure<MeshFault>>
    requires { length entries.now < 2 ^ 63 }
    ensures read { MatchResult result (λ ordered. AreOrdered (map view entries.now) ordered.items)
        (IsFailure (IsServersFault (map view entries.now))) }
    ensures valid { IfOk result (λ ordered. All IsServer ordered.items) }
{
    let servers = servers_of(alloc, entries)?;
    match first_shared(&servers) {
        None => Ok(in_order(alloc, &servers)?),
        Some(pair) => Err(Failure::Refused(MeshFault::Pair(pair))),
    }
}
