//! What a server tells a client first.

ghost use Rattle.std.specs.Prelude.{◌≡◌, [], IfOk, OnOk, codes, string_bytes};
ghost use Rattle.serde_json.specs.Data.{string, object, no_members, put as with_member};
ghost use Rattle.serde_json.specs.View.{view, members_view};
ghost use Rattle.client_frames.specs.Info.{connection_members, info_data, info_json, number_data, server_id};

use crate::server_info::ServerInfo;
use serde_json::{Map, Value, put};
use std::alloc::{AllocError, Global};
use subj::{ConnId, MAX_PAYLOAD};

/// What a server tells a client first. (NATS documentation, "Client Protocol": `INFO`.)
#[derive(Drop)]
pub struct InfoData {
    /// What it tells all clients.
    pub server: ServerInfo,
    /// The connection that it speaks on.
    pub client_id: ConnId,
}

impl InfoData {
    /// A copy that shares what all clients are told.
    pub fn try_clone(&self) -> Result<InfoData, AllocError>
        ensures { IfOk result (λ info. info ≡ self.now) }
    {
        Ok(InfoData {
            server: self.server.try_clone()?,
            client_id: self.client_id,
        })
    }
}

fn server_id_text(alloc: Global, server: &ServerInfo) -> Result<String, AllocError>
    ensures { IfOk result (λ text. string_bytes text ≡ server_id server.now) }
{
    format!(in alloc; "{}-{}", server.name().text(), server.inc().get())
}

/// Puts a number into an object by its key.
fn put_number(
    members: &mut Map<String, Value>,
    alloc: Global,
    key: &str,
    number: u64,
) -> Result<(), AllocError>
    ensures { OnOk result (members_view members.new.entries
        ≡ with_member key.now (number_data number) (members_view members.old.entries)) }
{
    put(members, alloc, key, Value::from(number))
}

/// Puts a text into an object by its key.
fn put_text(
    members: &mut Map<String, Value>,
    alloc: Global,
    key: &str,
    text: &str,
) -> Result<(), AllocError>
    ensures { OnOk result (members_view members.new.entries
        ≡ with_member key.now (string text.now) (members_view members.old.entries)) }
{
    let text = Value::try_from_str(alloc, text)?;
    put(members, alloc, key, text)
}

/// Puts the server's id into an object.
fn put_server_id(
    members: &mut Map<String, Value>,
    alloc: Global,
    server: &ServerInfo,
) -> Result<(), AllocError>
    ensures { OnOk result (members_view members.new.entries
        ≡ with_member (codes "server_id") (string (server_id server.now))
        (members_view members.old.entries)) }
{
    let server_id = server_id_text(alloc, server)?;
    put_text(members, alloc, "server_id", server_id.as_str())
}

/// Puts what is told of the client's connection into an object without members.
fn put_connection(
    members: &mut Map<String, Value>,
    alloc: Global,
    info: &InfoData,
) -> Result<(), AllocError>
    requires { members.old.entries ≡ [] }
    ensures { OnOk result
        (members_view members.new.entries ≡ connection_members info.now no_members) }
{
    put_number(members, alloc, "client_id", info.client_id.get())?;
    put(members, alloc, "headers", Value::Bool(true))?;
    put_text(members, alloc, "host", info.server.host())?;
    put_number(members, alloc, "max_payload", MAX_PAYLOAD as u64)?;
    put_number(members, alloc, "port", info.server.port() as u64)
}

/// Puts what is told of the server behind what is told of the connection.
fn put_server(
    members: &mut Map<String, Value>,
    alloc: Global,
    info: &InfoData,
) -> Result<(), AllocError>
    requires { members_view members.old.entries ≡ connection_members info.now no_members }
    ensures { OnOk result (object (members_view members.new.entries) ≡ info_data info.now) }
{
    put_number(members, alloc, "proto", 1)?;
    put_server_id(members, alloc, &info.server)?;
    put_text(members, alloc, "server_name", info.server.name().text())?;
    put_text(members, alloc, "version", "1.0.0")
}

fn info_value(alloc: Global, info: &InfoData) -> Result<Value, AllocError>
    ensures { IfOk result (λ value. view value ≡ info_data info.now) }
{
    let mut members = Map::new(alloc);
    put_connection(&mut members, alloc, info)?;
    put_server(&mut members, alloc, info)?;
    Ok(Value::Object(members))
}

/// The text of `INFO`: compact JSON with its keys in the order of their bytes. (NATS documentation,
/// "Client Protocol"; which members, and their order, are this project's profile.)
pub fn info_text(alloc: Global, info: &InfoData) -> Result<String, AllocError>
    ensures { IfOk result (λ text. string_bytes text ≡ info_json info.now) }
{
    let value = info_value(alloc, info)?;
    value.to_string(alloc)
}
