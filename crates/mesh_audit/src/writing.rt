//! Scripts are played, and lines of a log are written behind their text.

use audit_log::Text;
use claim_race::Race;
use cluster_world::{Life, LifeId, Publication, World};
use mesh_script::{PlayFault, RunFault, script_world_run};
use outbox::Mode;
use placement_audit::{Placement, each_placement};
use serde_json::Value;
use std::alloc::{AllocError, Global};
use std::fmt::Write;
use sub_table::SubTable;
use subj::{NodeId, PubId, READ_BYTES};
use wire_cut::{Sink, Source};

/// The bytes as the text of a JSON text, where they are UTF-8.
fn json_text(alloc: Global, bytes: &[u8]) -> Result<Option<String>, AllocError> {
    match str::from_utf8(bytes) {
        Ok(text) => Ok(Some(Value::String(String::from_str(alloc, text)?).to_string(alloc)?)),
        Err(_) => Ok(None),
    }
}

/// The name of the server at the place; nothing where there is none.
fn name_at(names: &[NodeId], place: usize) -> &str {
    match names.get(place) {
        None => "",
        Some(name) => name.text(),
    }
}

/// Lines that stand to be written. They are written once there are [`READ_BYTES`] of them, and at the end.
#[derive(Drop)]
struct Lines<'a> {
    alloc: Global,
    /// The names of the servers, by their places.
    names: &'a [NodeId],
    text: String,
    /// Whether there was no memory for a part of the text: then it is not written.
    is_short: bool,
}

impl<'a> Lines<'a> {
    /// Nothing is to be written.
    fn new(alloc: Global, names: &'a [NodeId]) -> Lines<'a> {
        Lines {
            alloc,
            names,
            text: String::new(alloc),
            is_short: false,
        }
    }

    /// Writes all that stands to be written.
    fn flush<S: Sink>(&mut self, sink: &mut S) -> Result<(), PlayFault> {
        if self.is_short {
            return Err(PlayFault::OutOfMemory);
        }
        sink.write_all(self.text.as_bytes())?;
        self.text.clear();
        Ok(())
    }

    /// Writes all that stands to be written, if that is much.
    fn flush_much<S: Sink>(&mut self, sink: &mut S) -> Result<(), PlayFault> {
        if self.is_short || self.text.len() >= READ_BYTES {
            return self.flush(sink);
        }
        Ok(())
    }

    /// Puts a text behind the others.
    fn put(&mut self, text: &str) {
        self.is_short |= self.text.push_str(text).is_err();
    }

    /// Puts a member behind others: a number.
    fn put_number(&mut self, name: &str, number: u64) {
        self.is_short |= write!(self.text, ",\"{name}\":{number}").is_err();
    }

    /// Puts a member behind others: bytes, as hex digits.
    fn put_hex(&mut self, text: Text, bytes: &[u8]) {
        let name = text.hex_name();
        match hex::encode(self.alloc, bytes) {
            Ok(digits) => {
                let digits = digits.as_str();
                self.is_short |= write!(self.text, ",\"{name}\":\"{digits}\"").is_err();
            }
            Err(_) => self.is_short = true,
        }
    }

    /// Puts a member behind others: bytes, as a text or as hex digits.
    fn put_bytes(&mut self, text: Text, bytes: &[u8]) {
        let name = text.name();
        match json_text(self.alloc, bytes) {
            Ok(Some(json)) => {
                let json = json.as_str();
                self.is_short |= write!(self.text, ",\"{name}\":{json}").is_err();
            }
            Ok(None) => self.put_hex(text, bytes),
            Err(_) => self.is_short = true,
        }
    }

    /// Puts the name of a publication.
    fn put_publication_id(&mut self, id: PubId) {
        let (origin, inc, number) = (id.origin.text(), id.inc.get(), id.number);
        let put = write!(
            self.text,
            "{{\"origin\":\"{origin}\",\"inc\":{inc},\"number\":{number}}}"
        );
        self.is_short |= put.is_err();
    }

    /// Puts the name of a subscription.
    fn put_life_id(&mut self, id: &LifeId) {
        let name = name_at(self.names, id.node);
        let put = write!(
            self.text,
            "{{\"node\":\"{name}\",\"inc\":{},\"shard\":{},\"serial\":{}}}",
            id.inc.get(),
            id.sub.shard,
            id.sub.serial
        );
        self.is_short |= put.is_err();
    }

    fn put_publication(&mut self, publication: &Publication) {
        self.put("{\"publication\":{\"id\":");
        self.put_publication_id(publication.id);
        self.put_number("step", publication.step);
        let message = &publication.message;
        self.put_bytes(Text::Subject, message.subject().bytes());
        if let Some(reply) = message.reply() {
            self.put_bytes(Text::Reply, reply.bytes());
        }
        if let Some(block) = message.headers() {
            self.put_bytes(Text::Headers, block);
        }
        self.put_bytes(Text::Payload, message.payload());
        self.put("}}\n");
    }

    fn put_life(&mut self, life: &Life) {
        self.put("{\"life\":{\"id\":");
        self.put_life_id(&life.id);
        self.put_number("conn", life.conn.get());
        self.put_bytes(Text::Sid, life.sid.bytes());
        self.put_bytes(Text::Pattern, life.key.pattern.bytes());
        if let Some(name) = &life.key.queue {
            self.put_bytes(Text::Queue, name.bytes());
        }
        self.put_number("opened", life.opened);
        if let Some(closed) = life.closed {
            self.put_number("closed", closed);
        }
        self.put("}}\n");
    }

    fn put_placement(&mut self, placement: &Placement) {
        self.put("{\"placement\":{\"publication\":");
        self.put_publication_id(placement.id);
        self.put(",\"life\":");
        self.put_life_id(&placement.life);
        self.put_number("step", placement.step);
        self.put_number("conn", placement.conn.get());
        if let Mode::Queue(name) = &placement.mode {
            self.put_bytes(Text::Queue, name.bytes());
        }
        if placement.headers {
            self.put(",\"headers\":true");
        }
        self.put_bytes(Text::Bytes, &placement.bytes);
        self.put("}}\n");
    }

    /// Puts a line for each of them, and writes what stands to be written where that is much.
    fn put_all<S: Sink>(
        &mut self,
        publications: &[Publication],
        lives: &[Life],
        placements: &[Placement],
        sink: &mut S,
    ) -> Result<(), PlayFault> {
        for publication in publications {
            self.put_publication(publication);
            self.flush_much(sink)?;
        }
        for life in lives {
            self.put_life(life);
            self.flush_much(sink)?;
        }
        for placement in placements {
            self.put_placement(placement);
            self.flush_much(sink)?;
        }
        Ok(())
    }
}

/// Writes a line for each publication of a cluster, then one for each subscription, and one for each placement, each kind in its order. (Profile.)
pub fn write_world<T: SubTable, R: Race, S: Sink>(
    alloc: Global,
    world: &World<T, R>,
    sink: &mut S,
) -> Result<(), PlayFault> {
    let placements = each_placement(alloc, world.placements())?;
    let mut lines = Lines::new(alloc, world.names());
    lines.put_all(world.publications(), world.lives(), &placements, sink)?;
    lines.flush(sink)
}

/// Writes the lists of the cluster.
fn write_lists<T: SubTable, R: Race, S: Sink>(
    alloc: Global,
    world: &World<T, R>,
    sink: &mut S,
) -> Result<(), RunFault> {
    match write_world(alloc, world, sink) {
        Ok(()) => Ok(()),
        Err(PlayFault::Write) => Err(RunFault::Write),
        Err(PlayFault::OutOfMemory) => Err(RunFault::OutOfMemory),
    }
}

/// Reads a script and plays it, as `script_run` of `mesh_script` does. Behind its text it writes a line for each publication, then one for each
/// subscription and one for each placement of the run, as a log has them. (Profile.)
pub fn script_audit_run<T: SubTable, R: Race, I: Source, O: Sink>(
    alloc: Global,
    source: &mut I,
    sink: &mut O,
) -> Result<(), RunFault> {
    let world = script_world_run::<T, R, I, O>(alloc, source, sink)?;
    write_lists(alloc, &world, sink)
}
