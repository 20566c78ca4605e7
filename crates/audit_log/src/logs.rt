//! Bytes are cut into lines, and what these tell is gathered.

ghost use Rattle.std.specs.Prelude.{◌≡◌, ◌∷◌, ◌<◌, length, position, IfSome, ◌++◌, [], IfOk, OnOk};
ghost use Rattle.std.specs.Option.{option_copied};
ghost use Rattle.audit_log.specs.Logs.{is_line_end, is_object as begins_as_object, lines_behind, lines_of, AddsLine, AddsLines, AddsObject, Reads, ReadsJson, log_of_shape, new_log, with_life, with_line, with_lines, with_name, with_object, with_placement, with_publication};
ghost use Rattle.std.specs.Str.{bytes_eq};
ghost use Rattle.serde_json.specs.View.{view};
ghost use Rattle.subj.specs.Servers.{place_in};
ghost use Rattle.placement_audit.specs.Verdicts.{IsVerdict};

use crate::entries::{Misfit, life, part, placement, publication, server};
use crate::faults::{LogError, LogFault};
use cluster_world::{Life, Publication};
use line_fields::split_field;
use placement_audit::{Placement, audit};
use serde_json::Value;
use std::alloc::{AllocError, Global};
use std::marker::Model;
use subj::{Failure, NodeId};

/// Where the first LF stands.
fn first_end(bytes: &[u8]) -> Option<usize>
    ensures { result ≡ position is_line_end bytes.now }
{
    bytes.iter().position(|byte| *byte == b'\n')
}

/// The first line, and what stands behind its LF where there is one.
pub(crate) fn first_line(bytes: &[u8]) -> (&[u8], Option<&[u8]>)
    ensures cut { lines_of bytes.now ≡ result.0.now ∷ lines_behind (option_copied result.1) }
    ensures shorter { IfSome result.1 (λ rest. length rest.now < length bytes.now) }
{
    match first_end(bytes) {
        None => (bytes, None),
        Some(end) => (&bytes[..end], Some(&bytes[end + 1..])),
    }
}

/// Whether the line begins as an object does, behind blanks.
pub(crate) fn is_object(line: &[u8]) -> bool
    ensures { result ≡ begins_as_object line.now }
{
    match split_field(line) {
        None => false,
        Some((field, _)) => field.starts_with(b"{"),
    }
}

/// What lines told, each kind in its order. (Profile.)
///
/// Seen as the names of the servers, in the order in which they were named, and the publications, subscriptions and placements. The place
/// of a server is that of its name.
pub struct Log {
    alloc: Global,
    names: Vec<NodeId>,
    publications: Vec<Publication>,
    lives: Vec<Life>,
    placements: Vec<Placement>,
}

/// One call, also for crates above: `docs/PROVING.md`, "What a proof costs".
impl Drop for Log {
    fn drop(self) {
        let Log {
            alloc: _,
            names: _,
            publications: _,
            lives: _,
            placements: _,
        } = self;
    }
}

impl Model for Log {
    ghost use Rattle.std.specs.Prelude.{map};
    ghost use Rattle.cluster_world.specs.InCode.{life_of, publication_of};
    ghost use Rattle.placement_audit.specs.InCode.{placement_of};
    ghost use Rattle.audit_log.specs.Logs.{Log};

    ghost Value = { Log };

    ghost view = { λ log. record {
      names = log.names.items;
      publications = map publication_of log.publications.items;
      lives = map life_of log.lives.items;
      placements = map placement_of log.placements.items;
    } };
}

/// Where the name stands, or None where it is not there.
fn listed_place(names: &[NodeId], name: NodeId) -> Option<usize>
    ensures { result ≡ position (λ other. bytes_eq other name) names.now }
{
    names.iter().position(|other| other.bytes() == name.bytes())
}

/// The place of the server of this name: a new one behind the others, where it was not named before.
fn place_of(names: &mut Vec<NodeId>, name: NodeId) -> Result<usize, AllocError>
    ensures place { IfOk result (λ place. place ≡ place_in name names.old.items) }
    ensures names { OnOk result (names.new.items ≡ with_name name names.old.items) }
{
    if let Some(place) = listed_place(names, name) {
        return Ok(place);
    }
    let place = names.len();
    names.push(name)?;
    Ok(place)
}

/// The JSON that a line is.
fn read_json(alloc: Global, line: &[u8]) -> Result<Value, Failure<LogFault>>
    ensures { ReadsJson line.now result }
{
    match Value::from_slice(alloc, line) {
        Ok(json) => Ok(json),
        Err(error) => {
            if error.is_memory() {
                return Err(Failure::OutOfMemory);
            }
            Err(Failure::Refused(LogFault::NotJson))
        }
    }
}

impl Log {
    /// Nothing was told.
    fn new(alloc: Global) -> Log
        ensures { result ≡ new_log }
    {
        Log {
            alloc,
            names: Vec::new(alloc),
            publications: Vec::new(alloc),
            lives: Vec::new(alloc),
            placements: Vec::new(alloc),
        }
    }

    #[tactic(auto, unfolding(crate::specs::Logs::with_publication))]
    fn add_publication(&mut self, object: &Value) -> Result<(), Failure<Misfit>>
        ensures { AddsObject (with_publication self.old (view object.now)) self.new result }
    {
        let publication = publication(self.alloc, object)?;
        self.publications.push(publication)?;
        Ok(())
    }

    #[tactic(auto, unfolding(crate::specs::Logs::with_life))]
    fn add_life(&mut self, object: &Value) -> Result<(), Failure<Misfit>>
        ensures { AddsObject (with_life self.old (view object.now)) self.new result }
    {
        let server = server(part(object, "id")?, "node")?;
        let place = place_of(&mut self.names, server)?;
        let life = life(self.alloc, object, place)?;
        self.lives.push(life)?;
        Ok(())
    }

    #[tactic(auto, unfolding(crate::specs::Logs::with_placement))]
    fn add_placement(&mut self, object: &Value) -> Result<(), Failure<Misfit>>
        ensures { AddsObject (with_placement self.old (view object.now)) self.new result }
    {
        let server = server(part(object, "life")?, "node")?;
        let place = place_of(&mut self.names, server)?;
        let placement = placement(self.alloc, object, place)?;
        self.placements.push(placement)?;
        Ok(())
    }

    /// Adds what an object tells, if it is one of the three kinds.
    fn add_object(&mut self, json: &Value) -> Result<(), Failure<Misfit>>
        ensures { AddsObject (with_object self.old (view json.now)) self.new result }
    {
        if let Some(object) = json.get("publication") {
            return self.add_publication(object);
        }
        if let Some(object) = json.get("life") {
            return self.add_life(object);
        }
        if let Some(object) = json.get("placement") {
            return self.add_placement(object);
        }
        Ok(())
    }

    /// The same of an object that was read.
    fn add_json(&mut self, json: &Value) -> Result<(), Failure<LogFault>>
        ensures { AddsLine (log_of_shape (with_object self.old (view json.now))) self.new result }
    {
        match self.add_object(json) {
            Ok(()) => Ok(()),
            Err(Failure::Refused(_)) => Err(Failure::Refused(LogFault::BadShape)),
            Err(Failure::OutOfMemory) => Err(Failure::OutOfMemory),
        }
    }

    /// Adds what a line tells.
    fn add_line(&mut self, line: &[u8]) -> Result<(), Failure<LogFault>>
        ensures { AddsLine (with_line self.old line.now) self.new result }
    {
        if !is_object(line) {
            return Ok(());
        }
        let json = read_json(self.alloc, line)?;
        self.add_json(&json)
    }

    /// Adds what the line of this number tells.
    fn add_numbered(&mut self, line: &[u8], number: u64) -> Result<(), Failure<LogError>>
        ensures { AddsLines (with_line self.old line.now) self.new result }
    {
        match self.add_line(line) {
            Ok(()) => Ok(()),
            Err(Failure::Refused(fault)) => {
                Err(Failure::Refused(LogError {
                    fault,
                    line: number,
                }))
            }
            Err(Failure::OutOfMemory) => Err(Failure::OutOfMemory),
        }
    }

    /// Adds what the lines of the bytes tell, up to the first that is refused.
    fn add_lines(&mut self, bytes: &[u8]) -> Result<(), Failure<LogError>>
        ensures { AddsLines (with_lines self.old (lines_of bytes.now)) self.new result }
    {
        let mut rest = bytes;
        let mut number = 1u64;
        loop {
            let (line, behind) = first_line(rest);
            self.add_numbered(line, number)?;
            match behind {
                None => return Ok(()),
                Some(bytes) => rest = bytes,
            }
            number = number.saturating_add(1);
        }
    }

    /// The log that bytes are.
    ///
    /// A line that does not begin as an object does is passed over, and so is an object that is none of the three kinds. Refused by the first
    /// line that is none of a log's: with [`LogFault::NotJson`] where it begins as an object and is no JSON or not UTF-8, and then with
    /// [`LogFault::BadShape`] where it has not the form of its kind. Want of memory may stand in place of each answer.
    pub fn read(alloc: Global, bytes: &[u8]) -> Result<Log, Failure<LogError>>
        ensures { Reads bytes.now result }
    {
        let mut log = Log::new(alloc);
        log.add_lines(bytes)?;
        Ok(log)
    }

    /// The number, from 1, of the first placement that breaks the clause with those before it, as [`audit`] has it; None where none does.
    pub fn audit(&self) -> Result<Option<u64>, AllocError>
        ensures { IfOk result (IsVerdict self.now.publications self.now.lives self.now.placements) }
    {
        audit(
            self.alloc,
            &self.publications,
            &self.lives,
            &self.placements,
        )
    }
}
