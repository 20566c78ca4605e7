//! Cases of scripts, of audits, of matches, of lists of events, of one client on a pipe, of command lines, of files of a mesh, of the incarnations that a
//! server takes, and of whole servers: `data/` has them, and `golden` says how they are written.
//!
//! ```text
//! script.read [] => refused 91
//! input.line {"nodes":["n1"],"shards":1,"steps":[
//! input.line {"do":"stop","node":"n1"}]}
//! play.whole => ok
//! output.line => 1 refused 80
//! audit.written => passed: none\n
//! match.run foo.*|foo.bar => ok: true\n
//! world.run n1,n2|1|2 => 2 of 2 refused 80
//! pipe.run SUB foo 1\r\nPUB f|oo 2\r\nhi\r\n => ended: +OK\r\n+OK\r\nMSG foo 1 2\r\nhi\r\n
//! pipe.run PING\r\n|!read fails => reading failed: PONG\r\n
//! line.asks match|foo.*|foo.a => match 'foo.*' 'foo.a'
//! mesh.read server = 1 => server: not an array; each server is wanted as [[server]]
//! disk.starts 7 => 7
//! n1.start 2
//! n1.attach 1 => conn 1
//! n1.publish 1|foo|hello|0 => turn 1, frames 0
//! n1.begin 3 => refused 58
//! ```
//!
//! The servers of a cluster are `n1`, `n2` and `n3`, each over the trie of subscriptions. A call of one is made twice, with the race of one thread, and with
//! the race on threads with one seat; it has an answer where both do the same, and else both are told.
//!
//! - `n1.start SHARDS` starts `n1` in its incarnation 5, once in a case. Each other call is an event, as `events` lists them, or looks at what came of the
//!   last one. As a number, `last` is the largest one. An answer is a refusal's number, or what `servers` tells.
//! - `n1.put` tells how many entries and frames the last step put, and how many connections and subscriptions it closed; `n1.names` for
//!   how many queue names its first two frames are; `n1.text CONN|COUNT` takes the bytes of the first entries that wait.
//! - An event is asked as well whether it will be refused. Behind `n1.by list` events are kept until `n1.run` makes them as one list, and behind
//!   `n1.by step` they are made one by one again.
//! - What could not be made for want of memory is made once more.
//!
//! In reading order: `runs` has what is read and written, bytes that a case puts together and what was written last, and reads and plays scripts, audits
//! logs, matches patterns, and serves one client on a pipe; and `starts` reads command lines and files of a mesh, and starts a server over a disk in
//! memory. `events` reads what a server is asked, and `servers` makes it: a server over one race, over both, and all servers of a case, and lists of
//! events in one call. Here stands what a case has, and whose call a line is. A call that tells nothing is answered `ok`.
#![tactic(auto)]

mod events;
mod runs;
mod servers;
mod starts;

use golden::{Answer, Rig, Words, put};
use incarnation_file::MemoryDisk;
use runs::Runs;
use servers::{Servers, world_call};
use starts::start_call;
use std::alloc::{AllocError, Global};
use std::process::ExitCode;

/// What a case puts together, what was written last, the servers that have started, and the disk of one.
#[derive(Drop)]
struct ScriptRig {
    alloc: Global,
    runs: Runs,
    servers: Servers,
    disk: MemoryDisk,
}

impl ScriptRig {
    /// Nothing was put, nothing written, no server has started, and its disk has no file.
    fn new(alloc: Global) -> ScriptRig {
        ScriptRig {
            alloc,
            runs: Runs::new(alloc),
            servers: Servers::new(alloc),
            disk: MemoryDisk::new(alloc, None),
        }
    }

    /// Makes a call. None for want of memory.
    fn call(&mut self, answer: &mut Answer, name: &str, words: &Words<'_>) -> Option<()> {
        let (of, call) = name.split_once('.').unwrap_or((name, ""));
        let alloc = self.alloc;
        match of {
            "world" => world_call(answer, alloc, call, words),
            "line" | "mesh" | "disk" => {
                start_call(answer, &mut self.disk, alloc, of, call, words)
            }
            "n1" | "n2" | "n3" => self.servers.call(answer, of, call, words),
            _ => self.runs.call(answer, alloc, of, call, words),
        }
    }
}

impl Rig for ScriptRig {
    fn renew(&mut self) -> Result<(), AllocError> {
        self.runs.clear();
        self.servers.renew();
        put(&mut self.disk, MemoryDisk::new(self.alloc, None));
        Ok(())
    }

    fn answer(&mut self, name: &str, words: &Words<'_>) -> Result<String, AllocError> {
        let mut answer = Answer::new(self.alloc);
        let is_told = self.call(&mut answer, name, words);
        answer.told_or(self.alloc, "ok", is_told)
    }
}

fn main(rt: HostRuntime) -> ExitCode {
    golden::play(&rt, ScriptRig::new(rt.alloc()))
}
