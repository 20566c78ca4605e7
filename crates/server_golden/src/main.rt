//! Cases of servers, of their threads and of their connections: races, lanes, a shard with its lane and its seat, and a server whose calls many
//! threads may make, called by one, with its report; and connections over streams in memory. `data/` has them, and `golden` says how they are
//! written.
//!
//! ```text
//! race.new
//! race.issue => turn 1
//! race.see 1 => saw
//! race.claim 1|0 => won
//! race.seat 1 => turn 1 is issued, index 1 is next
//! lane.new 4
//! lane.push 5 => comes back whole
//! alone.member => connection 1
//! alone.turn => idle
//! node.new n1,n2|1|kept
//! node.attach 3 => refused 58
//! pass.clients
//! node.finish hub => steps 6
//! mesh.new 1|2
//! stream.feed CONNECT {"verbose":false}\r\nPING\r\n
//! n1.add client
//! n1.turn 1
//! n1.ends 1|PONG\r\n => 1 of 1
//! mesh.new 1|1|kept
//! n1.add client
//! n1.entries => hub 0, shards 1
//! shutdown.new 2
//! shutdown.is_over => no
//! ```
//!
//! `node.new` starts the first of these servers, with so many shards; `kept` has what it does written down. A connection is named by its id:
//! shard 2 of 3 numbers its connections 2, 5 and so on. The callers of `pass` tell what they asked and were answered, and `node.finish` ends
//! the server and asks for its report.
//!
//! `mesh.new` starts the server n1 of so many servers, with so many shards, and n2 beside it. A stream is made ready by `stream`, and `add`
//! takes it: a server's connections are named by their numbers, in the order in which they came. Time, failing streams and which
//! connections are ready, three at most in a turn, are what a case says of them. `told` answers what has happened at a server, in the words
//! of its log; `log` answers the whole line of an event that streams do not bring about. `kept` has what both servers do under their locks written
//! down, and `n1.entries` answers how many entries stand on the tapes of n1: on the hub's, and on each shard's.
//!
//! In reading order, of threads: `lanes` has lanes and the jobs that pass them, and `turn_calls` a race of two shards, a shard by itself and one with its
//! hub; and `nodes` plays a case of a server, makes its calls, and has callers who tell of theirs. Of connections: `mesh` starts the two servers of a
//! case, of which the first one's lanes may take nothing for a while; and `ends` makes the calls on each and on what is between them, and has what
//! the log writes of other events. A call that tells nothing is answered `ok`.
//!
//! A shard and a server stand only in the call of a function that is generic in their name: so a case of theirs is played from its first call
//! again for each call that it has. Of servers with connections a call that asks nothing is answered at once, and made when the next one asks.
#![tactic(auto)]

mod ends;
mod lanes;
mod mesh;
mod nodes;
mod turn_calls;

use ends::{is_question, log_line};
use golden::{Answer, Call, Rig, Words, call_of, push_line, put};
use lanes::{Lanes, lanes_call};
use mesh::Mesh;
use node_net::Shutdown;
use nodes::node_answer;
use std::alloc::{AllocError, Global};
use std::process::ExitCode;
use std::sync::Wait;
use turn_calls::{Two, alone_answer, beside_answer, race_call};

/// What a case has made and said.
#[derive(Drop)]
struct ServerRig<'r, R: Wait> {
    rt: &'r R,
    alloc: Global,
    race: Option<Two>,
    lanes: Lanes,
    mesh: Mesh,
    shutdown: Shutdown,
    /// The calls of this case on a shard or on servers, one a line.
    calls: String,
}

/// Servers that have taken nobody, and stop once they have taken so many clients and all of these are gone; those of 0 go on. Nobody is woken
/// here: `is_over` is asked for.
fn shutdown_of(alloc: Global, clients: u64) -> Shutdown {
    let stops_after = (clients > 0).then_some(clients);
    Shutdown::new(stops_after, Vec::new(alloc))
}

/// Makes a call on what the servers of a process share.
fn shutdown_call(
    answer: &mut Answer,
    shutdown: &mut Shutdown,
    alloc: Global,
    call: &str,
    number: u64,
) -> Option<()> {
    match call {
        "new" => put(shutdown, shutdown_of(alloc, number)),
        "take" => shutdown.take(),
        "lose" => shutdown.lose(number),
        "fail" => shutdown.fail(),
        "is_over" => answer.tell_whether(shutdown.is_over())?,
        _ => answer.tell("no such call")?,
    }
    Some(())
}

/// What the calls on servers with connections are made on.
const CONNECTIONS: [&str; 5] = ["stream", "n1", "n2", "link", "numbers"];

impl<'r, R: Wait> ServerRig<'r, R> {
    /// Nothing is made or said yet.
    fn new(rt: &'r R, alloc: Global) -> ServerRig<'r, R> {
        ServerRig {
            rt,
            alloc,
            race: None,
            lanes: Lanes::new(),
            mesh: Mesh::new(),
            shutdown: shutdown_of(alloc, 0),
            calls: String::new(alloc),
        }
    }

    /// Makes all calls on a shard or on servers again, of which this is the last. One that asks nothing of connections is made when the next one
    /// asks.
    fn last_call(&mut self, answer: &mut Answer, line: &Call<'_>) -> Option<()> {
        match line.of {
            "alone" => alone_answer(answer, self.rt, self.alloc, &self.calls),
            "beside" => beside_answer(answer, self.rt, self.alloc, &self.calls),
            "node" | "pass" => node_answer(answer, self.rt, self.alloc, &self.calls),
            of if !CONNECTIONS.contains(&of) => answer.tell("no such call"),
            _ if !is_question(line) => Some(()),
            _ => self
                .mesh
                .play(answer, self.rt, self.alloc, self.calls.as_str()),
        }
    }

    /// Makes a call. None for want of memory.
    fn call(
        &mut self,
        answer: &mut Answer,
        line: &Call<'_>,
        name: &str,
        words: &Words<'_>,
    ) -> Option<()> {
        let (alloc, call, number) = (self.alloc, line.name, words.number(0));
        match line.of {
            "race" => race_call(answer, &mut self.race, alloc, call, words),
            "lane" | "other" => lanes_call(answer, self.rt, &mut self.lanes, alloc, line, number),
            "mesh" => answer.tell(self.mesh.set(call, words)),
            "shutdown" => shutdown_call(answer, &mut self.shutdown, alloc, call, number),
            "log" => log_line(answer, call, words),
            _ => {
                push_line(&mut self.calls, name, words).ok()?;
                self.last_call(answer, line)
            }
        }
    }
}

impl<'r, R: Wait> Rig for ServerRig<'r, R> {
    fn renew(&mut self) -> Result<(), AllocError> {
        put(&mut self.race, None);
        put(&mut self.lanes, Lanes::new());
        self.mesh = Mesh::new();
        put(&mut self.shutdown, shutdown_of(self.alloc, 0));
        put(&mut self.calls, String::new(self.alloc));
        Ok(())
    }

    fn answer(&mut self, name: &str, words: &Words<'_>) -> Result<String, AllocError> {
        let mut answer = Answer::new(self.alloc);
        let line = call_of(name);
        let is_told = self.call(&mut answer, &line, name, words);
        answer.told_or(self.alloc, "ok", is_told)
    }
}

fn main(rt: HostRuntime) -> ExitCode {
    golden::play(&rt, ServerRig::new(&rt, rt.alloc()))
}
