//! Cases of what the lower crates read, write and do. Of what is read and written: names and the values that hold them, fields of lines, streams and what is
//! cut from them, what clients and servers tell each other, and the frames of routes. Of the parts of a server: entries and outboxes, tries, tables of
//! subscriptions, shards, the race for queue names and the choice of a server; interest, hubs, and the sessions of two servers. `golden` has the form of
//! their files, which stand in `data/`; each begins with the calls that it has.
//!
//! ```text
//! pattern.match foo.*|foo => no
//! shard.new 1|8
//! shard.attach => conn 1
//! times 511 shard.subscribe 1|<<a*1000>>||# => new
//! ```
//!
//! In reading order: `names` makes the calls of names, values and fields; `streams` those of streams; `client` those of a client's lines, frames and
//! connection; `routes` those of frames of routes, and of values that are the same; `entries` those of entries and outboxes; `shards` those of tries,
//! races and shards; `tables` those of tables of subscriptions; and `hubs` those of interest, hubs and sessions. What may be asked only where something
//! holds is asked through a type that knows it: a race (`shards`), weights (`shards`) and a table (`tables`).
#![tactic(auto)]

mod client;
mod entries;
mod hubs;
mod names;
mod routes;
mod shards;
mod streams;
mod tables;

use client_conn::Conn;
use client_frames::SharedTexts;
use entries::Mailbox;
use golden::{Answer, Words, put};
use hubs::{HubStand, Pair};
use interest::{Local, View};
use outbox::Entry;
use pattern_trie::PatternTrie;
use routes::Routes;
use shards::{Course, Stand};
use std::alloc::{AllocError, Global};
use std::process::ExitCode;
use streams::Streams;
use sub_table::ListTable;
use sub_trie::TrieTable;
use tables::Opened;

/// What a case has made that later calls of the same case need.
#[derive(Drop)]
struct Rig {
    alloc: Global,
    streams: Streams,
    texts: SharedTexts,
    conn: Option<Conn>,
    routes: Routes,
    entry: Option<Entry>,
    outbox: Option<Mailbox>,
    patterns: PatternTrie<u64>,
    list: Option<Opened<ListTable>>,
    trie: Option<Opened<TrieTable>>,
    shard: Option<Stand>,
    race: Option<Course>,
    counts: Option<Local>,
    view: View,
    hub: Option<HubStand>,
    pair: Option<Pair>,
}

impl Rig {
    /// Where no call was made.
    fn new(alloc: Global) -> Rig {
        Rig {
            alloc,
            streams: Streams::new(alloc),
            texts: SharedTexts::new(alloc),
            conn: None,
            routes: Routes::new(alloc),
            entry: None,
            outbox: None,
            patterns: PatternTrie::new(alloc),
            list: None,
            trie: None,
            shard: None,
            race: None,
            counts: None,
            view: View::new(alloc),
            hub: None,
            pair: None,
        }
    }

    /// Makes a call of what is read and written.
    fn call(&mut self, answer: &mut Answer, of: &str, call: &str, words: &Words<'_>) -> Option<()> {
        let alloc = self.alloc;
        match of {
            "cutter" => streams::cutter_call(answer, &mut self.streams, alloc, call, words),
            "source" => streams::source_call(answer, &mut self.streams, alloc, call, words),
            "sink" => streams::sink_call(answer, &mut self.streams, alloc, call, words),
            "cut" => streams::cut_call(answer, alloc, call, words),
            "raw" => streams::raw_call(answer, alloc, call, words),
            "fault" => client::fault_call(answer, call, words.at(0)),
            "reply" => client::reply_call(answer, alloc, call, words.text),
            "info" => client::info_call(answer, alloc, words.text),
            "delivery" => client::delivery_call(answer, alloc, call, words),
            "line" => client::line_call(answer, &mut self.texts, alloc, call, words.text),
            "conn" => client::conn_call(answer, &mut self.conn, alloc, call, words.text),
            "frame" => routes::frame_call(answer, &mut self.routes, alloc, call, words),
            "snapshot" => routes::snapshot_call(answer, &mut self.routes, alloc, call, words),
            "weighted" => routes::weighted_call(answer, alloc, call, words.text),
            "stream" => routes::stream_call(answer, alloc, call, words.text),
            "same" => routes::same_call(answer, alloc, call, words.text),
            _ => self.part_call(answer, of, call, words),
        }
    }

    /// Makes a call of the parts of a server, or of names and values.
    fn part_call(
        &mut self,
        answer: &mut Answer,
        of: &str,
        call: &str,
        words: &Words<'_>,
    ) -> Option<()> {
        let alloc = self.alloc;
        match of {
            "entry" => entries::entry_call(answer, &mut self.entry, alloc, call, words),
            "outbox" => entries::outbox_call(answer, &mut self.outbox, alloc, call, words),
            "patterns" => shards::patterns_call(answer, &mut self.patterns, alloc, call, words),
            "pick" => shards::choose(answer, alloc, words.at(0), words.number(1)),
            "race" => shards::race_call(answer, &mut self.race, alloc, call, words),
            "shard" => shards::shard_call(answer, &mut self.shard, alloc, call, words),
            "list" => tables::table_call(answer, &mut self.list, alloc, call, words),
            "trie" => tables::trie_call(answer, &mut self.trie, alloc, call, words),
            "tables" => tables::compare(answer, alloc, words.number(0), words.number(1)),
            "counts" => hubs::counts_call(answer, &mut self.counts, alloc, call, words),
            "view" => hubs::view_call(answer, &mut self.view, alloc, call, words),
            "hub" => hubs::hub_call(answer, &mut self.hub, alloc, call, words),
            "sessions" => hubs::new_sessions(answer, &mut self.pair, alloc, words.number(0)),
            "n1" | "n2" => hubs::pair_call(answer, &mut self.pair, of, call, words),
            "refusal" => hubs::refusal_call(answer, call, words.at(0)),
            "id" => hubs::id_call(answer, call, words),
            "key" => names::key_call(answer, alloc, call, words),
            "number" => names::number_call(answer, call, words),
            "server" => names::server_call(answer, alloc, call, words),
            "message" => names::message_call(answer, alloc, call, words),
            "part" => names::part_call(answer, alloc, call, words),
            _ => names::name_call(answer, alloc, of, call, words),
        }
    }
}

impl golden::Rig for Rig {
    fn renew(&mut self) -> Result<(), AllocError> {
        let alloc = self.alloc;
        put(self, Rig::new(alloc));
        Ok(())
    }

    fn answer(&mut self, name: &str, words: &Words<'_>) -> Result<String, AllocError> {
        let alloc = self.alloc;
        let (of, call) = name.split_once('.').unwrap_or((name, ""));
        let mut answer = Answer::new(alloc);
        let is_told = self.call(&mut answer, of, call, words);
        answer.told(alloc, is_told)
    }
}

fn main(rt: HostRuntime) -> ExitCode {
    golden::play(&rt, Rig::new(rt.alloc()))
}
