//! The cluster law: what holds of every run of a cluster of NATS servers, proved once, over definitions alone.
//!
//! ```text
//! // A function that calls a law is proved with what the law says.
//! cluster_law::publications_are_placed_once();
//! cluster_law::names_are_unique();
//! ```
//!
//! The machine (`specs/`) has nodes that start and stop, frames that were sent and are handed over at any time, any
//! number of times or never, and on each node a hub, a race for claims, and shards. Its steps are relations, so it
//! does whatever the rules allow: queue names are split in any way, a claim may be lost, any open subscriptions may
//! close. Each function here has an empty body, and its contract is a law. The code is shown to follow the machine
//! in the crates above.
//!
//! What a placement is worth: it names its publication, its subscription and the content. That the bytes in an
//! outbox are those of the content, and that the outbox gains just the placements, is said by the crates that hold
//! outboxes.
//!
//! Read first: [`publications_are_placed_once`].
#![tactic(auto)]

ghost use Rattle.std.specs.Prelude.{List};
ghost use Rattle.list_laws.specs.Lists.{Each};
ghost use Rattle.cluster_law.specs.Config.{Config, every_rule};
ghost use Rattle.cluster_law.specs.Cluster.{World, Event, Run, Step, Reached, begin};
ghost use Rattle.cluster_law.specs.Headline.{Headline, Unique, Routing, IsLine, EachShard, EachView};
ghost use Rattle.cluster_law.specs.Runs.{TurnsStay, Path};
ghost use Rattle.cluster_law.specs.Example.{Witness};
ghost use Rattle.cluster_law.specs.Counterexamples.{AddresseeIsNeeded, IncarnationIsNeeded, MarkIsNeeded, OriginIsNeeded, SentIsNeeded, ApartIsNeeded, OneFrameIsNeeded, WindowIsNeeded, UnwonIsNeeded, MemberIsNeeded, OnceIsNeeded, FreshIsNeeded, NextIsNeeded};

/// The headline. Whatever is published, subscribed, unsubscribed, delivered, lost, repeated, late, cut or restarted: each publication is placed at
/// most once for a plain subscription, and for a queue name for at most one member in the whole cluster. What is placed is the content of a
/// publication of an earlier step, for a subscription that was open at that step and matched. Of one subscription, the publications of one origin
/// incarnation come in strictly rising number.
pub fn publications_are_placed_once()
    ensures { (c : Config) (w : World) → Reached every_rule c w → Headline c w.past }
{}

/// No two publications have one name, nor two subscriptions. A closing is of a subscription that was opened in an earlier step, and closes it once.
pub fn names_are_unique()
    ensures { (c : Config) (w : World) → Reached every_rule c w → Unique w.past }
{}

/// A publication has at most one frame for a peer, and so to one incarnation of it. Its queue names are split without overlap among the job at its
/// own node and its frames. At a node it is accepted at most once, over all incarnations. A job or frame has at most `queue_names` names.
pub fn publications_are_routed_once()
    ensures { (c : Config) (w : World) → Reached every_rule c w → Routing c w.past }
{}

/// In each shard of a node that is up, each job stands once in the line, in order of turns, and none of a finished turn.
pub fn lines_are_in_order()
    ensures { (c : Config) (w : World) → Reached every_rule c w → EachShard IsLine w }
{}

/// As long as an incarnation runs, its shards' finished turns never become fewer, so none comes again.
pub fn finished_turns_stay()
    ensures { (c : Config) (w : World) (events : List Event) (w' : World)
        → Reached every_rule c w
        → Run every_rule c w events w'
        → TurnsStay w w' }
{}

/// Each view that a node keeps of another is the interest of the incarnation that it has seen, after some number of changes that this incarnation has
/// made.
pub fn views_are_of_origin()
    ensures { (c : Config) (w : World) → Reached every_rule c w → EachView c w }
{}

/// One more step of a world that is reached leads to one that is reached. Whoever shows each step of a machine that knows more to be a step of this
/// one has these laws there too.
pub fn steps_reach()
    ensures { (c : Config) (w w' : World) (e : Event)
        → Reached every_rule c w
        → Step every_rule c w e w'
        → Reached every_rule c w' }
{}

/// A machine that knows more of its nodes has these laws too. Where each next world, as far as this machine sees it, is a step or no change, each of
/// its worlds is one that is reached.
pub fn paths_are_reached()
    ensures { (c : Config) (worlds : List World)
        → Path c (begin c) worlds
        → Each (Reached every_rule c) worlds }
{}

/// The laws are not empty: a run of two nodes in which a queue member and a plain subscription of the other node both get a message, a repeated frame
/// is refused, and a restart refuses a late one.
pub fn some_run_places_and_refuses()
    ensures { Witness }
{}

/// A frame is taken by its addressee alone.
pub fn addressee_is_needed()
    ensures { AddresseeIsNeeded }
{}

/// A frame is taken by the incarnation that it names alone.
pub fn incarnation_is_needed()
    ensures { IncarnationIsNeeded }
{}

/// A publication number at or below the mark is refused.
pub fn mark_is_needed()
    ensures { MarkIsNeeded }
{}

/// A frame of an origin's incarnation below the greatest seen is refused.
pub fn origin_is_needed()
    ensures { OriginIsNeeded }
{}

/// Only frames that were sent are handed over.
pub fn sent_is_needed()
    ensures { SentIsNeeded }
{}

/// A publication's queue names are split without overlap.
pub fn apart_is_needed()
    ensures { ApartIsNeeded }
{}

/// A publication has one frame for a peer. The headline holds without this rule; `publications_are_routed_once` does not.
pub fn one_frame_is_needed()
    ensures { OneFrameIsNeeded }
{}

/// No turn is issued while a shard is a whole window behind.
pub fn window_is_needed()
    ensures { WindowIsNeeded }
{}

/// A pair that was won is not won again.
pub fn unwon_is_needed()
    ensures { UnwonIsNeeded }
{}

/// A claim places for a member that is open.
pub fn member_is_needed()
    ensures { MemberIsNeeded }
{}

/// A begin places once for each plain subscription.
pub fn once_is_needed()
    ensures { OnceIsNeeded }
{}

/// A start takes a fresh incarnation.
pub fn fresh_is_needed()
    ensures { FreshIsNeeded }
{}

/// A change of interest is taken as the next one alone. Without this rule `views_are_of_origin` breaks.
pub fn next_is_needed()
    ensures { NextIsNeeded }
{}
