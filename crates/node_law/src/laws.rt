//! What holds of every server: laws over the definitions.

ghost use Rattle.node_law.specs.Race.{RaceFollows};
ghost use Rattle.node_law.specs.AsLaw.{NodeFollows, StaysSound};
ghost use Rattle.node_law.specs.Runs.{RunsStaySound};
ghost use Rattle.node_law.specs.HubsSound.{HubsStaySound};
ghost use Rattle.node_law.specs.Outboxes.{OutboxesAreKnown};
ghost use Rattle.node_law.specs.PeersKept.{KeepsPeers};
ghost use Rattle.node_law.specs.CountsOpen.{CountsStayOpen};
ghost use Rattle.node_law.specs.EachShard.{ShardsStayHeld};
ghost use Rattle.node_law.specs.PlacedOnce.{PlacesOnce, PutsOnce};
ghost use Rattle.node_law.specs.Promises.{OneServerKeeps};
ghost use Rattle.node_law.specs.OneServer.{ClaimsPlace, EndedTurns, OneJob, OneWinner, TurnsAreFresh};

/// Each call of a race is a move of the cluster law's race: over the window, the same pairs are won.
pub fn races_follow_the_law()
    ensures { RaceFollows }
{}

/// Each step of a sound server is a step of the cluster law's node: what it publishes and sends, which jobs it makes, what
/// opens and what closes, and which messages it places for which subscriptions.
pub fn servers_follow_the_law()
    ensures { NodeFollows }
{}

/// A sound server stays so over each step: jobs are begun in order of their turns, no shard is more than a window behind,
/// open serials are apart, and the shards keep their numbers.
pub fn servers_stay_sound()
    ensures { StaysSound }
{}

/// A server is sound at its start, and so at each point of each run from there.
pub fn runs_stay_sound()
    ensures { RunsStaySound }
{}

/// Of the claims of one queue name of a job that were answered, over all shards, exactly one is won where any had a
/// candidate, and none otherwise.
pub fn queue_names_have_one_winner()
    ensures { OneWinner }
{}

/// Nothing is won in a turn that was not issued.
pub fn turns_are_fresh()
    ensures { TurnsAreFresh }
{}

/// A claim that is won puts one message, for its candidate, behind what waits for that connection; a claim that is lost or has
/// no candidate puts none; and no claim puts anything else, at any shard.
pub fn claims_place()
    ensures { ClaimsPlace }
{}

/// Each turn that is issued has one job, the same in all shards: each claim and each end of a turn is of that job, so that an
/// index of a turn is one queue name.
pub fn turns_have_one_job()
    ensures { OneJob }
{}

/// A shard that made its end of a turn made exactly one claim of each queue name of the turn's job.
pub fn ended_turns_have_each_claim_once()
    ensures { EndedTurns }
{}

/// A peer is up at an incarnation just where a kept session with it has that incarnation, which is the greatest seen of the
/// peer; and no two sessions are kept with one peer.
pub fn peers_are_kept()
    ensures { KeepsPeers }
{}

/// Of each key the hub's count, together with what the shards have still to tell it, is the number of the open
/// subscriptions. So a Collect is never refused for its deltas: each shard keeps within its share of the server's limits.
pub fn counts_are_open()
    ensures { CountsStayOpen }
{
    interest::openings_are_counted();
    interest::counts_and_changes_agree()
}

/// Over a whole run and all shards, what is placed for one queue name of a turn is one message where any of its claims had a
/// candidate, and none otherwise.
pub fn queue_messages_are_placed_once()
    ensures { PlacesOnce }
{}

/// Of each connection, since it was attached: what was taken from its outbox and what waits there are the replies put for it
/// and the messages owed to it, in order, and behind them its last line, just where it is shut.
pub fn outboxes_are_known()
    ensures { OutboxesAreKnown }
{}

/// Over a whole run and all shards, whatever the events, at most one message is put for a queue name of a turn, where that
/// stands at most once among the queue names of the turn's job.
pub fn queue_messages_are_put_once()
    ensures { PutsOnce }
{}

/// Of every run whose INFO and CONNECT tell incarnations from 1 on: no route outbox has more frames than its limit, whoever is
/// up was seen, the server itself is never up, and each kept session is with another server of the cluster.
pub fn hubs_stay_sound()
    ensures { HubsStaySound }
{
    hub_core::sound_hubs_stay_sound()
}

/// Of every run: in each shard each open subscription is of a connection that takes events, and has got fewer messages than its
/// maximum, where it has one; and the numbers of the shard's connections tell its place.
pub fn shards_stay_held()
    ensures { ShardsStayHeld }
{}

/// One server end to end, of all that it did since its start: of the claims of one queue name of a job exactly one is won and
/// placed where any had a candidate, and none otherwise; a shard that ended a turn made one claim of each queue name of the turn's
/// one job; each outbox gave and has just the replies and the owed messages, and the last line of a connection that is shut; counts
/// and what is still to tell are the open subscriptions; and a peer is up just where a session with it is kept.
pub fn servers_keep_their_promises()
    ensures { OneServerKeeps }
{
    queue_names_have_one_winner();
    queue_messages_are_placed_once();
    ended_turns_have_each_claim_once();
    turns_have_one_job();
    outboxes_are_known();
    counts_are_open();
    peers_are_kept();
}
