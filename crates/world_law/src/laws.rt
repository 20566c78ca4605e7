//! What holds of every cluster: laws over the definitions, each the contract of a function that does nothing.

ghost use Rattle.std.specs.Prelude.{List};
ghost use Rattle.node_law.specs.Sound.{SoundNode};
ghost use Rattle.world_law.specs.Changes.{EntriesWerePut, PlacementsAreOne};
ghost use Rattle.world_law.specs.Echo.{EchoesAreKept};
ghost use Rattle.world_law.specs.Events.{Event};
ghost use Rattle.world_law.specs.Waiting.{WaitsAreKept};
ghost use Rattle.world_law.specs.Sources.{PublicationsAreCounted};
ghost use Rattle.world_law.specs.Lives.{LivesAreOpen, LivesCloseByCause};
ghost use Rattle.world_law.specs.Headline.{IsCluster, Headline, Names, EachUp, AreSent};
ghost use Rattle.world_law.specs.OwnRuns.{EachHasRun, EachKeepsItsLaws};
ghost use Rattle.world_law.specs.Outcomes.{Outcome};
ghost use Rattle.world_law.specs.Play.{NoneAhead, PutsArePlaced, next, outcome, outcomes_of_events, world_after_events};
ghost use Rattle.world_law.specs.RestsOn.{RunsRestOn, FinishedStays, CameSo};
ghost use Rattle.world_law.specs.State.{Cluster, World, new_world, server_at};
ghost use Rattle.world_law.specs.Steps.{Run, WorldStep, Answers, Carried};
ghost use Rattle.world_law.specs.Printed.{WritesARestart, WritesStartsAndStops, WritesCrossedDials, WritesClaims, WritesOwnMessages, WritesConnections, WritesTwoWords, WritesAStaleMessage, WritesACut, ScriptsAreRuns};
ghost use Rattle.world_law.specs.Scripts.{ARestart, TwoShards, AFullWindow, ALowerIncarnation, ASnapshot, TwoForms};

/// The headline. Over every list of publishes, subscribes, unsubscribes, route deliveries, losses, repeats, late frames,
/// cuts and restarts, each publication is placed at most once for a plain subscription and, for a queue name, in at most
/// one member's outbox in the whole cluster; whatever is placed is the exact `MSG` or `HMSG` of its publication (`HMSG` just
/// where that has headers and the connection took them at that step), for a subscription that matched and was open at that
/// step; and of one subscription the publications of one incarnation come in rising number. And it is said of all that servers
/// put: whatever a step puts, for whichever subscriptions, is what that step places,
/// so that no run is left out.
pub fn publications_are_placed_once()
    ensures once { (c : Cluster)
        → IsCluster c
        → (events : List Event) (w : World)
        → Run c (new_world c) events w
        → Headline w }
    ensures puts { PutsArePlaced }
{
    shard_core::entries_are_put();
    node_law::servers_follow_the_law();
    node_law::servers_stay_sound();
    cluster_law::publications_are_placed_once()
}

/// Of the same runs: no two publications have one name, nor two subscriptions, over all servers and incarnations.
pub fn names_are_unique()
    ensures { (c : Cluster)
        → IsCluster c
        → (events : List Event) (w : World)
        → Run c (new_world c) events w
        → Names w }
{
    shard_core::entries_are_put();
    node_law::servers_follow_the_law();
    node_law::servers_stay_sound();
    cluster_law::names_are_unique()
}

/// Of the same runs: each server that is up is sound. In each of its shards the job in hand is that of the next turn, the
/// jobs that wait follow turn by turn up to the last one issued, and no shard is more than a window behind.
pub fn servers_are_sound()
    ensures { (c : Cluster)
        → IsCluster c
        → (events : List Event) (w : World)
        → Run c (new_world c) events w
        → EachUp (λ n a. SoundNode (server_at c n a.inc) a.node) w }
{
    shard_core::entries_are_put();
    node_law::servers_follow_the_law();
    node_law::servers_stay_sound()
}

/// Of the same runs, what the headline rests on. A publication has a name of its own. It has at most one message for a
/// server, and so for one incarnation of it, and makes at most one job at a server, over all its incarnations. A queue name of
/// it stands in at most one of its messages, in at most one of its jobs, and not in both a message and the job at its own
/// server: each is served at one server. Each message and each job has the id and the content of a publication that was made, and its
/// queue names are apart. Each view of a server is what the incarnation seen told by as many of its changes of
/// interest as the mark says. And in each shard's line a job stands once, and none of a finished turn. Jobs and changes of
/// interest are those that the run made.
pub fn it_rests_on_this()
    ensures { RunsRestOn }
{
    shard_core::entries_are_put();
    node_law::servers_follow_the_law();
    node_law::servers_stay_sound();
    cluster_law::names_are_unique();
    cluster_law::publications_are_routed_once();
    cluster_law::views_are_of_origin()
}

/// And as long as an incarnation runs, no shard's finished turns become fewer: a finished turn never comes again.
pub fn finished_turns_stay()
    ensures { FinishedStays }
{
    shard_core::entries_are_put();
    node_law::servers_follow_the_law();
    node_law::servers_stay_sound();
    cluster_law::finished_turns_stay()
}

/// What a cluster can carry along with its lists: that some run ends in it. It holds at first.
pub fn new_worlds_are_carried()
    ensures { (c : Cluster) → Carried c (new_world c) }
{}

/// Each step keeps it.
pub fn steps_keep_worlds_carried()
    ensures { (c : Cluster) (w : World) (e : Event) (outcome : Outcome) (w' : World)
        → WorldStep c w e outcome w'
        → Carried c w
        → Carried c w' }
{}

/// It says the headline, where no two servers have one name; and so it says whatever holds of every run.
pub fn carried_worlds_keep_the_headline()
    ensures { (c : Cluster) → IsCluster c → (w : World) → Carried c w → ∥ Headline w ∥₁ }
{
    publications_are_placed_once()
}

/// And what the headline rests on, of the run that ends here.
pub fn carried_worlds_rest_on_this()
    ensures { (c : Cluster) → IsCluster c → (w : World) → Carried c w → ∥ CameSo c w ∥₁ }
{
    it_rests_on_this()
}

/// Each event has a step in every world where no server's race has a win in a turn that is not issued: the step of the
/// program on lists, with the outcome that it tells. So no rule contradicts another, and each event is refused or done.
pub fn each_event_has_a_step()
    ensures { (c : Cluster) (w : World) (e : Event)
        → EachUp (λ n a. NoneAhead a.node.race) w
        → WorldStep c w e (outcome c w e) (next c w e) }
{
    shard_core::entries_are_put()
}

/// Every world that a run reaches is one of those.
pub fn each_event_goes_on()
    ensures { (c : Cluster)
        → IsCluster c
        → (events : List Event) (w : World)
        → Run c (new_world c) events w
        → (e : Event)
        → WorldStep c w e (outcome c w e) (next c w e) }
{
    shard_core::entries_are_put();
    node_law::servers_follow_the_law();
    node_law::servers_stay_sound()
}

/// So every list of events is a run, with the outcomes that the program on lists tells and to the world that it ends in.
pub fn every_list_is_a_run()
    ensures { (c : Cluster)
        → IsCluster c
        → (events : List Event)
        → Answers c (new_world c) events (outcomes_of_events c (new_world c) events)
        (world_after_events c (new_world c) events) }
{
    shard_core::entries_are_put();
    node_law::servers_follow_the_law();
    node_law::servers_stay_sound()
}

/// Of every run: each frame that a take from a peer gives was sent, so it is one of those that may be handed over.
pub fn taken_frames_were_sent()
    ensures { (c : Cluster) (events : List Event) (w : World)
        → Run c (new_world c) events w
        → AreSent w }
{}

/// Of every step of a server: what stands new in an outbox, behind what waited, is just what the event puts there, in
/// order. That is the messages it gives, the reply that it hands in, and the last lines of the connections that it shuts.
pub fn new_entries_were_put()
    ensures { EntriesWerePut }
{
    shard_core::entries_are_put()
}

/// Of every step of a server: what waits for a connection after it is what the event keeps of what waited before, entry for
/// entry, and behind it just what the event puts there. A take keeps what its client did not take, a connection that goes
/// keeps nothing, and all else keeps all.
pub fn waiting_entries_are_kept()
    ensures { WaitsAreKept }
{
    shard_core::entries_are_put()
}

/// Of a sound server: what a step adds to the placements is one list, found in the outboxes before and after it. Of each
/// connection it has the new messages, in their order, and all stand in the order of their subscriptions.
pub fn placements_are_one()
    ensures { PlacementsAreOne }
{}

/// Of every step of a server: that list is the messages that the event puts, in the order of putting.
pub fn puts_are_placed()
    ensures { PutsArePlaced }
{
    shard_core::entries_are_put()
}

/// Of every run: each server that is up came to its state by a run of its own from its start in this incarnation. So what
/// holds of every run of a server (`node_law::queue_names_have_one_winner` and its siblings) holds of it.
pub fn each_server_ran()
    ensures { EachHasRun }
{}

/// And so of every run, each server that is up keeps over its own run all that one server promises: one winner for each queue
/// name of each turn, placed once, in the turn's one job; ended turns; outboxes that hold what was put and not taken; counts of
/// what is open; and peers that are up just where a session is kept. Its hub is sound, and each of its shards keeps its open
/// subscriptions and the numbers of its connections.
pub fn servers_keep_their_laws()
    ensures { EachKeepsItsLaws }
{
    node_law::servers_keep_their_promises();
    node_law::hubs_stay_sound();
    node_law::shards_stay_held()
}

/// Of every run: the publications of one incarnation of a server have the numbers 1, 2, 3, .. in order, and none is left out.
pub fn publications_are_counted()
    ensures { PublicationsAreCounted }
{}

/// Of every run: a message of a publication without echo, at the server that took it, is for another connection than the one that
/// published.
pub fn echo_is_kept()
    ensures { EchoesAreKept }
{
    puts_are_placed();
    names_are_unique()
}

/// Of every run: each life that has not closed is a subscription that is open, of the same connection, key and sid, in a shard of
/// its server, which is up in its incarnation.
pub fn open_lives_are_subscriptions()
    ensures { LivesAreOpen }
{
    node_law::shards_stay_held()
}

/// Of every run: a step of a server closes just the lives for whose subscriptions its event is a cause: the detach or the shut of
/// the connection, also for want of room; an unsubscribe, at once or with as many messages delivered; or the message that reaches
/// the maximum. With a server that stops all of its lives close. No other event closes any.
pub fn lives_close_by_cause()
    ensures { LivesCloseByCause }
{
    node_law::shards_stay_held()
}

/// Two servers with one member of a queue group: a message reaches it once; the frame handed over again is late, and
/// after a restart it is for an incarnation that is no more.
pub fn a_restart_refuses_old_frames()
    ensures { ARestart }
{}

/// One server of two shards: of two members of one group one gets each message; a maximum is kept; and each refusal
/// comes in its order, the cluster's own too.
pub fn two_shards_share_a_group()
    ensures { TwoShards }
{}

/// A server takes a window of publishes, and the next one once each shard has done with the first of them.
pub fn a_full_window_refuses_publishes()
    ensures { AFullWindow }
{}

/// A server may start with an incarnation below an earlier one, and its peers refuse it; and there are no frames but
/// those that were sent.
pub fn a_lower_incarnation_is_refused()
    ensures { ALowerIncarnation }
{}

/// What is not collected yet is in no snapshot; of one message the placements stand in the order of their subscriptions; and a
/// frame for another server is refused.
pub fn a_snapshot_tells_what_was_collected()
    ensures { ASnapshot }
{}

/// Of two subscriptions to one publication with a header block, that of the connection that takes headers gets `HMSG`, and the
/// other one `MSG`; once the connection takes none any more, both get `MSG`.
pub fn headers_go_where_they_are_taken()
    ensures { TwoForms }
{}

/// What is written of the events of the first script, line by line.
pub fn a_restart_is_written()
    ensures { WritesARestart }
{}

/// What is written of servers that are up, that are down, and that were up in an incarnation before.
pub fn starts_and_stops_are_written()
    ensures { WritesStartsAndStops }
{}

/// What is written where two servers dial each other at once: both keep the session that the first one dialed, until it
/// dials again.
pub fn crossed_dials_are_written()
    ensures { WritesCrossedDials }
{}

/// What is written where two shards claim one queue name, and where nobody is left there.
pub fn claims_are_written()
    ensures { WritesClaims }
{}

/// What is written of a publication without echo: it comes to nobody on its own connection, and to all others.
pub fn own_messages_are_written()
    ensures { WritesOwnMessages }
{}

/// What is written of the connections of two shards: each has the number that tells its shard.
pub fn connections_are_written()
    ensures { WritesConnections }
{}

/// What is written where the word of a publication picks the one of two servers, and the other.
pub fn two_words_are_written()
    ensures { WritesTwoWords }
{}

/// What is written of a message of an earlier life of its server, behind one of the later life.
pub fn a_stale_message_is_written()
    ensures { WritesAStaleMessage }
{}

/// What is written where a session is cut: what waits for the peer stays, until it is up again.
pub fn a_cut_is_written()
    ensures { WritesACut }
{}

/// Each closed script is a run of the exact cluster, to the world that it ends in: so the headline and all that holds of
/// every run holds of it.
pub fn scripts_are_runs()
    ensures { ScriptsAreRuns }
{
    every_list_is_a_run()
}
