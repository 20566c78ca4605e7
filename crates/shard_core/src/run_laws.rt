//! What holds of every run of jobs in a shard: laws over the definitions, each the contract of a
//! function that does nothing.

ghost use Rattle.std.specs.Prelude.{ℕ, List};
ghost use Rattle.sub_table.specs.declared.Subscription.{Subscription};
ghost use Rattle.subj.specs.declared.jobs.Job.{Job};
ghost use Rattle.shard_core.specs.Shards.{State, Client};
ghost use Rattle.shard_core.specs.RunAlike.{AlikeByFields, AlikeGoToAll};
ghost use Rattle.shard_core.specs.RunAlike.{RunsGoByReceivers, RunsGoOn};
ghost use Rattle.shard_core.specs.RunExample.{RunByHand};
ghost use Rattle.shard_core.specs.RunNoted.{RunsGoToNoted};
ghost use Rattle.shard_core.specs.RunReceivers.{EntriesGoOn, RunsGoByConns};
ghost use Rattle.shard_core.specs.RunReceivers.{CountsGoOn, RunsCountByReceivers};
ghost use Rattle.shard_core.specs.Runs.{RunsAreWorked};

/// A run delivered at once is its jobs worked one after the other, each by Begin and End. Each job
/// places an entry for everyone who gets it, in order of serials and by the option of the
/// connection; nothing closes; and the shard at the end is the one with the run delivered. So a
/// shard may deliver a run of jobs at once, and its steps are those of one job after the other.
///
/// It is asked that no job is in hand; that the turns of the jobs follow the last one finished;
/// that they have no queue names; that no two connections have one number, and no two open
/// subscriptions one serial; and that whoever gets a job does not reach its maximum by the run, and
/// is of a connection that is not shut and has room for all that the run puts there. The jobs may
/// be of any subjects and publishers.
///
/// It says nothing of jobs with queue names, nor of a run that shuts a connection or closes a
/// subscription: such jobs are worked one by one.
pub fn runs_are_worked()
    ensures { RunsAreWorked }
{}

/// The connections that get something, each once and in any order, each given all its entries of
/// the run, are the connections with the run delivered. So a loop may go over connections, and have
/// done with one before the next.
///
/// It is asked that no two connections have one number, and that whoever gets a job is of one of
/// those given. It says nothing of room: entries are put whether there is any or not.
pub fn runs_go_by_conns()
    ensures { RunsGoByConns }
{}

/// Entries that are put for a connection behind others are one list with them. So a loop that puts
/// one entry after the other has put, wherever it stands, the list so far in one piece.
pub fn entries_go_on()
    ensures { (conn : ℕ) (clients : List Client) → EntriesGoOn conn clients }
{}

/// The receivers, each once and in any order, each counted for all its jobs, are the subscriptions
/// with the run delivered. So a run counts each receiver once, and not job by job.
///
/// It is asked that no two open subscriptions have one serial, that no receiver is given twice,
/// that all of them are open, and that whoever gets a job is among them. It says nothing of maxima:
/// whoever reaches one stays open.
pub fn runs_count_by_receivers()
    ensures { RunsCountByReceivers }
{}

/// One message more that is counted for a subscription behind others is one count with them. So a
/// loop that counts one after the other has counted, wherever it stands, as many as it has seen.
pub fn counts_go_on()
    ensures { (serial : ℕ) (subs : List Subscription) → CountsGoOn serial subs }
{}

/// Of jobs of one subject that the same connections may get, whoever gets one gets them all. So its
/// entries of the run are one of each job, it is counted for as many as there are, and the
/// receivers of the run are found once.
///
/// The jobs may have different replies, header blocks and payloads. Nothing is asked of the shard.
pub fn alike_go_to_all()
    ensures { AlikeGoToAll }
{}

/// The same connections may get two jobs where each goes to its own publisher too, or where they
/// have one publisher and go to it both or neither. So whether jobs are alike is seen from them,
/// without a look at the connections.
pub fn alike_by_fields()
    ensures { (job other : Job) → AlikeByFields job other }
{}

/// Of such jobs, where no two receivers are of one connection: the receivers in order of serials,
/// each given all its entries of the run, are the connections with the run delivered. So a loop may
/// go over the receivers.
///
/// It is asked that no two connections have one number. Where a connection has several receivers,
/// their entries stand job by job, so it is given them together: see [`runs_go_by_conns`].
pub fn runs_go_by_receivers()
    ensures { RunsGoByReceivers }
{}

/// The same of receivers as a shard notes them of a subject, with the head of each message ready:
/// what a connection gets of the run are their entries in two parts. So the notes of a subject
/// serve a whole run.
///
/// For the connections with the run delivered it is asked that no two have one number, and that no
/// two receivers are of one connection. It says nothing of whether what a shard has noted holds.
pub fn runs_go_to_noted()
    ensures { RunsGoToNoted }
{}

/// What a connection gets of a run with one more job is what it gets of the run, and behind it what
/// it gets of the job; and only its own receivers need be looked at. So a loop may go job by job,
/// over the receivers that were found.
pub fn runs_go_on()
    ensures { (s : State) (conn : ℕ) → RunsGoOn s conn }
{}

/// There are such runs: here one of two jobs, the first with a header block, for a connection that
/// takes headers and has two subscriptions, and for one that takes none.
pub fn run_by_hand()
    ensures { RunByHand }
{}
