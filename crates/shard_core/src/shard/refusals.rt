//! Why a shard refuses: the first cause, told without a step. No test takes memory.

ghost use Rattle.std.specs.Prelude.{◌≡◌, ⊤, false};
ghost use Rattle.subj.specs.Answers.{IsDecided};
ghost use Rattle.shard_core.specs.Answers.{Opens};
ghost use Rattle.shard_core.specs.ShardEvents.{Attach, Subscribe, Begin, Claim, End, Drain};
ghost use Rattle.shard_core.specs.ShardSteps.{shard_refusal, open_refusal, known_refusal, sub_called as call};

use super::{Shard, is_full};
use crate::faults::ShardFault;
use sub_table::SubTable;
use subj::{ConnId, Job, Key, MAX_COUNTER, MAX_SERIAL, Sid};

impl<T: SubTable> Shard<T> {
    /// Why [`Shard::attach`] refuses.
    pub fn attach_fault(&self) -> Option<ShardFault>
        ensures { result ≡ shard_refusal self.now.state Attach }
    {
        (self.next_conn > MAX_COUNTER).then_some(ShardFault::Spent)
    }

    /// The serial of the subscription that [`Shard::subscribe`] opens; none where the connection has one of this id
    /// open. Refused as that call is.
    pub(super) fn serial_for(
        &self,
        conn: ConnId,
        key: &Key,
        sid: &Sid,
    ) -> Result<Option<u64>, ShardFault>
        ensures { IsDecided (shard_refusal self.now.state (Subscribe conn key.now sid.now))
            (λ serial. Opens self.now.state (call conn sid.now self.now.state.subs) serial) ⊤
            result }
    {
        if !self.conns.is_open(conn) {
            return Err(ShardFault::NoConn);
        }
        if self.draining {
            return Err(ShardFault::Draining);
        }
        let table = self.openings.table();
        if table.find(conn, sid).is_some() {
            return Ok(None);
        }
        if is_full(table, self.shards, key) {
            return Err(ShardFault::TooManySubs);
        }
        if self.opened >= MAX_SERIAL {
            return Err(ShardFault::Spent);
        }
        Ok(Some(self.opened + 1))
    }

    /// Why [`Shard::subscribe`] refuses.
    pub fn subscribe_fault(&self, conn: ConnId, key: &Key, sid: &Sid) -> Option<ShardFault>
        ensures { result ≡ shard_refusal self.now.state (Subscribe conn key.now sid.now) }
    {
        match self.serial_for(conn, key, sid) {
            Ok(_) => None,
            Err(fault) => Some(fault),
        }
    }

    /// Why [`Shard::drain`] refuses.
    pub fn drain_fault(&self) -> Option<ShardFault>
        ensures { result ≡ shard_refusal self.now.state Drain }
    {
        self.draining.then_some(ShardFault::Draining)
    }

    /// Why a call for a connection is refused that must be there and not shut: [`Shard::unsubscribe`],
    /// [`Shard::reply`], [`Shard::set_headers`] and [`Shard::shut`].
    pub fn open_fault(&self, conn: ConnId) -> Option<ShardFault>
        ensures { result ≡ open_refusal self.now.state conn }
    {
        (!self.conns.is_open(conn)).then_some(ShardFault::NoConn)
    }

    /// Why a call for a connection is refused that must be there: [`Shard::detach`] and [`Shard::take`].
    pub fn known_fault(&self, conn: ConnId) -> Option<ShardFault>
        ensures { result ≡ known_refusal self.now.state conn }
    {
        (!self.conns.is_known(conn)).then_some(ShardFault::NoConn)
    }

    /// Why [`Shard::begin`] refuses.
    pub fn begin_fault(&self, job: &Job) -> Option<ShardFault>
        ensures { result ≡ shard_refusal self.now.state (Begin job.now) }
    {
        if self.hand.is_some() {
            return Some(ShardFault::JobInHand);
        }
        (job.turn.get() != self.finished.get() + 1).then_some(ShardFault::WrongTurn)
    }

    /// Why [`Shard::candidate`] refuses.
    pub fn claim_fault(&self, index: u64) -> Option<ShardFault>
        ensures { result ≡ shard_refusal self.now.state (Claim index false) }
    {
        let Some(job) = &self.hand else {
            return Some(ShardFault::NoJob);
        };
        let names = job.queues.as_slice();
        (index != self.next_index || index >= names.len() as u64).then_some(ShardFault::BadIndex)
    }

    /// Why [`Shard::end`] refuses.
    pub fn end_fault(&self) -> Option<ShardFault>
        ensures { result ≡ shard_refusal self.now.state End }
    {
        let Some(job) = &self.hand else {
            return Some(ShardFault::NoJob);
        };
        let names = job.queues.as_slice();
        (self.next_index != names.len() as u64).then_some(ShardFault::NotAllTried)
    }
}
