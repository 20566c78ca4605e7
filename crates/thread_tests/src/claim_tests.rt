//! Two threads claim one index.

ghost use Rattle.std.specs.Prelude.{◌≡◌, IfOk};
ghost use Rattle.thread_tests.specs.Claims.{AreTwo};

use claim_cells::{Cells, Closed, HubSeat, ShardSeat};
use std::alloc::Global;
use std::process::Abort;
use std::test::Fail;
use std::thread::{Threads, join};
use subj::{MAX_COUNTER, Turn};

/// The shard sees its turn, claims index 0 in it where it may, and ends it: whether it won.
fn claims_first(cells: &Cells, seat: &mut ShardSeat) -> bool
    requires { seat.old.race ≡ cells.now }
    ensures race { seat.new.race ≡ seat.old.race }
    ensures shard { seat.new.part.shard ≡ seat.old.part.shard }
{
    cells.see(seat);
    if !seat.has_turn() || seat.next_index() > 0 {
        return false;
    }
    let won = cells.claim(seat, 0);
    if !seat.has_turn() || seat.next_index() != 1 {
        return false;
    }
    cells.finish(seat);
    won
}

/// A race of two shards, the hub's seat, and the seats of shards 1 and 2.
fn two_shards(alloc: Global) -> Result<(Cells, HubSeat, ShardSeat, ShardSeat), Fail>
    ensures { IfOk result (λ t. AreTwo t.0 t.1 t.2 t.3) }
{
    let (cells, hub, mut seats) = Cells::new(alloc, 2)?;
    let second = seats.pop().unwrap();
    let first = seats.pop().unwrap();
    Ok((cells, hub, first, second))
}

/// Ends the race; the seats are handed in out of their order.
fn end_of_two(
    alloc: Global,
    cells: Cells,
    hub: HubSeat,
    first: ShardSeat,
    second: ShardSeat,
) -> Result<Closed, Fail>
    requires { AreTwo cells hub first second }
{
    let mut seats = Vec::with_capacity(alloc, 2)?;
    seats.push(second)?;
    seats.push(first)?;
    Ok(cells.close(hub, seats)?)
}

/// Issues the first turn.
fn issue_first(rt: &impl Abort, cells: &Cells, hub: &mut HubSeat)
    requires { hub.old.race ≡ cells.now }
    ensures { hub.new.race ≡ hub.old.race }
{
    assert!(rt; hub.issued().get() < MAX_COUNTER);
    assert!(rt; cells.issue(hub).is_ok_and(|turn| turn.get() == 1));
}

/// A race that two threads ran, each with a seat of its own, in the one turn that was issued: whether the
/// first shard won, whether the second did, and what was left.
fn two_threads<R: Abort + Threads>(rt: &R, alloc: Global) -> Result<(bool, bool, Closed), Fail> {
    let (cells, mut hub, first, second) = two_shards(alloc)?;
    issue_first(rt, &cells, &mut hub);
    let race = &cells;
    let ((first_won, first), (second_won, second)) = join(
        rt,
        move || -> (bool, ShardSeat)
            requires { first.race ≡ race.now }
            ensures { (result.1.race ≡ race.entry.now) × (result.1.part.shard ≡ first.part.shard) }
        {
            let mut seat = first;
            (claims_first(race, &mut seat), seat)
        },
        move || -> (bool, ShardSeat)
            requires { second.race ≡ race.now }
            ensures { (result.1.race ≡ race.entry.now) × (result.1.part.shard ≡ second.part.shard) }
        {
            let mut seat = second;
            (claims_first(race, &mut seat), seat)
        },
    );
    let closed = end_of_two(alloc, cells, hub, first, second)?;
    Ok((first_won, second_won, closed))
}

/// One turn was issued and ended by both, and its index 0 won.
fn assert_won_once(rt: &impl Abort, closed: &Closed) {
    let first = Turn::new(1).expect(rt, "a turn");
    assert_eq!(rt; closed.issued.get(), 1);
    assert!(rt; closed.finished.of(1).get() == 1 && closed.finished.of(2).get() == 1);
    assert_eq!(rt; closed.cell(first, 0).get(), 1);
}

/// One of two threads wins.
fn one_wins<R: Abort + Threads>(rt: &R, alloc: Global) -> Result<(), Fail> {
    let (first_won, second_won, closed) = two_threads(rt, alloc)?;
    assert!(rt; first_won != second_won);
    assert_won_once(rt, &closed);
    Ok(())
}

#[test]
fn two_threads_claim_one_index(rt: HostRuntime) -> Result<(), Fail> {
    for _ in 0..2_500 {
        one_wins(&rt, rt.alloc())?;
    }
    Ok(())
}
