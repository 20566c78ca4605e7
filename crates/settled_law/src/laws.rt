//! Laws of settled delivery, each the contract of a function that does nothing.

ghost use Rattle.settled_law.specs.Marks.{MarksStayReached};
ghost use Rattle.settled_law.specs.Exact.{CarriedTestsAreExact, TestsAreExact};
ghost use Rattle.settled_law.specs.Orders.{SomeOrderIsRight};
ghost use Rattle.settled_law.specs.Promise.{CarriedDelivers, SettledDelivers};
ghost use Rattle.settled_law.specs.Rows.{APairSettles};

/// Of every run: a server has taken no publication of an incarnation of another one that runs and has not made it.
pub fn marks_are_reached()
    ensures { MarksStayReached }
{}

/// From a cluster that is settled for a publication, a publish with echo at one of its servers, followed by an order of work,
/// gives each plain subscription that is open and matches one message of it, and each queue name with an open member that
/// matches, anywhere, one as well; and no event of it is refused.
pub fn settled_worlds_deliver()
    ensures { SettledDelivers }
{
    world_law::publications_are_placed_once();
    world_law::servers_are_sound();
    world_law::servers_keep_their_laws();
    world_law::placements_are_one();
    world_law::open_lives_are_subscriptions()
}

/// The tests tell just where a cluster is settled, and where its connections have room.
pub fn tests_are_exact()
    ensures { TestsAreExact }
{
    world_law::servers_are_sound();
    world_law::servers_keep_their_laws();
    world_law::it_rests_on_this()
}

/// And so they do of each world that a value carries, as the code's cluster does.
pub fn carried_tests_are_exact()
    ensures { CarriedTestsAreExact }
{
    tests_are_exact()
}

/// Two servers that join and hear each other are settled once all is heard, and not before; an order of work from there is
/// right, and places a message for each plain subscription and one for the queue name; without the Claim one is missing.
pub fn a_pair_settles()
    ensures { APairSettles }
{}

/// And so in each world that a value carries, as the code's cluster does.
pub fn carried_worlds_deliver()
    ensures { CarriedDelivers }
{
    settled_worlds_deliver()
}

/// Each publication has an order of work that is right: server by server, and shard by shard.
pub fn some_order_is_right()
    ensures { SomeOrderIsRight }
{}
