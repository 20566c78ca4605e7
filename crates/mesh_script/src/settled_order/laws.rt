//! A law of what is placed, the contract of a function that does nothing.

ghost use Rattle.mesh_script.specs.Counted.{PlacementsAreTold};

/// Of every run: each step adds just as many placements as its outcome tells: a begin those that it placed, a claim that won one, and all
/// else none.
pub fn placements_are_told()
    ensures { PlacementsAreTold }
{
    world_law::servers_are_sound();
    world_law::placements_are_one();
    world_law::puts_are_placed()
}
