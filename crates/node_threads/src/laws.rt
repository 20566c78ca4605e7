//! What the states of a server on threads have to do with the server's own step. The call does nothing: its contract
//! is the law.

ghost use Rattle.node_threads.specs.Parts.{SidesAreParts};

/// Whatever step a server makes, its hub and its sessions make the step that [`HubState`] makes at its
/// part of the event, with the last turns that the server's shards finished and with the shard's own
/// deltas; and at an event of a connection or of a shard they stay.
///
/// [`HubState`]: crate::HubState
pub fn sides_are_parts()
    ensures { SidesAreParts }
{}
