//! What callers ask, as the events that their passes keep: copies, where calls are written down.

ghost use Rattle.std.specs.Prelude.{◌≡◌, Some, None, cond, IfOk};
ghost use Rattle.node_law.specs.declared.events.ConnEvent.TheVariants.{Reply, Subscribe, Unsubscribe};
ghost use Rattle.node_law.specs.declared.events.NodeEvent.TheVariants.{Own, Receive};
ghost use Rattle.node_law.specs.declared.events.OwnEvent.TheVariants.{OfConn, Publish};

use client_frames::ReplyFrame;
use node_law::{ConnEvent, NodeEvent, OwnEvent};
use route_values::Numbered;
use std::alloc::{AllocError, Global};
use subj::{ConnId, Key, Pub, Sid};
use thread_node::copy_of_pub;

/// An event, where calls are written down.
pub(crate) fn event_if(keep: bool, event: NodeEvent) -> Option<NodeEvent>
    ensures { result ≡ cond keep (Some event) None }
{
    keep.then_some(event)
}

/// What is asked for a connection, where calls are written down.
pub(crate) fn conn_event_if(keep: bool, conn: ConnId, event: ConnEvent) -> Option<NodeEvent>
    ensures { result ≡ cond keep (Some (Own (OfConn conn event))) None }
{
    event_if(keep, NodeEvent::Own(OwnEvent::OfConn { conn, event }))
}

/// An answer, where calls are written down.
pub(crate) fn reply_event(
    keep: bool,
    conn: ConnId,
    frame: &ReplyFrame,
) -> Result<Option<NodeEvent>, AllocError>
    ensures { IfOk result (λ event.
        event ≡ cond keep (Some (Own (OfConn conn (Reply frame.now)))) None) }
{
    if !keep {
        return Ok(None);
    }
    let frame = frame.try_clone()?;
    Ok(conn_event_if(keep, conn, ConnEvent::Reply { frame }))
}

/// A publication, where calls are written down.
pub(crate) fn publish_event(
    keep: bool,
    conn: ConnId,
    publication: &Pub,
    word: u64,
) -> Result<Option<NodeEvent>, AllocError>
    ensures { IfOk result (λ event.
        event ≡ cond keep (Some (Own (Publish conn publication.now word))) None) }
{
    if !keep {
        return Ok(None);
    }
    let publication = copy_of_pub(publication).ok_or(AllocError)?;
    Ok(Some(NodeEvent::Own(OwnEvent::Publish {
        conn,
        publication,
        word,
    })))
}

/// A frame of a peer, where calls are written down.
pub(crate) fn receive_event(
    alloc: Global,
    keep: bool,
    frame: &Numbered,
) -> Result<Option<NodeEvent>, AllocError>
    ensures { IfOk result (λ event. event ≡ cond keep (Some (Receive frame.now)) None) }
{
    if !keep {
        return Ok(None);
    }
    Ok(Some(NodeEvent::Receive(frame.try_clone(alloc)?)))
}

/// A subscribe, where calls are written down.
pub(crate) fn subscribe_event(
    alloc: Global,
    keep: bool,
    conn: ConnId,
    key: &Key,
    sid: &Sid,
) -> Result<Option<NodeEvent>, AllocError>
    ensures { IfOk result (λ event.
        event ≡ cond keep (Some (Own (OfConn conn (Subscribe key.now sid.now)))) None) }
{
    if !keep {
        return Ok(None);
    }
    let key = key.try_clone(alloc)?;
    let sid = sid.try_clone(alloc)?;
    Ok(conn_event_if(keep, conn, ConnEvent::Subscribe { key, sid }))
}

/// An unsubscribe, where calls are written down.
pub(crate) fn unsubscribe_event(
    alloc: Global,
    keep: bool,
    conn: ConnId,
    sid: &Sid,
    max: Option<u64>,
) -> Result<Option<NodeEvent>, AllocError>
    ensures { IfOk result (λ event.
        event ≡ cond keep (Some (Own (OfConn conn (Unsubscribe sid.now max)))) None) }
{
    if !keep {
        return Ok(None);
    }
    let sid = sid.try_clone(alloc)?;
    Ok(conn_event_if(keep, conn, ConnEvent::Unsubscribe { sid, max }))
}
