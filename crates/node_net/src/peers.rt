//! Over which connections the other servers of the cluster are reached, and when they are dialed again.

ghost use Rattle.std.specs.Prelude.{◌≡◌, ◌*◌, min};

use crate::limits::{FIRST_PAUSE, LAST_PAUSE, STOOD};
use std::alloc::{AllocError, Global};
use subj::{NodeId, ServerIdentity as Life};

/// What leads to one other server.
#[derive(Clone, Copy)]
struct PeerLink {
    /// The connection whose session is kept.
    kept: Option<usize>,
    /// The connection that this server has dialed, while its session is not complete.
    dialed: Option<usize>,
}

/// What leads to each server of the cluster, by its place.
#[derive(Drop)]
pub(crate) struct Peers {
    links: Vec<PeerLink>,
}

/// The name of the server at this place of the cluster.
pub(crate) fn name_at(life: &Life, place: usize) -> Option<NodeId> {
    life.names().get(place).copied()
}

/// Whether it is this connection.
fn is_at(place: Option<usize>, key: usize) -> bool {
    place == Some(key)
}

impl Peers {
    /// Nothing leads to any of so many.
    pub fn new(alloc: Global, count: usize) -> Result<Peers, AllocError> {
        let mut links = Vec::with_capacity(alloc, count)?;
        for _place in 0..count {
            links.push(PeerLink {
                kept: None,
                dialed: None,
            })?;
        }
        Ok(Peers { links })
    }

    /// How many servers the cluster has.
    pub fn count(&self) -> usize {
        self.links.len()
    }

    /// The connection whose session with the server at this place is kept.
    pub fn kept_connection(&self, place: usize) -> Option<usize> {
        self.links.get(place)?.kept
    }

    /// The place of the server whose session with this connection is kept.
    pub fn place_of(&self, key: usize) -> Option<usize> {
        for (place, link) in self.links.iter().enumerate() {
            if is_at(link.kept, key) {
                return Some(place);
            }
        }
        None
    }

    /// The name of the server that this connection dials.
    pub fn dialed_name(&self, key: usize, life: &Life) -> Option<NodeId> {
        for (place, link) in self.links.iter().enumerate() {
            if is_at(link.dialed, key) {
                return name_at(life, place);
            }
        }
        None
    }

    /// Whether another server stands at this place that is not reached and is not being dialed.
    pub fn is_missing(&self, life: &Life, place: usize) -> bool {
        match self.links.get(place) {
            None => false,
            Some(link) => life.is_peer(place) && link.kept.is_none() && link.dialed.is_none(),
        }
    }

    /// The connection dials the server at this place.
    pub fn dial(&mut self, place: usize, key: usize) {
        if let Some(link) = self.links.get_mut(place) {
            link.dialed = Some(key);
        }
    }

    /// The session of the connection with the server at this place is kept. Gives the connection that was
    /// kept before.
    pub fn keep(&mut self, place: usize, key: usize) -> Option<usize> {
        let link = self.links.get_mut(place)?;
        if is_at(link.dialed, key) {
            link.dialed = None;
        }
        let old = link.kept;
        link.kept = Some(key);
        match old {
            Some(old) if old != key => Some(old),
            _ => None,
        }
    }

    /// The connection is gone. The place of the server whose session with it was kept.
    pub fn lose(&mut self, key: usize) -> Option<usize> {
        let mut lost = None;
        for (place, link) in self.links.iter_mut().enumerate() {
            if is_at(link.kept, key) {
                link.kept = None;
                lost = Some(place);
            }
            if is_at(link.dialed, key) {
                link.dialed = None;
            }
        }
        lost
    }
}

/// When a server is dialed next. Times are milliseconds since the loop began.
#[derive(Clone, Copy)]
struct Redial {
    at: u64,
    pause: u64,
    /// Since when it is reached, where it is.
    since: Option<u64>,
}

/// How long the pause behind one of so many milliseconds is: twice as long, and no longer than [`LAST_PAUSE`].
fn next_pause(pause: u64) -> u64
    ensures { result ≡ min (2 * pause) 700 }
{
    pause.saturating_mul(2).min(LAST_PAUSE)
}

/// When each server of the cluster is dialed next.
#[derive(Drop)]
pub(crate) struct Redials {
    redials: Vec<Redial>,
}

impl Redials {
    /// There are none.
    pub fn new(alloc: Global) -> Redials {
        Redials {
            redials: Vec::new(alloc),
        }
    }

    /// So many more may be dialed, all at once.
    pub fn start(&mut self, count: usize) -> Result<(), AllocError> {
        for _place in 0..count {
            self.redials.push(Redial {
                at: 0,
                pause: FIRST_PAUSE,
                since: None,
            })?;
        }
        Ok(())
    }

    /// When the server at this place may be dialed.
    pub fn due(&self, place: usize) -> u64 {
        match self.redials.get(place) {
            None => u64::MAX,
            Some(redial) => redial.at,
        }
    }

    /// All servers may be dialed at once, and the pauses begin anew.
    pub fn hurry(&mut self) {
        for redial in &mut self.redials {
            redial.at = 0;
            redial.pause = FIRST_PAUSE;
        }
    }

    /// The server at this place is dialed now: the pause before the next time is twice as long.
    pub fn dial(&mut self, place: usize, now: u64) {
        if let Some(redial) = self.redials.get_mut(place) {
            redial.at = now.saturating_add(redial.pause);
            redial.pause = next_pause(redial.pause);
        }
    }

    /// The server at this place is reached now, or is not. Once it was reached for [`STOOD`] it is
    /// dialed at once where it is lost, and before only after the pause: its other end may refuse each route.
    pub fn look(&mut self, place: usize, now: u64, is_reached: bool) {
        let Some(redial) = self.redials.get_mut(place) else {
            return;
        };
        if !is_reached {
            redial.since = None;
            return;
        }
        let since = redial.since.unwrap_or(now);
        redial.since = Some(since);
        if now.saturating_sub(since) >= STOOD {
            redial.at = 0;
            redial.pause = FIRST_PAUSE;
        }
    }
}
