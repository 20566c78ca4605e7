//! Where the servers of a mesh are reached, and from which hosts they come. Whoever looks names up tells it, from any thread; the loops of
//! servers read it, and wait for nothing but a lock that is held for a moment.

ghost use Rattle.std.specs.Prelude.{◌≡◌};

use std::alloc::{AllocError, Global};
use std::net::{IpAddr, SocketAddr};
use std::sync::atomic::{AtomicBool, AtomicU64, Ordering};
use std::sync::{Mutex, Wait};

/// The addresses of one server.
#[derive(Drop)]
struct PeerHost {
    /// All that its host has, with the port of its routes; none while none is known.
    addresses: Vec<SocketAddr>,
    /// How often one of them was dialed.
    dials: usize,
}

/// The list of this address, or an empty one.
fn list_of(alloc: Global, address: Option<SocketAddr>) -> Result<Vec<SocketAddr>, AllocError> {
    let mut list = Vec::new(alloc);
    if let Some(address) = address {
        list.push(address)?;
    }
    Ok(list)
}

/// Whether both lists have the same addresses, in any order. No list has one twice.
fn are_same(some: &[SocketAddr], others: &[SocketAddr]) -> bool {
    for address in some {
        if !others.contains(address) {
            return false;
        }
    }
    some.len() == others.len()
}

/// Whether one of the addresses is that of this host. One of IPv4 is the same in either form.
fn is_among(host: IpAddr, addresses: &[SocketAddr]) -> bool {
    let host = host.to_canonical();
    for address in addresses {
        if address.ip().to_canonical() == host {
            return true;
        }
    }
    false
}

impl PeerHost {
    /// The address to be dialed now: each in turn.
    fn dial(&mut self) -> Option<SocketAddr>
        ensures { self.new.addresses ≡ self.old.addresses }
    {
        let count = self.addresses.len();
        if count == 0 {
            return None;
        }
        let place = self.dials % count;
        self.dials = self.dials.wrapping_add(1);
        self.addresses.get(place).copied()
    }

    /// These are its addresses from now on. Whether that changes them.
    fn set(&mut self, addresses: Vec<SocketAddr>) -> bool {
        if are_same(&self.addresses, &addresses) {
            return false;
        }
        self.addresses = addresses;
        self.dials = 0;
        true
    }
}

/// The hosts of servers that have these addresses.
fn hosts_of(alloc: Global, known: &[Option<SocketAddr>]) -> Result<Vec<PeerHost>, AllocError> {
    let mut hosts = Vec::with_capacity(alloc, known.len())?;
    for address in known {
        let addresses = list_of(alloc, *address)?;
        hosts.push(PeerHost {
            addresses,
            dials: 0,
        })?;
    }
    Ok(hosts)
}

/// So many servers, none of which is reached.
fn unreached(alloc: Global, count: usize) -> Result<Vec<AtomicBool>, AllocError> {
    let mut all = Vec::with_capacity(alloc, count)?;
    for _place in 0..count {
        all.push(AtomicBool::new(false))?;
    }
    Ok(all)
}

/// Where each server of a mesh is reached and comes from, by its place; which of them are reached, and how often somebody came from elsewhere: so
/// that whoever looks names up knows when.
pub struct PeerAddresses {
    hosts: Mutex<Vec<PeerHost>>,
    /// How often addresses have changed.
    changes: AtomicU64,
    /// Which servers are reached, as far as the last turn of a loop knows.
    reached: Vec<AtomicBool>,
    /// How often somebody came from an address of no server.
    strangers: AtomicU64,
}

/// One call, also for crates above: `docs/PROVING.md`, "What a proof costs".
impl Drop for PeerAddresses {
    fn drop(self) {
        let PeerAddresses {
            hosts: _,
            changes: _,
            reached: _,
            strangers: _,
        } = self;
    }
}

impl PeerAddresses {
    /// The servers of the mesh have these addresses, in their order; None is one whose address is not known yet.
    pub fn new(alloc: Global, known: &[Option<SocketAddr>]) -> Result<PeerAddresses, AllocError> {
        let reached = unreached(alloc, known.len())?;
        let hosts = hosts_of(alloc, known)?;
        Ok(PeerAddresses {
            hosts: Mutex::new(hosts),
            changes: AtomicU64::new(0),
            reached,
            strangers: AtomicU64::new(0),
        })
    }

    /// How many servers the mesh has.
    pub(crate) fn count(&self) -> usize {
        self.reached.len()
    }

    /// The server at this place has these addresses from now on, none of them twice. Whether that changes them. May wait for a lock.
    pub fn set<R: Wait>(&self, rt: &R, place: usize, addresses: Vec<SocketAddr>) -> bool {
        let mut hosts = self.hosts.lock(rt);
        let has_changed = match hosts.get_mut(place) {
            None => false,
            Some(host) => host.set(addresses),
        };
        drop(hosts);
        if has_changed {
            self.changes.fetch_add(1, Ordering::SeqCst);
        }
        has_changed
    }

    /// How often addresses have changed.
    pub(crate) fn changes(&self) -> u64 {
        self.changes.load(Ordering::SeqCst)
    }

    /// Where the server at this place is to be dialed now: of several addresses each in turn. None where none is known. May wait for a lock.
    pub(crate) fn dial<R: Wait>(&self, rt: &R, place: usize) -> Option<SocketAddr> {
        let mut hosts = self.hosts.lock(rt);
        let host = hosts.get_mut(place)?;
        host.dial()
    }

    /// Whether a server is at this host; it is counted where none is. May wait for a lock.
    pub(crate) fn are_at<R: Wait>(&self, rt: &R, host: IpAddr) -> bool {
        let hosts = self.hosts.lock(rt);
        let is_known = hosts.iter().any(|known| is_among(host, &known.addresses));
        drop(hosts);
        if !is_known {
            self.strangers.fetch_add(1, Ordering::SeqCst);
        }
        is_known
    }

    /// How often somebody came from an address of no server.
    pub fn strangers(&self) -> u64 {
        self.strangers.load(Ordering::SeqCst)
    }

    /// The server at this place is reached, or is not.
    pub(crate) fn note(&self, place: usize, is_reached: bool) {
        if let Some(reached) = self.reached.get(place) {
            if reached.load(Ordering::SeqCst) != is_reached {
                reached.store(is_reached, Ordering::SeqCst);
            }
        }
    }

    /// Whether the server at this place is reached, as far as the last turn of a loop knows.
    pub fn is_reached(&self, place: usize) -> bool {
        match self.reached.get(place) {
            None => false,
            Some(reached) => reached.load(Ordering::SeqCst),
        }
    }
}
