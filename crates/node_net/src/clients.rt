//! Which connection leads to which client.

use std::alloc::{AllocError, Global};
use subj::ConnId;

/// The keys of the connections of clients, which come in the order of their numbers: a server's clients go to
/// its shards in turn, and each shard numbers its own in steps of as many as there are shards.
#[derive(Drop)]
pub(crate) struct Clients {
    ids: Vec<ConnId>,
    /// The key of each, at the same place.
    keys: Vec<usize>,
}

/// Takes an item out, where there is one at this place.
fn remove<T: Drop>(items: &mut Vec<T>, place: usize) {
    if place < items.len() {
        let _ = items.remove(place);
    }
}

impl Clients {
    /// There are none.
    pub fn new(alloc: Global) -> Clients {
        Clients {
            ids: Vec::new(alloc),
            keys: Vec::new(alloc),
        }
    }

    /// Makes room for one more.
    pub fn reserve(&mut self) -> Result<(), AllocError> {
        self.ids.reserve(1)?;
        self.keys.reserve(1)
    }

    /// This connection leads to the client, which comes after all others. There is room for it.
    pub fn add(&mut self, id: ConnId, key: usize) {
        let _ = self.ids.push(id);
        let _ = self.keys.push(key);
    }

    /// Whether there is none.
    pub fn is_empty(&self) -> bool {
        self.ids.is_empty()
    }

    /// Where the client stands.
    fn place_of(&self, id: ConnId) -> Option<usize> {
        self.ids.binary_search(&id).ok()
    }

    /// The connection that leads to the client.
    pub fn key_of(&self, id: ConnId) -> Option<usize> {
        self.keys.get(self.place_of(id)?).copied()
    }

    /// The client is gone.
    pub fn lose(&mut self, id: ConnId) {
        if let Some(place) = self.place_of(id) {
            remove(&mut self.ids, place);
            remove(&mut self.keys, place);
        }
    }
}
