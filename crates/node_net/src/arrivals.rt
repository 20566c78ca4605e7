//! Streams of clients on their way from the first loop of a server, which accepts them, to its other loops.

ghost use Rattle.std.specs.Prelude.{◌≡◌};

use mio::net::TcpStream;
use std::alloc::{AllocError, Global};
use std::sync::{Mutex, Wait};

/// The streams that each loop of a server is to take, oldest first, by its place.
pub(crate) struct Arrivals {
    lists: Vec<Mutex<Vec<TcpStream>>>,
}

/// One call, also for crates above: `docs/PROVING.md`, "What a proof costs".
impl Drop for Arrivals {
    fn drop(self) {
        let Arrivals { lists: _ } = self;
    }
}

impl Arrivals {
    /// Nothing is on its way to any of so many loops.
    pub fn new(alloc: Global, loops: usize) -> Result<Arrivals, AllocError> {
        let mut lists = Vec::new(alloc);
        for _loop in 0..loops {
            lists.push(Mutex::new(Vec::new(alloc)))?;
        }
        Ok(Arrivals { lists })
    }

    /// Puts a stream behind the others of this loop. False where there is no such loop, and for want of memory: the stream is closed then. May wait.
    pub fn put<R: Wait>(&self, rt: &R, place: usize, stream: TcpStream) -> bool {
        match self.lists.get(place) {
            None => false,
            Some(list) => {
                let mut list = list.lock(rt);
                list.push(stream).is_ok()
            }
        }
    }

    /// Takes the oldest stream of this loop. May wait.
    pub fn take<R: Wait>(&self, rt: &R, place: usize) -> Option<TcpStream> {
        let list = self.lists.get(place)?;
        let mut list = list.lock(rt);
        if list.is_empty() {
            return None;
        }
        Some(list.remove(0))
    }
}
