//! What the loops of one server share: the words by which they are told to look, streams that the first loop has accepted for others, frames of others
//! on their way to it, and how far a drain has come. `docs/LOOPS.md` has the rules, and why nobody sleeps over what was put for him.

ghost use Rattle.std.specs.Prelude.{false};
ghost use Rattle.node_net.specs.Telling.{IsNewMail};

use crate::arrivals::Arrivals;
use crate::limits::PEER_BACKLOG;
use mio::Waker;
use mio::net::TcpStream;
use server_calls::LoopPlace;
use std::alloc::{AllocError, Global};
use std::sync::atomic::{AtomicBool, AtomicU64, Ordering};
use std::sync::{Mutex, MutexGuard, Wait};

/// The loop looks, or will before it sleeps.
const LOOKS: u64 = 0;

/// The loop sleeps, or is about to: whoever puts something for it rings.
const SLEEPS: u64 = 1;

/// Something was put for the loop since it began to look.
const TOLD: u64 = 2;

/// The word of a loop, and what wakes it.
pub struct LoopWord {
    waker: Waker,
    word: AtomicU64,
}

/// One call, also for crates above: `docs/PROVING.md`, "What a proof costs".
impl Drop for LoopWord {
    fn drop(self) {
        let LoopWord { waker: _, word: _ } = self;
    }
}

impl LoopWord {
    /// A loop that this wakes, and that looks.
    pub fn new(waker: Waker) -> LoopWord {
        LoopWord {
            waker,
            word: AtomicU64::new(LOOKS),
        }
    }

    /// Has the loop go round once more, whatever its word says.
    pub(crate) fn ring(&self) {
        let _ = self.waker.wake();
    }

    /// Makes sure that the loop looks, for which something was put just now.
    fn tell(&self) {
        if self.word.load(Ordering::SeqCst) == TOLD {
            return;
        }
        if self.word.swap(TOLD, Ordering::SeqCst) == SLEEPS {
            self.ring();
        }
    }

    /// Whether the loop was told to look since it began to.
    fn is_told(&self) -> bool {
        self.word.load(Ordering::SeqCst) == TOLD
    }

    /// The loop begins to look: the first thing behind each poll. Whether it was told to.
    fn clear(&self) -> bool {
        self.word.swap(LOOKS, Ordering::SeqCst) == TOLD
    }

    /// The loop is about to poll. Whether it may sleep: it was not told to look since it began to.
    fn sleep(&self) -> bool {
        self.word
            .compare_exchange(LOOKS, SLEEPS, Ordering::SeqCst, Ordering::SeqCst)
            .is_ok()
    }
}

/// Frames for another server that are spelt, on their way to the first loop, which has the connection. They are of the session that is kept over it.
pub(crate) struct Mail {
    /// Whether a session is kept with the server.
    is_open: bool,
    pub bytes: Vec<u8>,
    /// How many bytes wait at the connection, as the first loop has noted last.
    pub backlog: usize,
    /// Whether there was no memory for frames that were taken: the server would miss them.
    pub is_lost: bool,
    /// Whether a change of interest had no room for the server, so that its session was cut.
    pub is_cut: bool,
}

/// One call, also for crates above: `docs/PROVING.md`, "What a proof costs".
impl Drop for Mail {
    fn drop(self) {
        let Mail {
            is_open: _,
            bytes: _,
            backlog: _,
            is_lost: _,
            is_cut: _,
        } = self;
    }
}

impl Mail {
    fn new(alloc: Global) -> Mail
        ensures { IsNewMail false result }
    {
        Mail {
            is_open: false,
            bytes: Vec::new(alloc),
            backlog: 0,
            is_lost: false,
            is_cut: false,
        }
    }

    /// A session begins, or has ended: nothing is on its way.
    fn reset(&mut self, is_open: bool)
        ensures { IsNewMail is_open self.new }
    {
        self.is_open = is_open;
        self.bytes.clear();
        self.backlog = 0;
        self.is_lost = false;
        self.is_cut = false;
    }

    /// How many bytes are on their way, and wait at the connection.
    pub fn waiting(&self) -> usize {
        self.bytes.len().saturating_add(self.backlog)
    }

    /// Whether frames are taken for the server.
    pub fn takes(&self) -> bool {
        self.is_open && !self.is_lost && !self.is_cut && self.waiting() < PEER_BACKLOG
    }
}

/// The mail for each server of the cluster, by its place.
pub(crate) type Mails = Vec<Mail>;

/// How far a drain has come that all loops take part in.
struct Draining {
    /// Whether the first loop accepts nobody any more, and has handed over the last stream.
    has_closed: AtomicBool,
    /// Whether the other servers were told.
    has_told: AtomicBool,
    /// How many of the other loops are done.
    done: AtomicU64,
    /// How many clients of these were closed before nothing waited for them.
    cut_off: AtomicU64,
}

/// One call, also for crates above: `docs/PROVING.md`, "What a proof costs".
impl Drop for Draining {
    fn drop(self) {
        let Draining {
            has_closed: _,
            has_told: _,
            done: _,
            cut_off: _,
        } = self;
    }
}

/// What the loops of a server share.
pub struct Loops<'l> {
    words: &'l [LoopWord],
    /// Clients that the first loop has accepted for others.
    arrivals: Arrivals,
    mails: Mutex<Mails>,
    /// Held while the hub counts what a shard has opened and closed.
    collects: Mutex<()>,
    /// A bit for each loop that waits until a shard has finished a turn.
    waiting: AtomicU64,
    draining: Draining,
}

/// One call, also for crates above: `docs/PROVING.md`, "What a proof costs".
impl<'l> Drop for Loops<'l> {
    fn drop(self) {
        let Loops {
            words: _,
            arrivals: _,
            mails: _,
            collects: _,
            waiting: _,
            draining: _,
        } = self;
    }
}

fn mails_of(alloc: Global, count: usize) -> Result<Mails, AllocError> {
    let mut all = Vec::with_capacity(alloc, count)?;
    for _peer in 0..count {
        all.push(Mail::new(alloc))?;
    }
    Ok(all)
}

impl<'l> Loops<'l> {
    /// Loops that these words wake, of a server of a cluster of so many.
    pub fn new(
        alloc: Global,
        words: &'l [LoopWord],
        servers: usize,
    ) -> Result<Loops<'l>, AllocError> {
        let arrivals = Arrivals::new(alloc, words.len())?;
        let mails = mails_of(alloc, servers)?;
        Ok(Loops {
            words,
            arrivals,
            mails: Mutex::new(mails),
            collects: Mutex::new(()),
            waiting: AtomicU64::new(0),
            draining: Draining {
                has_closed: AtomicBool::new(false),
                has_told: AtomicBool::new(false),
                done: AtomicU64::new(0),
                cut_off: AtomicU64::new(0),
            },
        })
    }

    /// Tells the first loop, for which frames were put into mail.
    pub(crate) fn tell_first(&self) {
        self.tell(0);
    }

    /// Tells the loop at this place.
    fn tell(&self, place: usize) {
        if let Some(word) = self.words.get(place) {
            word.tell();
        }
    }

    /// Holds what is held while the hub counts what a shard has opened and closed. May wait.
    pub(crate) fn collects<R: Wait>(&self, rt: &R) -> MutexGuard<'_, ()> {
        self.collects.lock(rt)
    }

    /// Holds the mail for all servers. May wait.
    pub(crate) fn mails<R: Wait>(&self, rt: &R) -> MutexGuard<'_, Mails> {
        self.mails.lock(rt)
    }

    /// Whether the session with the server at this place was cut while another loop collected. May wait.
    pub(crate) fn is_cut<R: Wait>(&self, rt: &R, peer: usize) -> bool {
        let mails = self.mails.lock(rt);
        match mails.get(peer) {
            None => false,
            Some(mail) => mail.is_cut,
        }
    }

    /// The mail for the server at this place begins or ends with its session. May wait.
    pub(crate) fn reset_mail<R: Wait>(&self, rt: &R, peer: usize, is_open: bool) {
        let mut mails = self.mails.lock(rt);
        reset_mail(&mut mails, peer, is_open);
    }

    /// Tells each loop whose bit is set.
    fn tell_each(&self, bits: u64) {
        for (place, word) in self.words.iter().enumerate() {
            if bits & bit_of(place as u64) != 0 {
                word.tell();
            }
        }
    }
}

/// The bit of the loop at this place.
fn bit_of(place: u64) -> u64 {
    1 << (place % 64)
}

impl<'l> Loops<'l> {
    /// Tells all other loops, for which jobs were handed over, or which a drain concerns.
    pub fn tell_others(&self, place: LoopPlace) {
        self.tell_each(!bit_of(place.place()));
    }

    /// The client at the other end of the stream is one of the loop at this place, which is told. False for want of memory: the stream is closed then.
    /// May wait.
    pub fn put_stream<R: Wait>(&self, rt: &R, place: usize, stream: TcpStream) -> bool {
        let is_put = self.arrivals.put(rt, place, stream);
        self.tell(place);
        is_put
    }

    /// The stream that was put first for the loop. May wait.
    pub fn take_stream<R: Wait>(&self, rt: &R, place: LoopPlace) -> Option<TcpStream> {
        self.arrivals.take(rt, place.place() as usize)
    }

    /// The word of the loop at this place.
    fn word(&self, place: LoopPlace) -> Option<&LoopWord> {
        self.words.get(place.place() as usize)
    }

    /// The loop begins to look: the first thing behind each poll. Whether it was told to.
    pub fn clear(&self, place: LoopPlace) -> bool {
        match self.word(place) {
            None => false,
            Some(word) => word.clear(),
        }
    }

    /// Whether the loop was told to look since it began to.
    pub fn is_told(&self, place: LoopPlace) -> bool {
        match self.word(place) {
            None => false,
            Some(word) => word.is_told(),
        }
    }

    /// The loop is about to poll. Whether it may sleep.
    pub fn sleep(&self, place: LoopPlace) -> bool {
        match self.word(place) {
            None => true,
            Some(word) => word.sleep(),
        }
    }

    /// The loop waits until a shard has finished a turn: it is told then.
    pub fn wait_for_turn(&self, place: LoopPlace) {
        let _others = self
            .waiting
            .fetch_or(bit_of(place.place()), Ordering::SeqCst);
    }

    /// Whether no shard has finished a turn since it began to wait for one.
    pub fn waits_for_turn(&self, place: LoopPlace) -> bool {
        self.waiting.load(Ordering::SeqCst) & bit_of(place.place()) != 0
    }

    /// A shard of the loop has finished a turn: the loops that wait for one are told.
    pub fn finish_turn(&self) {
        if self.waiting.load(Ordering::SeqCst) != 0 {
            let bits = self.waiting.swap(0, Ordering::SeqCst);
            self.tell_each(bits);
        }
    }

    /// Nobody is accepted any more, and the last stream was handed over: the other loops are told.
    pub fn close_doors(&self, place: LoopPlace) {
        self.draining.has_closed.store(true, Ordering::SeqCst);
        self.tell_others(place);
    }

    /// Whether no stream can come any more.
    pub fn has_closed(&self) -> bool {
        self.draining.has_closed.load(Ordering::SeqCst)
    }

    /// The other servers were told that this one drains: each loop begins its pause.
    pub fn note_told(&self, place: LoopPlace) {
        self.draining.has_told.store(true, Ordering::SeqCst);
        self.tell_others(place);
    }

    /// Whether they were.
    pub fn has_told(&self) -> bool {
        self.draining.has_told.load(Ordering::SeqCst)
    }

    /// The loop, which is not the first, is done with the drain, for which so many of its clients were closed before nothing waited for them.
    pub fn finish_drain(&self, cut_off: u64) {
        self.draining.cut_off.fetch_add(cut_off, Ordering::SeqCst);
        self.draining.done.fetch_add(1, Ordering::SeqCst);
        self.tell_first();
    }

    /// Whether all loops but the first are done, and how many clients these closed before nothing waited for them.
    pub fn others_done(&self) -> Option<u64> {
        let draining = &self.draining;
        let done = draining.done.load(Ordering::SeqCst);
        if done.saturating_add(1) < self.words.len() as u64 {
            return None;
        }
        Some(draining.cut_off.load(Ordering::SeqCst))
    }
}

/// The mail for the server at this place, where a session with it is kept from now on, or none is any more.
pub(crate) fn reset_mail(mails: &mut Mails, peer: usize, is_open: bool) {
    if let Some(mail) = mails.get_mut(peer) {
        mail.reset(is_open);
    }
}

/// Notes that the sessions with the servers at these places were cut.
pub(crate) fn note_cut(mails: &mut Mails, places: &[usize]) {
    for place in places {
        if let Some(mail) = mails.get_mut(*place) {
            mail.is_cut = true;
        }
    }
}
