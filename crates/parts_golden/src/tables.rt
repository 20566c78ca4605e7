//! Calls of tables of subscriptions: the one that is scanned, the one that is found by tokens, and drawn lists of calls on both, which have
//! to answer alike.

ghost use Rattle.std.specs.Prelude.{◌≤◌, All};

use golden::{Answer, Words, key_of, put, sid_of, subject_of};
use rand_core::utils::NextWord;
use rand_pcg::Pcg32;
use std::alloc::{AllocError, Global};
use sub_table::{ListTable, SubTable, Subscription};
use sub_trie::TrieTable;
use subj::{ConnId, Key, Pattern, Sid, Subject};

/// A table, and the last serial that was opened in it.
#[derive(Drop)]
pub struct Opened<T: SubTable> {
    table: T,
    last: u64,
    ghost below: { All (λ other. other.serial ≤ last) (T.contents table) },
}

impl<T: SubTable> Opened<T> {
    /// A table without subscriptions.
    fn new(alloc: Global) -> Result<Opened<T>, AllocError> {
        let table = T::new(alloc)?;
        Ok(Opened { table, last: 0 })
    }

    /// The table as it is.
    fn table(&self) -> &T {
        &self.table
    }

    /// The last serial that was opened, 0 before the first.
    fn last(&self) -> u64 {
        self.last
    }

    /// Opens one more. Gives whether its serial is above all others.
    fn open(&mut self, sub: Subscription) -> Result<bool, AllocError> {
        let serial = sub.serial;
        if serial <= self.last {
            return Ok(false);
        }
        self.table.add(sub)?;
        self.last = serial;
        Ok(true)
    }

    /// Closes the one of this serial, and gives it.
    #[tactic(auto, using(crate::proofs::Below::below_without))]
    fn remove(&mut self, serial: u64) -> Option<Subscription> {
        self.table.remove(serial)
    }

    /// Closes those of a connection.
    #[tactic(auto, using(crate::proofs::Below::below_filter))]
    fn close(&mut self, conn: u64) {
        self.table.close(ConnId::new(conn));
    }

    /// Counts one more message that the one of this serial got. Gives whether there is one whose count may rise.
    fn count(&mut self, serial: u64) -> bool {
        let Some(sub) = self.table.get(serial) else {
            return false;
        };
        if sub.delivered >= u64::MAX {
            return false;
        }
        self.table.count(serial);
        true
    }

    /// Counts so many messages more that the one of this serial got. Gives whether there is one whose count may rise so far.
    fn count_many(&mut self, serial: u64, count: u64) -> bool {
        let Some(sub) = self.table.get(serial) else {
            return false;
        };
        if sub.delivered > u64::MAX - count {
            return false;
        }
        self.table.count_many(serial, count);
        true
    }

    /// Notes how many messages the one of this serial is to get.
    #[tactic(auto, using(crate::proofs::Below::below_max))]
    fn set_max(&mut self, serial: u64, max: Option<u64>) {
        self.table.set_max(serial, max);
    }

    /// Tells that the subject will be looked up.
    fn remember(&mut self, subject: &Subject) {
        self.table.remember(&subject.lent());
    }
}

/// The subscription of a serial, a connection, a pattern, a queue name or none, and an id.
fn subscription_of(alloc: Global, words: &Words<'_>) -> Option<Subscription> {
    let key = key_of(alloc, words.at(2), words.at(3))?;
    let sid = sid_of(alloc, words.at(4))?;
    Some(Subscription {
        serial: words.number(0),
        conn: ConnId::new(words.number(1)),
        key,
        sid,
        delivered: 0,
        max: None,
    })
}

/// Opens a subscription.
fn open<T: SubTable>(
    answer: &mut Answer,
    opened: &mut Opened<T>,
    alloc: Global,
    words: &Words<'_>,
) -> Option<()> {
    let is_next = opened.open(subscription_of(alloc, words)?).ok()?;
    answer.tell(if is_next { "ok" } else { "no serial" })
}

/// Tells of a subscription that may be open.
fn sub_told(answer: &mut Answer, sub: Option<&Subscription>) -> Option<()> {
    let Some(sub) = sub else {
        return answer.tell("none");
    };
    answer.tell_number("", sub.serial);
    answer.tell_number(" of conn ", sub.conn.get());
    answer.tell_key(": ", &sub.key);
    answer.tell_bytes(", id ", sub.sid.bytes())
}

/// Closes the one of this serial, and tells it.
fn remove<T: SubTable>(answer: &mut Answer, opened: &mut Opened<T>, serial: u64) -> Option<()> {
    let closed = opened.remove(serial);
    sub_told(answer, closed.as_ref())
}

/// Tells the serials of these.
fn subs_told(answer: &mut Answer, subs: &[&Subscription]) -> Option<()> {
    answer.tell("serials");
    for sub in subs {
        answer.tell_number(" ", sub.serial);
    }
    Some(())
}

/// Tells the serials of those that match.
fn matching<T: SubTable>(answer: &mut Answer, table: &T, alloc: Global, word: &str) -> Option<()> {
    let subject = subject_of(alloc, word)?;
    let subs = table.matching(&subject.lent()).ok()?;
    subs_told(answer, &subs)
}

/// Tells serials.
fn serials_told(answer: &mut Answer, serials: &[u64]) -> Option<()> {
    answer.tell("serials");
    for serial in serials {
        answer.tell_number(" ", *serial);
    }
    Some(())
}

/// Tells the serials of a connection's, behind a 77 that was there.
fn serials_of<T: SubTable>(answer: &mut Answer, table: &T, alloc: Global, conn: u64) -> Option<()> {
    let mut serials = Vec::from_slice(alloc, &[77]).ok()?;
    table.serials_of(ConnId::new(conn), &mut serials).ok()?;
    serials_told(answer, &serials)
}

/// Tells the serial of what a connection calls by an id.
fn find<T: SubTable>(
    answer: &mut Answer,
    table: &T,
    alloc: Global,
    words: &Words<'_>,
) -> Option<()> {
    let sid = sid_of(alloc, words.at(1))?;
    answer.tell_choice("", table.find(ConnId::new(words.number(0)), &sid))
}

/// Tells how many messages one got and is to get.
fn counts_told(answer: &mut Answer, sub: Option<&Subscription>) -> Option<()> {
    let Some(sub) = sub else {
        return answer.tell("none");
    };
    answer.tell_number("", sub.delivered);
    answer.tell_any(" of ", sub.max)
}

/// Makes a call that leaves the table as it is.
fn seen<T: SubTable>(
    answer: &mut Answer,
    table: &T,
    alloc: Global,
    call: &str,
    words: &Words<'_>,
) -> Option<()> {
    match call {
        "len" => answer.tell_number("", table.len() as u64),
        "fits" => answer.tell_whether(table.fits(words.number(0), words.number(1))),
        "get" => sub_told(answer, table.get(words.number(0))),
        "counts" => counts_told(answer, table.get(words.number(0))),
        "find" => find(answer, table, alloc, words),
        "matching" => matching(answer, table, alloc, words.at(0)),
        "serials_of" => serials_of(answer, table, alloc, words.number(0)),
        _ => None,
    }
}

/// Closes those of a connection, or notes how many messages one is to get.
fn change<T: SubTable>(opened: &mut Opened<T>, call: &str, words: &Words<'_>) {
    match call {
        "close" => opened.close(words.number(0)),
        _ => opened.set_max(words.number(0), words.at(1).parse().ok()),
    }
}

/// Makes a call of a table.
pub fn table_call<T: SubTable>(
    answer: &mut Answer,
    place: &mut Option<Opened<T>>,
    alloc: Global,
    call: &str,
    words: &Words<'_>,
) -> Option<()> {
    if call == "new" {
        return begin(answer, place, alloc);
    }
    let opened = place.as_mut()?;
    match call {
        "open" => open(answer, opened, alloc, words),
        "remove" => remove(answer, opened, words.number(0)),
        "count" => answer.tell_whether(opened.count(words.number(0))),
        "count_many" => answer.tell_whether(opened.count_many(words.number(0), words.number(1))),
        "close" | "set_max" => {
            change(opened, call, words);
            answer.tell("ok")
        }
        _ => seen(answer, opened.table(), alloc, call, words),
    }
}

/// A new table stands from now on.
fn begin<T: SubTable>(
    answer: &mut Answer,
    place: &mut Option<Opened<T>>,
    alloc: Global,
) -> Option<()> {
    let opened = Opened::new(alloc).ok()?;
    put(place, Some(opened));
    answer.tell("ok")
}

/// Makes a call of the table over a trie, which has nodes too.
pub fn trie_call(
    answer: &mut Answer,
    place: &mut Option<Opened<TrieTable>>,
    alloc: Global,
    call: &str,
    words: &Words<'_>,
) -> Option<()> {
    match call {
        "nodes" => answer.tell_number("", place.as_ref()?.table().nodes() as u64),
        _ => table_call(answer, place, alloc, call, words),
    }
}

/// How many calls are in a list.
const CALLS: u64 = 30;

/// In one of so many lists subjects are kept in mind.
const KEEPING: u64 = 10;

/// Behind the calls counts are noted so often.
const NOTES: u64 = 5;

/// Stands between the parts of what a table answers.
const PART: u64 = u64::MAX;

/// What is drawn for a call or a question.
#[derive(Clone, Copy)]
struct Drawn {
    /// 0 closes those of the connection, 1 and 2 the one of the serial; another one opens one.
    kind: u64,
    conn: u64,
    serial: u64,
    /// How many bytes are asked for.
    limit: u64,
    /// Tells the tokens and the id.
    word: u64,
}

/// A number below a bound that is not 0.
fn below(random: &mut Pcg32, bound: u64) -> u64 {
    let word = random.next_word() as u64;
    if bound == 0 { 0 } else { (word >> 8) % bound }
}

/// Draws a call or a question.
fn draw(random: &mut Pcg32) -> Drawn {
    Drawn {
        kind: below(random, 8),
        conn: below(random, 3).saturating_add(1),
        serial: below(random, CALLS),
        limit: below(random, 700),
        word: below(random, 1 << 24),
    }
}

/// A token of the last place or another: one of three letters, or where they are wanted a wildcard.
fn token(word: u64, is_last: bool, is_wild: bool) -> u8 {
    let kind = if is_wild { word % 5 } else { word % 3 };
    match kind {
        0 => b'a',
        1 => b'b',
        2 => b'c',
        3 if is_last => b'>',
        _ => b'*',
    }
}

/// Puts one to three tokens, the wildcards among them where they are wanted.
fn push_tokens(drawn: &mut Vec<u8>, word: u64, is_wild: bool) -> Option<()> {
    let (count, mut word) = (word % 3, word / 3);
    for at in 0..=count {
        if at > 0 {
            drawn.push(b'.').ok()?;
        }
        drawn.push(token(word, at == count, is_wild)).ok()?;
        word /= 5;
    }
    Some(())
}

/// One to three tokens, the wildcards among them where they are wanted.
fn tokens(alloc: Global, word: u64, is_wild: bool) -> Option<Vec<u8>> {
    let mut drawn = Vec::new(alloc);
    push_tokens(&mut drawn, word, is_wild)?;
    Some(drawn)
}

/// The id of a drawn word.
fn drawn_sid(alloc: Global, word: u64) -> Option<Sid> {
    let text: &[u8] = match word % 7 % 3 {
        0 => b"1",
        1 => b"2",
        _ => b"22",
    };
    Sid::read(alloc, text).ok()
}

/// The key of a drawn word.
fn drawn_key(alloc: Global, word: u64) -> Option<Key> {
    let pattern = Pattern::read(alloc, &tokens(alloc, word, true)?).ok()?;
    Some(Key {
        pattern,
        queue: None,
    })
}

/// The subscription that a drawn call opens.
fn drawn_subscription(alloc: Global, drawn: Drawn, serial: u64) -> Option<Subscription> {
    let key = drawn_key(alloc, drawn.word)?;
    let sid = drawn_sid(alloc, drawn.word)?;
    Some(Subscription {
        serial,
        conn: ConnId::new(drawn.conn),
        key,
        sid,
        delivered: 0,
        max: None,
    })
}

/// Opens the subscription of a drawn call. Gives its serial.
fn open_next<T: SubTable>(opened: &mut Opened<T>, alloc: Global, drawn: Drawn) -> Option<u64> {
    let serial = opened.last().saturating_add(1);
    let is_next = opened.open(drawn_subscription(alloc, drawn, serial)?).ok()?;
    is_next.then_some(serial)
}

/// Closes the one of this serial. Gives its serial, 0 where there is none.
fn close_one<T: SubTable>(opened: &mut Opened<T>, serial: u64) -> u64 {
    match opened.remove(serial) {
        None => 0,
        Some(sub) => sub.serial,
    }
}

/// Makes a drawn call. Gives the serial that it opened or closed, 0 where there is none.
fn make<T: SubTable>(opened: &mut Opened<T>, alloc: Global, drawn: Drawn) -> Option<u64> {
    match drawn.kind {
        0 => {
            opened.close(drawn.conn);
            Some(0)
        }
        1 | 2 => Some(close_one(opened, drawn.serial)),
        _ => open_next(opened, alloc, drawn),
    }
}

/// Puts what is told of the one of this serial.
fn push_got<T: SubTable>(answers: &mut Vec<u64>, table: &T, serial: u64) -> Option<()> {
    let Some(sub) = table.get(serial) else {
        return answers.push(PART).ok();
    };
    answers.push(sub.conn.get()).ok()?;
    answers.push(sub.delivered).ok()?;
    answers.push(sub.max.unwrap_or(PART)).ok()
}

/// Puts the serials of those that match.
fn push_matching<T: SubTable>(answers: &mut Vec<u64>, table: &T, subject: &Subject) -> Option<()> {
    for sub in &table.matching(&subject.lent()).ok()? {
        answers.push(sub.serial).ok()?;
    }
    answers.push(PART).ok()
}

/// Puts what is told of a connection and an id of it.
fn push_of_conn<T: SubTable>(
    answers: &mut Vec<u64>,
    alloc: Global,
    table: &T,
    asked: Drawn,
) -> Option<()> {
    let conn = ConnId::new(asked.conn);
    table.serials_of(conn, answers).ok()?;
    answers.push(PART).ok()?;
    let sid = drawn_sid(alloc, asked.word)?;
    answers.push(table.find(conn, &sid).unwrap_or(PART)).ok()
}

/// Puts what a table answers to a drawn question.
fn push_answers<T: SubTable>(
    answers: &mut Vec<u64>,
    alloc: Global,
    table: &T,
    subject: &Subject,
    asked: Drawn,
) -> Option<()> {
    push_matching(answers, table, subject)?;
    push_of_conn(answers, alloc, table, asked)?;
    answers.push(table.fits(30, asked.limit) as u64).ok()?;
    push_got(answers, table, asked.serial)
}

/// What a table answers to a drawn question.
fn answers_of<T: SubTable>(
    alloc: Global,
    table: &T,
    subject: &Subject,
    asked: Drawn,
) -> Option<Vec<u64>> {
    let mut answers = Vec::new(alloc);
    push_answers(&mut answers, alloc, table, subject, asked)?;
    Some(answers)
}

/// Both tables.
#[derive(Drop)]
struct Pair {
    list: Opened<ListTable>,
    trie: Opened<TrieTable>,
}

/// Tables without subscriptions.
fn new_pair(alloc: Global) -> Option<Pair> {
    let list = Opened::new(alloc).ok()?;
    let trie = Opened::new(alloc).ok()?;
    Some(Pair { list, trie })
}

/// The subject of a drawn word.
fn drawn_subject(alloc: Global, word: u64) -> Option<Subject> {
    Subject::read(alloc, &tokens(alloc, word, false)?).ok()
}

/// Whether both tables answer a question about the subject alike.
fn answer_alike(alloc: Global, pair: &Pair, subject: &Subject, asked: Drawn) -> Option<bool> {
    let of_list = answers_of(alloc, pair.list.table(), subject, asked)?;
    let of_trie = answers_of(alloc, pair.trie.table(), subject, asked)?;
    Some(of_list.as_slice() == of_trie.as_slice())
}

/// Asks both tables the same, and tells the trie before so often that the subject will be looked up. Gives whether they answer alike.
fn ask_both(alloc: Global, pair: &mut Pair, asked: Drawn, times: u64) -> Option<bool> {
    let subject = drawn_subject(alloc, asked.word)?;
    for _time in 0..times {
        pair.trie.remember(&subject);
    }
    answer_alike(alloc, pair, &subject, asked)
}

/// Makes a drawn call on both tables. Gives whether they answer alike.
fn call_both(alloc: Global, pair: &mut Pair, drawn: Drawn) -> Option<bool> {
    let of_list = make(&mut pair.list, alloc, drawn)?;
    let of_trie = make(&mut pair.trie, alloc, drawn)?;
    Some(of_list == of_trie)
}

/// Counts a message, and notes a drawn maximum, in both tables. Gives whether they answer alike.
fn note_both(pair: &mut Pair, drawn: Drawn) -> bool {
    let (other, max) = (drawn.word % CALLS, Some(drawn.limit % 9));
    pair.list.set_max(other, max);
    pair.trie.set_max(other, max);
    pair.list.count(drawn.serial) == pair.trie.count(drawn.serial)
}

/// How often the trie is told of a subject: where subjects are kept in mind, of each second one so often that it is.
fn keeping(keeps: bool, drawn: Drawn) -> u64 {
    if keeps && drawn.limit % 2 == 0 { 8 } else { 0 }
}

/// Makes a drawn call on both tables, or notes drawn counts. Gives whether they answer alike.
fn change_both(alloc: Global, pair: &mut Pair, drawn: Drawn, is_call: bool) -> Option<bool> {
    if is_call {
        return call_both(alloc, pair, drawn);
    }
    Some(note_both(pair, drawn))
}

/// Changes both tables, and asks them. Gives whether they answer alike.
fn play_round(
    alloc: Global,
    random: &mut Pcg32,
    pair: &mut Pair,
    is_call: bool,
    keeps: bool,
) -> Option<bool> {
    if !change_both(alloc, pair, draw(random), is_call)? {
        return Some(false);
    }
    let asked = draw(random);
    ask_both(alloc, pair, asked, keeping(keeps, asked))
}

/// One list of calls, then a round of notes: whether both tables answer alike.
fn play_list(alloc: Global, random: &mut Pcg32, pair: &mut Pair, keeps: bool) -> Option<bool> {
    for call in 0..CALLS + NOTES {
        if !play_round(alloc, random, pair, call < CALLS, keeps)? {
            return Some(false);
        }
    }
    Some(true)
}

/// The list of a seed: whether both tables answer alike.
fn are_alike(alloc: Global, seed: u64) -> Option<bool> {
    let mut random = Pcg32::new(seed, 54);
    let mut pair = new_pair(alloc)?;
    play_list(alloc, &mut random, &mut pair, seed % KEEPING == 0)
}

/// Tells whether the tables answer alike in so many lists, from this seed on.
pub fn compare(answer: &mut Answer, alloc: Global, first: u64, count: u64) -> Option<()> {
    for at in 0..count {
        let seed = first.saturating_add(at);
        if !are_alike(alloc, seed)? {
            return answer.tell_number("apart in the list of ", seed);
        }
    }
    answer.tell("alike")
}
