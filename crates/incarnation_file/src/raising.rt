//! A start of a server, which takes an incarnation that no start before it had; the line of its file; and the law of many starts.

ghost use Rattle.std.specs.Prelude.{◌≡◌, ◌<◌, ◌≤◌, ◌++◌, ◌∷◌, [], ℕ, List, length, Some, IfOk, IfSome, IfNone, OnOk, ◌≢◌, ◌⊎◌, IfErr};
ghost use Rattle.subj.specs.declared.limits.TheConstants.{MAX_INCARNATION};
ghost use Rattle.incarnation_file.specs.Line.{body as summed, digits, value_from, checksum_from, IsLine};
ghost use Rattle.incarnation_file.specs.Disk.{Content, IsFound, SameSet};
ghost use Rattle.incarnation_file.specs.Kept.{IsKept, IsAfter, IsBelow};
ghost use Rattle.incarnation_file.specs.Raising.{FaultTells, HasNoNext, IsLast, IsNext, ReadTells, number_after};
ghost use Rattle.incarnation_file.specs.declared.raising.RaiseFault.TheVariants.{OtherServer, Disk as DiskFailed, OutOfMemory};
ghost use Rattle.list_laws.specs.Lists.{Pairs};

use crate::disk::{Crashes, Disk, StepFault};
use crate::file_disk::FILE_NAME;
use std::alloc::{AllocError, Global};
use std::fmt;
use std::fmt::{Display, Formatter, Write};
use subj::{Incarnation, MAX_INCARNATION, NodeId};

// The greatest prime below 2 ^ 32.
const PRIME: u64 = 4_294_967_291;

// The base of the checksum: one more than a byte may be, and one, since each byte counts one more.
const BASE: u64 = 257;

const CHECKSUM_DIGITS: u64 = 10;

const NUMBER_DIGITS: u64 = 16;

// Where the incarnation and the name begin, each behind a space.
const NUMBER_START: usize = CHECKSUM_DIGITS as usize + 1;

const NAME_START: usize = NUMBER_START + NUMBER_DIGITS as usize + 1;

const ZERO: u8 = b'0';

/// Why a start gets no incarnation.
#[derive(Clone, Copy)]
pub enum RaiseFault {
    /// There is no file, and no first number was given.
    Missing,
    /// The file is not the whole line of any server.
    Damaged,
    /// The file is the line of this server, and not of the one that starts.
    OtherServer(NodeId),
    /// The file has the greatest incarnation.
    Spent,
    /// The disk did not do a step.
    Disk(StepFault),
    /// There was no memory.
    OutOfMemory,
}

/// Tells something of the file, with its name between these texts.
fn tell_of_file<W: Write>(f: &mut Formatter<W>, before: &str, behind: &str) -> fmt::Result {
    write!(f, "{before}{FILE_NAME}{behind}")
}

/// Tells whose file it is, and what to do.
fn tell_other_server<W: Write>(f: &mut Formatter<W>, server: NodeId) -> fmt::Result {
    write!(
        f,
        "the file {FILE_NAME} is that of server {}: \
        name a folder of this server's own by --state",
        server.text()
    )
}

impl Display for RaiseFault {
    fn fmt<W: Write>(&self, f: &mut Formatter<W>) -> fmt::Result {
        match self {
            RaiseFault::Missing => tell_of_file(
                f,
                "there is no file ",
                ": at the first start of the server give --least-inc 1; \
                where the file was lost, give a number above all incarnations \
                that the server had",
            ),
            RaiseFault::Damaged => tell_of_file(
                f,
                "the file ",
                " is damaged: remove it, and give --least-inc a number \
                above all incarnations that the server had",
            ),
            RaiseFault::OtherServer(server) => tell_other_server(f, *server),
            RaiseFault::Spent => tell_of_file(
                f,
                "the file ",
                " has the greatest incarnation: \
                start the server under another name, with another folder",
            ),
            RaiseFault::Disk(fault) => Display::fmt(fault, f),
            RaiseFault::OutOfMemory => f.write_str("out of memory"),
        }
    }
}

impl From<AllocError> for RaiseFault {
    ghost from_gives = { λ _ fault. fault ≡ OutOfMemory };

    fn from(_: AllocError) -> RaiseFault {
        RaiseFault::OutOfMemory
    }
}

impl From<StepFault> for RaiseFault {
    ghost from_gives = { λ cause fault. fault ≡ DiskFailed cause };

    fn from(fault: StepFault) -> RaiseFault {
        RaiseFault::Disk(fault)
    }
}

/// What a line says: a server, and the incarnation of its last start.
#[derive(Clone, Copy)]
pub(crate) struct LastStart {
    pub(crate) server: NodeId,
    pub(crate) incarnation: Incarnation,
}

/// Puts that many decimal digits of the number behind the text.
fn push_digits(text: &mut Vec<u8>, count: u64, number: u64) -> Result<(), AllocError>
    ensures { OnOk result (text.new.items ≡ text.old.items ++ digits count number) }
{
    if count == 0 {
        return Ok(());
    }
    push_digits(text, count - 1, number / 10)?;
    text.push(ZERO + (number % 10) as u8)?;
    Ok(())
}

/// The checksum of these bytes.
fn checksum(bytes: &[u8]) -> u64
    ensures { result ≡ checksum_from 0 bytes.now }
{
    let mut sum = 0u64;
    for byte in bytes {
        sum = (BASE * sum + u64::from(*byte) + 1) % PRIME;
    }
    sum
}

/// What the checksum of a line is of: the incarnation, and the name of the server.
fn body_of(alloc: Global, incarnation: u64, server: &[u8]) -> Result<Vec<u8>, AllocError>
    ensures { IfOk result (λ text. text.items ≡ summed server.now incarnation) }
{
    let mut text = Vec::new(alloc);
    push_digits(&mut text, NUMBER_DIGITS, incarnation)?;
    text.push(b' ')?;
    text.extend_from_slice(server)?;
    Ok(text)
}

/// The line with this body: its checksum before it, and a line's end behind it.
fn line_with(alloc: Global, body: &[u8]) -> Result<Vec<u8>, AllocError>
    ensures { IfOk result (λ text. text.items
        ≡ digits CHECKSUM_DIGITS (checksum_from 0 body.now) ++ 32 ∷ (body.now ++ 10 ∷ [])) }
{
    let mut text = Vec::new(alloc);
    push_digits(&mut text, CHECKSUM_DIGITS, checksum(body))?;
    text.push(b' ')?;
    text.extend_from_slice(body)?;
    text.push(b'\n')?;
    Ok(text)
}

/// The line that says so.
pub(crate) fn line(alloc: Global, last: &LastStart) -> Result<Vec<u8>, AllocError>
    ensures { IfOk result (λ text. IsLine last.now.server last.now.incarnation text.items) }
{
    let body = body_of(alloc, last.incarnation.get(), last.server.bytes())?;
    line_with(alloc, &body)
}

/// The number that decimal digits stand for, where it is no more than an incarnation may be. Other
/// bytes give some number.
fn number_of(bytes: &[u8]) -> u64
    ensures { value_from 0 bytes.now ≤ MAX_INCARNATION → result ≡ value_from 0 bytes.now }
{
    let mut number = 0u64;
    for byte in bytes {
        if number > MAX_INCARNATION / 10 {
            return 0;
        }
        number = 10 * number + u64::from(byte.saturating_sub(ZERO));
    }
    number
}

/// The incarnation that a line has. Other bytes give some or none.
fn incarnation_at(bytes: &[u8]) -> Option<Incarnation>
    requires { NAME_START < length bytes.now }
    ensures { (server : List ℕ) (n : ℕ) → IsLine server n bytes.now → result ≡ Some n }
{
    Incarnation::new(number_of(&bytes[NUMBER_START..NAME_START - 1]))
}

/// The server that a line has. Other bytes give some or none.
#[tactic(auto, using(crate::proofs::Digits::server_there))]
fn server_at(bytes: &[u8]) -> Option<NodeId>
    requires { NAME_START < length bytes.now }
    ensures { (server : List ℕ) (n : ℕ) → IsLine server n bytes.now → result ≡ Some server }
{
    NodeId::read(&bytes[NAME_START..bytes.len() - 1]).ok()
}

/// What bytes say, where they are a line. Other bytes say something or nothing.
#[tactic(auto, using(crate::proofs::Digits::line_is_long))]
fn reading_of(bytes: &[u8]) -> Option<LastStart>
    ensures { (server : List ℕ) (n : ℕ) → IsLine server n bytes.now
        → result ≡ Some (record { server = server; incarnation = n }) }
{
    if bytes.len() <= NAME_START {
        return None;
    }
    match (server_at(bytes), incarnation_at(bytes)) {
        (Some(server), Some(incarnation)) => Some(LastStart {
            server,
            incarnation,
        }),
        _ => None,
    }
}

/// This, where the bytes are the line that says so.
fn confirmed(alloc: Global, bytes: &[u8], last: LastStart) -> Result<Option<LastStart>, AllocError>
    ensures is { IfOk result (λ read. IfSome read (λ same. (same ≡ last)
        × IsLine last.server last.incarnation bytes.now)) }
    ensures is_not { IfOk result (λ read. IfNone read
        (IsLine last.server last.incarnation bytes.now → ⊥)) }
{
    let text = line(alloc, &last)?;
    if text.as_slice() == bytes {
        Ok(Some(last))
    } else {
        Ok(None)
    }
}

/// What bytes say. None just where they are not the whole line of a server and an incarnation.
pub(crate) fn last_start(alloc: Global, bytes: &[u8]) -> Result<Option<LastStart>, AllocError>
    ensures is { IfOk result (λ read. IfSome read
        (λ last. IsLine last.server last.incarnation bytes.now)) }
    ensures is_not { IfOk result (λ read. IfNone read
        ((server : List ℕ) (n : ℕ) → IsLine server n bytes.now → ⊥)) }
{
    match reading_of(bytes) {
        Some(last) => confirmed(alloc, bytes, last),
        None => Ok(None),
    }
}

/// The incarnation of the last start, where it was this server's.
fn own_incarnation(last: &LastStart, server: NodeId) -> Result<Incarnation, RaiseFault>
    ensures own { IfOk result (λ n. (last.now.server ≡ server) × (n ≡ last.now.incarnation)) }
    ensures other { IfErr result (λ fault. (fault ≡ OtherServer last.now.server)
        × (last.now.server ≢ server)) }
{
    if last.server.bytes() != server.bytes() {
        return Err(RaiseFault::OtherServer(last.server));
    }
    Ok(last.incarnation)
}

/// The incarnation that the bytes of the file have, where they are this server's.
fn incarnation_in(alloc: Global, bytes: &[u8], server: NodeId) -> Result<Incarnation, RaiseFault>
    ensures is { IfOk result (λ n. IsLine server n bytes.now) }
    ensures fault { IfErr result (ReadTells server (Some bytes.now)) }
{
    match last_start(alloc, bytes)? {
        Some(last) => own_incarnation(&last, server),
        None => Err(RaiseFault::Damaged),
    }
}

/// The incarnation of the server's last start. None where there is no file.
fn read_last<D: Disk>(
    alloc: Global,
    disk: &mut D,
    server: NodeId,
) -> Result<Option<Incarnation>, RaiseFault>
    ensures last { IfOk result (IsLast server (D.seen disk.old)) }
    ensures fault { IfErr result (ReadTells server (D.seen disk.old)) }
    ensures left { SameSet (D.left disk.old) (D.left disk.new) }
{
    match disk.read(alloc)? {
        Some(bytes) => Ok(Some(incarnation_in(alloc, &bytes, server)?)),
        None => Ok(None),
    }
}

/// The number that comes after the last start's, or the least one where that is more.
fn number_after(last: Incarnation, least: Option<Incarnation>) -> u64
    ensures { Some result ≡ number_after least (Some last) }
{
    let next = last.get() + 1;
    match least {
        Some(least) => next.max(least.get()),
        None => next,
    }
}

/// The incarnation that a start takes after the last one, None where there was none.
fn next(last: Option<Incarnation>, least: Option<Incarnation>) -> Result<Incarnation, RaiseFault>
    ensures next { IfOk result (λ n. number_after least last ≡ Some n) }
    ensures fault { IfErr result (HasNoNext least last) }
{
    let number = match (last, least) {
        (Some(last), least) => number_after(last, least),
        (None, Some(least)) => least.get(),
        (None, None) => return Err(RaiseFault::Missing),
    };
    Incarnation::new(number).ok_or(RaiseFault::Spent)
}

/// Puts this line in the place of the file.
fn store<D: Disk>(disk: &mut D, text: &[u8]) -> Result<(), StepFault>
    ensures stored { OnOk result (D.seen disk.new ≡ Some text.now) }
    ensures durable { OnOk result ((c : Content) → D.may_leave disk.new c → c ≡ Some text.now) }
    ensures left { (c : Content) → D.left disk.new c → D.left disk.old c ⊎ (c ≡ Some text.now) }
{
    disk.write_new(text)?;
    disk.sync_new()?;
    disk.rename()?;
    disk.sync_folder()?;
    Ok(())
}

/// Takes the incarnation of this start of a server: one more than the file has, or `least` where
/// that is more. It is answered only once the disk keeps it. (Profile.)
///
/// `least` is for a first start, where there may be no file, and for one that has to go on from a
/// greater number. Refused where there is neither a file nor `least` (`Missing`): the numbers of a
/// lost file are not known. Refused too where the file is not the whole line of a server and an
/// incarnation (`Damaged`), where it is the line of another server (`OtherServer`), and where it
/// has the greatest incarnation (`Spent`): `least` changes none of that. Where a step of the disk
/// fails (`Disk`), the number may be used up all the same.
#[tactic(auto, using(crate::proofs::Keeps::read_tells))]
pub fn raise<D: Disk>(
    alloc: Global,
    disk: &mut D,
    server: NodeId,
    least: Option<Incarnation>,
) -> Result<Incarnation, RaiseFault>
    ensures number { IfOk result (IsNext server least (D.seen disk.old)) }
    ensures limit { IfOk result (λ n. (1 ≤ n) × (n ≤ MAX_INCARNATION)) }
    ensures fault { IfErr result (FaultTells server least (D.seen disk.old)) }

    // Whatever number was answered last, this one is above it, and no later start reads one below.
    ensures rises { (last : ℕ) → IsKept (D.left disk.old) server last
        → IfOk result (λ n. (last < n)
        × IsKept (IsFound (D.seen disk.new) (D.may_leave disk.new)) server n) }

    // No later start reads a number below, at whatever moment this one ends.
    ensures kept { (last : ℕ) → IsKept (D.left disk.old) server last
        → IsKept (D.left disk.new) server last }
{
    let incarnation = next(read_last(alloc, disk, server)?, least)?;
    let text = line(
        alloc,
        &LastStart {
            server,
            incarnation,
        },
    )?;
    store(disk, &text)?;
    Ok(incarnation)
}

/// How a life ends.
#[derive(Clone, Copy)]
pub enum End {
    /// Behind its start the process ends, by itself or killed, and the machine goes on.
    Stops,
    /// Behind its start the machine crashes.
    Crashes,
    /// The process is killed, or the machine crashes, at any moment of the start, also in the
    /// middle of a step: nobody is answered.
    CutOff,
}

/// One life of a server: a start, which may fail at any step, and its end.
#[derive(Clone, Copy)]
pub struct Life {
    /// What the start is given as the least incarnation.
    pub least: Option<Incarnation>,
    /// How it ends.
    pub end: End,
}

/// What one start is answered, if it is.
fn answer_of<D: Crashes>(
    alloc: Global,
    disk: &mut D,
    server: NodeId,
    least: Option<Incarnation>,
) -> Option<Incarnation>
    ensures rises { (last : ℕ) → IsKept (D.left disk.old) server last
        → IfSome result (λ n. (last < n)
        × IsKept (IsFound (D.seen disk.new) (D.may_leave disk.new)) server n) }
    ensures kept { (last : ℕ) → IsKept (D.left disk.old) server last
        → IsKept (D.left disk.new) server last }
{
    match raise(alloc, disk, server, least) {
        Ok(incarnation) => Some(incarnation),
        Err(_) => None,
    }
}

/// What one life is answered, if it is.
fn live<D: Crashes>(alloc: Global, disk: &mut D, server: NodeId, life: Life) -> Option<Incarnation>
    ensures { (last : ℕ) → IsKept (D.left disk.old) server last
        → IsAfter last result (IsKept (D.left disk.new) server) }
{
    let answer = answer_of(alloc, disk, server, life.least);
    match life.end {
        End::Stops => {
            disk.restart();
            answer
        }
        End::Crashes => {
            disk.crash();
            answer
        }
        End::CutOff => {
            disk.cut_off();
            None
        }
    }
}

/// Plays the lives of a server in order, over a disk in any state. Gives for each the incarnation
/// that its start was answered, or None: each number is above all before it, so that no two lives
/// that were answered have one. Of the disk nothing is required but what [`Disk`](crate::Disk)
/// says. Fails only where there is no memory for the answers.
pub fn all_lives<D: Crashes>(
    alloc: Global,
    disk: &mut D,
    server: NodeId,
    lives: &[Life],
) -> Result<Vec<Option<Incarnation>>, AllocError>
    ensures each { IfOk result (λ answers. length answers.items ≡ length lives.now) }
    ensures rise { IfOk result (λ answers. Pairs IsBelow answers.items) }
{
    let mut answers = Vec::new(alloc);
    for life in lives {
        answers.push(live(alloc, disk, server, *life))?;
    }
    Ok(answers)
}
