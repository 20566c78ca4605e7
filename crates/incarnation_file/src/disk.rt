//! The disk, as the file of a server's incarnation needs it; and a disk in memory, which fails at the step that it is told, and of which a
//! crash takes what was not synced.

ghost use Rattle.std.specs.Prelude.{◌≡◌, ◌⊎◌, ℕ, List, Some, IfOk, OnOk, [], ◌∷◌, IsTrue, not, map, take, IfSome, OnErr};
ghost use Rattle.incarnation_file.specs.Disk.{Content, content, IsFound, SomeOf, SameSet};
ghost use Rattle.incarnation_file.specs.Memory.{HadBy, now_counts as file_counts};

use crate::file_disk::{FILE_NAME, LOCK_NAME, NEW_NAME};
use std::alloc::{AllocError, Global};
use std::fmt::{Display, Formatter, Write};
use std::{fmt, io};

/// A step of the disk.
#[derive(Clone, Copy)]
pub enum Step {
    /// Opening the file of the lock.
    OpenLock,
    /// Taking the lock.
    Lock,
    /// Opening the folder.
    OpenFolder,
    /// Opening the file.
    Open,
    /// Syncing the file, before it is read.
    Sync,
    /// Reading the file.
    Read,
    /// Writing the new file.
    WriteNew,
    /// Syncing the new file.
    SyncNew,
    /// Giving the new file the name of the old one.
    Rename,
    /// Syncing the folder.
    SyncFolder,
}

impl Step {
    /// The file that it is a step of.
    fn file(self) -> &'static str {
        match self {
            Step::OpenLock | Step::Lock => LOCK_NAME,
            Step::WriteNew | Step::SyncNew | Step::Rename => NEW_NAME,
            Step::OpenFolder | Step::Open | Step::Sync | Step::Read | Step::SyncFolder => FILE_NAME,
        }
    }

    /// Of what in the way of a file it is one.
    fn kind(self) -> &'static str {
        match self {
            Step::OpenFolder | Step::SyncFolder => "folder of the file",
            _ => "file",
        }
    }

    /// What cannot be done where it fails.
    fn what(self) -> &'static str {
        match self {
            Step::OpenLock | Step::OpenFolder | Step::Open => "opened",
            Step::Lock => "locked",
            Step::Sync | Step::SyncNew | Step::SyncFolder => "synced to the disk",
            Step::Read => "read",
            Step::WriteNew => "written",
            Step::Rename => "renamed",
        }
    }
}

impl Display for Step {
    fn fmt<W: Write>(&self, f: &mut Formatter<W>) -> fmt::Result {
        write!(
            f,
            "the {} {} cannot be {}",
            self.kind(),
            self.file(),
            self.what()
        )?;
        match self {
            Step::Rename => write!(f, " to {FILE_NAME}"),
            _ => Ok(()),
        }
    }
}

/// A step that the disk did not do, with what the system said.
#[derive(Clone, Copy)]
pub struct StepFault {
    pub step: Step,
    pub error: io::Error,
}

impl Display for StepFault {
    fn fmt<W: Write>(&self, f: &mut Formatter<W>) -> fmt::Result {
        let StepFault { step, error } = *self;
        write!(
            f,
            "{step}: {error}; start the server again when that is mended"
        )
    }
}

/// Why a folder is not opened.
#[derive(Clone, Copy)]
pub enum OpenFault {
    /// The folder is not there.
    NoFolder,
    /// Another process has the lock.
    Locked,
    /// The disk did not do a step.
    Disk(StepFault),
    /// There was no memory.
    OutOfMemory,
}

impl Display for OpenFault {
    fn fmt<W: fmt::Write>(&self, f: &mut Formatter<W>) -> fmt::Result {
        match self {
            OpenFault::NoFolder => write!(
                f,
                "the folder for the file {FILE_NAME} is not there: \
                make it, or name another by --state"
            ),
            OpenFault::Locked => write!(
                f,
                "another process has locked {LOCK_NAME}: a server runs with this folder; \
                stop it, or name another folder by --state"
            ),
            OpenFault::Disk(fault) => Display::fmt(fault, f),
            OpenFault::OutOfMemory => f.write_str("out of memory"),
        }
    }
}

impl From<AllocError> for OpenFault {
    fn from(_: AllocError) -> OpenFault {
        OpenFault::OutOfMemory
    }
}

impl From<StepFault> for OpenFault {
    fn from(fault: StepFault) -> OpenFault {
        OpenFault::Disk(fault)
    }
}

/// One name in a folder, and a new file beside it that is to take its place. (Profile.)
///
/// Each step may fail, and a step that fails may have had its effect, a part of it, or none. The
/// process may be killed, and the machine may crash, at any moment, also in the middle of a step:
/// `left` says what the next start may find then. The clauses ask for no more than the file needs.
/// Of a new file that is not synced nothing is known: a crash may leave any bytes of it. Until the
/// folder is synced, a crash may leave the file that had the name before a rename.
pub trait Disk {
    /// What a read of the name gives now.
    ghost seen: { Self → Content };

    /// What the name may have after a crash of the machine at this moment.
    ghost may_leave: { Self → Content → Type 0 };

    /// The same, where the crash leaves the name with the file that has it now.
    ghost may_hold: { Self → Content → Type 0 };

    /// The bytes of the new file, as a read would give them.
    ghost side: { Self → List ℕ };

    /// The bytes that the new file may have after a crash.
    ghost side_may_hold: { Self → List ℕ → Type 0 };

    /// What the next start may find where this life ended, by itself or with the machine, at any
    /// moment up to now, between two steps or in the middle of one.
    ghost left: { Self → Content → Type 0 };

    /// Reads the file whole. Gives None where there is none.
    fn read(&mut self, alloc: Global) -> Result<Option<Vec<u8>>, StepFault>
        ensures bytes { IfOk result (λ file. content file ≡ seen self.old) }
        ensures seen { seen self.new ≡ seen self.old }
        ensures left { SameSet (left self.old) (left self.new) };

    /// Writes the new file whole.
    fn write_new(&mut self, bytes: &[u8]) -> Result<(), StepFault>
        ensures written { OnOk result (side self.new ≡ bytes.now) }
        ensures seen { seen self.new ≡ seen self.old }
        ensures left { SameSet (left self.old) (left self.new) };

    /// Syncs the new file: a crash leaves it as it is.
    fn sync_new(&mut self) -> Result<(), StepFault>
        ensures side { OnOk result (side self.new ≡ side self.old) }
        ensures durable { OnOk result
            ((c : List ℕ) → side_may_hold self.new c → c ≡ side self.old) }
        ensures seen { seen self.new ≡ seen self.old }
        ensures left { SameSet (left self.old) (left self.new) };

    /// Gives the new file the name, in place of the file that had it.
    fn rename(&mut self) -> Result<(), StepFault>
        ensures named { OnOk result (seen self.new ≡ Some (side self.old)) }
        ensures holds { OnOk result
            ((c : Content) → may_hold self.new c → SomeOf (side_may_hold self.old) c) }
        ensures left { (c : Content) → left self.new c
            → left self.old c ⊎ SomeOf (side_may_hold self.old) c }
        ensures past { (c : Content) → left self.old c → left self.new c };

    /// Syncs the folder: a crash leaves the name with the file that has it.
    fn sync_folder(&mut self) -> Result<(), StepFault>
        ensures durable { OnOk result
            ((c : Content) → may_leave self.new c → may_hold self.old c) }
        ensures seen { seen self.new ≡ seen self.old }
        ensures left { SameSet (left self.old) (left self.new) };

    /// This moment is one of those at which the life may end.
    ghost now_counts: { (disk : Self) (c : Content) → IsFound (seen disk) (may_leave disk) c
        → left disk c };
}

/// A disk under a server that is started again and again.
pub trait Crashes: Disk {
    /// The process has ended, and the machine goes on. A life begins.
    fn restart(&mut self)
        ensures { (c : Content) → Self.left self.new c
            → IsFound (Self.seen self.old) (Self.may_leave self.old) c };

    /// The machine crashes now. A life begins.
    fn crash(&mut self)
        ensures { (c : Content) → Self.left self.new c → Self.may_leave self.old c };

    /// The life ended at some moment before, between two steps or in the middle of one. A life
    /// begins.
    fn cut_off(&mut self)
        ensures { (c : Content) → Self.left self.new c → Self.left self.old c };
}

/// What a step does that is told to fail.
#[derive(Clone, Copy)]
pub enum Failing {
    /// Nothing.
    Before,
    /// Its whole effect.
    After,
}

/// A disk in memory, with the file of a name. A new file takes the name only once it is synced.
pub struct MemoryDisk {
    alloc: Global,
    /// The file that has the name.
    named: Option<Vec<u8>>,
    /// The new file.
    side: Vec<u8>,
    side_synced: bool,
    /// What had the name before in this life, the newest first.
    past: Vec<Option<Vec<u8>>>,
    /// How many of them had it since the folder was synced.
    recent: usize,
    /// How many steps go well before the next one that fails, and how it fails.
    failing: Option<(u64, Failing)>,
    /// How many renames the next end of a life takes back.
    lost: usize,
}

/// One call, also for crates above: `docs/PROVING.md`, "What a proof costs".
impl Drop for MemoryDisk {
    fn drop(self) {
        let MemoryDisk {
            alloc: _,
            named: _,
            side: _,
            side_synced: _,
            past: _,
            recent: _,
            failing: _,
            lost: _,
        } = self;
    }
}

impl MemoryDisk {
    /// A disk with this file, which it keeps, and on which no step fails.
    pub fn new(alloc: Global, file: Option<Vec<u8>>) -> MemoryDisk
        ensures seen { ⟦<MemoryDisk as Disk>⟧.seen result ≡ content file }
        ensures left { (c : Content) → ⟦<MemoryDisk as Disk>⟧.left result c → c ≡ content file }
    {
        MemoryDisk {
            alloc,
            named: file,
            side: Vec::new(alloc),
            side_synced: true,
            past: Vec::new(alloc),
            recent: 0,
            failing: None,
            lost: 0,
        }
    }

    /// After so many more steps the next one fails so, and then none.
    pub fn fail_after(&mut self, steps: u64, failing: Failing)
        ensures seen { ⟦<MemoryDisk as Disk>⟧.seen self.new
            ≡ ⟦<MemoryDisk as Disk>⟧.seen self.old }
        ensures left { SameSet (⟦<MemoryDisk as Disk>⟧.left self.old)
            (⟦<MemoryDisk as Disk>⟧.left self.new) }
    {
        self.failing = Some((steps, failing));
    }

    /// A crash, or a life that is cut off, takes back so many renames, as far as it may.
    pub fn lose(&mut self, renames: usize)
        ensures seen { ⟦<MemoryDisk as Disk>⟧.seen self.new
            ≡ ⟦<MemoryDisk as Disk>⟧.seen self.old }
        ensures left { SameSet (⟦<MemoryDisk as Disk>⟧.left self.old)
            (⟦<MemoryDisk as Disk>⟧.left self.new) }
    {
        self.lost = renames;
    }

    /// The new file takes the name.
    fn put_side(&mut self) -> Result<(), AllocError>
        ensures done { OnOk result ((content self.new.named ≡ Some self.old.side.items)
            × (map content self.new.past.items
            ≡ content self.old.named ∷ map content self.old.past.items)) }
        ensures not_done { OnErr result ((content self.new.named ≡ content self.old.named)
            × (self.new.past.items ≡ self.old.past.items)) }
    {
        let next = self.side.to_vec(self.alloc)?;
        self.past.insert(0, None)?;
        let named = std::mem::replace(&mut self.named, Some(next));
        self.past[0] = named;
        self.recent = self.recent.saturating_add(1);
        Ok(())
    }

    /// A life begins. The name has what it had before as many renames as are lost, but no more than
    /// these, and that stays.
    fn fall_back(&mut self, most: usize)
        ensures { (c : Content) → ⟦<MemoryDisk as Disk>⟧.left self.new c
            → (c ≡ content self.old.named) ⊎ HadBy (take most self.old.past.items) c }
    {
        self.recent = 0;
        if let Some(before) = taken_back(&mut self.past, most, self.lost) {
            self.named = before;
        }
    }
}

/// The last of the newest of these, so many but no more than `most`. All are forgotten.
fn taken_back(past: &mut Vec<Option<Vec<u8>>>, most: usize, count: usize) -> Option<Option<Vec<u8>>>
    ensures one { IfSome result (λ file. HadBy (take most past.old.items) (content file)) }
    ensures none { past.new.items ≡ [] }
{
    past.truncate(most);
    past.truncate(count);
    let file = past.pop();
    past.clear();
    file
}

/// That a step was not done, for a cause of this kind.
fn failed(step: Step, kind: io::ErrorKind) -> StepFault {
    StepFault {
        step,
        error: io::Error::from(kind),
    }
}

/// A step begins. Whether it is to fail once it is done.
fn begin(failing: &mut Option<(u64, Failing)>, step: Step) -> Result<bool, StepFault> {
    match *failing {
        None => Ok(false),
        Some((0, how)) => {
            *failing = None;
            match how {
                Failing::Before => Err(failed(step, io::ErrorKind::Other)),
                Failing::After => Ok(true),
            }
        }
        Some((steps, how)) => {
            *failing = Some((steps - 1, how));
            Ok(false)
        }
    }
}

/// A step ends.
fn end(fails: bool, step: Step) -> Result<(), StepFault> {
    if fails {
        Err(failed(step, io::ErrorKind::Other))
    } else {
        Ok(())
    }
}

/// A copy of the file, where there is one.
fn copied(alloc: Global, file: &Option<Vec<u8>>) -> Result<Option<Vec<u8>>, AllocError>
    ensures { IfOk result (λ copy. content copy ≡ content file.now) }
{
    match file {
        Some(bytes) => Ok(Some(bytes.to_vec(alloc)?)),
        None => Ok(None),
    }
}

impl Disk for MemoryDisk {
    ghost seen = { λ m. content m.named };

    ghost may_leave = { λ m c. (c ≡ content m.named)
        ⊎ HadBy (take m.recent m.past.items) c };

    ghost may_hold = { λ m c. c ≡ content m.named };

    ghost side = { λ m. m.side.items };

    ghost side_may_hold = { λ m bytes. (bytes ≡ m.side.items) ⊎ IsTrue (not m.side_synced) };

    ghost left = { λ m c. (c ≡ content m.named) ⊎ HadBy m.past.items c };

    ghost now_counts = { λ m c. file_counts m.recent m.past.items (content m.named) c };

    fn read(&mut self, alloc: Global) -> Result<Option<Vec<u8>>, StepFault> {
        let fails = begin(&mut self.failing, Step::Read)?;
        let Ok(file) = copied(alloc, &self.named) else {
            return Err(failed(Step::Read, io::ErrorKind::OutOfMemory));
        };
        end(fails, Step::Read)?;
        Ok(file)
    }

    fn write_new(&mut self, bytes: &[u8]) -> Result<(), StepFault> {
        let fails = begin(&mut self.failing, Step::WriteNew)?;
        let Ok(side) = bytes.to_vec(self.alloc) else {
            return Err(failed(Step::WriteNew, io::ErrorKind::OutOfMemory));
        };
        self.side = side;
        self.side_synced = false;
        end(fails, Step::WriteNew)
    }

    fn sync_new(&mut self) -> Result<(), StepFault> {
        let fails = begin(&mut self.failing, Step::SyncNew)?;
        self.side_synced = true;
        end(fails, Step::SyncNew)
    }

    fn rename(&mut self) -> Result<(), StepFault> {
        let fails = begin(&mut self.failing, Step::Rename)?;
        if !self.side_synced {
            return Err(failed(Step::Rename, io::ErrorKind::Other));
        }
        if self.put_side().is_err() {
            return Err(failed(Step::Rename, io::ErrorKind::OutOfMemory));
        }
        end(fails, Step::Rename)
    }

    fn sync_folder(&mut self) -> Result<(), StepFault> {
        let fails = begin(&mut self.failing, Step::SyncFolder)?;
        self.recent = 0;
        end(fails, Step::SyncFolder)
    }
}

impl Crashes for MemoryDisk {
    fn restart(&mut self) {
        self.past.truncate(self.recent);
    }

    fn crash(&mut self) {
        let recent = self.recent;
        self.fall_back(recent);
    }

    fn cut_off(&mut self) {
        let all = self.past.len();
        self.fall_back(all);
    }
}
