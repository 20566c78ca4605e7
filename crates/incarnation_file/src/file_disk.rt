//! The disk of a server: a folder of the system with the file, and a lock that one server has.
//!
//! No contract can say what a real file has. So a [`FileDisk`] keeps what it read and did in a
//! [`MemoryDisk`], and its clauses speak of that. They hold of the real file as far as each of its
//! five steps makes the call that the disk in memory notes, and as far as the system keeps to
//! [`Disk`].

ghost use Rattle.incarnation_file.specs.Disk.{content};
ghost use Rattle.incarnation_file.specs.Memory.{now_counts};

use crate::disk::{Disk, MemoryDisk, OpenFault, Step, StepFault};
use std::alloc::{AllocError, Global};
use std::fs::{self, File, Files, OpenOptions, TryLockError};
use std::io::{self, Write};

/// The file, in the server's folder.
pub(crate) const FILE_NAME: &str = "incarnation";

/// The new file that is to take its place.
pub(crate) const NEW_NAME: &str = "incarnation.new";

/// The file whose lock the server has. It is empty, and stays.
pub(crate) const LOCK_NAME: &str = "incarnation.lock";

/// The paths of the file and of the new one.
#[derive(Drop)]
struct Paths {
    file: String,
    new_file: String,
}

/// A folder of the system, opened and locked for one server.
///
/// After a fault let go of it, and have the next start open the folder anew: a system may answer a
/// second sync well where the first one failed and what was written is lost.
#[derive(Drop)]
pub struct FileDisk<'a, R> {
    rt: &'a R,
    folder: File,
    // The lock is held until this is dropped.
    _lock: File,
    paths: Paths,
    // The new file, as it was written last.
    new_file: Option<File>,
    mirror: MemoryDisk,
}

/// What a call of the system answered in this step.
fn in_step<T>(step: Step, answer: io::Result<T>) -> Result<T, StepFault> {
    match answer {
        Ok(value) => Ok(value),
        Err(error) => Err(StepFault { step, error }),
    }
}

/// The path of a file in the folder.
fn path_of(alloc: Global, folder: &str, name: &str) -> Result<String, AllocError> {
    format!(in alloc; "{folder}/{name}")
}

/// The paths of both files in the folder.
fn paths_in(alloc: Global, folder: &str) -> Result<Paths, AllocError> {
    let file = path_of(alloc, folder, FILE_NAME)?;
    let new_file = path_of(alloc, folder, NEW_NAME)?;
    Ok(Paths { file, new_file })
}

/// Takes the lock that the file at this path has.
fn lock_at<R: Files<File = File>>(rt: &R, path: &str) -> Result<File, OpenFault> {
    let mut options = OpenOptions::new();
    options.read(true).write(true).create(true);
    let lock = match options.open(rt, path) {
        Ok(lock) => lock,
        Err(error) if error.kind() == io::ErrorKind::NotFound => return Err(OpenFault::NoFolder),
        Err(error) => return Err(OpenFault::Disk(StepFault {
            step: Step::OpenLock,
            error,
        })),
    };
    match lock.try_lock() {
        Ok(()) => Ok(lock),
        Err(TryLockError::WouldBlock) => Err(OpenFault::Locked),
        Err(TryLockError::Error(error)) => {
            Err(OpenFault::Disk(StepFault {
                step: Step::Lock,
                error,
            }))
        }
    }
}

/// Takes the lock of the folder.
fn lock_in<R: Files<File = File> + Alloc<A = Global>>(
    rt: &R,
    folder: &str,
) -> Result<File, OpenFault> {
    let path = path_of(rt.alloc(), folder, LOCK_NAME)?;
    lock_at(rt, path.as_str())
}

/// Opens the folder and syncs it: what an earlier start renamed stays.
fn folder_at<R: Files<File = File>>(rt: &R, path: &str) -> Result<File, StepFault> {
    let folder = in_step(Step::OpenFolder, File::open(rt, path))?;
    in_step(Step::SyncFolder, folder.sync_all())?;
    Ok(folder)
}

/// Syncs the file and reads it. None where there is none.
fn file_at<R: Files<File = File> + Alloc<A = Global>>(
    rt: &R,
    path: &str,
) -> Result<Option<Vec<u8>>, StepFault> {
    match File::open(rt, path) {
        Ok(file) => in_step(Step::Sync, file.sync_all())?,
        Err(error) if error.kind() == io::ErrorKind::NotFound => return Ok(None),
        Err(error) => return Err(StepFault {
            step: Step::Open,
            error,
        }),
    }
    Ok(Some(in_step(Step::Read, fs::read(rt, path))?))
}

/// Opens the folder, and reads the file at this path.
fn folder_and_file<R: Files<File = File> + Alloc<A = Global>>(
    rt: &R,
    folder: &str,
    path: &str,
) -> Result<(File, Option<Vec<u8>>), StepFault> {
    let folder = folder_at(rt, folder)?;
    let file = file_at(rt, path)?;
    Ok((folder, file))
}

impl<'a, R: Files<File = File> + Alloc<A = Global>> FileDisk<'a, R> {
    /// Opens the folder at this path, takes its lock, and reads the file in it. The lock is held
    /// until the disk is dropped. (Profile.)
    ///
    /// Refused where the folder is not there (`NoFolder`), where another process has the lock
    /// (`Locked`), where the system does not do a step (`Disk`), or for want of memory. What an
    /// earlier start wrote is synced before it is read. Another machine may not see the lock, which
    /// is one of `flock`: a folder that machines share is none for this file.
    pub fn open(rt: &'a R, folder: &str) -> Result<FileDisk<'a, R>, OpenFault> {
        let alloc = rt.alloc();
        let lock = lock_in(rt, folder)?;
        let paths = paths_in(alloc, folder)?;
        let (folder, file) = folder_and_file(rt, folder, paths.file.as_str())?;
        Ok(FileDisk {
            rt,
            folder,
            _lock: lock,
            paths,
            new_file: None,
            mirror: MemoryDisk::new(alloc, file),
        })
    }
}

/// Writes these bytes to the file at this path, in place of what it has.
fn write_file<R: Files<File = File>>(rt: &R, path: &str, bytes: &[u8]) -> io::Result<File> {
    let mut file = File::create(rt, path)?;
    file.write_all(bytes)?;
    Ok(file)
}

impl<R: Files<File = File> + Alloc<A = Global>> Disk for FileDisk<'_, R> {
    ghost seen = { λ f. ⟦<MemoryDisk as Disk>⟧.seen f.mirror };

    ghost may_leave = { λ f c. ⟦<MemoryDisk as Disk>⟧.may_leave f.mirror c };

    ghost may_hold = { λ f c. ⟦<MemoryDisk as Disk>⟧.may_hold f.mirror c };

    ghost side = { λ f. ⟦<MemoryDisk as Disk>⟧.side f.mirror };

    ghost side_may_hold = { λ f bytes. ⟦<MemoryDisk as Disk>⟧.side_may_hold f.mirror bytes };

    ghost left = { λ f c. ⟦<MemoryDisk as Disk>⟧.left f.mirror c };

    ghost now_counts = { λ f c. now_counts f.mirror.recent f.mirror.past.items
        (content f.mirror.named) c };

    fn read(&mut self, alloc: Global) -> Result<Option<Vec<u8>>, StepFault> {
        self.mirror.read(alloc)
    }

    fn write_new(&mut self, bytes: &[u8]) -> Result<(), StepFault> {
        self.new_file = None;
        self.mirror.write_new(bytes)?;
        let file = write_file(self.rt, self.paths.new_file.as_str(), bytes);
        self.new_file = Some(in_step(Step::WriteNew, file)?);
        Ok(())
    }

    fn sync_new(&mut self) -> Result<(), StepFault> {
        let Some(file) = &self.new_file else {
            let error = io::Error::from(io::ErrorKind::NotFound);
            return Err(StepFault {
                step: Step::SyncNew,
                error,
            });
        };
        in_step(Step::SyncNew, file.sync_all())?;
        self.mirror.sync_new()
    }

    fn rename(&mut self) -> Result<(), StepFault> {
        // Noted first: a rename that fails may have been done.
        self.mirror.rename()?;
        let renamed = fs::rename(
            self.rt,
            self.paths.new_file.as_str(),
            self.paths.file.as_str(),
        );
        in_step(Step::Rename, renamed)
    }

    fn sync_folder(&mut self) -> Result<(), StepFault> {
        in_step(Step::SyncFolder, self.folder.sync_all())?;
        self.mirror.sync_folder()
    }
}
