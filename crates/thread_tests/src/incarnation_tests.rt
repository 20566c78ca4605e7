//! Incarnations in real folders: what a disk in memory shows stands as cases in `script_golden`.

use incarnation_file::{Disk, FileDisk, raise};
use std::alloc::{AllocError, Global};
use std::fs::{self, File, Files};
use std::process::Abort;
use subj::{Incarnation, NodeId};

const SEVEN: &str = "3744266532 0000000000000007 n1\n";

const MISSING: &str = "there is no file incarnation: at the first start of the server give \
    --least-inc 1; where the file was lost, give a number above all incarnations that the server had";

const NO_FOLDER: &str = "the folder for the file incarnation is not there: \
    make it, or name another by --state";

const LOCKED: &str = "another process has locked incarnation.lock: \
    a server runs with this folder; stop it, or name another folder by --state";

const NOT_WRITTEN: &str = "the file incarnation.new cannot be written: \
    Is a directory (os error 21); start the server again when that is mended";

/// A start on the disk of the server, as text. No least number is given where it is 0.
fn start<D: Disk + Drop>(
    alloc: Global,
    mut disk: D,
    server: NodeId,
    least: u64,
) -> Result<String, AllocError> {
    match raise(alloc, &mut disk, server, Incarnation::new(least)) {
        Ok(incarnation) => format!(in alloc; "{}", incarnation.get()),
        Err(fault) => format!(in alloc; "{fault}"),
    }
}

/// A start of the server in this folder, as text.
fn start_in(
    rt: &(impl Files<File = File> + Alloc<A = Global>),
    folder: &str,
    server: NodeId,
    least: u64,
) -> Result<String, AllocError> {
    match FileDisk::open(rt, folder) {
        Ok(disk) => start(rt.alloc(), disk, server, least),
        Err(fault) => format!(in rt.alloc(); "{fault}"),
    }
}

/// A start of n1 in this folder tells this.
fn tells(
    rt: &(impl Abort + Files<File = File> + Alloc<A = Global>),
    folder: &str,
    least: u64,
    wanted: &str,
) {
    let server = NodeId::read(b"n1").ok().expect(rt, "a name");
    let told = start_in(rt, folder, server, least)
        .ok()
        .expect(rt, "memory");
    assert_eq!(rt; told.as_str(), wanted);
}

/// The folder of this name is no more.
fn remove(rt: &(impl Files<File = File> + Alloc<A = Global>), folder: &str) {
    let _ = fs::remove_dir_all(rt, folder);
}

/// A new folder of this name.
fn make(rt: &(impl Abort + Files<File = File> + Alloc<A = Global>), folder: &str) {
    remove(rt, folder);
    assert!(rt; fs::create_dir(rt, folder).is_ok());
}

/// The file of this name has this text.
fn has_text(rt: &(impl Abort + Files<File = File> + Alloc<A = Global>), file: &str, wanted: &str) {
    let text = fs::read_to_string(rt, file).ok().expect(rt, "the file");
    assert_eq!(rt; text.as_str(), wanted);
}

#[test]
fn numbers_stand_in_a_file(rt: HostRuntime) {
    let folder = "incarnation_numbers";
    remove(&rt, folder);
    tells(&rt, folder, 1, NO_FOLDER);
    make(&rt, folder);
    tells(&rt, folder, 0, MISSING);
    tells(&rt, folder, 6, "6");
    tells(&rt, folder, 0, "7");
    has_text(&rt, "incarnation_numbers/incarnation", SEVEN);
    remove(&rt, folder);
}

#[test]
fn a_folder_has_one_server(rt: HostRuntime) {
    let folder = "incarnation_lock";
    make(&rt, folder);
    let held = FileDisk::open(&rt, folder);
    tells(&rt, folder, 0, LOCKED);
    drop(held);
    tells(&rt, folder, 1, "1");
    remove(&rt, folder);
}

#[test]
fn a_real_step_fails(rt: HostRuntime) {
    let folder = "incarnation_fault";
    make(&rt, folder);
    make(&rt, "incarnation_fault/incarnation.new");
    tells(&rt, folder, 1, NOT_WRITTEN);
    assert!(rt; fs::remove_dir(&rt, "incarnation_fault/incarnation.new").is_ok());
    tells(&rt, folder, 1, "1");
    remove(&rt, folder);
}
