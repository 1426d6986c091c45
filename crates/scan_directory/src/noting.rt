//! Noting what a service's directory has that doesn't mean what its writer meant.
ghost use Rattle.std.specs.Prelude.{◌≡◌, ◌++◌, OnOk};
ghost use Rattle.std.specs.List.{flat_map};
ghost use Rattle.scan_directory.specs.Found.{noted_as};

use crate::dir_note::DirNote;
use crate::found::Noted;
use crate::service_files::{Reading, ServiceFiles};
use program_files::program_faults;
use s6_events::Name;
use servicedir::ServiceFile;
use std::alloc::{AllocError, Global};
use std::fs;
use std::rt::Files;

/// Adds what is noted of the directory of a service, in which these files were found. The error
/// says that memory was refused.
pub fn note_service<R: Files>(
    rt: &R,
    alloc: Global,
    directory: &str,
    name: Name,
    files: &ServiceFiles,
    notes: &mut Vec<Noted>,
) -> Result<(), AllocError> {
    push_notes(notes, name, files.text_notes().as_slice())?;
    let run = text_of(files.found(ServiceFile::Run));
    for fault in program_faults(rt, alloc, directory, "run", run)?.iter() {
        push_note(notes, name, fault.map(DirNote::Run))?;
    }
    let finish = text_of(files.found(ServiceFile::Finish));
    for fault in program_faults(rt, alloc, directory, "finish", finish)?.iter() {
        push_note(notes, name, fault.map(DirNote::Finish))?;
    }
    push_notes(notes, name, passed_over(rt, alloc, directory)?.as_slice())
}

// What was read of a file, if anything was.
fn text_of(found: &Reading) -> Option<&[u8]> {
    match found {
        Reading::Text(text) => Some(text.as_slice()),
        _ => None,
    }
}

/// Adds a note of a service, if there is one.
pub fn push_note(
    notes: &mut Vec<Noted>,
    name: Name,
    note: Option<DirNote>,
) -> Result<(), AllocError>
    ensures { OnOk result (notes.new.items ≡ notes.old.items ++ noted_as name note) }
{
    if let Some(note) = note {
        notes.push(Noted { name, note })?;
    }
    Ok(())
}

// Adds these notes of a service, in order.
fn push_notes(
    notes: &mut Vec<Noted>,
    name: Name,
    found: &[Option<DirNote>],
) -> Result<(), AllocError>
    ensures { OnOk result (notes.new.items
        ≡ notes.old.items ++ flat_map (noted_as name) found.now) }
{
    for note in found {
        push_note(notes, name, *note)?;
    }
    Ok(())
}

// What is noted of files that s6 knows, and that are passed over.
fn passed_over<R: Files>(
    rt: &R,
    alloc: Global,
    directory: &str,
) -> Result<[Option<DirNote>; 4], AllocError> {
    // With the slash at its end, only a folder is there.
    let log = is_there(rt, alloc, directory, "log/")?;
    let lock = is_there(rt, alloc, directory, "lock-fd")?;
    let namespace = is_there(rt, alloc, directory, "flag-newpidns")?;
    let instances = is_there(rt, alloc, directory, "instance")?
        || is_there(rt, alloc, directory, "instances")?;
    Ok([
        log.then_some(DirNote::Log),
        lock.then_some(DirNote::LockFd),
        namespace.then_some(DirNote::NewPidns),
        instances.then_some(DirNote::Instances),
    ])
}

// Whether a directory has a file of this name; false where that can't be seen.
fn is_there<R: Files>(
    rt: &R,
    alloc: Global,
    directory: &str,
    file: &str,
) -> Result<bool, AllocError> {
    let path = format!(in alloc; "{directory}/{file}")?;
    Ok(fs::metadata(rt, path.as_str()).is_ok())
}
