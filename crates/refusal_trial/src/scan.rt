//! The listing of a scan directory.
use crate::attempts::Text;
use s6_events::NoMemory;
use scan_directory::{FoundServices, Remark, read_listing};
use servicedir::DirFault;
use std::alloc::Global;
use std::io::{self, ErrorKind, Write};
use std::rt::Files;
use std::{fs, str};
use tree_core::Entry;

/// The files of the service, each with what is in it.
const FILES: [(&str, &str); 8] = [
    ("run", "#!/bin/sh\n"),
    ("finish", "#!/bin/sh\n"),
    ("down", ""),
    ("notification-fd", "4\n"),
    ("timeout-kill", "1500\n"),
    ("timeout-finish", "250\n"),
    ("max-death-tally", "7\n"),
    ("down-signal", "SIGHUP\n"),
];

/// What is told of the directory, in any order. Nobody may execute the files of `web`.
const TOLD: [&str; 4] = [
    "svscan: empty NoRun\n",
    "svscan: BadName\nsvscan: 'no name' is no name of a service\n",
    "svscan: web RunMode\n",
    "svscan: web FinishMode\n",
];

/// Makes a scan directory: a service with all its files, one that has no `run`, one that is hidden,
/// and a name that is none of a service.
pub fn make_services<R: Files>(rt: &R, alloc: Global, folder: &str) -> io::Result<()> {
    for name in ["web", "empty", ".hidden", "no name"].iter() {
        let path = format!(in alloc; "{folder}/{name}")?;
        fs::create_dir_all(rt, path.as_str())?;
    }
    for (file, content) in FILES.iter() {
        let path = format!(in alloc; "{folder}/web/{file}")?;
        fs::write(rt, path.as_str(), content.as_bytes())?;
    }
    Ok(())
}

/// Lists the directory, and prints what was read of each service, and what is told of the others.
pub fn list<R: Files + Copy + Drop>(
    rt: &R,
    alloc: Global,
    folder: &str,
    text: &mut Text,
) -> Result<(), NoMemory> {
    let mut told = Text::new();
    match read_listing(rt, alloc, folder, &mut told) {
        Ok(found) if was_refused(&found) => return Err(NoMemory),
        Ok(found) => {
            tell_found(&found, text);
            tell_told(told.as_slice(), text);
        }
        Err(error) if error.kind() == ErrorKind::OutOfMemory => return Err(NoMemory),
        Err(_) => {
            let _ = text.try_extend_from_slice(b"not listed\n");
        }
    }
    Ok(())
}

// Whether the files of a service could not be read for want of memory.
fn was_refused(found: &FoundServices) -> bool {
    found
        .remarks
        .iter()
        .any(|remark| remark.fault == DirFault::NoMemory)
}

// Tells what was read of a service.
fn tell_entry(name: &str, entry: &Entry, text: &mut Text) {
    let _ = match &entry.config {
        Some(config) => writeln!(text, "{name}: {config:?}"),
        None => writeln!(text, "{name}: listed as unread"),
    };
}

// Directories give names in any order: each is looked for.
fn tell_found(found: &FoundServices, text: &mut Text) {
    for name in ["web", "empty", ".hidden", "no name"].iter() {
        let entry = found
            .listing
            .entries()
            .iter()
            .find(|entry| entry.name.as_bytes() == name.as_bytes());
        match entry {
            Some(entry) => tell_entry(name, entry, text),
            None => {
                let _ = writeln!(text, "{name}: not listed");
            }
        }
    }
    for Remark { name, fault } in found.remarks.iter() {
        let name = str::from_utf8(name.as_bytes()).unwrap_or("?");
        let _ = writeln!(text, "{name}: {fault:?}");
    }
}

// Tells whether just the lines were told that are wanted.
fn tell_told(told: &[u8], text: &mut Text) {
    let mut length = 0usize;
    for wanted in TOLD.iter() {
        length = length.saturating_add(wanted.len());
        if !told
            .windows(wanted.len())
            .any(|part| part == wanted.as_bytes())
        {
            let _ = writeln!(text, "not told: {wanted}");
        }
    }
    if told.len() != length {
        let _ = text.try_extend_from_slice(told);
    }
}
