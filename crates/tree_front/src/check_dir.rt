//! `svcheck`: what svscan would do with each entry of a scan directory. It starts nothing.
use crate::no_memory::tell_no_memory;
use scan_directory::{FoundServices, read_listing};
use std::alloc::{AllocError, Global};
use std::io::{self, Write};
use std::rt::Files;
use svcheck::{checked_entries, push_bad_names};
use svscan_core::Entry;
use tool_lines::{FaultText, add_escaped};

/// The status where something is refused, or noted.
const WRONG_STATUS: u8 = 1;

/// The status of a program to which the system refused something.
const SYSTEM_STATUS: u8 = 111;

/// How many bytes of a path are told.
const PATH_BYTES: usize = 107;

/// Reads a scan directory, and says of each entry what svscan would do. The exit status: 0 where
/// nothing is refused and nothing noted, so that all runs as it is written, else 1; 111 where the
/// directory can't be read, memory is refused, or the report can't be written.
pub fn check_directory<R: Files + Copy + Drop, W: Write, E: Write>(
    rt: &R,
    alloc: Global,
    directory: &str,
    output: &mut W,
    errors: &mut E,
) -> u8 {
    match report_of(rt, alloc, directory) {
        Ok((text, is_wrong)) => print_report(text.as_slice(), is_wrong, output, errors),
        Err(error) => match error.kind() {
            io::ErrorKind::OutOfMemory => tell_no_memory("svcheck", errors),
            io::ErrorKind::InvalidData => tell_directory(
                b" has too much in it for a line of a script: svscan would not start\n",
                directory,
                errors,
            ),
            _ => tell_directory(b" can't be read\n", directory, errors),
        },
    }
}

// The report on all entries, and whether something is refused or noted. The error is `OutOfMemory`
// where memory is refused, `InvalidData` where a line of a script can't say what is in the
// directory, and another where the directory can't be read.
fn report_of<R: Files + Copy + Drop>(
    rt: &R,
    alloc: Global,
    directory: &str,
) -> io::Result<(Vec<u8>, bool)> {
    let mut told = Vec::new(alloc);
    // `told` gets what svscan would write on standard error; only the bad names are taken from it.
    // A remark says why a directory can't be used.
    let FoundServices {
        listing,
        remarks,
        notes,
    } = read_listing(rt, alloc, directory, &mut told)?;
    let entries = sorted_entries(alloc, listing.entries())?;
    let mut checked = checked_entries(
        alloc,
        remarks.as_slice(),
        notes.as_slice(),
        entries.as_slice(),
    )?;
    // Whether a name is no name of a service.
    let is_bad = push_bad_names(&mut checked.text, told.as_slice())?;
    Ok((checked.text, checked.is_wrong || is_bad))
}

// The entries sorted by name, as svscan takes them.
fn sorted_entries(alloc: Global, entries: &[Entry]) -> Result<Vec<Entry>, AllocError> {
    let mut sorted = Vec::from_slice(alloc, entries)?;
    sorted.sort_unstable_by_key(|entry| entry.name);
    Ok(sorted)
}

// Prints the report of `svcheck`. The exit status: 1 where `is_wrong`, so something is refused or
// noted, else 0; 111 where the report can't be written, which is told on `errors`.
fn print_report<W: Write, E: Write>(
    text: &[u8],
    is_wrong: bool,
    output: &mut W,
    errors: &mut E,
) -> u8 {
    if output.write_all(text).is_err() || output.flush().is_err() {
        return tell_failure(
            b"svcheck: write\nsvcheck: standard output took nothing: is it closed, or its disk full?\n",
            errors,
        );
    }
    if is_wrong { WRONG_STATUS } else { 0 }
}

// Writes the lines about a failure of `svcheck` on `errors`, by one write. The exit status, 111.
fn tell_failure<E: Write>(lines: &[u8], errors: &mut E) -> u8 {
    let _ = errors.write_all(lines);
    SYSTEM_STATUS
}

// Tells two lines about the directory, by one write: the one for programs says `directory`, the one
// for people names it, and ends with the sentence. A part that doesn't fit is left out. The exit
// status, 111.
fn tell_directory<E: Write>(sentence: &[u8], directory: &str, errors: &mut E) -> u8 {
    let mut told = FaultText::new();
    let _ = told.try_extend_from_slice(b"svcheck: directory\nsvcheck: ");
    let _ = add_escaped(&mut told, PATH_BYTES, directory.as_bytes());
    let _ = told.try_extend_from_slice(sentence);
    tell_failure(told.as_slice(), errors)
}
