//! Reading a scan directory: each entry whose name is a service's is listed. What is wrong in its
//! directory is a remark, and told on `errors`.
ghost use Rattle.std.specs.Prelude.{◌≡◌, ◌++◌, IfOk, OnOk, option_to_list};
ghost use Rattle.std.specs.Char.Escape.{escape_ascii};
ghost use Rattle.std.specs.List.{flat_map};
ghost use Rattle.s6_script.specs.Recording.{FitsLine};
ghost use Rattle.servicedir.specs.ServiceName.{seen_of};
ghost use Rattle.servicedir.specs.declared.service_name.Seen.TheVariants.{Bad};
ghost use Rattle.scan_directory.specs.Names.{listed_names, service_in, AreListed, bad_name_lines, IsTold};
ghost use Rattle.scan_directory.specs.Found.{note_line};
ghost use Rattle.scan_directory.specs.Scanning.{scan_at, last_moment};

use crate::dir_note::DirNote;
use crate::found::{FoundServices, Noted, Remark, fault_word, push_note_line};
use crate::noting::{note_service, push_note};
use crate::service_files::ServiceFiles;
use s6_events::{Actor, At, Name};
use s6_script::{SpellFault, write_input, write_whole};
use servicedir::{Config, DirFault, Seen, read};
use std::alloc::{AllocError, Global};
use std::io::{BufRead, BufReader, ErrorKind, Write};
use std::rt::Files;
use std::{ascii, io, str};
use tree_core::{Entry, Listing, PlainAct, PlainInput};

// What was read of the entries so far.
#[derive(Drop)]
struct ReadEntries {
    entries: Vec<Entry>,
    remarks: Vec<Remark>,
    notes: Vec<Noted>,
}

/// The last moment that an input can have, in milliseconds: no other takes more bytes in a script.
const LAST_MOMENT: u64 = 1_000_000_000_000_000;

/// Reads each entry of the directory whose name is that of a service, and lists it, even where its
/// directory can't be used. That it can't is told on `errors`, and so is a name that is no
/// service's and doesn't begin with a dot, each by one write. A scan is recorded as one line of a
/// script: a listing that is too long for such a line is told there too, and refused as
/// `InvalidData`. Of one that is taken, what is noted of the directories that can be used is told
/// behind the rest. Another error comes where memory is refused, or the directory can't be read.
/// Pages `s6-svscan` and `servicedir`.
pub fn read_listing<R: Files + Copy + Drop, E: Write>(
    rt: &R,
    alloc: Global,
    directory: &str,
    errors: &mut E,
) -> io::Result<FoundServices>
    ensures fits { IfOk result (λ found. FitsLine (scan_at last_moment found.listing)) }
{
    let ReadEntries {
        entries,
        remarks,
        notes,
    } = read_entries(rt, alloc, directory, errors)?;
    match listing_of(alloc, entries) {
        Ok(listing) => {
            tell_notes(alloc, notes.as_slice(), errors)?;
            Ok(FoundServices {
                listing,
                remarks,
                notes,
            })
        }
        Err(error) => {
            if error.kind() == ErrorKind::InvalidData {
                let _ = errors.write_all(
                    b"svscan: the listing is longer than a line of a script\n",
                );
            }
            Err(error)
        }
    }
}

// The listing of these entries. To see whether a line of a script can spell it, a scan of them is
// spelled once, and the text thrown away: `InvalidData` where it can't, `OutOfMemory` where memory
// is refused.
fn listing_of(alloc: Global, entries: Vec<Entry>) -> io::Result<Listing<Global>>
    ensures fits { IfOk result (λ listing. FitsLine (scan_at last_moment listing)) }
{
    // This never fails: 0 is the number of an actor.
    let Some(actor) = Actor::new(0) else {
        return Err(ErrorKind::InvalidData.into());
    };
    // This never fails: it is the last valid moment.
    let Some(at) = At::new(LAST_MOMENT) else {
        return Err(ErrorKind::InvalidData.into());
    };
    // The last moment takes the most bytes of a line.
    let scan = PlainInput {
        actor,
        at,
        act: PlainAct::Scan(entries),
    };
    let mut nowhere = io::sink();
    // The text goes nowhere: only whether it can be spelled counts.
    let spelt = write_input(alloc, &scan, &mut nowhere);
    match spelt {
        Ok(()) => {}
        Err(SpellFault::NoMemory) => return Err(ErrorKind::OutOfMemory.into()),
        // It is `Unspelt`: `io::sink` takes every write, so `Write` never comes.
        Err(_) => return Err(ErrorKind::InvalidData.into()),
    }
    // The entries are taken out of the scan again.
    let PlainInput { act, .. } = scan;
    match act {
        PlainAct::Scan(entries) => Ok(Listing::new(entries)),
        // This never comes: the act was made a scan above.
        _ => Err(ErrorKind::InvalidData.into()),
    }
}

// The entries of the directory that are services.
fn read_entries<R: Files + Copy + Drop, E: Write>(
    rt: &R,
    alloc: Global,
    directory: &str,
    errors: &mut E,
) -> io::Result<ReadEntries> {
    // With the slash at the end, a link to a directory is followed.
    let path = format!(in alloc; "{directory}/")?;
    // The names of the entries, each with a 0 byte behind it.
    let names = BufReader::new(alloc, rt.open_dir(path.as_str())?)?;
    read_names(rt, alloc, directory, names, errors)
}

// The entries that are services, of these names, each with a 0 behind it. A name is bytes: one that
// isn't UTF-8 is no error.
fn read_names<R: Files, N: BufRead + Drop, E: Write>(
    rt: &R,
    alloc: Global,
    directory: &str,
    names: N,
    errors: &mut E,
) -> io::Result<ReadEntries>
    ensures listed { IfOk result
        (λ read. AreListed (N.remaining names) (listed_names read.entries.items)) }
{
    let mut read = ReadEntries {
        entries: Vec::new(alloc),
        remarks: Vec::new(alloc),
        notes: Vec::new(alloc),
    };
    for name in names.split(alloc, 0) {
        let name = name?;
        read_entry(rt, alloc, directory, name.as_slice(), &mut read, errors)?;
    }
    Ok(read)
}

// Reads the entry of this name, and adds it if it is a service.
fn read_entry<R: Files, E: Write>(
    rt: &R,
    alloc: Global,
    directory: &str,
    name: &[u8],
    read: &mut ReadEntries,
    errors: &mut E,
) -> Result<(), AllocError>
    ensures listed { OnOk result (listed_names read.new.entries.items
        ≡ listed_names read.old.entries.items ++ option_to_list (service_in (seen_of name.now))) }
    ensures told { OnOk result (seen_of name.now ≡ Bad
        → IsTold (E.contents errors.old) (E.contents errors.new) (bad_name_lines name.now)) }
{
    match service_of(name) {
        Seen::Service(service) => {
            // None where its directory can't be used.
            let config = read_service(
                rt,
                alloc,
                directory,
                service,
                &mut read.remarks,
                &mut read.notes,
                errors,
            )?;
            read.entries.push(Entry {
                name: service,
                config,
            })?;
            Ok(())
        }
        // A name with a dot in front is passed over.
        Seen::Hidden => Ok(()),
        // It is no name of a service.
        Seen::Bad => tell_bad_name(alloc, name, errors),
    }
}

// What an entry of this name is, as `servicedir::name_of` says of a text.
fn service_of(name: &[u8]) -> Seen
    ensures { result ≡ seen_of name.now }
{
    if name.first() == Some(&b'.') {
        return Seen::Hidden;
    }
    match Name::new(name) {
        Some(service) => Seen::Service(service),
        None => Seen::Bad,
    }
}

// Tells a bad name by two lines in one write, so that nothing comes between them.
fn tell_bad_name<E: Write>(alloc: Global, name: &[u8], errors: &mut E) -> Result<(), AllocError>
    ensures { OnOk result
        (IsTold (E.contents errors.old) (E.contents errors.new) (bad_name_lines name.now)) }
{
    let lines = bad_name_text(alloc, name)?;
    tell_whole(lines.as_slice(), errors);
    Ok(())
}

// Writes the lines, or as much of them as the writer takes: that a writer takes no more is no error
// here.
fn tell_whole<E: Write>(lines: &[u8], errors: &mut E)
    ensures { IsTold (E.contents errors.old) (E.contents errors.new) lines.now }
{
    let _ = write_whole(errors, lines);
}

// The two lines about a bad name.
fn bad_name_text(alloc: Global, name: &[u8]) -> Result<Vec<u8>, AllocError>
    ensures { IfOk result (λ lines. lines.items ≡ bad_name_lines name.now) }
{
    let mut lines = Vec::new(alloc);
    lines.extend_from_slice(b"svscan: BadName\nsvscan: '")?;
    push_escaped(&mut lines, name)?;
    lines.extend_from_slice(b"' is no name of a service\n")?;
    Ok(lines)
}

// Adds bytes; one that isn't printable is escaped.
fn push_escaped(line: &mut Vec<u8>, bytes: &[u8]) -> Result<(), AllocError>
    ensures { OnOk result (line.new.items ≡ line.old.items ++ flat_map escape_ascii bytes.now) }
{
    for byte in bytes {
        push_escaped_byte(line, *byte)?;
    }
    Ok(())
}

// Adds a byte; one that isn't printable is escaped, and so are quotes and the backslash.
fn push_escaped_byte(line: &mut Vec<u8>, byte: u8) -> Result<(), AllocError>
    ensures { OnOk result (line.new.items ≡ line.old.items ++ escape_ascii byte) }
{
    for escaped in ascii::escape_default(byte) {
        line.push(escaped)?;
    }
    Ok(())
}

// The configuration of a service; None where its directory can't be used: then why is added to
// `remarks`, and told on `errors`. What is noted of one that can be used is added to `notes`. The
// error says that memory was refused.
fn read_service<R: Files, E: Write>(
    rt: &R,
    alloc: Global,
    directory: &str,
    name: Name,
    remarks: &mut Vec<Remark>,
    notes: &mut Vec<Noted>,
    errors: &mut E,
) -> Result<Option<Config>, AllocError> {
    // A name has ASCII characters alone, so the dash is never taken.
    let text = str::from_utf8(name.as_bytes()).unwrap_or("-");
    let path = format!(in alloc; "{directory}/{text}")?;
    let mut files = ServiceFiles::of(rt, alloc, path.as_str());
    match read(alloc, &mut files, name) {
        Ok(found) => {
            push_note(notes, name, found.note.map(|_| DirNote::NotifyFd))?;
            note_service(rt, alloc, path.as_str(), name, &files, notes)?;
            Ok(Some(found.config))
        }
        Err(fault) => {
            remarks.push(Remark { name, fault })?;
            tell_fault(alloc, text, fault, errors)?;
            Ok(None)
        }
    }
}

// Tells on `errors` by one line why the directory of the service of this name can't be used; a line
// that can't be written is lost. An error where memory for the line is refused.
fn tell_fault<E: Write>(
    alloc: Global,
    name: &str,
    fault: DirFault,
    errors: &mut E,
) -> Result<(), AllocError> {
    let word = fault_word(fault);
    let line = format!(in alloc; "svscan: {name} {word}\n")?;
    let _ = errors.write_all(line.as_bytes());
    Ok(())
}

// Tells on `errors` what is noted, a line for each note. An error where memory for a line is
// refused.
fn tell_notes<E: Write>(alloc: Global, notes: &[Noted], errors: &mut E) -> Result<(), AllocError> {
    for noted in notes {
        tell_note(alloc, noted, errors)?;
    }
    Ok(())
}

// Tells a note by one line.
fn tell_note<E: Write>(alloc: Global, noted: &Noted, errors: &mut E) -> Result<(), AllocError>
    ensures { OnOk result
        (IsTold (E.contents errors.old) (E.contents errors.new) (note_line noted.now)) }
{
    let line = note_text(alloc, noted)?;
    tell_whole(line.as_slice(), errors);
    Ok(())
}

// The line of a note.
fn note_text(alloc: Global, noted: &Noted) -> Result<Vec<u8>, AllocError>
    ensures { IfOk result (λ line. line.items ≡ note_line noted.now) }
{
    let mut line = Vec::new(alloc);
    push_note_line(&mut line, noted)?;
    Ok(line)
}
