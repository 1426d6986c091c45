//! Lines for each entry of a scan directory, which say what svscan would do with it. A remark says
//! why an entry's directory can't be used, a note what in one that can be used doesn't mean what
//! its writer meant.
ghost use Rattle.std.specs.Prelude.{◌≡◌, ◌++◌, ◌||◌, IfOk, OnOk, count_by, is_none, nat_lt, option_map};
ghost use Rattle.std.specs.List.{flat_map, list_any};
ghost use Rattle.svcheck.specs.Lines.{fault_of, readiness_words, settings_words, supervised_line, note_line, line_for, usable_lines, refused_line, entry_lines, is_usable, full_line, checked_text, is_refused, is_wrong};

use crate::note_sentences::push_note_sentence;
use crate::sentences::{fault_sentence, finish_words, start_words};
use s6_events::Name;
use s6_script::push_number;
use scan_directory::{DirNote, Noted, Remark, fault_word, note_word};
use servicedir::{Config, DirFault};
use std::alloc::{AllocError, Global};
use svscan_core::{Entry, SERVICE_LIMIT};

/// What svscan would do with the entries of a scan directory: in `text` lines for each, and in
/// `is_wrong` whether one of them would not be supervised, or something is noted.
#[derive(Drop)]
pub struct CheckedEntries {
    /// Lines for each of them.
    pub text: Vec<u8>,
    /// Whether one of them at least would not be supervised, or something is noted.
    pub is_wrong: bool,
}

// The first fault that was found of the service of this name; None where there is no such fault.
fn fault_of(remarks: &[Remark], name: Name) -> Option<DirFault>
    ensures { result ≡ fault_of remarks.now name }
{
    remarks
        .iter()
        .find(|remark| remark.name == name)
        .map(|remark| remark.fault)
}

// Adds whether a service tells that it is ready: `descriptor` is the file descriptor on which it
// does, None where it doesn't.
fn push_readiness(text: &mut Vec<u8>, descriptor: Option<u8>) -> Result<(), AllocError>
    ensures { OnOk result (text.new.items ≡ text.old.items ++ readiness_words descriptor) }
{
    match descriptor {
        Some(descriptor) => {
            text.extend_from_slice(b", tells its readiness on descriptor ")?;
            push_number(text, u64::from(descriptor))
        }
        None => text.extend_from_slice(b", tells no readiness"),
    }
}

// Adds what the directory of a service that svscan would supervise says, to the end of the line.
fn push_settings(text: &mut Vec<u8>, config: Config) -> Result<(), AllocError>
    ensures { OnOk result (text.new.items ≡ text.old.items ++ settings_words config) }
{
    text.extend_from_slice(start_words(config.down).as_bytes())?;
    push_readiness(text, config.notification_fd)?;
    text.extend_from_slice(finish_words(config.finish).as_bytes())?;
    text.extend_from_slice(b"\n")
}

// Adds the line of a service that svscan would supervise. `config` is what its directory says.
fn push_supervised(text: &mut Vec<u8>, name: Name, config: Config) -> Result<(), AllocError>
    ensures { OnOk result (text.new.items ≡ text.old.items ++ supervised_line name config) }
{
    text.extend_from_slice(name.as_bytes())?;
    text.extend_from_slice(b": supervised")?;
    push_settings(text, config)
}

// Adds the line of a note of a service. `descriptor` is where the service tells its readiness.
fn push_note_line(
    text: &mut Vec<u8>,
    name: Name,
    descriptor: Option<u8>,
    note: DirNote,
) -> Result<(), AllocError>
    ensures { OnOk result (text.new.items ≡ text.old.items ++ note_line name descriptor note) }
{
    text.extend_from_slice(name.as_bytes())?;
    text.extend_from_slice(b": noted ")?;
    text.extend_from_slice(note_word(note).as_bytes())?;
    text.extend_from_slice(b": ")?;
    push_note_sentence(text, note, descriptor)?;
    text.extend_from_slice(b"\n")
}

// Adds the line of a note, if it is one of the service of this name.
fn push_note_for(
    text: &mut Vec<u8>,
    name: Name,
    descriptor: Option<u8>,
    noted: &Noted,
) -> Result<(), AllocError>
    ensures { OnOk result (text.new.items ≡ text.old.items ++ line_for name descriptor noted.now) }
{
    if noted.name == name {
        push_note_line(text, name, descriptor, noted.note)
    } else {
        Ok(())
    }
}

// Adds a line for each note of the service of this name.
fn push_notes_for(
    text: &mut Vec<u8>,
    name: Name,
    descriptor: Option<u8>,
    notes: &[Noted],
) -> Result<(), AllocError>
    ensures { OnOk result (text.new.items
        ≡ text.old.items ++ flat_map (line_for name descriptor) notes.now) }
{
    for noted in notes {
        push_note_for(text, name, descriptor, noted)?;
    }
    Ok(())
}

// Adds the lines of a service that svscan would supervise: the one that says so, and one for each
// note.
fn push_usable(
    text: &mut Vec<u8>,
    name: Name,
    config: Config,
    notes: &[Noted],
) -> Result<(), AllocError>
    ensures { OnOk result (text.new.items
        ≡ text.old.items ++ usable_lines name config notes.now) }
{
    push_supervised(text, name, config)?;
    push_notes_for(text, name, config.notification_fd, notes)
}

// Adds the line of a name that svscan would not supervise, and of the fault for which it would not.
fn push_refused(text: &mut Vec<u8>, name: &[u8], fault: DirFault) -> Result<(), AllocError>
    ensures { OnOk result (text.new.items ≡ text.old.items ++ refused_line name.now fault) }
{
    text.extend_from_slice(name)?;
    text.extend_from_slice(b": refused ")?;
    text.extend_from_slice(fault_word(fault).as_bytes())?;
    text.extend_from_slice(b": ")?;
    text.extend_from_slice(fault_sentence(fault).as_bytes())?;
    text.extend_from_slice(b"\n")
}

// Adds the lines of an entry.
fn push_entry(
    text: &mut Vec<u8>,
    remarks: &[Remark],
    notes: &[Noted],
    entry: &Entry,
) -> Result<(), AllocError>
    ensures { OnOk result (text.new.items
        ≡ text.old.items ++ entry_lines remarks.now notes.now entry.now) }
{
    // Why its directory can't be used, if so.
    let fault = fault_of(remarks, entry.name);
    match entry.config {
        Some(config) => push_usable(text, entry.name, config, notes),
        // `read_listing` has a remark for each entry without a configuration, so `Io` never stands
        // in for one.
        None => push_refused(text, entry.name.as_bytes(), fault.unwrap_or(DirFault::Io)),
    }
}

// Adds the lines of each entry of the scan directory.
fn push_entries(
    text: &mut Vec<u8>,
    remarks: &[Remark],
    notes: &[Noted],
    entries: &[Entry],
) -> Result<(), AllocError>
    ensures { OnOk result (text.new.items
        ≡ text.old.items ++ flat_map (entry_lines remarks.now notes.now) entries.now) }
{
    for entry in entries {
        push_entry(text, remarks, notes, entry)?;
    }
    Ok(())
}

// The number of entries whose directory could be read, so that svscan can supervise them as
// services.
fn usable_count(entries: &[Entry]) -> usize
    ensures { result ≡ count_by is_usable entries.now }
{
    entries
        .iter()
        .filter(|entry| entry.config.is_some())
        .count()
}

// Adds a line if `count`, the number of usable services, is more than a tree supervises.
fn push_full(text: &mut Vec<u8>, count: usize) -> Result<(), AllocError>
    ensures { OnOk result (text.new.items ≡ text.old.items ++ full_line count) }
{
    if count > SERVICE_LIMIT {
        text.extend_from_slice(
            b"refused full: a tree has at most 256 services: the last by name are left out\n",
        )
    } else {
        Ok(())
    }
}

// Whether there is an entry whose directory could not be read.
fn has_unread(entries: &[Entry]) -> bool
    ensures { result ≡ list_any (λ e. is_none e.config) entries.now }
{
    entries.iter().any(|entry| entry.config.is_none())
}

// Whether svscan would leave out one of the entries at least: its directory could not be read, or
// there are more than 256 services.
fn is_refused(entries: &[Entry]) -> bool
    ensures { result ≡ is_refused entries.now }
{
    has_unread(entries) || usable_count(entries) > SERVICE_LIMIT
}

// Whether something is wrong: svscan would leave out an entry, or something is noted.
fn is_wrong(notes: &[Noted], entries: &[Entry]) -> bool
    ensures { result ≡ is_wrong notes.now entries.now }
{
    is_refused(entries) || !notes.is_empty()
}

/// What svscan would do with these entries. `remarks` say why directories can't be used, `notes`
/// what is noted of the others. Page `servicedir`; what is noted, and the lines, are chosen here.
/// The error says that memory was refused.
pub fn checked_entries(
    alloc: Global,
    remarks: &[Remark],
    notes: &[Noted],
    entries: &[Entry],
) -> Result<CheckedEntries, AllocError>
    ensures text { IfOk result (λ checked. checked.text.items
        ≡ checked_text remarks.now notes.now entries.now) }
    ensures wrong { IfOk result (λ checked. checked.is_wrong ≡ is_wrong notes.now entries.now) }
{
    let mut text = Vec::new(alloc);
    push_entries(&mut text, remarks, notes, entries)?;
    // A last line where there are more services than a tree takes.
    push_full(&mut text, usable_count(entries))?;
    let is_wrong = is_wrong(notes, entries);
    Ok(CheckedEntries { text, is_wrong })
}

// The bad name, with its quotes, in a line `svscan: 'NAME' is no name of a service`; None for any
// other line.
fn bad_name_in(line: &[u8]) -> Option<&[u8]> {
    line.strip_prefix(b"svscan: ".as_slice())?
        .strip_suffix(b" is no name of a service".as_slice())
}

/// Adds a line for each bad name in `told`, which is what `read_listing` wrote on its `errors`.
/// Returns whether there was one.
pub fn push_bad_names(text: &mut Vec<u8>, told: &[u8]) -> Result<bool, AllocError> {
    let mut is_there = false;
    for line in told.split(|byte| *byte == b'\n') {
        if let Some(name) = bad_name_in(line) {
            // The name has the quotes of the line around it.
            push_refused(text, name, DirFault::BadName)?;
            is_there = true;
        }
    }
    Ok(is_there)
}
