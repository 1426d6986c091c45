//! What a reading of a scan directory found.
ghost use Rattle.std.specs.Prelude.{◌≡◌, ◌++◌, OnOk};
ghost use Rattle.std.specs.List.{flat_map};
ghost use Rattle.scan_directory.specs.Found.{fault_word, unread_line, note_line};

use crate::dir_note::{DirNote, note_word};
use s6_events::Name;
use servicedir::DirFault;
use std::alloc::{AllocError, Global};
use tree_core::Listing;

/// A service whose directory can't be used, and why: the answer to `states` has an `unread` line
/// for it.
#[derive(Clone, Copy, Debug, PartialEq, Eq)]
pub struct Remark {
    pub name: Name,
    pub fault: DirFault,
}

/// A service that is supervised, and something in its directory that doesn't mean what its writer
/// meant.
#[derive(Clone, Copy, Debug, PartialEq, Eq)]
pub struct Noted {
    pub name: Name,
    pub note: DirNote,
}

/// What was found in a scan directory: its listing, the directories that can't be used, and what is
/// noted of the others, a service after the other. All are in the order read.
#[derive(Drop)]
pub struct FoundServices {
    pub listing: Listing<Global>,
    pub remarks: Vec<Remark>,
    pub notes: Vec<Noted>,
}

/// The word of a fault, as lines on standard error and `unread` lines have it.
pub fn fault_word(fault: DirFault) -> &'static str
    ensures { result.now ≡ fault_word fault }
{
    match fault {
        DirFault::NoRun => "NoRun",
        DirFault::NotLongrun => "NotLongrun",
        DirFault::NotifyFd => "NotifyFd",
        DirFault::Io => "Io",
        DirFault::BadName => "BadName",
        DirFault::NoMemory => "NoMemory",
    }
}

// Adds the line of a service whose directory can't be used.
fn push_unread(text: &mut Vec<u8>, remark: &Remark) -> Result<(), AllocError>
    ensures { OnOk result (text.new.items ≡ text.old.items ++ unread_line remark.now) }
{
    text.extend_from_slice(b"unread ")?;
    text.extend_from_slice(remark.name.as_bytes())?;
    text.extend_from_slice(b" ")?;
    text.extend_from_slice(fault_word(remark.fault).as_bytes())?;
    text.extend_from_slice(b"\n")
}

/// Adds a line for each service whose directory can't be used.
pub fn push_all_unread(text: &mut Vec<u8>, unread: &[Remark]) -> Result<(), AllocError>
    ensures { OnOk result (text.new.items ≡ text.old.items ++ flat_map unread_line unread.now) }
{
    for remark in unread {
        push_unread(text, remark)?;
    }
    Ok(())
}

/// Adds the line of a note, as it is told on standard error.
pub fn push_note_line(text: &mut Vec<u8>, noted: &Noted) -> Result<(), AllocError>
    ensures { OnOk result (text.new.items ≡ text.old.items ++ note_line noted.now) }
{
    text.extend_from_slice(b"svscan: ")?;
    text.extend_from_slice(noted.name.as_bytes())?;
    text.extend_from_slice(b" ")?;
    text.extend_from_slice(note_word(noted.note).as_bytes())?;
    text.extend_from_slice(b"\n")
}
