//! Finds out whether there is no service of a name because the last scan could not read its
//! directory.
ghost use Rattle.std.specs.Prelude.{◌≡◌, option_map};
ghost use Rattle.tool_lines.specs.ListEntries.{why_unread};

use crate::list_tool::ask_states_once;
use crate::patience::TRY_TIME;
use crate::tool_fault::ToolFault;
use std::alloc::Global;
use std::net::Net;
use tool_lines::{ListEntry, ToldWord, is_word};

/// The fault of a tool, more exactly: `Unread` where the server has no service of this name because
/// the last scan could not read its directory. The server is asked once whether that is so. Where
/// it doesn't answer, the fault stays as it is.
pub fn with_scan_fault<R: Net>(
    rt: &R,
    alloc: Global,
    socket: &str,
    name: Option<&str>,
    fault: ToolFault,
) -> ToolFault {
    match ask_why_unread(rt, alloc, socket, name, &fault) {
        Some(why) => ToolFault::Unread(why),
        None => fault,
    }
}

// Whether the server refused a tool's request because it has no service of the name in it.
fn is_no_service(fault: &ToolFault) -> bool {
    match fault {
        ToolFault::Refused(reason) => is_word(reason.as_bytes(), b"NoService"),
        _ => false,
    }
}

// Asks the server once for what fault the last scan could not read the directory of this name. None
// where `fault`, with which the tool failed, isn't NoService, where no name is known, or where the
// server tells no such fault.
fn ask_why_unread<R: Net>(
    rt: &R,
    alloc: Global,
    socket: &str,
    name: Option<&str>,
    fault: &ToolFault,
) -> Option<ToldWord> {
    let name = name?;
    if !is_no_service(fault) {
        return None;
    }
    // What the server tells of all services, and of the directories that the last scan could not
    // read.
    let entries = ask_states_once(rt, alloc, socket, Some(TRY_TIME)).ok()?;
    for entry in entries.as_slice() {
        if let Some(why) = why_unread(entry, name) {
            return Some(why);
        }
    }
    None
}

// Why the last scan could not read this entry, if it has this name and is unread.
fn why_unread(entry: &ListEntry, name: &str) -> Option<ToldWord>
    ensures { option_map (λ w. w) result ≡ why_unread name.now entry.now }
{
    match entry {
        ListEntry::Unread(unread, why) => {
            if is_word(unread.as_bytes(), name.as_bytes()) {
                Some(ToldWord::new(why.as_bytes()))
            } else {
                None
            }
        }
        ListEntry::Service(_) => None,
    }
}
