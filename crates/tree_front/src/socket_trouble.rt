//! What is told of a tree that did not run to its end: the line of its fault, and a second one that
//! says what was wrong.
ghost use Rattle.std.specs.Prelude.{◌≡◌, ◌++◌, OnOk};
ghost use Rattle.tool_lines.specs.Told.{escaped};
ghost use Rattle.tree_front.specs.SocketTrouble.{trouble_before, before_of, second_line};

use crate::place::TreePlace;
use arrayvec::{ArrayString, CapacityError};
use std::fs;
use std::io::Write;
use std::os::unix::fs::FileTypeExt;
use std::rt::Files;
use tool_lines::{FaultText, add_escaped};
use tree_server::{ServeFault, tell_serve_fault};

/// How many bytes of a path are told.
const PATH_BYTES: usize = 107;

/// How many bytes the path of a server's socket has at most: it is made at PATH.new/s, and the
/// system takes at most 107 bytes.
const LONGEST_SOCKET: usize = 101;

/// Why no socket can be made at a path, as far as can be seen afterwards.
#[derive(Clone, Copy, Debug, PartialEq, Eq)]
enum Trouble {
    /// The path is too long.
    Length,
    /// A socket is there, and its server answers or starts just now.
    Server,
    /// Another file is there.
    File,
    /// A file that is no folder has the name of the folder in which the socket is made.
    Beside,
    /// Nothing is seen at the path: no socket can be made in its folder.
    Folder,
}

// The path of the folder in which the socket is made; None where it is too long.
fn folder_beside(path: &str) -> Option<ArrayString<PATH_BYTES>> {
    let mut folder = ArrayString::<PATH_BYTES>::from(path).ok()?;
    folder.try_push_str(".new").ok()?;
    Some(folder)
}

// Whether a file that is no folder is at PATH.new, where the folder would be in which the socket is
// made.
fn is_taken<R: Files>(rt: &R, path: &str) -> bool {
    let Some(folder) = folder_beside(path) else {
        return false;
    };
    match fs::symlink_metadata(rt, folder.as_str()) {
        Ok(found) => !found.is_dir(),
        Err(_) => false,
    }
}

// Why the socket at this path could not be made, as far as can be seen afterwards.
fn trouble_at<R: Files>(rt: &R, path: &str) -> Trouble {
    if path.len() > LONGEST_SOCKET {
        return Trouble::Length;
    }
    match fs::symlink_metadata(rt, path) {
        Ok(found) if !found.file_type().is_socket() => Trouble::File,
        // A file stands where the folder would be in which the socket is made.
        _ if is_taken(rt, path) => Trouble::Beside,
        // A socket is there: its server answers, or starts just now.
        Ok(_) => Trouble::Server,
        // Nothing is seen at the path: no socket can be made in its folder.
        Err(_) => Trouble::Folder,
    }
}

// What the second line says before the path of the socket that could not be made.
fn trouble_before(trouble: Trouble) -> &'static str
    ensures { result.now ≡ trouble_before trouble }
{
    match trouble {
        Trouble::Length => "path is longer than 101 bytes: ",
        Trouble::Server => "another server answers or starts at ",
        Trouble::File => "another file is at ",
        Trouble::Beside => "another file has the name, with .new behind it, of ",
        Trouble::Folder => "no socket can be made in the folder of ",
    }
}

// What the second line says of a fault, up to the path that it is about; all of it where it is
// about none. `trouble` is why no socket could be made, where that is the fault.
fn before_of(fault: ServeFault, trouble: Trouble) -> &'static str
    ensures { result.now ≡ before_of fault trouble }
{
    match fault {
        ServeFault::Signals => {
            "CHLD is ignored, so no end of a service could be seen; start it by: env --default-signal=CHLD"
        }
        ServeFault::Shell => "/bin/sh can't be run, by which signals are sent",
        ServeFault::Socket => trouble_before(trouble),
        ServeFault::Directory => "can't be read, or has too much in it for a line of a script: ",
        ServeFault::NoMemory => "the system refused memory; try again later",
        ServeFault::Thread => "the system refused a thread; see ulimit -u",
        ServeFault::Clock => "the system has no clock",
        ServeFault::Full | ServeFault::Close => "a run could not go over into the next",
        ServeFault::Lanes => "1 to 4 lanes are needed",
        ServeFault::Record => {
            "can't be made or written, is no regular file, or another svscan uses it: "
        }
    }
}

// The path that is told of this fault; empty where none is.
fn path_of<'a>(fault: ServeFault, place: &'a TreePlace) -> &'a str {
    match fault {
        ServeFault::Socket => place.socket.as_str(),
        ServeFault::Directory => place.directory.as_str(),
        ServeFault::Record => place.record.as_deref().unwrap_or(""),
        _ => "",
    }
}

// Adds the second line about the fault by which a tree did not run to its end, the one for people.
// `path` is the path that the fault is about, and `trouble` why no socket could be made, where that
// is the fault.
fn add_second_line(
    told: &mut FaultText,
    fault: ServeFault,
    trouble: Trouble,
    path: &str,
) -> Result<(), CapacityError>
    ensures { OnOk result (told.new.items ≡ told.old.items ++ second_line fault trouble path.now) }
{
    told.try_extend_from_slice(b"svscan: ")?;
    told.try_extend_from_slice(before_of(fault, trouble).as_bytes())?;
    // The first `PATH_BYTES` bytes of the path; those that can't be printed are escaped.
    add_escaped(told, PATH_BYTES, path.as_bytes())?;
    told.try_extend_from_slice(b"\n")
}

/// Tells a fault of the tree at this place by two lines, in one write. The exit status, 111.
pub fn tell_fault<R: Files, E: Write>(
    rt: &R,
    fault: ServeFault,
    place: &TreePlace,
    errors: &mut E,
) -> u8
    ensures { result ≡ 111 }
{
    let mut told = FaultText::new();
    // The line of the fault, for programs.
    let status = tell_serve_fault(fault, &mut told);
    // It is told only where the fault is that of the socket.
    let trouble = trouble_at(rt, place.socket.as_str());
    let _ = add_second_line(&mut told, fault, trouble, path_of(fault, place));
    let _ = errors.write_all(told.as_slice());
    status
}
