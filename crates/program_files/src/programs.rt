//! What is wrong with the programs of a service, `run` and `finish`, and with the interpreters that
//! their first lines name.
ghost use Rattle.std.specs.Prelude.{◌≡◌};
ghost use Rattle.program_files.specs.Programs.{fault_of_program, fault_of_interpreter};

use crate::first_line::{fault_of_text, interpreter_of};
use crate::program_fault::ProgramFault;
use std::alloc::{AllocError, Global};
use std::io::ErrorKind;
use std::os::unix::fs::PermissionsExt;
use std::rt::Files;
use std::{fs, str};

/// What stands at a path, for somebody who wants to execute it.
#[derive(Clone, Copy, Debug, PartialEq, Eq)]
pub enum FileState {
    /// A regular file that somebody may execute.
    Executable,
    /// A regular file that nobody may execute.
    NotExecutable,
    /// A directory, a pipe or the like.
    NotRegular,
    /// Nothing.
    Absent,
    /// It can't be seen what.
    Unknown,
}

/// What is wrong with the program of this name in a service's directory: first with the file, then
/// with what it says. `text` is what was read of it, if anything. The error says that memory was
/// refused.
pub fn program_faults<R: Files>(
    rt: &R,
    alloc: Global,
    directory: &str,
    program: &str,
    text: Option<&[u8]>,
) -> Result<[Option<ProgramFault>; 2], AllocError> {
    let path = format!(in alloc; "{directory}/{program}")?;
    let of_file = fault_of_program(state_of(rt, path.as_str()));
    let of_text = match text {
        Some(text) => text_fault(rt, alloc, directory, text)?,
        None => None,
    };
    Ok([of_file, of_text])
}

// What is wrong with what a program of this directory says.
fn text_fault<R: Files>(
    rt: &R,
    alloc: Global,
    directory: &str,
    text: &[u8],
) -> Result<Option<ProgramFault>, AllocError> {
    let fault = fault_of_text(text);
    if fault.is_some() {
        return Ok(fault);
    }
    match interpreter_of(text) {
        Some(path) => interpreter_fault(rt, alloc, directory, path),
        None => Ok(None),
    }
}

/// Whether a program of this directory whose text begins so can't be started, since its first line
/// names an interpreter that isn't there, or that nobody may execute. The error says that memory
/// was refused.
pub fn lacks_interpreter<R: Files>(
    rt: &R,
    alloc: Global,
    directory: &str,
    text: &[u8],
) -> Result<bool, AllocError> {
    match interpreter_of(text) {
        Some(path) => Ok(interpreter_fault(rt, alloc, directory, path)?.is_some()),
        None => Ok(false),
    }
}

// What is wrong with the interpreter of this path, which a program of this directory names. Of one
// whose path isn't UTF-8 nothing is said.
fn interpreter_fault<R: Files>(
    rt: &R,
    alloc: Global,
    directory: &str,
    path: &[u8],
) -> Result<Option<ProgramFault>, AllocError> {
    let Ok(path) = str::from_utf8(path) else {
        return Ok(None);
    };
    if path.starts_with('/') {
        return Ok(fault_of_interpreter(true, state_of(rt, path)));
    }
    // A service runs in its own directory, and so a relative path is looked for there.
    let path = format!(in alloc; "{directory}/{path}")?;
    Ok(fault_of_interpreter(false, state_of(rt, path.as_str())))
}

// What is wrong with the file of a program.
fn fault_of_program(state: FileState) -> Option<ProgramFault>
    ensures { result ≡ fault_of_program state }
{
    match state {
        FileState::NotExecutable => Some(ProgramFault::NotExecutable),
        FileState::NotRegular => Some(ProgramFault::NotRegular),
        FileState::Executable | FileState::Absent | FileState::Unknown => None,
    }
}

// What is wrong with an interpreter, where this stands at its path.
fn fault_of_interpreter(is_absolute: bool, state: FileState) -> Option<ProgramFault>
    ensures { result ≡ fault_of_interpreter is_absolute state }
{
    match state {
        FileState::Executable | FileState::Unknown => None,
        FileState::NotExecutable | FileState::NotRegular => Some(ProgramFault::InterpreterUnusable),
        FileState::Absent if is_absolute => Some(ProgramFault::InterpreterAbsent),
        FileState::Absent => Some(ProgramFault::InterpreterRelative),
    }
}

// What stands at this path.
fn state_of<R: Files>(rt: &R, path: &str) -> FileState {
    match fs::metadata(rt, path) {
        Ok(found) if !found.is_file() => FileState::NotRegular,
        Ok(found) if found.permissions().mode() & 0o111 == 0 => FileState::NotExecutable,
        Ok(_) => FileState::Executable,
        Err(error) => match error.kind() {
            ErrorKind::NotFound | ErrorKind::NotADirectory => FileState::Absent,
            _ => FileState::Unknown,
        },
    }
}
