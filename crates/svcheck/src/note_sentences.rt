//! The sentences about what is noted: what a file means now, and what would be right.
ghost use Rattle.std.specs.Prelude.{◌≡◌, ◌++◌, OnOk};
ghost use Rattle.svcheck.specs.NoteSentences.{is_by_shell, outcome_words, cause_words, program_sentence, file_sentence, note_sentence};

use program_files::ProgramFault;
use scan_directory::DirNote;
use std::alloc::AllocError;

/// Adds the sentence for a note of a service. `descriptor` is where the service tells its
/// readiness, None where it doesn't: a `run` that tells it on 3 to 9 is started by `/bin/sh`. Page
/// `servicedir`.
pub fn push_note_sentence(
    text: &mut Vec<u8>,
    note: DirNote,
    descriptor: Option<u8>,
) -> Result<(), AllocError>
    ensures { OnOk result (text.new.items ≡ text.old.items ++ note_sentence note descriptor) }
{
    match note {
        DirNote::Run(fault) => push_program(text, "run", fault, is_by_shell(descriptor)),
        DirNote::Finish(fault) => push_program(text, "finish", fault, false),
        other => text.extend_from_slice(file_sentence(other).as_bytes()),
    }
}

// The sentence for a note about another file than a program.
fn file_sentence(note: DirNote) -> &'static str
    ensures { result.now ≡ file_sentence note }
{
    match note {
        DirNote::NotifyFd => {
            "its notification-fd names none of 1 and 3 to 9: it never tells that it is ready"
        }
        DirNote::TimeoutKill => "its timeout-kill is no number of milliseconds: it is never killed",
        DirNote::TimeoutFinish => {
            "its timeout-finish is no number of milliseconds: its finish has 5000"
        }
        DirNote::MaxDeathTally => "its max-death-tally is no number: 100 deaths are kept",
        DirNote::MaxDeathTallyOver => "its max-death-tally is over 4096: 4096 deaths are kept",
        DirNote::DownSignal => {
            "its down-signal is no name in capitals and none of 1 to 64: SIGTERM takes it down"
        }
        DirNote::Log => "its log is not run: let the logger be a service of its own",
        DirNote::LockFd => "its lock-fd is not read: let its run take the lock, as by flock",
        DirNote::NewPidns => {
            "its flag-newpidns is not read: let its run begin with exec unshare --pid --fork"
        }
        DirNote::Instances => "its instances are not run: let each be a service of its own",
        // A program has a sentence of its own.
        DirNote::Run(_) | DirNote::Finish(_) => "",
    }
}

// Adds the sentence about a program that can't be started, or not as it is written: what comes of
// it, and why.
fn push_program(
    text: &mut Vec<u8>,
    program: &str,
    fault: ProgramFault,
    by_shell: bool,
) -> Result<(), AllocError>
    ensures { OnOk result (text.new.items
        ≡ text.old.items ++ program_sentence program.now fault by_shell) }
{
    text.extend_from_slice(b"its ")?;
    text.extend_from_slice(program.as_bytes())?;
    text.extend_from_slice(outcome_words(fault, by_shell).as_bytes())?;
    text.extend_from_slice(cause_words(fault).as_bytes())
}

// Whether a `run` is started by `/bin/sh`: its readiness is told on 3 to 9.
fn is_by_shell(descriptor: Option<u8>) -> bool
    ensures { result ≡ is_by_shell descriptor }
{
    match descriptor {
        Some(descriptor) => descriptor >= 3,
        None => false,
    }
}

// What comes of a program with this fault.
fn outcome_words(fault: ProgramFault, by_shell: bool) -> &'static str
    ensures { result.now ≡ outcome_words fault by_shell }
{
    match fault {
        ProgramFault::CarriageReturn => " can't run as it is written: ",
        ProgramFault::Empty | ProgramFault::NoInterpreter if by_shell => {
            " is read by /bin/sh as a script of its own: "
        }
        _ => " can't be started: ",
    }
}

// Why that comes of it.
fn cause_words(fault: ProgramFault) -> &'static str
    ensures { result.now ≡ cause_words fault }
{
    match fault {
        ProgramFault::NotExecutable => "nobody may execute it",
        ProgramFault::NotRegular => "it is no regular file",
        ProgramFault::Empty => "it is empty",
        ProgramFault::NoInterpreter => "its first line names no interpreter, as #!/bin/sh does",
        ProgramFault::CarriageReturn => "its first line ends with a carriage return",
        ProgramFault::InterpreterAbsent => "the interpreter of its first line isn't there",
        ProgramFault::InterpreterRelative => {
            "the interpreter of its first line has no slash in front, and isn't in its directory"
        }
        ProgramFault::InterpreterUnusable => {
            "the interpreter of its first line is no file that may be executed"
        }
    }
}
