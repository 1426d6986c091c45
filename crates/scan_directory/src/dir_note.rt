//! What a service directory has that doesn't mean what its writer meant, though the service is
//! supervised.
ghost use Rattle.std.specs.Prelude.{◌≡◌};
ghost use Rattle.scan_directory.specs.Notes.{finish_word, note_word, run_word};

use program_files::ProgramFault;

/// What is noted of a directory whose service is supervised: a file that doesn't mean what it says,
/// a program that can't be started as it is written, or what s6 knows and is passed over here. Page
/// `servicedir`; that such a file is noted is chosen here.
#[derive(Clone, Copy, Debug, PartialEq, Eq)]
pub enum DirNote {
    /// `notification-fd` names no descriptor that is served: the service never tells that it is
    /// ready.
    NotifyFd,
    /// `timeout-kill` says no number: the service is never killed for being late.
    TimeoutKill,
    /// `timeout-finish` says no number: `finish` has 5000 ms.
    TimeoutFinish,
    /// `max-death-tally` says no number: 100 deaths are kept.
    MaxDeathTally,
    /// `max-death-tally` says a number over 4096: 4096 deaths are kept.
    MaxDeathTallyOver,
    /// `down-signal` says no signal: SIGTERM takes the service down.
    DownSignal,
    /// What is wrong with `run`.
    Run(ProgramFault),
    /// What is wrong with `finish`.
    Finish(ProgramFault),
    /// There is a folder `log`: no logger is run. Page `s6-svscan`.
    Log,
    /// There is a `lock-fd`: no lock is taken.
    LockFd,
    /// There is a `flag-newpidns`: the service gets no namespace of its own.
    NewPidns,
    /// There is an `instance` or `instances`: no instance is run.
    Instances,
}

/// The word of a note, as lines on standard error and those of `svcheck` have it.
pub fn note_word(note: DirNote) -> &'static str
    ensures { result.now ≡ note_word note }
{
    match note {
        DirNote::NotifyFd => "NotifyFd",
        DirNote::TimeoutKill => "TimeoutKill",
        DirNote::TimeoutFinish => "TimeoutFinish",
        DirNote::MaxDeathTally | DirNote::MaxDeathTallyOver => "MaxDeathTally",
        DirNote::DownSignal => "DownSignal",
        DirNote::Run(fault) => run_word(fault),
        DirNote::Finish(fault) => finish_word(fault),
        DirNote::Log => "Log",
        DirNote::LockFd => "LockFd",
        DirNote::NewPidns => "NewPidns",
        DirNote::Instances => "Instances",
    }
}

// The word of what is wrong with `run`: with its rights, with the file, or with the interpreter
// that its first line names.
fn run_word(fault: ProgramFault) -> &'static str
    ensures { result.now ≡ run_word fault }
{
    match fault {
        ProgramFault::NotExecutable => "RunMode",
        ProgramFault::NotRegular | ProgramFault::Empty => "RunFile",
        ProgramFault::NoInterpreter
        | ProgramFault::CarriageReturn
        | ProgramFault::InterpreterAbsent
        | ProgramFault::InterpreterRelative
        | ProgramFault::InterpreterUnusable => "RunInterpreter",
    }
}

// The word of what is wrong with `finish`, likewise.
fn finish_word(fault: ProgramFault) -> &'static str
    ensures { result.now ≡ finish_word fault }
{
    match fault {
        ProgramFault::NotExecutable => "FinishMode",
        ProgramFault::NotRegular | ProgramFault::Empty => "FinishFile",
        ProgramFault::NoInterpreter
        | ProgramFault::CarriageReturn
        | ProgramFault::InterpreterAbsent
        | ProgramFault::InterpreterRelative
        | ProgramFault::InterpreterUnusable => "FinishInterpreter",
    }
}
