//! The shell that sends signals: it runs `kill` with the number of the child's process.
use crate::order_commands::{kill_command, probe_command};
use crate::shared_child::ServiceProcess;
use order_lanes::AskFault;
use std::alloc::Global;
use std::io::{self, ErrorKind};
use std::process::{Child, ExitStatus, Processes, SystemProcess};
use std::sync::Wait;

/// What became of a signal.
#[derive(Clone, Copy, PartialEq, Eq, Debug)]
pub(crate) enum Sending {
    /// The shell that sent it has ended, or the child can't be sent a signal any more.
    Done,
    /// There is no shell that can be run, or it can't run `kill`.
    NoShell,
}

/// A shell that tries whether signals can be sent here, while its caller goes on.
#[derive(Drop)]
pub struct ShellProbe {
    // None where no shell could be started.
    shell: Option<Child<SystemProcess>>,
}

impl ShellProbe {
    /// Starts the shell, if it can be started.
    pub fn start<R: Processes<Started = SystemProcess>>(rt: &R, alloc: Global) -> ShellProbe {
        let shell = match probe_command(alloc) {
            Ok(mut command) => command.spawn(rt).ok(),
            Err(_) => None,
        };
        ShellProbe { shell }
    }

    /// Waits for the shell. True where signals can be sent: `/bin/sh` could be run, and its `kill`
    /// ended with 0. False also where memory was refused, or the system had no room for a process.
    pub fn has_shell(self) -> bool {
        match self.shell {
            Some(mut shell) => matches!(shell.wait(), Ok(status) if status.success()),
            None => false,
        }
    }
}

/// Has a shell send a child a signal, if the child wasn't waited for yet, and waits for the shell.
/// `Busy` where the system has no room for the shell now, `NoMemory` where memory is refused: then
/// no signal was sent.
pub(crate) fn signal_child<R: Processes + Wait>(
    rt: &R,
    alloc: Global,
    process: &ServiceProcess,
    signal: u8,
) -> Result<Sending, AskFault> {
    // None where the child never lived, or was waited for, so that its process number may be that
    // of another process by now.
    let Some(pid) = process.begin_signal(rt) else {
        return Ok(Sending::Done);
    };
    let sent = run_kill(rt, alloc, pid, signal);
    process.end_signal(rt);
    sent
}

// Has a shell send `signal` to the process of this number, and waits for the shell. `NoShell` where
// no shell can do that, `Busy` where the system has no room for one now, `NoMemory` where memory is
// refused.
fn run_kill<R: Processes>(
    rt: &R,
    alloc: Global,
    pid: u32,
    signal: u8,
) -> Result<Sending, AskFault> {
    let Ok(mut command) = kill_command(alloc, pid, signal) else {
        return Err(AskFault::NoMemory);
    };
    match command.spawn(rt) {
        Ok(mut shell) => Ok(sending_of(shell.wait())),
        // The shell isn't there, or may not be run.
        Err(error) if is_lasting(&error) => Ok(Sending::NoShell),
        Err(_) => Err(AskFault::Busy),
    }
}

// Whether the program can be started neither now nor later, because it isn't there or may not be
// run.
fn is_lasting(error: &io::Error) -> bool {
    matches!(
        error.kind(),
        ErrorKind::NotFound | ErrorKind::PermissionDenied
    )
}

// What became of a signal, by the end of its shell. A shell that can't run `kill` ends with 126 or
// 127; any other end counts as sent, since the child may have ended before.
fn sending_of(ended: io::Result<ExitStatus>) -> Sending {
    match ended {
        Ok(status) if matches!(status.code(), Some(126 | 127)) => Sending::NoShell,
        _ => Sending::Done,
    }
}
