//! What is needed to start a program of a service, and how it is started.
use crate::order_commands::{
    directory_of, finish_command, is_by_shell, is_read, look_at, look_at_interpreter, path_of,
    run_command, text_of,
};
use crate::shared_child::Pipe;
use crate::start_fault::StartFault;
use crate::started_program::Program;
use s6_events::{Name, NoMemory, Order};
use std::alloc::{AllocError, Global};
use std::fs::File;
use std::io;
use std::process::{Child, Command, Processes, Stdio, SystemProcess};
use std::rt::Files;

/// What is needed to start a program of a service: the command, the path of the program that has to
/// be there, and whether the child's output is read.
#[derive(Drop)]
pub(crate) struct Launch {
    command: Command,
    directory: String,
    path: String,
    is_read: bool,
    // Whether a shell starts it, which would tell by an exit code alone that it can't.
    is_by_shell: bool,
}

impl Launch {
    // How `run` is started. `root` is the folder of all services, `fd` the descriptor by which the
    // service tells that it is ready.
    pub fn of_run(
        alloc: Global,
        root: &str,
        name: &Name,
        fd: Option<u8>,
    ) -> Result<Launch, NoMemory> {
        let directory = directory_of(alloc, root, name)?;
        Ok(Launch {
            command: run_command(alloc, directory.as_str(), name, fd)?,
            path: path_of(alloc, directory.as_str(), &Program::Run)?,
            directory,
            is_read: is_read(fd),
            is_by_shell: is_by_shell(fd),
        })
    }

    // How `finish` is started, after a `run` that ended with this code and signal.
    fn of_finish(
        alloc: Global,
        root: &str,
        name: &Name,
        code: u16,
        signal: u8,
    ) -> Result<Launch, NoMemory> {
        let directory = directory_of(alloc, root, name)?;
        Ok(Launch {
            command: finish_command(alloc, directory.as_str(), name, code, signal)?,
            path: path_of(alloc, directory.as_str(), &Program::Finish)?,
            directory,
            is_read: false,
            is_by_shell: false,
        })
    }

    /// Starts the child. Returns it, and the pipe by which its output is read, if it is to be
    /// (`is_read`), as where the service tells by it that it is ready. The fault says whether it is
    /// worth to try again.
    pub fn spawn<R: Processes<Started = SystemProcess> + Files<File = File>>(
        &mut self,
        rt: &R,
        alloc: Global,
    ) -> Result<(Child<SystemProcess>, Option<Pipe>), StartFault> {
        look_at(rt, self.path.as_str())?;
        if self.is_by_shell {
            look_at_interpreter(rt, alloc, self.directory.as_str(), self.path.as_str())?;
        }
        match self.try_spawn(rt) {
            Ok(spawned) => Ok(spawned),
            Err(error) => Err(StartFault::of(&error)),
        }
    }

    // Starts the child, whose program is there.
    fn try_spawn<R: Processes<Started = SystemProcess> + Files<File = File>>(
        &mut self,
        rt: &R,
    ) -> io::Result<(Child<SystemProcess>, Option<Pipe>)> {
        let mut pipe = None;
        if self.is_read {
            // `theirs` is the child's standard output. By `writer`, a second writing end, a mark is
            // written behind the last byte of the child.
            let (reader, theirs) = io::pipe(rt)?;
            let writer = theirs.try_clone()?;
            self.command.stdout(Stdio::from(theirs));
            pipe = Some(Pipe { reader, writer });
        }
        let child = self.command.spawn(rt)?;
        Ok((child, pipe))
    }
}

/// What is needed for an order that starts a program of a service under `root`; None for any other
/// order. `NoMemory` where memory is refused.
pub(crate) fn launch_of(
    alloc: Global,
    root: &str,
    order: &Order,
) -> Result<Option<Launch>, NoMemory> {
    let launch = match order {
        Order::Run(_, _, name, fd) => Launch::of_run(alloc, root, name, *fd)?,
        Order::Finish(_, _, name, code, signal) => {
            Launch::of_finish(alloc, root, name, *code, *signal)?
        }
        Order::Signal(..) | Order::KillFinish(..) => return Ok(None),
    };
    Ok(Some(launch))
}

/// The note that what this order starts can't be started, and what starts it then. An error where
/// memory is refused.
pub(crate) fn failure_note(alloc: Global, root: &str, order: &Order) -> Result<String, AllocError> {
    match order {
        Order::Run(_, _, name, _) => {
            let name = text_of(name);
            format!(in alloc;
                "svscan: {root}/{name}/run can't be started (svc -u tries again at once)\n"
            )
        }
        Order::Finish(_, _, name, ..) => {
            let name = text_of(name);
            format!(in alloc; "svscan: {root}/{name}/finish can't be started\n")
        }
        Order::Signal(..) | Order::KillFinish(..) => Ok(String::new(alloc)),
    }
}
