//! The commands by which orders are carried out. `run` and `finish` are started by their paths, so
//! their texts are read at each start.
ghost use Rattle.std.specs.Prelude.{◌≡◌, ◌++◌, IfOk, codes, string_bytes};
ghost use Rattle.child_runner.specs.CommandLine.{line_of, run_line, plain_line, shell_line, finish_line, kill_line, kill_script, start_script, program_path};

use crate::start_fault::StartFault;
use crate::started_program::Program;
use program_files::lacks_interpreter;
use s6_events::{Name, NoMemory};
use std::alloc::Global;
use std::fs::{self, File};
use std::io::{self, ErrorKind, Read};
use std::os::unix::fs::PermissionsExt;
use std::process::{Command, Stdio};
use std::rt::Files;
use std::str;

/// What a shell tells where it can't become `run`: the path, `$2`.
const START_TRAP: &str = "trap 'printf \"svscan: %s can\\047t be started\\n\" \"$2\" >&2' EXIT; ";

// The script of a shell that sends a signal, in three parts. Where `/proc` is that of this shell's
// own numbers, it reads the state of the process there.
const READ_STATE: &str =
    "exec 2>/dev/null; p=; [ ! /proc/self -ef /proc/$$ ] || { while read -r l p; do ";

// The line `PPid:` has the parent: it goes on only if that is its own.
const COMPARE_PARENT: &str =
    "case $l in PPid:) break ;; esac; done </proc/$1/status; [ \"$p\" = $PPID ] || ";

// Where `/proc` hides processes, as that of number 1, it goes on also where it can't read the
// state.
const SEND_SIGNAL: &str = "{ [ -z \"$p\" ] && [ ! -r /proc/1/status ]; }; } && kill -$0 $1";

// The text of a service's name. A name is ASCII, so the dash is never returned.
pub(crate) fn text_of(name: &Name) -> &str
    ensures { result.now ≡ name.now }
{
    match str::from_utf8(name.as_bytes()) {
        Ok(text) => text,
        Err(_) => "-",
    }
}

/// Whether the child's output is read: it is for a notification descriptor of 1 or 3 to 9, by which
/// a service tells that it is ready. Page `notifywhenup`.
pub(crate) fn is_read(fd: Option<u8>) -> bool {
    matches!(fd, Some(1 | 3..=9))
}

/// Whether a shell starts `run`: it redirects a notification descriptor of 3 to 9.
pub(crate) fn is_by_shell(fd: Option<u8>) -> bool {
    matches!(fd, Some(3..=9))
}

/// A service's directory.
pub(crate) fn directory_of(alloc: Global, root: &str, name: &Name) -> Result<String, NoMemory>
    ensures { IfOk result (λ path. string_bytes path ≡ root.now ++ codes "/" ++ name.now) }
{
    let name = text_of(name);
    Ok(format!(in alloc; "{root}/{name}")?)
}

// The script of a shell that starts `run` so that what it writes to descriptor `fd` goes where the
// child's output is read, and its own standard output to standard error.
fn start_script(alloc: Global, fd: u8) -> Result<String, NoMemory>
    ensures { IfOk result (λ text. string_bytes text ≡ start_script fd) }
{
    Ok(format!(in alloc; "{START_TRAP}exec \"$0\" \"$1\" {fd}>&1 1>&2")?)
}

// The command that starts `run` in `directory` without a shell; `name`, the service's name, is its
// only argument.
fn plain_command(alloc: Global, directory: &str, name: &Name) -> Result<Command, NoMemory>
    ensures { IfOk result (λ c. line_of c ≡ plain_line directory.now name.now) }
{
    let mut command = Command::new(alloc, "./run")?;
    command
        .arg(text_of(name))?
        .current_dir(directory)?
        .stdin(Stdio::null());
    Ok(command)
}

// The command of a shell in `directory` that becomes `run`, after it redirected what is written to
// descriptor `fd` to where the child's output is read. In its script `$0` is `./run`, `$1` is
// `name`, the service's name, which is the only argument of `run`, and `$2` the path that is told
// where `run` can't be started.
fn shell_command(alloc: Global, directory: &str, name: &Name, fd: u8) -> Result<Command, NoMemory>
    ensures { IfOk result (λ c. line_of c ≡ shell_line directory.now name.now fd) }
{
    let script = start_script(alloc, fd)?;
    let path = path_of(alloc, directory, &Program::Run)?;
    let mut command = Command::new(alloc, "/bin/sh")?;
    command
        .arg("-c")?
        .arg(script.as_str())?
        .arg("./run")?
        .arg(text_of(name))?
        .arg(path.as_str())?;
    command.current_dir(directory)?.stdin(Stdio::null());
    Ok(command)
}

/// Starts `run` in the service's directory, with the service's name as the only argument. What it
/// writes to the notification descriptor is read at its standard output. For a descriptor of 3 to 9
/// a shell redirects it there; the shell then becomes `run`, and so keeps the process number.
pub(crate) fn run_command(
    alloc: Global,
    directory: &str,
    name: &Name,
    fd: Option<u8>,
) -> Result<Command, NoMemory>
    ensures { IfOk result (λ c. line_of c ≡ run_line directory.now name.now fd) }
{
    match fd {
        Some(fd) if 3 <= fd && fd <= 9 => shell_command(alloc, directory, name, fd),
        _ => plain_command(alloc, directory, name),
    }
}

/// Starts `finish` in the service's directory, with three arguments: the exit code, the signal and
/// the service's name. Page `servicedir`.
pub(crate) fn finish_command(
    alloc: Global,
    directory: &str,
    name: &Name,
    code: u16,
    signal: u8,
) -> Result<Command, NoMemory>
    ensures { IfOk result (λ c. line_of c ≡ finish_line directory.now name.now code signal) }
{
    let code = format!(in alloc; "{code}")?;
    let signal = format!(in alloc; "{signal}")?;
    let mut command = Command::new(alloc, "./finish")?;
    command
        .arg(code.as_str())?
        .arg(signal.as_str())?
        .arg(text_of(name))?;
    command.current_dir(directory)?.stdin(Stdio::null());
    Ok(command)
}

// The script of a shell that sends a signal. It starts no process to look at the parent, and svscan
// needs no descriptor for it.
fn kill_script(alloc: Global) -> Result<String, NoMemory>
    ensures { IfOk result (λ text. string_bytes text ≡ kill_script) }
{
    Ok(format!(in alloc; "{READ_STATE}{COMPARE_PARENT}{SEND_SIGNAL}")?)
}

/// A shell that sends a process this signal, if the process is a child of this one. In its script
/// `$0` is the signal, and `$1` the number of the process.
pub(crate) fn kill_command(alloc: Global, pid: u32, signal: u8) -> Result<Command, NoMemory>
    ensures { IfOk result (λ c. line_of c ≡ kill_line pid signal) }
{
    let signal = format!(in alloc; "{signal}")?;
    let pid = format!(in alloc; "{pid}")?;
    let script = kill_script(alloc)?;
    let mut command = Command::new(alloc, "/bin/sh")?;
    command
        .arg("-c")?
        .arg(script.as_str())?
        .arg(signal.as_str())?
        .arg(pid.as_str())?;
    Ok(command)
}

/// A shell that tries whether it may send itself signals: signal 0 does nothing but that. `$$` is
/// the shell's own process number.
pub(crate) fn probe_command(alloc: Global) -> Result<Command, NoMemory> {
    let mut command = Command::new(alloc, "/bin/sh")?;
    command
        .arg("-c")?
        .arg("kill -0 $$")?
        .stdin(Stdio::null())
        .stdout(Stdio::null())
        .stderr(Stdio::null());
    Ok(command)
}

/// The path of a program.
pub(crate) fn path_of(alloc: Global, directory: &str, program: &Program) -> Result<String, NoMemory>
    ensures { IfOk result (λ path. string_bytes path ≡ program_path directory.now program.now) }
{
    let file = match program {
        Program::Run => "run",
        Program::Finish => "finish",
    };
    Ok(format!(in alloc; "{directory}/{file}")?)
}

/// The most bytes that are read of a program: Linux reads no more of its first line.
const FIRST_BYTES: u64 = 256;

/// Looks whether the interpreter is there that the program at this path names, where it names one.
/// `directory` is that of the service.
pub(crate) fn look_at_interpreter<R: Files<File = File>>(
    rt: &R,
    alloc: Global,
    directory: &str,
    path: &str,
) -> Result<(), StartFault> {
    let mut text = Vec::new(alloc);
    if let Err(error) = read_first(rt, path, &mut text) {
        return Err(StartFault::of(&error));
    }
    match lacks_interpreter(rt, alloc, directory, text.as_slice()) {
        Ok(false) => Ok(()),
        Ok(true) => Err(StartFault::Lasting),
        // Memory was refused.
        Err(_) => Err(StartFault::Passing),
    }
}

// Reads the first bytes of the file at this path. Of one that may not be read, nothing.
fn read_first<R: Files<File = File>>(rt: &R, path: &str, text: &mut Vec<u8>) -> io::Result<()> {
    match File::open(rt, path) {
        Ok(file) => {
            file.take(FIRST_BYTES).read_to_end(text)?;
            Ok(())
        }
        Err(error) if error.kind() == ErrorKind::PermissionDenied => Ok(()),
        Err(error) => Err(error),
    }
}

/// Looks whether there is an executable file at this path. Where a shell starts the program, only
/// its exit code would say that there is none.
pub(crate) fn look_at<R: Files>(rt: &R, path: &str) -> Result<(), StartFault> {
    match fs::metadata(rt, path) {
        Ok(found) if found.is_file() && found.permissions().mode() & 0o111 != 0 => Ok(()),
        Ok(_) => Err(StartFault::Lasting),
        Err(error) => Err(StartFault::of(&error)),
    }
}
