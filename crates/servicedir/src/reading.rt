//! Reading a service directory: its configuration, or the first fault.
ghost use Rattle.std.specs.Prelude.{◌≡◌, IfOk, OnOk, IfErr, None, is_some, option_map};
ghost use Rattle.servicedir.specs.Config.{number_in, signal_in, timeout_kill_of, timeout_finish_of, max_death_tally_of, down_signal_of, notification_fd_of, note_of, config_of, found_of};
ghost use Rattle.servicedir.specs.FirstFault.{fault_of_run, first_fault, fault_before, Answers, refused_by};

use crate::config::Config;
use crate::dir_fault::DirFault;
use crate::files::{Files, ServiceFile};
use crate::meaning::{
    death_tally, is_longrun_text, note_of_descriptor, number_in_text, served_descriptor,
    signal_in_text,
};
use s6_events::Name;
use std::alloc::Allocator;

/// What a service directory says.
#[derive(Clone, Copy, PartialEq, Eq, Debug)]
pub struct Found {
    /// The configuration.
    pub config: Config,
    /// `NotifyFd` where a notification-fd is there and names no descriptor that is served. The
    /// service then never tells that it is ready.
    pub note: Option<DirFault>,
}

/// Reads the directory of the service of this name. The files are looked at in this order: `run`,
/// `type`, `finish`, `down`, `notification-fd`, `timeout-kill`, `timeout-finish`,
/// `max-death-tally`, `down-signal`. Of `run`, `finish` and `down` only the presence counts. With
/// an invalid text in a file after `type`, the configuration is as if the file were absent. The
/// first fault is answered, and no file after it is looked at: `NoRun` where there is no `run`,
/// `NotLongrun` where `type` says something else than `longrun`, `Io` where a reading failed,
/// `NoMemory` where memory was refused. Page `servicedir`; the order, `NotLongrun` and what invalid
/// texts give are chosen here.
pub fn read<A: Allocator + Copy, F: Files>(
    alloc: A,
    files: &mut F,
    name: Name,
) -> Result<Found, DirFault>
    ensures found { IfOk result (λ found. found ≡ found_of (F.gives files.old name)) }
    ensures sound { OnOk result (first_fault (F.gives files.old name) ≡ None) }
    ensures same { F.gives files.new ≡ F.gives files.old }
    ensures count { OnOk result (F.failures files.new ≡ F.failures files.old) }
    ensures err { IfErr result (λ fault.
        Answers (F.gives files.old name) (F.failures files.old) (F.failures files.new)
        (F.failed files.new) fault) }
    ensures granted { OnOk result (F.refused files.new ≡ F.refused files.old) }
    ensures refused { IfErr result
        (λ fault. F.refused files.new ≡ refused_by fault (F.refused files.old)) }
{
    look_for_run(files, name)?;
    look_at_type(alloc, files, name)?;
    read_found(alloc, files, name)
}

// Looks whether the directory of the service of this name has a `run`; `NoRun` where it has none.
fn look_for_run<F: Files>(files: &mut F, name: Name) -> Result<(), DirFault>
    ensures run { OnOk result (fault_of_run (F.gives files.old name ServiceFile.Run) ≡ None) }
    ensures same { F.gives files.new ≡ F.gives files.old }
    ensures count { OnOk result (F.failures files.new ≡ F.failures files.old) }
    ensures err { IfErr result (λ fault.
        Answers (F.gives files.old name) (F.failures files.old) (F.failures files.new)
        (F.failed files.new) fault) }
    ensures granted { OnOk result (F.refused files.new ≡ F.refused files.old) }
    ensures refused { IfErr result
        (λ fault. F.refused files.new ≡ refused_by fault (F.refused files.old)) }
{
    if has(files, name, ServiceFile::Run)? {
        Ok(())
    } else {
        Err(DirFault::NoRun)
    }
}

// Looks at the file `type` (`ServiceFile::Kind`) of the service of this name; `NotLongrun` where it
// is there and says something else than `longrun`.
fn look_at_type<A: Allocator + Copy, F: Files>(
    alloc: A,
    files: &mut F,
    name: Name,
) -> Result<(), DirFault>
    requires { fault_of_run (F.gives files.old name ServiceFile.Run) ≡ None }
    ensures sound { OnOk result (first_fault (F.gives files.old name) ≡ None) }
    ensures same { F.gives files.new ≡ F.gives files.old }
    ensures count { OnOk result (F.failures files.new ≡ F.failures files.old) }
    ensures err { IfErr result (λ fault.
        Answers (F.gives files.old name) (F.failures files.old) (F.failures files.new)
        (F.failed files.new) fault) }
    ensures granted { OnOk result (F.refused files.new ≡ F.refused files.old) }
    ensures refused { IfErr result
        (λ fault. F.refused files.new ≡ refused_by fault (F.refused files.old)) }
{
    match text(alloc, files, name, ServiceFile::Kind)? {
        Some(text) if !is_longrun_text(&text) => Err(DirFault::NotLongrun),
        _ => Ok(()),
    }
}

// Reads the configuration of the service of this name, after its `run` and its `type` were looked
// at. A file that is absent, or whose text is not valid, gives the value of a plain directory,
// which has nothing but `run`.
#[tactic(auto, unfolding(crate::specs::Config::config_of))]
fn read_found<A: Allocator + Copy, F: Files>(
    alloc: A,
    files: &mut F,
    name: Name,
) -> Result<Found, DirFault>
    requires { first_fault (F.gives files.old name) ≡ None }
    ensures found { IfOk result (λ found. found ≡ found_of (F.gives files.old name)) }
    ensures same { F.gives files.new ≡ F.gives files.old }
    ensures count { OnOk result (F.failures files.new ≡ F.failures files.old) }
    ensures err { IfErr result (λ fault.
        Answers (F.gives files.old name) (F.failures files.old) (F.failures files.new)
        (F.failed files.new) fault) }
    ensures granted { OnOk result (F.refused files.new ≡ F.refused files.old) }
    ensures refused { IfErr result
        (λ fault. F.refused files.new ≡ refused_by fault (F.refused files.old)) }
{
    let finish = has(files, name, ServiceFile::Finish)?;
    let down = has(files, name, ServiceFile::Down)?;
    // The descriptor on which the daemon says that it is ready, and a note where the file names
    // none that is served.
    let readiness = readiness(alloc, files, name)?;
    let timeout_kill = number(alloc, files, name, ServiceFile::TimeoutKill)?;
    let timeout_finish = number(alloc, files, name, ServiceFile::TimeoutFinish)?;
    let deaths = number(alloc, files, name, ServiceFile::MaxDeathTally)?;
    let signal = signal(alloc, files, name)?;
    let plain = Config::plain();
    let config = Config {
        down,
        finish,
        notification_fd: readiness.0,
        timeout_kill: timeout_kill.unwrap_or(plain.timeout_kill),
        timeout_finish: timeout_finish.unwrap_or(plain.timeout_finish),
        max_death_tally: death_tally(deaths),
        down_signal: signal.unwrap_or(plain.down_signal),
    };
    Ok(Found {
        config,
        note: readiness.1,
    })
}

// The descriptor that notification-fd names, if it is one that is served, and beside it the note
// for a file that names none. Where the file is absent, both are None.
fn readiness<A: Allocator + Copy, F: Files>(
    alloc: A,
    files: &mut F,
    name: Name,
) -> Result<(Option<u8>, Option<DirFault>), DirFault>
    requires { first_fault (F.gives files.old name) ≡ None }
    ensures descriptor { IfOk result
        (λ pair. pair.0 ≡ notification_fd_of (F.gives files.old name ServiceFile.NotificationFd)) }
    ensures note { IfOk result (λ pair. pair.1
        ≡ note_of (F.gives files.old name ServiceFile.NotificationFd)) }
    ensures same { F.gives files.new ≡ F.gives files.old }
    ensures count { OnOk result (F.failures files.new ≡ F.failures files.old) }
    ensures err { IfErr result (λ fault.
        Answers (F.gives files.old name) (F.failures files.old) (F.failures files.new)
        (F.failed files.new) fault) }
    ensures granted { OnOk result (F.refused files.new ≡ F.refused files.old) }
    ensures refused { IfErr result
        (λ fault. F.refused files.new ≡ refused_by fault (F.refused files.old)) }
{
    match text(alloc, files, name, ServiceFile::NotificationFd)? {
        Some(text) => {
            let descriptor = served_descriptor(number_in_text(&text));
            Ok((descriptor, note_of_descriptor(descriptor)))
        }
        None => Ok((None, None)),
    }
}

// The number that a file says; None where the file is absent or its text is not valid.
fn number<A: Allocator + Copy, F: Files>(
    alloc: A,
    files: &mut F,
    name: Name,
    file: ServiceFile,
) -> Result<Option<u32>, DirFault>
    requires { fault_before file (F.gives files.old name) ≡ None }
    ensures number { IfOk result (λ number. number ≡ number_in (F.gives files.old name file)) }
    ensures same { F.gives files.new ≡ F.gives files.old }
    ensures count { OnOk result (F.failures files.new ≡ F.failures files.old) }
    ensures err { IfErr result (λ fault.
        Answers (F.gives files.old name) (F.failures files.old) (F.failures files.new)
        (F.failed files.new) fault) }
    ensures granted { OnOk result (F.refused files.new ≡ F.refused files.old) }
    ensures refused { IfErr result
        (λ fault. F.refused files.new ≡ refused_by fault (F.refused files.old)) }
{
    match text(alloc, files, name, file)? {
        Some(text) => Ok(number_in_text(&text)),
        None => Ok(None),
    }
}

// The signal by which the service is told to go down, as its file down-signal says; None where the
// file is absent or its text is not valid.
fn signal<A: Allocator + Copy, F: Files>(
    alloc: A,
    files: &mut F,
    name: Name,
) -> Result<Option<u8>, DirFault>
    requires { first_fault (F.gives files.old name) ≡ None }
    ensures signal { IfOk result
        (λ signal. signal ≡ signal_in (F.gives files.old name ServiceFile.DownSignal)) }
    ensures same { F.gives files.new ≡ F.gives files.old }
    ensures count { OnOk result (F.failures files.new ≡ F.failures files.old) }
    ensures err { IfErr result (λ fault.
        Answers (F.gives files.old name) (F.failures files.old) (F.failures files.new)
        (F.failed files.new) fault) }
    ensures granted { OnOk result (F.refused files.new ≡ F.refused files.old) }
    ensures refused { IfErr result
        (λ fault. F.refused files.new ≡ refused_by fault (F.refused files.old)) }
{
    match text(alloc, files, name, ServiceFile::DownSignal)? {
        Some(text) => Ok(signal_in_text(&text)),
        None => Ok(None),
    }
}

// Whether a file is there. Here, as in `text`, the `?` makes a `DirFault` of a `ReadFault`.
fn has<F: Files>(files: &mut F, name: Name, file: ServiceFile) -> Result<bool, DirFault>
    requires { fault_before file (F.gives files.old name) ≡ None }
    ensures there { IfOk result (λ there. there ≡ is_some (F.gives files.old name file)) }
    ensures same { F.gives files.new ≡ F.gives files.old }
    ensures count { OnOk result (F.failures files.new ≡ F.failures files.old) }
    ensures err { IfErr result (λ fault.
        Answers (F.gives files.old name) (F.failures files.old) (F.failures files.new)
        (F.failed files.new) fault) }
    ensures granted { OnOk result (F.refused files.new ≡ F.refused files.old) }
    ensures refused { IfErr result
        (λ fault. F.refused files.new ≡ refused_by fault (F.refused files.old)) }
{
    Ok(files.has(name, file)?)
}

// The bytes of a file, at most the first 4097; None where it is absent.
fn text<A: Allocator + Copy, F: Files>(
    alloc: A,
    files: &mut F,
    name: Name,
    file: ServiceFile,
) -> Result<Option<Vec<u8, A>>, DirFault>
    requires { fault_before file (F.gives files.old name) ≡ None }
    ensures text { IfOk result (λ text. option_map (λ t. t.items) text
        ≡ F.gives files.old name file) }
    ensures same { F.gives files.new ≡ F.gives files.old }
    ensures count { OnOk result (F.failures files.new ≡ F.failures files.old) }
    ensures err { IfErr result (λ fault.
        Answers (F.gives files.old name) (F.failures files.old) (F.failures files.new)
        (F.failed files.new) fault) }
    ensures granted { OnOk result (F.refused files.new ≡ F.refused files.old) }
    ensures refused { IfErr result
        (λ fault. F.refused files.new ≡ refused_by fault (F.refused files.old)) }
{
    Ok(files.text(alloc, name, file)?)
}
