//! The fields of a status row.
/// A field of the status of a service. Page `s6-svstat`, option `-o`; the ten that are served are
/// chosen here.
#[derive(Clone, Copy, Debug, PartialEq, Eq)]
pub enum Field {
    /// `up`: it is up.
    Up,
    /// `wantedup`: it is to be started again when it dies.
    WantedUp,
    /// `normallyup`: its directory has no `down`.
    NormallyUp,
    /// `ready`: it is ready, or down with `finish` done.
    Ready,
    /// `paused`: it was told to stop by SIGSTOP.
    Paused,
    /// `pid`: the process number of `run`.
    Pid,
    /// `exitcode`: the code with which it last exited.
    ExitCode,
    /// `signum`: the signal by which it last died.
    Signal,
    /// `updownfor`: for how many seconds it has been up, or down.
    UpDownFor,
    /// `readyfor`: for how many seconds it has been ready, or down with `finish` done.
    ReadyFor,
}
