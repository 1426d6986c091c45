//! What the machine orders to be done to a service's processes.
use crate::ids::Sid;
use crate::name::Name;

/// The number of SIGKILL.
pub const SIGKILL: u8 = 9;

/// What the outside is asked to do for a service. The first field is the serial of the service, the
/// second the generation: the number of its run, from 1, that is started or signalled. Page
/// `s6-supervise`, "Detailed operation"; that starts and signals are orders is chosen here.
#[derive(Clone, Copy, PartialEq, Eq, Debug)]
pub enum Order {
    /// Spawn `run` of the service of this name; the last field is the descriptor on which it will
    /// say that it is ready.
    Run(Sid, u64, Name, Option<u8>),
    /// Spawn `finish` of the service of this name, with the exit code and the signal number that
    /// are its first arguments.
    Finish(Sid, u64, Name, u16, u8),
    /// Send `run` the signal of this number.
    Signal(Sid, u64, u8),
    /// Send `finish` SIGKILL.
    KillFinish(Sid, u64),
}

/// What fills the unused places of a list of fixed size.
impl Default for Order {
    // What fills the unused places of a list of fixed size: nobody reads it.
    fn default() -> Order {
        Order::KillFinish(Sid(0), 0)
    }
}
