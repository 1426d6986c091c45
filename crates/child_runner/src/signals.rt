//! When a signal may be sent to a child's process number: by one shell at a time, until the child
//! was waited for (reaped).
ghost use Rattle.std.specs.Prelude.{◌≡◌, ◌↔◌, IsTrue, Some, None, IfSome, IfNone, true, false};

/// What keeps the reaping of a child and the signals to it apart. It is behind a lock, which nobody
/// holds while a shell runs: meanwhile only `is_shell_out` is set. A signal begins only where the
/// child wasn't reaped and no other shell is under way. The child's end is told only once no shell
/// is under way.
///
/// `Child::wait` reaps inside the system's call, which blocks, so the reaping itself can't be done
/// under the lock. The kit has no wait that leaves the child unreaped, and no descriptor of a
/// process. So there is a moment, from the reaping in the system until `is_reaped` is set here, in
/// which a signal can still begin, and in which a shell that began before may send one. It would
/// reach a stranger only if the system gave the number to a new process in that very moment.
#[derive(Drop)]
pub(crate) struct Signals {
    // The process number of the child, once it lives.
    pub pid: Option<u32>,
    // Whether a shell is under way that sends it a signal.
    pub is_shell_out: bool,
    // Whether it was waited for, so that its number may be another's.
    pub is_reaped: bool,
}

impl Signals {
    /// The state for a child that is about to start.
    pub fn new() -> Signals
        ensures { result ≡ record { pid = None; is_shell_out = false; is_reaped = false } }
    {
        Signals {
            pid: None,
            is_shell_out: false,
            is_reaped: false,
        }
    }

    /// Notes that it lives, under this number.
    pub fn begin(&mut self, pid: u32)
        ensures { self.new ≡ record self.old { pid = Some pid } }
    {
        self.pid = Some(pid);
    }

    /// A shell is to send it a signal. Returns its process number, if it may be sent one now; then
    /// `end_signal` has to follow.
    pub fn begin_signal(&mut self) -> Option<u32>
        ensures living { IfSome result (λ _. self.old.is_reaped ≡ false) }
        ensures alone { IfSome result (λ _. self.old.is_shell_out ≡ false) }
        ensures begun { IfSome result (λ pid. (self.old.pid ≡ Some pid)
            × (self.new ≡ record self.old { is_shell_out = true })) }
        ensures none { IfNone result (self.new ≡ self.old) }
    {
        if self.is_reaped || self.is_shell_out {
            return None;
        }
        let pid = self.pid?;
        self.is_shell_out = true;
        Some(pid)
    }

    /// Notes that the shell has ended.
    pub fn end_signal(&mut self)
        ensures { self.new ≡ record self.old { is_shell_out = false } }
    {
        self.is_shell_out = false;
    }

    /// Notes that it was waited for: no signal begins from now on.
    pub fn reap(&mut self)
        ensures { self.new ≡ record self.old { is_reaped = true } }
    {
        self.is_reaped = true;
    }
}
