//! The first two arguments of the program `finish`, which say how `run` ended; `order_commands.rt`
//! of child_runner adds the name.
ghost use Rattle.std.specs.Prelude.{◌≡◌};
ghost use Rattle.finish_core.specs.FinishArguments.{finish_arguments};

use s6_events::Exit;

/// The first two arguments of `finish`: the exit code of `run` and 0, or 256 and the number of the
/// signal that killed it. Page `servicedir`, "finish"; the 0 after a code is chosen here.
pub fn finish_args(exit: Exit) -> (u16, u8)
    ensures { result ≡ finish_arguments exit }
{
    match exit {
        Exit::Code(code) => (u16::from(code), 0),
        Exit::Killed(signal) => (256, signal),
    }
}
