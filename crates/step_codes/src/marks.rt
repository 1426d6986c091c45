//! The codes of marks, and of how programs ended. A mark is one byte. An exit is two: 0 and the
//! exit code, or 1 and the number of the signal that killed the program. Other bytes, which no
//! record has, give any value.
use crate::coded::{Code, Coded};
use s6_events::{Exit, Mark};
use std::alloc::AllocError;

impl Coded for Mark {
    ghost use Rattle.std.specs.Prelude.{◌∷◌, ⊤};
    ghost use Rattle.step_codes.specs.MarkCodes.{mark_byte};

    ghost onto = { λ mark rest. mark_byte mark ∷ rest };

    ghost fits = { λ mark. ⊤ };

    // Adds its code: a byte that tells which mark it is.
    fn push(&self, code: &mut Vec<u8>) -> Result<(), AllocError> {
        code.push(match self {
            Mark::SupervisorStarted => 0,
            Mark::Spawned => 1,
            Mark::Ready => 2,
            Mark::Died => 3,
            Mark::FinishDone => 4,
            Mark::PermanentFailure => 5,
            Mark::SupervisorEnded => 6,
        })?;
        Ok(())
    }

    // Reads the mark that the next byte stands for.
    fn take(code: &mut Code<'_>) -> Mark {
        match code.take_byte() {
            0 => Mark::SupervisorStarted,
            1 => Mark::Spawned,
            2 => Mark::Ready,
            3 => Mark::Died,
            4 => Mark::FinishDone,
            5 => Mark::PermanentFailure,
            _ => Mark::SupervisorEnded,
        }
    }
}

impl Coded for Exit {
    ghost use Rattle.step_codes.specs.MarkCodes.{exit_onto, FitsExit};

    ghost onto = { exit_onto };

    ghost fits = { FitsExit };

    // Adds its code: 0 and the exit code, or 1 and the number of the signal that killed the
    // program.
    fn push(&self, code: &mut Vec<u8>) -> Result<(), AllocError> {
        match self {
            Exit::Code(number) => {
                code.push(0)?;
                code.push(*number)?;
            }
            Exit::Killed(number) => {
                code.push(1)?;
                code.push(*number)?;
            }
        }
        Ok(())
    }

    // Reads an exit: 0 stands before an exit code, 1 before the number of a signal.
    fn take(code: &mut Code<'_>) -> Exit {
        if code.take_byte() == 0 {
            Exit::Code(code.take_byte())
        } else {
            Exit::Killed(code.take_byte())
        }
    }
}
