//! The codes of what users ask with: letters, orders for all services, conditions, and whose event
//! directory is meant.
use crate::coded::{Code, Coded};
use control_letters::ControlLetter;
use s6_events::{Condition, Mode, Name};
use std::alloc::AllocError;
use tree_core::{ScanOrder, Target};

impl Coded for ControlLetter {
    ghost use Rattle.std.specs.Prelude.{⊤};
    ghost use Rattle.step_codes.specs.RequestCodes.{letter_onto};

    ghost onto = { letter_onto };

    ghost fits = { λ letter. ⊤ };

    // Adds its code, which is the byte of the letter.
    fn push(&self, code: &mut Vec<u8>) -> Result<(), AllocError> {
        code.push(self.byte())?;
        Ok(())
    }

    #[tactic(auto, using(crate::proofs::LetterBack::letter_back))]
    fn take(code: &mut Code<'_>) -> ControlLetter {
        // A byte that is no letter, which no record has, gives any letter.
        ControlLetter::of_byte(code.take_byte()).unwrap_or_default()
    }
}

impl Coded for ScanOrder {
    ghost use Rattle.std.specs.Prelude.{◌∷◌, ⊤};
    ghost use Rattle.step_codes.specs.RequestCodes.{order_byte};

    ghost onto = { λ order rest. order_byte order ∷ rest };

    ghost fits = { λ order. ⊤ };

    // Adds its code: 0 for nuke, 1 for terminate (the options -n and -t of `s6-svscanctl`).
    fn push(&self, code: &mut Vec<u8>) -> Result<(), AllocError> {
        code.push(match self {
            ScanOrder::Nuke => 0,
            ScanOrder::Terminate => 1,
        })?;
        Ok(())
    }

    // Reads a command to all services: 0 is nuke, 1 terminate.
    fn take(code: &mut Code<'_>) -> ScanOrder {
        if code.take_byte() == 0 {
            ScanOrder::Nuke
        } else {
            ScanOrder::Terminate
        }
    }
}

impl Coded for Condition {
    ghost use Rattle.std.specs.Prelude.{◌∷◌, ⊤};
    ghost use Rattle.step_codes.specs.RequestCodes.{condition_byte};

    ghost onto = { λ condition rest. condition_byte condition ∷ rest };

    ghost fits = { λ condition. ⊤ };

    // Adds its code: a byte that tells for what a waiter waits.
    fn push(&self, code: &mut Vec<u8>) -> Result<(), AllocError> {
        code.push(match self {
            Condition::Up => 0,
            Condition::Ready => 1,
            Condition::Down => 2,
            Condition::Finished => 3,
            Condition::Restarted => 4,
            Condition::RestartedReady => 5,
        })?;
        Ok(())
    }

    // Reads the condition that the next byte stands for.
    fn take(code: &mut Code<'_>) -> Condition {
        match code.take_byte() {
            0 => Condition::Up,
            1 => Condition::Ready,
            2 => Condition::Down,
            3 => Condition::Finished,
            4 => Condition::Restarted,
            _ => Condition::RestartedReady,
        }
    }
}

impl Coded for Mode {
    ghost use Rattle.std.specs.Prelude.{◌∷◌, ⊤};
    ghost use Rattle.step_codes.specs.RequestCodes.{mode_byte};

    ghost onto = { λ mode rest. mode_byte mode ∷ rest };

    ghost fits = { λ mode. ⊤ };

    // Adds its code: 0 where the condition has to hold of all of a waiter's services, 1 where of
    // one.
    fn push(&self, code: &mut Vec<u8>) -> Result<(), AllocError> {
        code.push(match self {
            Mode::All => 0,
            Mode::One => 1,
        })?;
        Ok(())
    }

    // Reads a mode: 0 is all of a waiter's services, 1 one of them.
    fn take(code: &mut Code<'_>) -> Mode {
        if code.take_byte() == 0 {
            Mode::All
        } else {
            Mode::One
        }
    }
}

impl Coded for Target {
    ghost use Rattle.step_codes.specs.RequestCodes.{target_onto, FitsTarget};

    ghost onto = { target_onto };

    ghost fits = { FitsTarget };

    // Adds its code: 0 for the event directory of a service, 1 for a free one, and the name.
    fn push(&self, code: &mut Vec<u8>) -> Result<(), AllocError> {
        match self {
            Target::Service(name) => {
                code.push(0)?;
                name.push(code)
            }
            Target::Directory(name) => {
                code.push(1)?;
                name.push(code)
            }
        }
    }

    // Reads which event directory is meant: 0 stands before the name of a service, 1 before that of
    // a free directory.
    fn take(code: &mut Code<'_>) -> Target {
        if code.take_byte() == 0 {
            Target::Service(Name::take(code))
        } else {
            Target::Directory(Name::take(code))
        }
    }
}
