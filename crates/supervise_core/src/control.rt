//! The control letters: what each does in each phase. Which letters an option of `svc` sends is in
//! `svc.rt` of svc_commands: `-o` sends `u` and `O`.
ghost use Rattle.std.specs.Prelude.{◌≡◌, ◌+◌, ◌<◌, ◌≤◌, ◌^◌, ◌*◌, length};
ghost use Rattle.supervise_core.specs.ControlLetters.{letter_move, up_move, down_move, signal_move, as_unwanted, control_move};
ghost use Rattle.supervise_core.specs.MatchesMove.{AppendsMove};
ghost use Rattle.control_letters.specs.ControlLetter.{signal_of};
ghost use Rattle.supervise_core.specs.LetterBounds.{marks_left, runs_left};

use super::chart_state::ChartState;
use super::out::Out;
use super::phase::Phase;
use control_letters::ControlLetter;
use s6_events::{At, Order};

// The letters of a user.
impl ChartState {
    // Takes these letters, one after the other; the marks and orders that they give are added to
    // `out`.
    pub(crate) fn take_letters(&mut self, letters: &[ControlLetter], now: At, out: &mut Out)
        requires marks { length out.old.events.items < 4 }
        requires room { length out.old.orders.items + 2 * length letters.now ≤ 126 }
        requires next { self.old.generation + 1 < 2 ^ 64 }
        ensures gives { AppendsMove
            (control_move letters.now now self.old) self.new out.old out.new }
        ensures sid { self.new.sid ≡ self.old.sid }
        ensures few { length out.new.orders.items
            ≤ length out.old.orders.items + 2 * length letters.now }
    {
        for letter in letters {
            self.take_letter(*letter, now, out);
        }
    }

    // Does what page `s6-svc` says of the letter, in the present phase of the service: `u`, `d`,
    // `O`, `r`, `x`, or a letter that stands for a signal to `run`. The marks and orders that it
    // gives are added to `out`.
    fn take_letter(&mut self, letter: ControlLetter, now: At, out: &mut Out)
        requires marks { length out.old.events.items + marks_left self.old.phase ≤ 4 }
        requires room { length out.old.orders.items + 2 ≤ 126 }
        requires next { self.old.generation + runs_left self.old.phase < 2 ^ 64 }
        ensures gives { AppendsMove (letter_move now letter self.old) self.new out.old out.new }
        ensures sid { self.new.sid ≡ self.old.sid }
        ensures few { length out.new.orders.items ≤ length out.old.orders.items + 2 }
        ensures marks { length out.new.events.items + marks_left self.new.phase
            ≤ length out.old.events.items + marks_left self.old.phase }
        ensures runs { self.new.generation + runs_left self.new.phase
            ≤ self.old.generation + runs_left self.old.phase }
    {
        // The supervisor has ended, so that no letter does anything.
        if self.phase == Phase::Gone {
            return;
        }
        match letter {
            ControlLetter::Up => self.be_told_up(out),
            ControlLetter::Down => self.be_told_down(now, out),
            ControlLetter::Once => {
                // It is not started again when it dies.
                self.wanted_up = false;
                // A start that the timer would bring is given up.
                if self.phase == Phase::Down {
                    self.timer = None;
                }
            }
            ControlLetter::Restart => {
                // Whether it is wanted up stays as it was, so that it is started again if it was to
                // be.
                if self.phase == Phase::Up {
                    self.send_down_signal(now, out);
                }
            }
            ControlLetter::Exit => {
                // Its supervisor ends as soon as the service is down: at once, where it is down
                // already.
                self.exit_requested = true;
                if self.phase == Phase::Down {
                    self.end_supervisor(now, out);
                }
            }
            _ => self.pass_signal(letter, out),
        }
    }

    // `u`: it is wanted up, and started where it is down. Once its supervisor was told to end, `u`
    // does nothing.
    fn be_told_up(&mut self, out: &mut Out)
        requires room { length out.old.orders.items < 126 }
        requires next { self.old.generation + runs_left self.old.phase < 2 ^ 64 }
        ensures { AppendsMove (up_move self.old) self.new out.old out.new }
    {
        if self.exit_requested {
            return;
        }
        self.wanted_up = true;
        if self.phase == Phase::Down {
            self.start_run(out);
        }
    }

    // `d`: it is no longer wanted up. It gets its down signal where it is up; where its start is
    // under way, that is noted (`down_pending`), and it gets the signal once it is spawned; where
    // it is down, a start that the timer would bring is given up.
    fn be_told_down(&mut self, now: At, out: &mut Out)
        requires { length out.old.orders.items < 125 }
        ensures { AppendsMove (down_move self.old.phase now (as_unwanted self.old)) self.new out.old
            out.new }
    {
        self.wanted_up = false;
        match self.phase {
            Phase::Down => self.timer = None,
            Phase::Starting => self.down_pending = true,
            Phase::Up => self.send_down_signal(now, out),
            Phase::Finish | Phase::Gone => {}
        }
    }

    // Orders the signal that the letter stands for, where `run` is there; else it does nothing. The
    // order names the run by its number (`generation`).
    fn pass_signal(&mut self, letter: ControlLetter, out: &mut Out)
        requires { length out.old.orders.items < 126 }
        ensures gives { AppendsMove
            (signal_move (signal_of letter) letter self.old) self.new out.old out.new }
        ensures few { length out.new.orders.items ≤ length out.old.orders.items + 1 }
        ensures marks { out.new.events.items ≡ out.old.events.items }
        ensures phase { self.new.phase ≡ self.old.phase }
        ensures runs { self.new.generation ≡ self.old.generation }
    {
        // `take_letter` hands on only letters that stand for a signal.
        let Some(number) = letter.signal() else {
            return;
        };
        if self.phase != Phase::Up {
            return;
        }
        out.orders
            .push(Order::Signal(self.sid, self.generation, number));
        // SIGSTOP and SIGCONT: whether it is stopped is shown in its status row.
        match letter {
            ControlLetter::Pause => self.paused = true,
            ControlLetter::Continue => self.paused = false,
            _ => {}
        }
    }
}
