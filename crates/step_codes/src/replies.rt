//! The codes of replies, and of what they hold: refusals (`Refusal` of tree_core says what each
//! means) and rows.
ghost use Rattle.std.specs.Prelude.{◌≡◌, ℕ, List, IsTrue, OnOk};
ghost use Rattle.std.specs.declared.alloc.Global.{Global};
ghost use Rattle.tree_core.specs.declared.reply.Reply.{Reply};
ghost use Rattle.step_codes.specs.Adding.{Adds};
ghost use Rattle.step_codes.specs.ReplyCodes.{has_reply_code, reply_onto, FitsReply};

use crate::coded::{Code, Coded};
use s6_events::{Exit, Name, Sid, SubId, WaitId};
use std::alloc::{AllocError, Global};
use supervise_core::Row;
use tree_core::{Refusal, Reply};

impl Coded for Refusal {
    ghost use Rattle.std.specs.Prelude.{◌∷◌, ⊤};
    ghost use Rattle.step_codes.specs.ReplyCodes.{refusal_byte};

    ghost onto = { λ refusal rest. refusal_byte refusal ∷ rest };

    ghost fits = { λ refusal. ⊤ };

    // One byte tells the reason. NoService: no such service. Stale: a report of another run than
    // the present one, or one that is not awaited. Reserved: a message to the event directory of a
    // service. TooMany: a limit is reached. NoSuch: no such free directory, subscription or waiter.
    // Closing: a terminate was done. Repeated, Empty: a name twice, no name. Exists: the free
    // directory is there already. Ended: the supervisor has ended. Spent: the tree has taken its
    // last step.
    fn push(&self, code: &mut Vec<u8>) -> Result<(), AllocError> {
        code.push(match self {
            Refusal::NoService => 1,
            Refusal::Stale => 2,
            Refusal::Reserved => 3,
            Refusal::TooMany => 4,
            Refusal::NoSuch => 5,
            Refusal::Closing => 6,
            Refusal::Repeated => 7,
            Refusal::Empty => 8,
            Refusal::Exists => 9,
            Refusal::Ended => 10,
            Refusal::Spent => 11,
        })?;
        Ok(())
    }

    // The reason that the byte tells. NoService: no such service. Stale: a report of another run
    // than the present one, or one that is not awaited. Reserved: a message to the event directory
    // of a service. TooMany: a limit is reached. NoSuch: no such free directory, subscription or
    // waiter. Closing: a terminate was done. Repeated, Empty: a name twice, no name. Exists: the
    // free directory is there already. Ended: the supervisor has ended. Spent: the tree has taken
    // its last step.
    fn take(code: &mut Code<'_>) -> Refusal {
        match code.take_byte() {
            1 => Refusal::NoService,
            2 => Refusal::Stale,
            3 => Refusal::Reserved,
            4 => Refusal::TooMany,
            5 => Refusal::NoSuch,
            6 => Refusal::Closing,
            7 => Refusal::Repeated,
            8 => Refusal::Empty,
            9 => Refusal::Exists,
            10 => Refusal::Ended,
            _ => Refusal::Spent,
        }
    }
}

impl Coded for Row {
    ghost use Rattle.step_codes.specs.ReplyCodes.{row_onto, FitsRow};

    ghost onto = { row_onto };

    ghost fits = { FitsRow };

    // Adds its code: those of its fields, one behind the other.
    fn push(&self, code: &mut Vec<u8>) -> Result<(), AllocError> {
        self.sid.0.push(code)?;
        self.name.push(code)?;
        self.up.push(code)?;
        self.wanted_up.push(code)?;
        self.normally_up.push(code)?;
        self.ready.push(code)?;
        self.paused.push(code)?;
        self.pid.push(code)?;
        self.exit.push(code)?;
        self.up_down_for.push(code)?;
        self.ready_for.push(code)
    }

    // Reads the fields in the order in which `push` adds them.
    fn take(code: &mut Code<'_>) -> Row {
        Row {
            sid: Sid(u64::take(code)),
            name: Name::take(code),
            up: bool::take(code),
            wanted_up: bool::take(code),
            normally_up: bool::take(code),
            ready: bool::take(code),
            paused: bool::take(code),
            pid: <Option<u32> as Coded>::take(code),
            exit: <Option<Exit> as Coded>::take(code),
            up_down_for: <Option<u64> as Coded>::take(code),
            ready_for: <Option<u64> as Coded>::take(code),
        }
    }
}

/// Whether a reply has a code: a scan's and a tally's have none.
pub fn has_reply_code(reply: &Reply<Global>) -> bool
    ensures { result ≡ has_reply_code reply.now }
{
    match reply {
        Reply::Scanned(_) | Reply::Tally(_) => false,
        _ => true,
    }
}

/// Adds the code of a reply, if it has one.
pub fn push_reply(code: &mut Vec<u8>, reply: &Reply<Global>) -> Result<(), AllocError>
    ensures added { OnOk result (Adds code.old.items code.new.items (reply_onto reply.now)) }
    ensures fits { OnOk result (IsTrue (has_reply_code reply.now) → FitsReply reply.now) }
{
    match reply {
        Reply::Done => {
            code.push(0)?;
            Ok(())
        }
        Reply::Refused(why) => {
            code.push(1)?;
            why.push(code)
        }
        Reply::Row(row) => {
            code.push(2)?;
            row.push(code)
        }
        Reply::PermanentFailure(fails) => {
            code.push(3)?;
            fails.push(code)
        }
        Reply::Waiter(id) => {
            code.push(4)?;
            id.0.push(code)
        }
        Reply::Subscription(id) => {
            code.push(5)?;
            id.0.push(code)
        }
        Reply::Scanned(_) | Reply::Tally(_) => Ok(()),
    }
}

/// Takes a reply. Bytes that are no such code give some reply.
pub fn take_reply(code: &mut Code<'_>) -> Reply<Global>
    ensures { (one : Reply Global) (rest : List ℕ) → FitsReply one → code.old ≡ reply_onto one rest
        → (result ≡ one) × (code.new ≡ rest) }
{
    match code.take_byte() {
        0 => Reply::Done,
        1 => Reply::Refused(Refusal::take(code)),
        2 => Reply::Row(Row::take(code)),
        3 => Reply::PermanentFailure(bool::take(code)),
        4 => Reply::Waiter(WaitId(u64::take(code))),
        // 5; no greater one is ever added.
        _ => Reply::Subscription(SubId(u64::take(code))),
    }
}
