//! The codes of acts: an act as bytes, and read back. A run keeps its steps as such codes.
ghost use Rattle.std.specs.Prelude.{◌≡◌, ◌<◌, ◌≤◌, ◌^◌, ℕ, List, ◌∷◌, length, IsTrue, IfOk, OnOk, ⊤};
ghost use Rattle.std.specs.declared.alloc.Global.{Global};
ghost use Rattle.s6_events.specs.Name.{is_name};
ghost use Rattle.s6_events.specs.declared.condition.Condition.{Condition};
ghost use Rattle.s6_events.specs.declared.condition.Mode.{Mode};
ghost use Rattle.control_letters.specs.declared.control_letter.ControlLetter.{ControlLetter};
ghost use Rattle.tree_core.specs.declared.input.Act.{Act};
ghost use Rattle.tree_core.specs.declared.input.Act.TheVariants as act;
ghost use Rattle.tree_core.specs.Plain.{act_of};
ghost use Rattle.step_codes.specs.Adding.{Adds};
ghost use Rattle.step_codes.specs.NumberCodes.{number_onto};
ghost use Rattle.step_codes.specs.NameCodes.{bytes_onto};
ghost use Rattle.step_codes.specs.ListCodes.{list_onto, AllFit};
ghost use Rattle.step_codes.specs.RequestCodes.{condition_byte, letter_onto, mode_byte};
ghost use Rattle.step_codes.specs.ToldActs.{act_of_told};
ghost use Rattle.step_codes.specs.ActCodes.{act_onto, has_act_code, letters_onto, AreBytes, FitsAct};

use crate::coded::{Code, Coded};
use crate::kept_input::ToldAct;
use crate::lists::{push_list, take_list};
use crate::numbers::put_number;
use s6_events::{Condition, Exit, Mode, Name, Sid, SubId, WaitId};
use std::alloc::{AllocError, Global};
use tree_core::{PlainAct, ScanOrder, Target};

/// Whether an act has a code: a scan, a subscription and a question for a permanent failure have
/// none.
pub fn has_act_code(act: &PlainAct<Global>) -> bool
    ensures { result ≡ has_act_code (act_of act.now) }
{
    match act {
        PlainAct::Scan(_) | PlainAct::Permafailon(_, _, _, _) | PlainAct::Subscribe(_, _, _) =>
            false,
        _ => true,
    }
}

// Adds a byte that tells the kind, and the code of what comes next.
fn push_kind<T: Coded>(code: &mut Vec<u8>, kind: u8, next: &T) -> Result<(), AllocError>
    ensures added { OnOk result
        (Adds code.old.items code.new.items (λ rest. kind ∷ T.onto next.now rest)) }
    ensures fits { OnOk result (T.fits next.now) }
{
    code.push(kind)?;
    next.push(code)?;
    Ok(())
}

// Adds a byte that tells the kind, and the codes of a service and a generation. The generation is
// the number of the service's start that is meant.
fn push_life(code: &mut Vec<u8>, kind: u8, sid: Sid, generation: u64) -> Result<(), AllocError>
    ensures added { OnOk result (Adds code.old.items code.new.items
        (λ rest. kind ∷ number_onto sid (number_onto generation rest))) }
    ensures sid { OnOk result (sid < 2 ^ 64) }
    ensures generation { OnOk result (generation < 2 ^ 64) }
{
    // The kind has one byte, and each number at most nine.
    code.reserve(19)?;
    code.push_reserved(kind);
    put_number(code, sid.0);
    put_number(code, generation);
    Ok(())
}

/// Adds the code of a tick or a report. An error where memory is refused. A byte tells the kind of
/// the act, by which it is read again; its fields stand behind it. The generation says which start
/// of the service is meant.
#[inline(always)]
pub fn push_told(code: &mut Vec<u8>, act: ToldAct) -> Result<(), AllocError>
    ensures added { OnOk result
        (Adds code.old.items code.new.items (act_onto (act_of_told act))) }
    ensures fits { OnOk result (FitsAct (act_of_told act)) }
{
    match act {
        ToldAct::Tick => code.push(0)?,
        ToldAct::Started(sid, generation, pid) => {
            push_life(code, 1, sid, generation)?;
            pid.push(code)?;
        }
        ToldAct::StartFailed(sid, generation) => push_life(code, 2, sid, generation)?,
        ToldAct::Death(sid, generation, exit) => {
            push_life(code, 4, sid, generation)?;
            exit.push(code)?;
        }
        ToldAct::FinishEnded(sid, generation, exit) => {
            push_life(code, 5, sid, generation)?;
            exit.push(code)?;
        }
    }
    Ok(())
}

/// Adds the code of an act, if it has one. An error where memory is refused. A byte tells the kind
/// of the act, by which `take_act` reads it again; its fields stand behind it.
pub fn push_act(code: &mut Vec<u8>, act: &PlainAct<Global>) -> Result<(), AllocError>
    ensures added { OnOk result (Adds code.old.items code.new.items (act_onto (act_of act.now))) }
    ensures fits { OnOk result
        (IsTrue (has_act_code (act_of act.now)) → FitsAct (act_of act.now)) }
{
    match act {
        PlainAct::Tick => code.push(0)?,
        PlainAct::Started(sid, generation, pid) => {
            push_life(code, 1, *sid, *generation)?;
            pid.push(code)?;
        }
        PlainAct::StartFailed(sid, generation) => push_life(code, 2, *sid, *generation)?,
        PlainAct::Notify(sid, generation, bytes) => {
            push_life(code, 3, *sid, *generation)?;
            push_list(code, bytes.as_slice())?;
        }
        PlainAct::Death(sid, generation, exit) => {
            push_life(code, 4, *sid, *generation)?;
            exit.push(code)?;
        }
        PlainAct::FinishEnded(sid, generation, exit) => {
            push_life(code, 5, *sid, *generation)?;
            exit.push(code)?;
        }
        PlainAct::Status(name) => push_kind(code, 6, name)?,
        PlainAct::Tally(name) => push_kind(code, 7, name)?,
        PlainAct::Cancel(id) => push_kind(code, 8, &id.0)?,
        PlainAct::Unsubscribe(id) => push_kind(code, 9, &id.0)?,
        PlainAct::Send(target, letters) => {
            push_kind(code, 10, target)?;
            push_list(code, letters.as_slice())?;
        }
        PlainAct::MakeDir(name) => push_kind(code, 11, name)?,
        PlainAct::Svc(name, letters) => {
            push_kind(code, 12, name)?;
            push_list(code, letters.as_slice())?;
        }
        PlainAct::Scanctl(order) => push_kind(code, 13, order)?,
        PlainAct::Wait(condition, mode, timeout, names) => {
            push_kind(code, 14, condition)?;
            mode.push(code)?;
            timeout.push(code)?;
            push_list(code, names.as_slice())?;
        }
        PlainAct::Scan(_) | PlainAct::Permafailon(_, _, _, _) | PlainAct::Subscribe(_, _, _) => {}
    }
    Ok(())
}

// Takes a service and its generation. The generation is the number of the service's start that is
// meant.
fn take_life(code: &mut Code<'_>) -> (Sid, u64)
    ensures { (sid generation : ℕ) → (rest : List ℕ) → sid < 2 ^ 64 → generation < 2 ^ 64
        → code.old ≡ number_onto sid (number_onto generation rest)
        → (result.0 ≡ sid) × (result.1 ≡ generation) × (code.new ≡ rest) }
{
    let sid = Sid(u64::take(code));
    (sid, u64::take(code))
}

// Takes bytes of any number. An error where memory is refused.
fn take_letters(alloc: Global, code: &mut Code<'_>) -> Result<Vec<u8>, AllocError>
    ensures { IfOk result (λ letters. (bytes rest : List ℕ) → AreBytes bytes
        → length bytes < 2 ^ 64 → code.old ≡ letters_onto bytes rest
        → (letters.items ≡ bytes) × (code.new ≡ rest)) }
{
    let mut letters = Vec::new(alloc);
    take_list(code, &mut letters)?;
    Ok(letters)
}

/// Takes an act. Bytes that are no such code give some act. An error where memory is refused.
pub fn take_act(alloc: Global, code: &mut Code<'_>) -> Result<PlainAct<Global>, AllocError>
    ensures { IfOk result (λ plain. (one : Act Global) → (rest : List ℕ) → FitsAct one
        → code.old ≡ act_onto one rest → (act_of plain ≡ one) × (code.new ≡ rest)) }
{
    let kind = code.take_byte();
    // Kinds 0 to 5 are a tick and the reports, those above what users ask.
    if kind <= 5 {
        Ok(take_told(alloc, kind, code)?)
    } else {
        Ok(take_asked(alloc, kind, code)?)
    }
}

// Takes a tick or a report, of this kind. An error where memory is refused.
fn take_told(alloc: Global, kind: u8, code: &mut Code<'_>) -> Result<PlainAct<Global>, AllocError>
    ensures { IfOk result (λ plain. (one : Act Global) → (rest : List ℕ) → FitsAct one → kind ≤ 5
        → kind ∷ code.old ≡ act_onto one rest → (act_of plain ≡ one) × (code.new ≡ rest)) }
{
    if kind == 0 {
        return Ok(PlainAct::Tick);
    }
    let (sid, generation) = take_life(code);
    Ok(match kind {
        1 => PlainAct::Started(sid, generation, u32::take(code)),
        2 => PlainAct::StartFailed(sid, generation),
        3 => PlainAct::Notify(sid, generation, take_letters(alloc, code)?),
        4 => PlainAct::Death(sid, generation, Exit::take(code)),
        // Kind 5.
        _ => PlainAct::FinishEnded(sid, generation, Exit::take(code)),
    })
}

// Takes what a user asks, of this kind. An error where memory is refused.
fn take_asked(alloc: Global, kind: u8, code: &mut Code<'_>) -> Result<PlainAct<Global>, AllocError>
    ensures { IfOk result (λ plain. (one : Act Global) → (rest : List ℕ) → FitsAct one → 6 ≤ kind
        → kind ∷ code.old ≡ act_onto one rest → (act_of plain ≡ one) × (code.new ≡ rest)) }
{
    Ok(match kind {
        6 => PlainAct::Status(Name::take(code)),
        7 => PlainAct::Tally(Name::take(code)),
        8 => PlainAct::Cancel(WaitId(u64::take(code))),
        9 => PlainAct::Unsubscribe(SubId(u64::take(code))),
        10 => {
            let target = Target::take(code);
            PlainAct::Send(target, take_letters(alloc, code)?)
        }
        11 => PlainAct::MakeDir(Name::take(code)),
        12 => take_svc(alloc, code)?,
        13 => PlainAct::Scanctl(ScanOrder::take(code)),
        // Kind 14; no greater one is ever added.
        _ => take_wait(alloc, code)?,
    })
}

// Takes letters for a service.
fn take_svc(alloc: Global, code: &mut Code<'_>) -> Result<PlainAct<Global>, AllocError>
    ensures { IfOk result (λ plain. (name : List ℕ) → (letters : List ControlLetter)
        → (rest : List ℕ) → IsTrue (is_name name) → AllFit (λ letter. ⊤) letters
        → length letters < 2 ^ 64
        → code.old ≡ bytes_onto name (list_onto letter_onto letters rest)
        → (act_of plain ≡ act.Svc name (record { items = letters })) × (code.new ≡ rest)) }
{
    let name = Name::take(code);
    let mut letters = Vec::new(alloc);
    take_list(code, &mut letters)?;
    Ok(PlainAct::Svc(name, letters))
}

// Takes a wait.
fn take_wait(alloc: Global, code: &mut Code<'_>) -> Result<PlainAct<Global>, AllocError>
    ensures { IfOk result (λ plain. (condition : Condition) → (mode : Mode) → (timeout : ℕ)
        → (names : List (List ℕ)) → (rest : List ℕ) → timeout < 2 ^ 32
        → AllFit (λ name. IsTrue (is_name name)) names → length names < 2 ^ 64
        → code.old ≡ condition_byte condition ∷ mode_byte mode
        ∷ number_onto timeout (list_onto bytes_onto names rest)
        → (act_of plain ≡ act.Wait condition mode timeout names) × (code.new ≡ rest)) }
{
    let condition = Condition::take(code);
    let mode = Mode::take(code);
    let timeout = u32::take(code);
    let mut names = Vec::new(alloc);
    take_list(code, &mut names)?;
    Ok(PlainAct::Wait(condition, mode, timeout, names))
}
