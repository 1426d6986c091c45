//! A wait, in a script: reading it, and its spelling.
ghost use Rattle.std.specs.Prelude.{◌≡◌, ◌++◌, ◌∷◌, [], List, ℕ, All, IsTrue, decimal, codes, IfOk, OnOk};
ghost use Rattle.std.specs.List.{flat_map, join_with_byte};
ghost use Rattle.s6_events.specs.Name.{is_name};
ghost use Rattle.s6_events.specs.declared.condition.Condition.{Condition};
ghost use Rattle.s6_events.specs.declared.condition.Mode.{Mode};
ghost use Rattle.s6_script.specs.Spelling.{HasExpression, IsAct};
ghost use Rattle.s6_script.specs.Verb.{condition_word, mode_word, verb_of_act, details};
ghost use Rattle.s6_script.specs.declared.parse.Verb.TheVariants.{Wait};

use super::digits::{push_spaced, push_word};
use super::words::{Words, count_of, is_word, name_of};
use s6_events::{Condition, Mode, Name, NoMemory};
use std::alloc::{AllocError, Allocator};
use tree_core::{Act, Names};

// Reads a condition; where the word is none, some condition, with which the line is refused later
// (`parse.rt`). The letters are those of the command line: u up, U up and ready, d down, D down
// with `finish` done; r up after a start since the wait began, R that, and ready.
fn condition_of(word: &[u8]) -> Condition
    ensures { (condition : Condition) → word.now ≡ condition_word condition → result ≡ condition }
{
    if is_word(word, b"u") {
        Condition::Up
    } else if is_word(word, b"U") {
        Condition::Ready
    } else if is_word(word, b"d") {
        Condition::Down
    } else if is_word(word, b"D") {
        Condition::Finished
    } else if is_word(word, b"r") {
        Condition::Restarted
    } else {
        Condition::RestartedReady
    }
}

// Reads a mode; where the word is none, some mode, with which the line is refused later
// (`parse.rt`). The letters are those of the command line: a for all of the services, o for one.
fn mode_of(word: &[u8]) -> Mode
    ensures { (mode : Mode) → word.now ≡ mode_word mode → result ≡ mode }
{
    if is_word(word, b"a") {
        Mode::All
    } else {
        Mode::One
    }
}

// Reads names, one for each word that is left.
fn names_of<A: Allocator + Copy>(
    alloc: A,
    words: &mut Words<'_>,
) -> Result<Vec<Name, A>, AllocError>
    ensures spelled { IfOk result
        (λ found. (names : List (List ℕ)) → All (λ name. IsTrue (is_name name)) names
        → words.old ≡ names → found.items ≡ names) }
    ensures fits { IfOk result (λ found. All (λ name. IsTrue (is_name name)) found.items) }
{
    let mut names = Vec::new(alloc);
    while words.has_more() {
        names.push(name_of(words.take_next()))?;
    }
    Ok(names)
}

/// Reads a wait from the words behind its verb. They are the condition, the mode, the timeout in
/// milliseconds (0 for none), and the names of the services.
pub fn wait_of<A: Allocator + Copy>(alloc: A, words: &mut Words<'_>) -> Result<Act<A>, NoMemory>
    ensures spelled { IfOk result (λ found. (act : Act A) → IsAct act → Wait ≡ verb_of_act act
        → words.old ≡ details act → found ≡ act) }
    ensures fits { IfOk result (λ found. IsAct found × HasExpression found) }
{
    let condition = condition_of(words.take_next());
    let mode = mode_of(words.take_next());
    let timeout = count_of(words.take_next());
    let names = names_of(alloc, words)?;
    Ok(Act::Wait(condition, mode, timeout, Names::new(names)))
}

// The letter by which a script spells the condition of a wait, as on the command line.
fn condition_bytes(condition: Condition) -> &'static str
    ensures { result.now ≡ condition_word condition }
{
    match condition {
        Condition::Up => "u",
        Condition::Ready => "U",
        Condition::Down => "d",
        Condition::Finished => "D",
        Condition::Restarted => "r",
        Condition::RestartedReady => "R",
    }
}

// The letter by which a script spells whether a wait is for all of its services or for one, as on
// the command line.
fn mode_bytes(mode: Mode) -> &'static str
    ensures { result.now ≡ mode_word mode }
{
    match mode {
        Mode::All => "a",
        Mode::One => "o",
    }
}

// Adds names to the text, each behind a space.
fn push_names<A: Allocator>(text: &mut Vec<u8, A>, names: &[Name]) -> Result<(), AllocError>
    ensures { OnOk result (text.new.items
        ≡ text.old.items ++ flat_map (λ name. 32 ∷ name) names.now) }
{
    for name in names {
        push_word(text, name.as_bytes())?;
    }
    Ok(())
}

/// Adds the words of a wait to the text: its verb, the letters of its condition and its mode, the
/// timeout, and the names.
pub fn push_wait<A: Allocator>(
    text: &mut Vec<u8, A>,
    condition: Condition,
    mode: Mode,
    timeout: u32,
    names: &[Name],
) -> Result<(), AllocError>
    ensures { OnOk result (text.new.items ≡ text.old.items ++ join_with_byte 32
        (codes "wait" ∷ condition_word condition ∷ mode_word mode ∷ decimal timeout ∷ names.now)) }
{
    text.extend_from_slice(b"wait")?;
    push_word(text, condition_bytes(condition).as_bytes())?;
    push_word(text, mode_bytes(mode).as_bytes())?;
    push_spaced(text, u64::from(timeout))?;
    push_names(text, names)?;
    Ok(())
}
