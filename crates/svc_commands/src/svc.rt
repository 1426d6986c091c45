//! The words of `s6-svc`, letter by letter.
ghost use Rattle.std.specs.Prelude.{◌≡◌, ◌<◌, ◌≤◌, ◌++◌, ◌∷◌, [], None, Some, length, map, flat_map, is_some, MatchResult};
ghost use Rattle.svc_commands.specs.LetterWords.{letter_fault, run_fault, name_fault, svc_letters, svc_fault};
ghost use Rattle.svc_commands.specs.LetterCommands.{IsSvcCommand};
ghost use Rattle.svc_commands.specs.ReadWords.{IsRead, IsRefused, AddsName};

use crate::letter_words::run_of;
use crate::names::name_of;
use crate::usage_fault::UsageFault;
use control_letters::{ControlLetter, Letters};
use s6_events::Name;

/// What a service is told: `letters`, in their order, in one step.
#[derive(Debug, Drop)]
pub struct SvcCommand {
    pub name: Name,
    pub letters: Letters,
}

/// Reads the words after `svc`: runs of letters, each behind a dash, and one name, in any order;
/// `o` is `u` and `O`. The fault is the first one, in the order of the words: Unknown for a dash
/// alone or an unknown letter, TooMany for a 64th letter or a second name, BadName for a word that
/// is neither a run nor a name. After all words it is Missing, where there was no letter or no
/// name. Page `s6-svc`; the limit and the faults are chosen here.
pub fn compile_svc(words: &[&str]) -> Result<SvcCommand, UsageFault>
    ensures { MatchResult result (IsSvcCommand (map (λ w. w.now) words.now))
        (λ fault. svc_fault (map (λ w. w.now) words.now) ≡ Some fault) }
{
    let mut letters = Letters::new();
    let mut name = None;
    for word in words {
        read_word(&mut letters, &mut name, word.as_bytes())?;
    }
    match name {
        Some(name) if !letters.is_empty() => Ok(SvcCommand { name, letters }),
        _ => Err(UsageFault::Missing),
    }
}

// Adds the letters of a word that begins with a dash (a run), or takes any other word as the name
// of the service.
fn read_word(letters: &mut Letters, name: &mut Option<Name>, word: &[u8]) -> Result<(), UsageFault>
    ensures { MatchResult result (λ _. AddsName word.now name.old name.new
        × IsRead svc_letters name_fault word.now letters.old.items
        (is_some name.old) letters.new.items (is_some name.new))
        (λ fault.
        IsRefused svc_letters name_fault word.now letters.old.items (is_some name.old) fault) }
{
    if let Some(run) = run_of(word) {
        return add_run(letters, run);
    }
    *name = Some(only_name(*name, word)?);
    Ok(())
}

// The word as a name. BadName where it is none, TooMany where a name came before it.
fn only_name(before: Option<Name>, word: &[u8]) -> Result<Name, UsageFault>
    ensures { MatchResult result
        (λ name. (name ≡ word.now) × (name_fault (is_some before) word.now ≡ None))
        (λ fault. name_fault (is_some before) word.now ≡ Some fault) }
{
    let name = name_of(word)?;
    match before {
        Some(_) => Err(UsageFault::TooMany),
        None => Ok(name),
    }
}

// Adds the letters of a run; `run` is what stands behind its dash. Unknown where it is empty or a
// letter means nothing, TooMany at a 64th letter.
fn add_run(letters: &mut Letters, run: &[u8]) -> Result<(), UsageFault>
    ensures { MatchResult result
        (λ _. (run_fault svc_letters (length letters.old.items) run.now ≡ None)
        × (letters.new.items ≡ letters.old.items ++ flat_map svc_letters run.now))
        (λ fault. run_fault svc_letters (length letters.old.items) run.now ≡ Some fault) }
{
    if run.is_empty() {
        return Err(UsageFault::Unknown);
    }
    for byte in run {
        add_byte(letters, *byte)?;
    }
    Ok(())
}

// Adds what one byte means: `u` and `O` for `o`, else the letter that it stands for. Unknown where
// it stands for none.
#[tactic(auto, unfolding(crate::specs::LetterWords::svc_letters))]
fn add_byte(letters: &mut Letters, byte: u8) -> Result<(), UsageFault>
    ensures { MatchResult result
        (λ _. (letter_fault (length letters.old.items) (svc_letters byte) ≡ None)
        × (letters.new.items ≡ letters.old.items ++ svc_letters byte))
        (λ fault. letter_fault (length letters.old.items) (svc_letters byte) ≡ Some fault) }
{
    if byte == b'o' {
        add_letter(letters, ControlLetter::Up)?;
        return add_letter(letters, ControlLetter::Once);
    }
    let letter = ControlLetter::of_byte(byte).ok_or(UsageFault::Unknown)?;
    add_letter(letters, letter)
}

// Adds one more letter to those that the service is told; TooMany where there are 63 already.
fn add_letter(letters: &mut Letters, letter: ControlLetter) -> Result<(), UsageFault>
    ensures { MatchResult result
        (λ _. (length letters.old.items < 63)
        × (letters.new.items ≡ letters.old.items ++ letter ∷ []))
        (λ fault. (63 ≤ length letters.old.items) × (fault ≡ UsageFault.TooMany)) }
{
    letters.try_push(letter).map_err(|_| UsageFault::TooMany)
}
