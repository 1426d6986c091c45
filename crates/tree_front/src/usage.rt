//! What is told of wrong words behind `svscan`, `svcheck`, `connect` or `help`: a line for
//! programs, and one for people.
ghost use Rattle.std.specs.Prelude.{◌≡◌, ◌++◌, IfOk, OnOk, option_map};
ghost use Rattle.tree_front.specs.Usage.{advice_text, complaint_of, complaint_text, program_text, usage_text, word_text};

use arrayvec::CapacityError;
use std::io::Write;
use tool_lines::{FaultText, Misuse, add_named, help_words, see_words};

/// The exit status for wrong usage.
const USAGE_STATUS: u8 = 100;

/// Tells by one write that the words behind a program's name are wrong, which word is, if one is,
/// and what would be right. Of an empty word, `word` is the name of its place, as `SOCKET`. The
/// exit status, 100.
pub fn refuse_words<E: Write>(
    program: &str,
    misuse: Misuse,
    word: Option<&str>,
    form: &str,
    errors: &mut E,
) -> u8
    ensures { result ≡ 100 }
{
    if let Ok(told) = told_of(program, misuse, word, form) {
        let _ = errors.write_all(told.as_slice());
    }
    USAGE_STATUS
}

// What the second line says behind the wrong word, or behind `a word`: that it is missing, one too
// many, or empty. `refuse_words` is called for these three alone.
fn complaint_of(misuse: Misuse) -> &'static str
    ensures { result.now ≡ complaint_of misuse }
{
    match misuse {
        Misuse::Missing => " is missing",
        Misuse::Empty => " is empty",
        _ => " is one too many",
    }
}

// The two lines about wrong words. `add_first_line` makes the one for programs and begins the one
// for people; `add_complaint` adds to this what is wrong, and `add_advice` what would be right.
// `word` is the wrong word, if one is, and `form` how the words have to be given.
fn told_of(
    program: &str,
    misuse: Misuse,
    word: Option<&str>,
    form: &str,
) -> Result<FaultText, CapacityError>
    ensures { IfOk result (λ told. told.items
        ≡ usage_text program.now misuse (option_map (λ w. w.now) word.entry) form.now) }
{
    let mut told = FaultText::new();
    add_first_line(&mut told, program)?;
    add_complaint(&mut told, misuse, word)?;
    add_advice(&mut told, program, form)?;
    Ok(told)
}

// Adds the first line, for programs, which says `usage`, and the name of the program with which the
// second line begins, the one for people.
fn add_first_line(told: &mut FaultText, program: &str) -> Result<(), CapacityError>
    ensures { OnOk result (told.new.items ≡ told.old.items ++ program_text program.now) }
{
    told.try_extend_from_slice(program.as_bytes())?;
    told.try_extend_from_slice(b": usage\n")?;
    told.try_extend_from_slice(program.as_bytes())?;
    told.try_extend_from_slice(b": ")
}

// Adds to the second line what is wrong with the words: one is missing, or `word` is one too many.
fn add_complaint(
    told: &mut FaultText,
    misuse: Misuse,
    word: Option<&str>,
) -> Result<(), CapacityError>
    ensures { OnOk result (told.new.items
        ≡ told.old.items ++ complaint_text misuse (option_map (λ w. w.now) word.entry)) }
{
    told.try_extend_from_slice(misuse.word().as_bytes())?;
    told.try_extend_from_slice(b": ")?;
    add_word(told, misuse, word)?;
    told.try_extend_from_slice(complaint_of(misuse).as_bytes())
}

// Adds the wrong word; of one that is empty, its place is told, as `SOCKET`.
fn add_word(told: &mut FaultText, misuse: Misuse, word: Option<&str>) -> Result<(), CapacityError>
    ensures { OnOk result (told.new.items
        ≡ told.old.items ++ word_text misuse (option_map (λ w. w.now) word.entry)) }
{
    match (misuse, word) {
        (Misuse::Empty, Some(place)) => told.try_extend_from_slice(place.as_bytes()),
        _ => add_named(told, b"a word", word),
    }
}

// Adds to the second line what would be right, and the command that prints the help text. `form` is
// how the words have to be given, as `svcheck DIRECTORY`.
fn add_advice(told: &mut FaultText, program: &str, form: &str) -> Result<(), CapacityError>
    ensures { OnOk result (told.new.items ≡ told.old.items ++ advice_text program.now form.now) }
{
    told.try_extend_from_slice(b": ")?;
    told.try_extend_from_slice(form.as_bytes())?;
    told.try_extend_from_slice(see_words().as_bytes())?;
    told.try_extend_from_slice(program.as_bytes())?;
    told.try_extend_from_slice(help_words().as_bytes())?;
    told.try_extend_from_slice(b"\n")
}
