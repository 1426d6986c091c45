//! A letter that is told to a follower: how it is read, and printed.
ghost use Rattle.std.specs.Prelude.{◌≡◌, ◌++◌, ◌∷◌, [], IfOk, OnOk};
ghost use Rattle.tool_lines.specs.JsonLines.{member, quoted};
ghost use Rattle.tool_lines.specs.Letters.{json_head, json_letter, json_tail, letter_text, letter_word, plain_letter};

use crate::json_line::{push_key, push_member, push_quoted};
use crate::list_entry::moment_of;
use crate::words::{is_word, word_or_none};
use s6_events::Name;
use std::alloc::{AllocError, Global};

/// A letter of a service: what its supervisor writes to its event directory (`s`, `u`, `U`, `d`,
/// `D`, `O` or `x`).
#[derive(Clone, Copy, Debug, PartialEq, Eq)]
pub struct FollowedLetter {
    /// The tree's clock when it was told, in milliseconds.
    pub at: u64,
    /// The serial of its service.
    pub serial: u64,
    pub name: Name,
    pub letter: u8,
}

/// The letter of a line `e AT SERIAL NAME LETTER`, without its newline; None for any other line.
/// The words are counted from 0.
pub fn letter_of(line: &[u8]) -> Option<FollowedLetter> {
    if !is_word(word_or_none(line, 0), b"e") {
        return None;
    }
    let [letter] = word_or_none(line, 4) else {
        return None;
    };
    Some(FollowedLetter {
        at: moment_of(word_or_none(line, 1))?,
        // `moment_of` reads any number.
        serial: moment_of(word_or_none(line, 2))?,
        name: Name::new(word_or_none(line, 3))?,
        letter: *letter,
    })
}

// What a letter says, in a word.
fn letter_word(letter: u8) -> &'static [u8]
    ensures { result.now ≡ letter_word letter }
{
    match letter {
        b's' => b"supervised",
        b'u' => b"up",
        b'U' => b"ready",
        b'd' => b"died",
        b'D' => b"down",
        b'O' => b"failed",
        b'x' => b"gone",
        _ => b"strange",
    }
}

// Adds the line of a letter for people: the time of day, the name of the service, the letter, and
// its word.
fn push_plain(text: &mut Vec<u8>, day: &[u8], letter: &FollowedLetter) -> Result<(), AllocError>
    ensures { OnOk result (text.new.items ≡ text.old.items ++ plain_letter day.now letter.now) }
{
    text.extend_from_slice(day)?;
    text.extend_from_slice(b" ")?;
    text.extend_from_slice(letter.name.as_bytes())?;
    text.extend_from_slice(&[b' ', letter.letter, b' '])?;
    text.extend_from_slice(letter_word(letter.letter))?;
    text.extend_from_slice(b"\n")
}

// Adds a further member of the object: a key, and a text in quotes.
fn push_text(text: &mut Vec<u8>, key: &[u8], word: &[u8]) -> Result<(), AllocError>
    ensures { OnOk result (text.new.items ≡ text.old.items ++ member key.now (quoted word.now)) }
{
    text.push(b',')?;
    push_key(text, key)?;
    push_quoted(text, word)
}

// Adds the first members of the object: the time of day, the tree's clock then, and the serial of
// the service.
fn push_json_head(text: &mut Vec<u8>, day: &[u8], letter: &FollowedLetter) -> Result<(), AllocError>
    ensures { OnOk result (text.new.items ≡ text.old.items ++ json_head day.now letter.now) }
{
    push_key(text, b"time")?;
    push_quoted(text, day)?;
    push_member(text, b"at", Some(letter.at))?;
    push_member(text, b"serial", Some(letter.serial))
}

// Adds the other members of the object: the name of the service, the letter, and what it says in a
// word.
fn push_json_tail(text: &mut Vec<u8>, letter: &FollowedLetter) -> Result<(), AllocError>
    ensures { OnOk result (text.new.items ≡ text.old.items ++ json_tail letter.now) }
{
    push_text(text, b"name", letter.name.as_bytes())?;
    push_text(text, b"letter", &[letter.letter])?;
    push_text(text, b"event", letter_word(letter.letter))
}

// Adds the line of a letter as one object of JSON: its braces, and the members between them.
#[tactic(auto, unfolding(crate::specs::Letters::json_letter))]
fn push_json(text: &mut Vec<u8>, day: &[u8], letter: &FollowedLetter) -> Result<(), AllocError>
    ensures { OnOk result (text.new.items ≡ text.old.items ++ json_letter day.now letter.now) }
{
    text.push(b'{')?;
    push_json_head(text, day, letter)?;
    push_json_tail(text, letter)?;
    text.extend_from_slice(b"}\n")
}

/// The line that is printed for a letter. `day` is the time of day at which it was told.
pub fn letter_line(
    alloc: Global,
    is_json: bool,
    day: &[u8],
    letter: &FollowedLetter,
) -> Result<Vec<u8>, AllocError>
    ensures { IfOk result (λ text. text.items ≡ letter_text is_json day.now letter.now) }
{
    let mut text = Vec::new(alloc);
    if is_json {
        push_json(&mut text, day, letter)?;
    } else {
        push_plain(&mut text, day, letter)?;
    }
    Ok(text)
}
