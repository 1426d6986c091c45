//! Subscriptions and messages for event directories, in a script: reading them, and their spelling.
//! A word that spells none gives some value, with which the line is refused later (`parse.rt`).
ghost use Rattle.std.specs.Prelude.{◌≡◌, ◌++◌, ◌∷◌, [], List, ℕ, Bool, true, IsTrue, codes, drop, slice_index_or, string_bytes, IfOk, OnOk};
ghost use Rattle.std.specs.List.{join_with_byte};
ghost use Rattle.event_directory.specs.Message.{is_message};
ghost use Rattle.event_directory.specs.Pattern.{is_pattern_text};
ghost use Rattle.s6_events.specs.Name.{is_name};
ghost use Rattle.s6_script.specs.Spelling.{HasExpression, IsAct};
ghost use Rattle.s6_script.specs.Unbuilt.{act_read, FitsButText};
ghost use Rattle.s6_script.specs.Verb.{target_word, target_name, how_word, text_words, verb_of_act, details};
ghost use Rattle.s6_script.specs.declared.parse.Verb.TheVariants.{Subscribe, Send};
ghost use Rattle.tree_core.specs.declared.input.Target.{Target};

use super::digits::push_word;
use super::unbuilt::UnbuiltAct;
use super::words::{Words, is_word, name_of};
use event_directory::Message;
use s6_events::{Name, NoMemory};
use std::alloc::{AllocError, Allocator};
use tree_core::{Act, Target};

// Reads which event directory is meant: that of a service behind `svc`, else a free one. A word
// that is neither `svc` nor `dir` is refused later.
fn target_of(words: &mut Words<'_>) -> Target
    ensures spelled { (target : Target) → IsTrue (is_name (target_name target)) →
        slice_index_or words.old 0 [] ≡ target_word target
        → slice_index_or words.old 1 [] ≡ target_name target → result ≡ target }
    ensures fits { is_name (target_name result) ≡ true }
    ensures rest { words.new ≡ drop 2 words.old }
{
    let kind = words.take_next();
    let name = name_of(words.take_next());
    if is_word(kind, b"svc") {
        Target::Service(name)
    } else {
        Target::Directory(name)
    }
}

// Reads whether a subscription goes on after a match: `repeat`. Any other word than `once` is
// refused later.
fn repeats_of(word: &[u8]) -> bool
    ensures { (repeats : Bool) → word.now ≡ how_word repeats → result ≡ repeats }
{
    is_word(word, b"repeat")
}

// Reads the text of a pattern; an empty one where the bytes are no UTF-8, which is refused later.
fn pattern_text<A: Allocator + Copy>(alloc: A, bytes: &[u8]) -> Result<String<A>, AllocError>
    ensures { IfOk result (λ found. IsTrue (is_pattern_text bytes.now)
        → string_bytes found ≡ bytes.now) }
{
    match String::from_utf8(bytes.to_vec(alloc)?) {
        Ok(text) => Ok(text),
        Err(_) => Ok(String::new(alloc)),
    }
}

/// Reads a subscription from the words behind its verb. Its pattern is the rest of the line, with
/// its spaces.
pub fn subscribe_of<A: Allocator + Copy>(
    alloc: A,
    words: &mut Words<'_>,
) -> Result<UnbuiltAct<A>, NoMemory>
    ensures spelled { IfOk result (λ found. (act : Act A) → IsAct act → Subscribe ≡ verb_of_act act
        → words.old ≡ details act → act_read found ≡ act) }
    ensures fits { IfOk result FitsButText }
{
    let target = target_of(words);
    let repeats = repeats_of(words.take_next());
    let text = pattern_text(alloc, words.rest())?;
    Ok(UnbuiltAct::Subscribe(target, text, repeats))
}

// Reads a message; where the word is none, some message, with which the line is refused later.
fn message_of(word: &[u8]) -> Message
    ensures spelled { is_message word.now ≡ true → result ≡ word.now }
    ensures fits { is_message result ≡ true }
{
    match Message::new(word) {
        Some(message) => message,
        // One printable byte is a message.
        None => Message::new(b"s").unwrap(),
    }
}

/// Reads, from the words behind its verb, a message and the event directory to which it is sent.
pub fn send_of<A: Allocator + Copy>(words: &mut Words<'_>) -> Act<A>
    ensures spelled { (act : Act A) → IsAct act → Send ≡ verb_of_act act → words.old ≡ details act
        → result ≡ act }
    ensures fits { IsAct result × HasExpression result }
{
    let target = target_of(words);
    Act::Send(target, message_of(words.take_next()))
}

// The word for which kind of event directory is meant: that of a service, or a free one.
fn target_bytes(target: &Target) -> &'static str
    ensures { result.now ≡ target_word target.now }
{
    match target {
        Target::Service(_) => "svc",
        Target::Directory(_) => "dir",
    }
}

// The name of the event directory that is meant: that of its service, or of the free directory.
fn name_in(target: &Target) -> &Name
    ensures { result.now ≡ target_name target.now }
{
    match target {
        Target::Service(name) => name,
        Target::Directory(name) => name,
    }
}

// The word for whether a subscription goes on after a match: `repeat` where it does, else `once`.
fn how_bytes(repeats: bool) -> &'static str
    ensures { result.now ≡ how_word repeats }
{
    if repeats { "repeat" } else { "once" }
}

// Adds to the text the words for an event directory, each behind a space: its kind and its name.
fn push_target<A: Allocator>(text: &mut Vec<u8, A>, target: &Target) -> Result<(), AllocError>
    ensures { OnOk result (text.new.items
        ≡ text.old.items ++ 32 ∷ (target_word target.now ++ 32 ∷ target_name target.now)) }
{
    push_word(text, target_bytes(target).as_bytes())?;
    push_word(text, name_in(target).as_bytes())
}

/// Adds the words of a subscription to the text: its verb, the event directory, `once` or `repeat`,
/// and the pattern.
pub fn push_subscribe<A: Allocator>(
    text: &mut Vec<u8, A>,
    target: &Target,
    pattern: &str,
    repeats: bool,
) -> Result<(), AllocError>
    ensures { OnOk result (text.new.items ≡ text.old.items ++ join_with_byte 32
        (codes "subscribe" ∷ target_word target.now ∷ target_name target.now ∷ how_word repeats
        ∷ text_words pattern.now)) }
{
    text.extend_from_slice(b"subscribe")?;
    push_target(text, target)?;
    push_word(text, how_bytes(repeats).as_bytes())?;
    push_word(text, pattern.as_bytes())?;
    Ok(())
}

/// Adds the words of a message to be sent to the text: its verb, the event directory, and its
/// letters.
pub fn push_send<A: Allocator>(
    text: &mut Vec<u8, A>,
    target: &Target,
    message: &Message,
) -> Result<(), AllocError>
    ensures { OnOk result (text.new.items ≡ text.old.items ++ join_with_byte 32
        (codes "send" ∷ target_word target.now ∷ target_name target.now ∷ message.now ∷ [])) }
{
    push_send_of(text, target, message.as_bytes())
}

// Adds the words of a message of these letters to the text: its verb, the event directory
// (`target`), and the letters.
pub fn push_send_of<A: Allocator>(
    text: &mut Vec<u8, A>,
    target: &Target,
    letters: &[u8],
) -> Result<(), AllocError>
    ensures { OnOk result (text.new.items ≡ text.old.items ++ join_with_byte 32
        (codes "send" ∷ target_word target.now ∷ target_name target.now ∷ letters.now ∷ [])) }
{
    text.extend_from_slice(b"send")?;
    push_target(text, target)?;
    push_word(text, letters)
}
