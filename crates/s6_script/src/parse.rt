//! Reads an act, and an input line, which is a moment, an actor and an act. Parts are read without
//! checking, here, in `words.rt` and in `entry_options.rt`. The act is then written out again;
//! where that differs from the words that were read, they are refused. But the starts, deaths and
//! ticks of a line are read word for word (`reports.rt`). A pattern is built last, so a line is
//! refused for its pattern only where it spells an act otherwise.
ghost use Rattle.std.specs.Prelude.{◌≡◌, ℕ, ◌≤◌, ◌<◌, ◌^◌, ◌-◌, ◌∷◌, ◌++◌, [], List, Bool, Err, IfOk, OnOk, Some, IfSome, true, decimal, drop, map, length, slice_index_or};
ghost use Rattle.hex.specs.Hex.{IsBytes, encode_lower};
ghost use Rattle.s6_script.specs.Spelling.{HasExpression, IsExit, IsAct, SpellsAct, SpellsActButForPattern, act_words};
ghost use Rattle.s6_script.specs.Spelling.{Spells, SpellsButForPattern};
ghost use Rattle.s6_script.specs.Unbuilt.{act_read, FitsButText};
ghost use Rattle.s6_events.specs.At.{last_moment};
ghost use Rattle.control_letters.specs.ControlLetter.{byte_of};
ghost use Rattle.control_letters.specs.declared.control_letter.ControlLetter.{ControlLetter};
ghost use Rattle.s6_script.specs.Verb.{exit_words, has_form_of, is_asked, order_word, verb_word, verb_of_act, details};
ghost use Rattle.svscan_core.specs.declared.entry.ScanOrder.{ScanOrder};

use super::death_list::permafailon_of;
use super::entry_options::entries_of;
use super::reports::read_report;
use super::spelling::spell_read;
use super::subscribing::{send_of, subscribe_of};
use super::unbuilt::{UnbuiltAct, build_act};
use super::waiting::wait_of;
use super::words::{Words, is_word, name_of, number, take_number};
use arrayvec::ArrayVec;
use control_letters::{ControlLetter, Letters};
use s6_events::{Actor, At, Exit, NoMemory, Sid, SubId, WaitId};
use std::alloc::{AllocError, Allocator, Global};
use thiserror::Error;
use tree_core::{Act, Input, Listing, ScanOrder};

/// Why a line is no input.
#[derive(Clone, Copy, Debug, PartialEq, Eq, Error)]
pub enum LineFault {
    /// It spells no input.
    #[error("the line spells no input")]
    Line = 1,
    /// It spells a subscription, but `regex` refuses its pattern, and not for want of memory. A
    /// pattern of no byte or of more than 256, or with a byte that isn't between a space and a
    /// tilde, has no spelling: then the fault is `Line`.
    #[error("the pattern of the line does not build")]
    Pattern = 2,
    /// Memory was refused.
    #[error("out of memory")]
    NoMemory = 3,
}

impl From<AllocError> for LineFault {
    ghost use Rattle.s6_script.specs.declared.parse.LineFault.TheVariants.{NoMemory};

    ghost from_gives = { λ _ fault. fault ≡ NoMemory };

    fn from(_refused: AllocError) -> LineFault {
        LineFault::NoMemory
    }
}

impl From<NoMemory> for LineFault {
    ghost use Rattle.s6_script.specs.declared.parse.LineFault.TheVariants.{NoMemory};

    ghost from_gives = { λ _ fault. fault ≡ NoMemory };

    fn from(_refused: NoMemory) -> LineFault {
        LineFault::NoMemory
    }
}

// The first word of an act.
#[derive(Clone, Copy, Debug, PartialEq, Eq)]
pub enum Verb {
    Scan,
    Scanctl,
    Svc,
    Started,
    StartFailed,
    Notify,
    Death,
    Finished,
    Status,
    Tally,
    Permafailon,
    Wait,
    Cancel,
    Subscribe,
    Unsubscribe,
    Send,
    Mkdir,
    Tick,
}

// Reads an exit. Its first word is `code` or `signal`; the length of the word (4 for `code`) says
// which.
fn exit_of(words: &mut Words<'_>) -> Exit
    ensures spelled { (e : Exit) → IsExit e → words.old ≡ exit_words e → result ≡ e }
    ensures fits { IsExit result }
{
    if words.take_next().len() == 4 {
        Exit::Code(number(words.take_next(), 255) as u8)
    } else {
        Exit::Killed(number(words.take_next(), 64) as u8)
    }
}

// The last byte of a word, or 0 where it has none.
fn last_of(word: &[u8]) -> u8
    ensures { result ≡ slice_index_or word.now (length word.now - 1) 0 }
{
    match word.last() {
        Some(last) => *last,
        None => 0,
    }
}

// Whether a word is as long as the other one, and has the same last byte.
fn has_form_of(word: &[u8], other: &[u8]) -> bool
    ensures { result ≡ has_form_of word.now other.now }
{
    word.len() == other.len() && last_of(word) == last_of(other)
}

// Reads a verb. No two verbs have the same length and the same last byte. A word that has those of
// a verb gives this verb, and any other word `Tick`. Verbs that come most often are looked for
// first.
fn verb_of(word: &[u8]) -> Verb
    ensures { (v : Verb) → word.now ≡ verb_word v → result ≡ v }
{
    if has_form_of(word, b"started") {
        Verb::Started
    } else if has_form_of(word, b"death") {
        Verb::Death
    } else if has_form_of(word, b"finished") {
        Verb::Finished
    } else if has_form_of(word, b"notify") {
        Verb::Notify
    } else if has_form_of(word, b"status") {
        Verb::Status
    } else if has_form_of(word, b"svc") {
        Verb::Svc
    } else if has_form_of(word, b"wait") {
        Verb::Wait
    } else if has_form_of(word, b"scan") {
        Verb::Scan
    } else if has_form_of(word, b"scanctl") {
        Verb::Scanctl
    } else if has_form_of(word, b"startfailed") {
        Verb::StartFailed
    } else if has_form_of(word, b"tally") {
        Verb::Tally
    } else if has_form_of(word, b"permafailon") {
        Verb::Permafailon
    } else if has_form_of(word, b"cancel") {
        Verb::Cancel
    } else if has_form_of(word, b"subscribe") {
        Verb::Subscribe
    } else if has_form_of(word, b"unsubscribe") {
        Verb::Unsubscribe
    } else if has_form_of(word, b"send") {
        Verb::Send
    } else if has_form_of(word, b"mkdir") {
        Verb::Mkdir
    } else {
        Verb::Tick
    }
}

// Reads the letter of an order to all services: n, or t. Any other word gives that of t.
fn order_of(word: &[u8]) -> ScanOrder
    ensures { (order : ScanOrder) → word.now ≡ order_word order → result ≡ order }
{
    if is_word(word, b"n") {
        ScanOrder::Nuke
    } else {
        ScanOrder::Terminate
    }
}

// Reads a process number, from 1 to 2147483647.
fn process_of(word: &[u8]) -> u32
    ensures spelled { (n : ℕ) → 1 ≤ n → n ≤ 2147483647 → word.now ≡ decimal n → result ≡ n }
    ensures low { 1 ≤ result }
    ensures high { result ≤ 2147483647 }
{
    number(word, 2_147_483_647).max(1) as u32
}

// Reads a serial or a generation.
fn serial_of(word: &[u8]) -> u64
    ensures { (n : ℕ) → n < 2 ^ 64 → word.now ≡ decimal n → result ≡ n }
{
    number(word, u64::MAX)
}

// Reads what names a run: the serial of its service, and its generation (the number of its start).
fn run_of(words: &mut Words<'_>) -> (Sid, u64)
    ensures sid { (n : ℕ) → n < 2 ^ 64 → slice_index_or words.old 0 [] ≡ decimal n → result.0 ≡ n }
    ensures generation { (n : ℕ) → n < 2 ^ 64 → slice_index_or words.old 1 [] ≡ decimal n
        → result.1 ≡ n }
    ensures rest { words.new ≡ drop 2 words.old }
{
    let sid = Sid(serial_of(words.take_next()));
    let generation = serial_of(words.take_next());
    (sid, generation)
}

// Adds the letter of this byte, if there is such a letter, and fewer than 63 were added before.
fn add_letter(letters: &mut Letters, byte: u8)
    requires { length letters.old.items ≤ 63 }
    ensures spelled { (letter : ControlLetter) → length letters.old.items < 63
        → byte ≡ byte_of letter → letters.new.items ≡ letters.old.items ++ letter ∷ [] }
    ensures few { length letters.new.items ≤ 63 }
{
    if letters.len() == 63 {
        return;
    }
    if let Some(letter) = ControlLetter::of_byte(byte) {
        letters.push(letter);
    }
}

// Reads control letters: 1 to 63, whatever the word is.
fn letters_of(word: &[u8]) -> Letters
    ensures spelled { (letters : List ControlLetter) → 1 ≤ length letters → length letters ≤ 63
        → word.now ≡ map byte_of letters → result.items ≡ letters }
    ensures some { 1 ≤ length result.items }
    ensures few { length result.items ≤ 63 }
{
    let mut letters = Letters::new();
    for byte in word {
        add_letter(&mut letters, *byte);
    }
    // The word spells no letter: any one stands for it, since there has to be one.
    if letters.is_empty() {
        letters.push(ControlLetter::Up);
    }
    letters
}

// Reads bytes from their hexadecimal digits: 1 to 64, whatever the word is.
#[inline(never)]
fn bytes_of(word: &[u8]) -> ArrayVec<u8, 64>
    ensures spelled { (bytes : List ℕ) → 1 ≤ length bytes → length bytes ≤ 64 → IsBytes bytes
        → word.now ≡ encode_lower bytes → result.items ≡ bytes }
    ensures some { 1 ≤ length result.items }
    ensures few { length result.items ≤ 64 }
    ensures fits { IsBytes result.items }
{
    let mut room = [0; 64];
    let count = (word.len() / 2).min(64);
    let part = &mut room[..count];
    let places = part.len();
    // For the proof alone: this part of `room` has `count` places.
    prove!(places == count);
    let mut bytes = ArrayVec::new();
    if count == 0 || hex::decode_to_slice(word, part).is_err() {
        // The word spells no bytes: one byte, which is spelled otherwise, stands for it.
        bytes.push(0);
        return bytes;
    }
    if bytes.try_extend_from_slice(part).is_err() {
        // The list has room for 64 bytes, and these are no more.
        unreachable!()
    }
    bytes
}

// Reads an act from its verb and the words behind it; a report here, any other act but a tick by
// `request_of`.
fn act_of<A: Allocator + Copy>(
    alloc: A,
    verb: Verb,
    words: &mut Words<'_>,
) -> Result<UnbuiltAct<A>, NoMemory>
    ensures spelled { IfOk result (λ found. (act : Act A) → IsAct act → verb ≡ verb_of_act act
        → words.old ≡ details act → act_read found ≡ act) }
    ensures fits { IfOk result FitsButText }
{
    let act = match verb {
        Verb::Started => {
            let (sid, generation) = run_of(words);
            Act::Started(sid, generation, process_of(words.take_next()))
        }
        Verb::StartFailed => {
            let (sid, generation) = run_of(words);
            Act::StartFailed(sid, generation)
        }
        Verb::Notify => {
            let (sid, generation) = run_of(words);
            Act::Notify(sid, generation, bytes_of(words.take_next()))
        }
        Verb::Death => {
            let (sid, generation) = run_of(words);
            Act::Death(sid, generation, exit_of(words))
        }
        Verb::Finished => {
            let (sid, generation) = run_of(words);
            Act::FinishEnded(sid, generation, exit_of(words))
        }
        Verb::Tick => Act::Tick,
        _ => return request_of(alloc, verb, words),
    };
    Ok(UnbuiltAct::Whole(act))
}

// Reads an act that is asked for (no report, no tick) from its verb and the words behind it. It is
// not inlined: else reading each line would fill a place for each of these acts.
#[inline(never)]
fn request_of<A: Allocator + Copy>(
    alloc: A,
    verb: Verb,
    words: &mut Words<'_>,
) -> Result<UnbuiltAct<A>, NoMemory>
    requires { is_asked verb ≡ true }
    ensures spelled { IfOk result (λ found. (act : Act A) → IsAct act → verb ≡ verb_of_act act
        → words.old ≡ details act → act_read found ≡ act) }
    ensures fits { IfOk result FitsButText }
{
    let act = match verb {
        Verb::Scan => Act::Scan(Listing::new(entries_of(alloc, words)?)),
        Verb::Scanctl => Act::Scanctl(order_of(words.take_next())),
        Verb::Svc => Act::Svc(name_of(words.take_next()), letters_of(words.take_next())),
        Verb::Status => Act::Status(name_of(words.take_next())),
        Verb::Tally => Act::Tally(name_of(words.take_next())),
        Verb::Permafailon => permafailon_of(alloc, words)?,
        Verb::Wait => wait_of(alloc, words)?,
        Verb::Cancel => Act::Cancel(WaitId(serial_of(words.take_next()))),
        Verb::Subscribe => return subscribe_of(alloc, words),
        Verb::Unsubscribe => Act::Unsubscribe(SubId(serial_of(words.take_next()))),
        Verb::Send => send_of(words),
        Verb::Mkdir => Act::MakeDir(name_of(words.take_next())),
        // `act_of` reads the acts of all other verbs.
        _ => unreachable!(),
    };
    Ok(UnbuiltAct::Whole(act))
}

// Reads an act from its words: any act, where they spell none. The pattern of a subscription is not
// built yet.
fn read_act<A: Allocator + Copy>(alloc: A, words: &mut Words<'_>) -> Result<UnbuiltAct<A>, NoMemory>
    ensures spelled { IfOk result (λ found. (act : Act A) → IsAct act → words.old ≡ act_words act
        → act_read found ≡ act) }
    ensures fits { IfOk result FitsButText }
{
    let verb = verb_of(words.take_next());
    act_of(alloc, verb, words)
}

/// The act that a text spells. The text may be of any length. A pattern takes its memory from
/// `patterns`, and all else from `alloc`. The pattern of an act is one that the grammar of `regex`
/// reads; it is built only where all else of the text is right. `Line` where the text spells no
/// act. `Pattern` where it spells a subscription, but `regex` refuses its pattern, and not for want
/// of memory. `NoMemory` where memory is refused. On error nothing is kept.
pub fn parse_act<A: Allocator + Copy>(
    alloc: A,
    patterns: Global,
    words: &[u8],
) -> Result<Act<A>, LineFault>
    ensures found { IfOk result (SpellsAct words.now) }
    ensures only { IfOk result (λ found. (act : Act A) → SpellsAct words.now act → found ≡ act) }
    ensures expression { IfOk result HasExpression }
    ensures line { result ≡ Err LineFault.Line → (act : Act A) → SpellsAct words.now act → ⊥ }
    ensures pattern { result ≡ Err LineFault.Pattern → SpellsActButForPattern A words.now }
{
    let mut text = Vec::new(alloc);
    parse_other(alloc, patterns, words, &mut text)
}

// The act that the words spell: they are read, the act is spelled again into `text`, and where that
// equals the words, its pattern is built, with memory from `patterns`. It is not inlined, since
// most acts are read word for word.
#[inline(never)]
fn parse_other<A: Allocator + Copy>(
    alloc: A,
    patterns: Global,
    words: &[u8],
    text: &mut Vec<u8, A>,
) -> Result<Act<A>, LineFault>
    ensures found { IfOk result (SpellsAct words.now) }
    ensures only { IfOk result (λ found. (act : Act A) → SpellsAct words.now act → found ≡ act) }
    ensures expression { IfOk result HasExpression }
    ensures line { result ≡ Err LineFault.Line → (act : Act A) → SpellsAct words.now act → ⊥ }
    ensures pattern { result ≡ Err LineFault.Pattern → SpellsActButForPattern A words.now }
{
    let act = read_act(alloc, &mut Words::of(words))?;
    spell_read(alloc, text, &act)?;
    if text.as_slice() == words {
        build_act(patterns, act)
    } else {
        Err(LineFault::Line)
    }
}

// Puts the act that the words spell where it is to lie: a start, a death or a tick is read word for
// word, any other act is read by its parts, spelled again and compared (`parse_other`). On error
// nothing is said of what lies there.
fn parse_act_into<A: Allocator + Copy>(
    alloc: A,
    patterns: Global,
    words: &[u8],
    text: &mut Vec<u8, A>,
    act: &mut Act<A>,
) -> Result<(), LineFault>
    ensures found { OnOk result (SpellsAct words.now act.new) }
    ensures only { OnOk result ((other : Act A) → SpellsAct words.now other → act.new ≡ other) }
    ensures expression { OnOk result (HasExpression act.new) }
    ensures line { result ≡ Err LineFault.Line → (other : Act A) → SpellsAct words.now other → ⊥ }
    ensures pattern { result ≡ Err LineFault.Pattern → SpellsActButForPattern A words.now }
{
    if read_report(words, act) {
        return Ok(());
    }
    match parse_other(alloc, patterns, words, text) {
        Ok(found) => {
            *act = found;
            Ok(())
        }
        Err(fault) => Err(fault),
    }
}

// Takes a moment, of at most 10^15 milliseconds; None where the next word spells none.
fn take_moment(words: &mut Words<'_>) -> Option<At>
    ensures spelled { (n : ℕ) → n ≤ last_moment → slice_index_or words.old 0 [] ≡ decimal n
        → result ≡ Some n }
    ensures only { IfSome result (λ at. (at ≤ last_moment)
        × (words.old ≡ decimal at ∷ words.new)) }
{
    At::new(take_number(words, 1_000_000_000_000_000)?)
}

// Takes an actor, a number from 0 to 15; None where the next word spells none.
fn take_actor(words: &mut Words<'_>) -> Option<Actor>
    ensures spelled { (n : ℕ) → n ≤ 15 → slice_index_or words.old 0 [] ≡ decimal n
        → result ≡ Some n }
    ensures only { IfSome result (λ actor. (actor ≤ 15)
        × (words.old ≡ decimal actor ∷ words.new)) }
{
    Actor::new(take_number(words, 15)? as u8)
}

/// The input that a line spells: a moment, an actor, and an act. The line is given without its
/// newline, and may be of any length. A pattern takes its memory from `patterns`, and all else from
/// `alloc`. The pattern of an input is one that the grammar of `regex` reads; it is built only
/// where the line spells an input otherwise. `Line` where the line spells no input. `Pattern` where
/// it spells a subscription, but `regex` refuses its pattern, and not for want of memory.
/// `NoMemory` where memory is refused. On error nothing is kept.
pub fn parse_line<A: Allocator + Copy>(
    alloc: A,
    patterns: Global,
    line: &[u8],
) -> Result<Input<A>, LineFault>
    ensures found { IfOk result (Spells line.now) }
    ensures only { IfOk result (λ found. (i : Input A) → Spells line.now i → found ≡ i) }
    ensures expression { IfOk result (λ found. HasExpression found.act) }
    ensures line { result ≡ Err LineFault.Line → (i : Input A) → Spells line.now i → ⊥ }
    ensures pattern { result ≡ Err LineFault.Pattern → SpellsButForPattern A line.now }
{
    let mut text = Vec::new(alloc);
    // What the line spells takes the place of each of these.
    let mut input = Input {
        actor: Actor::default(),
        at: At::zero(),
        act: Act::Tick,
    };
    match parse_into(alloc, patterns, line, &mut text, &mut input) {
        Ok(()) => Ok(input),
        Err(fault) => Err(fault),
    }
}

/// `parse_line`, which puts the input where it is to lie, and with a text of the caller in which
/// the act may be spelled again, so that its memory is used again. What is in that text before and
/// after doesn't matter; on error nothing is said of what lies in `input`.
pub fn parse_into<A: Allocator + Copy>(
    alloc: A,
    patterns: Global,
    line: &[u8],
    text: &mut Vec<u8, A>,
    input: &mut Input<A>,
) -> Result<(), LineFault>
    ensures found { OnOk result (Spells line.now input.new) }
    ensures only { OnOk result ((i : Input A) → Spells line.now i → input.new ≡ i) }
    ensures expression { OnOk result (HasExpression input.new.act) }
    ensures line { result ≡ Err LineFault.Line → (i : Input A) → Spells line.now i → ⊥ }
    ensures pattern { result ≡ Err LineFault.Pattern → SpellsButForPattern A line.now }
{
    let mut words = Words::of(line);
    let Some(at) = take_moment(&mut words) else {
        return Err(LineFault::Line);
    };
    let Some(actor) = take_actor(&mut words) else {
        return Err(LineFault::Line);
    };
    input.actor = actor;
    input.at = at;
    match parse_act_into(alloc, patterns, words.rest(), text, &mut input.act) {
        Ok(()) => Ok(()),
        Err(fault) => Err(fault),
    }
}
