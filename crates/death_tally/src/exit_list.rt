//! Lists of exits, as `s6-permafailon` takes them.
ghost use Rattle.std.specs.Prelude.{◌≡◌, ◌==◌, ◌<◌, length, map, position, IfSome, IfOk};
ghost use Rattle.std.specs.List.{slice_split};
ghost use Rattle.servicedir.specs.Number.{number_up_to};
ghost use Rattle.servicedir.specs.SignalName.{signal_of_word};
ghost use Rattle.death_tally.specs.DeathList.{item_names, list_names, spelled_exit, spelled_range, spelled_item, list_of, death_list};

use arrayvec::ArrayVec;
use s6_events::{Exit, NoMemory};
use servicedir::{parse_digits, signal_named};
use std::alloc::{AllocError, Allocator};
use std::marker::Model;

/// An item of a list of exits. Page `s6-permafailon`.
#[derive(Clone, Copy, Debug, PartialEq, Eq)]
pub enum DeathItem {
    /// An exit code, as `7`.
    Code(u8),
    /// All exit codes from one to another, as `1-2`.
    Range(u8, u8),
    /// A signal, as `SIGTERM` or `TERM`.
    Signal(u8),
}

/// What fills the unused places of a list of fixed size.
impl Default for DeathItem {
    // What fills the unused places of a list of fixed size: nobody reads it.
    fn default() -> DeathItem {
        DeathItem::Code(0)
    }
}

/// A list of exits: 1 to 32 items. Page `s6-permafailon`; the limit is chosen here.
#[derive(Clone, Debug, Drop)]
pub struct DeathList {
    items: ArrayVec<DeathItem, 32>,
}

impl Model for DeathList {
    ghost use Rattle.std.specs.Prelude.{List};
    ghost use Rattle.death_tally.specs.declared.exit_list.DeathItem.{DeathItem};

    ghost Value = { List DeathItem };

    ghost view = { λ l. l.items.items };
}

// Whether an item names the exit: a code or a range names programs that ended by themselves with
// such a code, a signal those that it killed.
fn names_exit(item: &DeathItem, exit: Exit) -> bool
    ensures { result ≡ item_names item.now exit }
{
    match (*item, exit) {
        (DeathItem::Code(code), Exit::Code(c)) => code == c,
        (DeathItem::Range(low, high), Exit::Code(c)) => low <= c && c <= high,
        (DeathItem::Signal(number), Exit::Killed(k)) => number == k,
        _ => false,
    }
}

// A number of a list: one digit or more, at most 255.
fn code_of(word: &[u8]) -> Option<u8>
    ensures { result ≡ number_up_to 255 word.now }
{
    let code = parse_digits(word, 255)?;
    Some(code as u8)
}

// The item that a word with no dash spells: an exit code or a signal; None where it spells neither.
fn code_or_signal(word: &[u8]) -> Option<DeathItem>
    ensures { result ≡ spelled_exit (number_up_to 255 word.now) (signal_of_word word.now) }
{
    match code_of(word) {
        Some(code) => Some(DeathItem::Code(code)),
        None => Some(DeathItem::Signal(signal_named(word)?)),
    }
}

// The range that two words with a dash between them spell; None where one is no exit code, or the
// first is above the second.
fn range_of(low: &[u8], high: &[u8]) -> Option<DeathItem>
    ensures { result ≡ spelled_range (number_up_to 255 low.now) (number_up_to 255 high.now) }
{
    let low = code_of(low)?;
    let high = code_of(high)?;
    if low <= high {
        Some(DeathItem::Range(low, high))
    } else {
        None
    }
}

// The place of the first dash of a word.
fn dash_in(word: &[u8]) -> Option<usize>
    ensures place { result ≡ position (λ b. b == 45) word.now }
    ensures bound { IfSome result (λ place. place < length word.now) }
{
    word.iter().position(|byte| *byte == b'-')
}

// The item that a word spells: a range where it has a dash, as `1-2`, else an exit code or a
// signal. None where it spells none of these.
fn item_of(word: &[u8]) -> Option<DeathItem>
    ensures { result ≡ spelled_item word.now }
{
    match dash_in(word) {
        None => code_or_signal(word),
        Some(place) => range_of(&word[..place], &word[place + 1..]),
    }
}

// The words of a text, between its commas.
fn words_of<A: Allocator + Copy>(alloc: A, text: &[u8]) -> Result<Vec<&[u8], A>, AllocError>
    ensures { IfOk result (λ words. map (λ w. w.now) words.items
        ≡ slice_split (λ b. b == 44) text.now) }
{
    text.split(|byte| *byte == b',').collect(alloc)
}

// The list that these words spell, an item each; None where one spells no item, or there are more
// words than the 32 items that a list may have.
fn list_in(words: &[&[u8]]) -> Option<DeathList>
    ensures { result ≡ list_of (map (λ w. w.now) words.now) }
{
    if words.len() > 32 {
        return None;
    }
    let mut items = ArrayVec::new();
    for word in words {
        items.push(item_of(word)?);
    }
    Some(DeathList { items })
}

impl DeathList {
    /// The list that a text spells: 1 to 32 items, with one comma between two. An item is a number
    /// from 0 to 255, as `7`; two such numbers with a dash between them, the second not below the
    /// first, as `1-2`; or the name of a signal in capitals, as `SIGTERM` or `TERM`. None for any
    /// other text. `NoMemory` where memory is refused.
    pub fn parse<A: Allocator + Copy>(alloc: A, text: &[u8]) -> Result<Option<DeathList>, NoMemory>
        ensures { IfOk result (λ list. list ≡ death_list text.now) }
    {
        let words = words_of(alloc, text)?;
        Ok(list_in(words.as_slice()))
    }

    /// Its items, in the order in which they were written.
    pub fn items(&self) -> &[DeathItem]
        ensures { result.now ≡ self.now }
    {
        self.items.as_slice()
    }

    /// Whether the list names the exit.
    pub fn names(&self, exit: Exit) -> bool
        ensures { result ≡ list_names self.now exit }
    {
        self.items
            .as_slice()
            .iter()
            .any(|item| names_exit(item, exit))
    }
}
