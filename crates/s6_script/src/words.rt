//! The words of a line, and reading single words. Some functions give any value for a word that
//! spells none: `parse.rt` spells what was read again, and refuses the line where that differs.
ghost use Rattle.std.specs.Prelude.{◌≡◌, ℕ, ◌≤◌, ◌<◌, ◌^◌, nat_lt, [], ◌∷◌, decimal, length, map, bytes_eq, drop, take, get_or, slice_index_or, true, false, Some, IfSome};
ghost use Rattle.std.specs.List.{join_with_byte, list_all};
ghost use Rattle.s6_events.specs.Name.{is_name};
ghost use Rattle.servicedir.specs.Number.{is_digit, with_digit, value_of_digits};
ghost use Rattle.s6_script.specs.Verb.{text_words};
ghost use Rattle.s6_script.specs.Words.{begins_with_zero, is_number_text};

use memchr::memchr;
use s6_events::Name;
use std::marker::Model;

// The words of a line that are left to read. A word is what is between two spaces, so there is a
// word of no byte between two spaces side by side, and a line of no byte is one such word.
#[derive(Drop)]
pub struct Words<'a> {
    rest: &'a [u8],
    // Whether a word is left. If none is, `rest` says nothing.
    more: bool,
}

impl<'a> Model for Words<'a> {
    ghost use Rattle.std.specs.Prelude.{List, ℕ};

    ghost Value = { List (List ℕ) };

    ghost use Rattle.s6_script.specs.Words.{words_left};

    ghost view = { words_left };
}

impl<'a> Words<'a> {
    // All words of a line. Even an empty line has one: a word of no byte.
    pub fn of(line: &'a [u8]) -> Words<'a>
        ensures { result ≡ text_words line.now }
    {
        Words {
            rest: line,
            more: true,
        }
    }

    // Whether a word is left.
    pub fn has_more(&self) -> bool
        ensures { result ≡ nat_lt 0 (length self.now) }
    {
        self.more
    }

    // Takes the next word, or no byte where none is left.
    pub fn take_next(&mut self) -> &'a [u8]
        ensures word { result.now ≡ slice_index_or self.old 0 [] }
        ensures rest { self.new ≡ drop 1 self.old }
    {
        if !self.more {
            return &[];
        }
        let line = self.rest;
        match memchr(b' ', line) {
            // No space is left: this is the last word.
            None => {
                self.more = false;
                line
            }
            Some(place) => {
                self.rest = &line[place + 1..];
                &line[..place]
            }
        }
    }

    // What is left of the line; nothing where no word is left.
    pub fn rest(&self) -> &'a [u8]
        ensures { result.now ≡ join_with_byte 32 self.now }
    {
        if self.more { self.rest } else { &[] }
    }
}

// The word at this place, or no byte where there is none.
pub fn word_at<'a>(words: &[&'a [u8]], place: usize) -> &'a [u8]
    ensures { result.now ≡ slice_index_or (map (λ w. w.now) words.now) place [] }
{
    match words.get(place) {
        Some(word) => word,
        None => &[],
    }
}

// The words from this place on.
pub fn words_from<'a, 'b>(words: &'b [&'a [u8]], place: usize) -> &'b [&'a [u8]]
    ensures { map (λ w. w.now) result.now ≡ drop place (map (λ w. w.now) words.now) }
{
    if place <= words.len() {
        &words[place..]
    } else {
        &[]
    }
}

// Reads a number that is at most `most`. A word that spells no such number is not refused here: it
// gives some number up to `most`, with which the line is refused later.
pub fn number(word: &[u8], most: u64) -> u64
    ensures spelled { (n : ℕ) → n ≤ most → word.now ≡ decimal n → result ≡ n }
    ensures fits { result ≤ most }
{
    let mut value = 0;
    for byte in word {
        value = with_digit(value, *byte);
    }
    value.min(most)
}

// The number with this digit added at its end. Some number, where the byte is no digit, or the
// number doesn't fit into 64 bits.
fn with_digit(value: u64, byte: u8) -> u64
    ensures { is_digit byte ≡ true → with_digit value byte < 2 ^ 64
        → result ≡ with_digit value byte }
{
    value
        .wrapping_mul(10)
        .wrapping_add(u64::from(byte.wrapping_sub(b'0')))
}

// The digits at the front of a text: how many, and the number that they write, if it is below 2^64.
fn digits_at_front(text: &[u8]) -> (usize, u64)
    ensures within { result.0 ≤ length text.now }
    ensures digits { list_all is_digit (take result.0 text.now) ≡ true }
    ensures end { result.0 < length text.now → is_digit (get_or text.now result.0 0) ≡ false }
    ensures value { value_of_digits (take result.0 text.now) < 2 ^ 64
        → result.1 ≡ value_of_digits (take result.0 text.now) }
{
    let mut value = 0;
    let mut count = 0;
    for byte in text {
        if !is_digit(*byte) {
            return (count, value);
        }
        value = with_digit(value, *byte);
        count += 1;
    }
    (count, value)
}

// Whether the byte is an ASCII digit.
fn is_digit(byte: u8) -> bool
    ensures { result ≡ is_digit byte }
{
    byte.is_ascii_digit()
}

// Whether a word begins with a zero.
fn begins_with_zero(word: &[u8]) -> bool
    ensures { result ≡ begins_with_zero word.now }
{
    match word {
        [b'0', ..] => true,
        _ => false,
    }
}

// Whether digits are the spelling of a number below 10^19: one digit, or more of which the first is
// no zero.
fn is_number_text(digits: &[u8]) -> bool
    ensures { result ≡ is_number_text digits.now }
{
    (1..=19).contains(&digits.len()) && (digits.len() == 1 || !begins_with_zero(digits))
}

// Takes the next word, where it spells a number of at most `most` that is below 10^19; None where
// it spells none.
pub fn take_number(words: &mut Words<'_>, most: u64) -> Option<u64>
    ensures spelled { (n : ℕ) → n ≤ most → n < 10 ^ 19 → slice_index_or words.old 0 [] ≡ decimal n
        → result ≡ Some n }
    ensures only { IfSome result (λ n. (n ≤ most) × (words.old ≡ decimal n ∷ words.new)) }
{
    if !words.more {
        return None;
    }
    let line = words.rest;
    let (count, value) = digits_at_front(line);
    if !is_number_text(&line[..count]) || value > most {
        return None;
    }
    match line.get(count) {
        // The line ends here, or a space follows; behind the digits of a number stands nothing
        // else.
        None => words.more = false,
        Some(b' ') => words.rest = &line[count + 1..],
        Some(_) => return None,
    }
    Some(value)
}

// Reads a number of 32 bits: of seconds, deaths or milliseconds. A word that spells none gives some
// number, with which the line is refused later.
pub fn count_of(word: &[u8]) -> u32
    ensures spelled { (n : ℕ) → n ≤ 4294967295 → word.now ≡ decimal n → result ≡ n }
    ensures fits { result ≤ 4294967295 }
{
    number(word, u64::from(u32::MAX)) as u32
}

// Whether the word is this text.
pub fn is_word(word: &[u8], text: &[u8]) -> bool
    ensures { result ≡ bytes_eq word.now text.now }
{
    word == text
}

// Reads a name; where the word is none, some name, with which the line is refused later
// (`parse.rt`).
pub fn name_of(word: &[u8]) -> Name
    ensures spelled { is_name word.now ≡ true → result ≡ word.now }
    ensures fits { is_name result ≡ true }
{
    Name::new(word).unwrap_or_default()
}
