//! A pattern, built from its text.
ghost use Rattle.std.specs.Prelude.{◌≡◌, IfOk, IsErrOf, OnOk, ◌↔◌, true, false, IsTrue, nat_le, ◌<◌, ◌≤◌, ◌&&◌, length, take};
ghost use Rattle.std.specs.List.{list_all};
ghost use Rattle.event_directory.specs.Pattern.{is_pattern_text, is_expression, finds, pattern_fault};

use crate::finds::Finds;
use crate::pattern_fault::PatternFault;
use s6_events::{Letter, NoMemory};
use std::alloc::Global;
use std::marker::Model;
use text_matcher::{BuildFault, Limits, TextMatcher};

// The most letters of one text that are searched.
pub(crate) const TEXT_LIMIT: usize = 1024;

/// How large the automaton of a pattern may be. A letter costs as much at most as with a pattern of
/// 256 letters, which costs 261. So a letter at which 256 subscriptions look is heard soon,
/// whatever their patterns, and these take little memory.
pub const PATTERN_LIMITS: Limits = Limits {
    bytes: 16_384,
    letter_cost: 261,
};

/// A regular expression of the crate `regex`, built from a text of 1 to 256 bytes 0x20 to 0x7e,
/// with all that a search for it needs. A clause sees it as its text. Page `s6-ftrig-listen1`; s6
/// takes POSIX expressions.
#[derive(Drop)]
pub struct Pattern {
    // In a box, since a matcher is large, and acts that may hold a pattern are moved about.
    matcher: Box<TextMatcher, Global>,
}

impl Model for Pattern {
    ghost use Rattle.std.specs.Prelude.{List, ℕ, IsTrue};
    ghost use Rattle.event_directory.specs.Pattern.{is_pattern_text};

    ghost Value = { List ℕ };

    ghost view = { λ p. p.matcher.value.source };

    ghost invariant = { λ p. IsTrue (is_pattern_text p.matcher.value.source) };
}

impl Pattern {
    /// The pattern of this text. Length, which is looked for first: the text is not 1 to 256 bytes
    /// from 0x20 to 0x7e. Refused: `regex` refuses the text, or its automaton is larger than
    /// `PATTERN_LIMITS` allow. NoMemory: memory is refused. The matcher that is built searches
    /// texts of at most 1,024 letters (`TEXT_LIMIT`).
    pub fn build(alloc: Global, text: &str) -> Result<Pattern, PatternFault>
        ensures ok { IfOk result (λ p. p ≡ text.now) }
        ensures expression { IfOk result (λ _. is_expression text.now ≡ true) }
        ensures length { IsErrOf result PatternFault.Length ↔ (is_pattern_text text.now ≡ false) }
    {
        if !is_pattern_text(text) {
            return Err(PatternFault::Length);
        }
        let matcher = match TextMatcher::build(alloc, text, PATTERN_LIMITS, TEXT_LIMIT) {
            Ok(matcher) => matcher,
            Err(fault) => return Err(fault_of(fault)),
        };
        match Box::new(alloc, matcher) {
            Ok(matcher) => Ok(Pattern { matcher }),
            Err(_) => Err(PatternFault::NoMemory),
        }
    }

    /// The text that it was built from.
    pub fn text(&self) -> &str
        ensures text { result.now ≡ self.now }
        ensures kind { IsTrue (is_pattern_text result.now) }
    {
        self.matcher.source()
    }
}

impl Finds for Pattern {
    ghost source = { λ p. p };

    ghost test = { finds };

    // The matcher takes in (hears) these letters, and tells whether there is a match in them.
    fn finds(&mut self, letters: &[Letter]) -> Result<bool, NoMemory> {
        hear_all(&mut self.matcher, letters)?;
        Ok(self.matcher.has_match())
    }
}

// The fault of a pattern whose matcher was not built.
fn fault_of(fault: BuildFault) -> PatternFault
    ensures { result ≡ pattern_fault fault }
{
    match fault {
        BuildFault::NoMemory => PatternFault::NoMemory,
        BuildFault::Refused => PatternFault::Refused,
    }
}

// The matcher takes in (hears) these letters and no others, one by one. Where they are those that
// it heard and some more, it hears only these more: a text mostly grows by a letter. Else it starts
// again.
fn hear_all(matcher: &mut TextMatcher, letters: &[Letter]) -> Result<(), NoMemory>
    ensures heard { OnOk result (matcher.new.heard ≡ letters.now) }
    ensures source { matcher.new.source ≡ matcher.old.source }
{
    if !begin_with(letters, matcher.heard()) {
        matcher.restart();
    }
    let start = matcher.heard().len();
    for letter in &letters[start..] {
        matcher.hear(byte_of(*letter))?;
    }
    Ok(())
}

// Whether these letters begin with those that were heard.
fn begin_with(letters: &[Letter], heard: &[u8]) -> bool
    ensures within { result ≡ true → length heard.now ≤ length letters.now }
    ensures same { result ≡ true → take (length heard.now) letters.now ≡ heard.now }
    ensures all { length heard.now ≤ length letters.now
        → take (length heard.now) letters.now ≡ heard.now
        → result ≡ true }
{
    if heard.len() > letters.len() {
        return false;
    }
    for place in 0..heard.len() {
        if byte_of(letters[place]) != heard[place] {
            return false;
        }
    }
    true
}

// The byte of a letter.
fn byte_of(letter: Letter) -> u8
    ensures value { result ≡ letter }
    ensures ascii { result < 128 }
{
    letter.byte()
}

// Whether this may be the text of a pattern: 1 to 256 bytes, each 0x20 to 0x7e.
#[tactic(auto, unfolding(crate::specs::Pattern::is_pattern_text))]
fn is_pattern_text(text: &str) -> bool
    ensures { result ≡ is_pattern_text text.now }
{
    if text.is_empty() || text.len() > 256 {
        return false;
    }
    are_printable(text.as_bytes())
}

// Whether each of these bytes is printable ASCII: 0x20, the space, to 0x7e.
fn are_printable(text: &[u8]) -> bool
    ensures { result ≡ list_all (λ b. nat_le 0x20 b && nat_le b 0x7E) text.now }
{
    text.iter().all(|b| 0x20 <= *b && *b <= 0x7e)
}
