//! A matcher: an expression, its automaton, and a text that it takes in (hears) letter by letter.
ghost use Rattle.std.specs.Prelude.{◌≡◌, ◌++◌, ◌∷◌, ◌<◌, [], All, IfOk, OnOk, OnErr, true};
ghost use Rattle.text_matcher.specs.Expression.{is_expression, has_match};
ghost use Rattle.text_matcher.specs.Matching.{Matches};

use crate::build_fault::BuildFault;
use crate::state_list::StateList;
use crate::walk::{has_assertion, read_over, stand_beside, stand_once};
use regex_compile::compile;
use regex_nfa::{Nfa, State};
use regex_syntax::{Config, Parsed, parse};
use std::alloc::{AllocError, Global};
use std::marker::Model;
use std::mem;

// What a letter costs at a state that leads on in two ways, where a state that reads a single range
// of bytes costs 1. Counted in instructions, a letter takes 46 at a state that reads one range, 10
// more for each further range, 45 at a choice and 37 at a group's end. Where the automaton has an
// assertion these are 60, 10, 112 and 63, and an assertion takes 201.
const CHOICE_COST: usize = 2;

// What a letter costs at an assertion.
const ASSERTION_COST: usize = 5;

// How often a letter goes over each state of an automaton with an assertion: `has_match` can't add
// its states to `behind` then.
const WALKS_WITH_ASSERTIONS: usize = 2;

// For so many further ranges of bytes a state that reads several costs 1 more.
const RANGES_FOR_ONE: usize = 5;

/// How large the automaton of an expression may be.
#[derive(Clone, Copy, Debug, PartialEq, Eq)]
pub struct Limits {
    /// The most bytes of its tables, which the compiler may exceed by 24.
    pub bytes: usize,
    /// The most that a letter below 128 may cost: one for each state in which a search of such
    /// letters may stand, but two for a choice of two ways, five for an assertion, and for a set of
    /// bytes one more for each five of its ranges. All of it counts twice where there is an
    /// assertion. The other states are never reached, however many there are.
    pub letter_cost: usize,
}

/// A regular expression of the crate `regex`, and a text of letters that it hears one by one, with
/// all that a search of that text needs. A search comes behind a letter in the states to which that
/// letter leads; it stands there in these, and in all to which edges that read no byte lead from
/// them. A letter costs a look at each state of the automaton in which a search stands, however
/// long the text is.
///
/// A clause sees it as the text of the expression, and the letters that it heard.
pub struct TextMatcher {
    source: String,
    nfa: Nfa,
    heard: Vec<u8>,
    // The states in which a search comes behind the last letter; where `is_standing`, all those in
    // which it stands there.
    behind: StateList,
    // Whether `behind` has all states in which a search stands, whatever comes: only without
    // assertions, after `has_match`.
    is_standing: bool,
    // Whether a match ended before the last letter; where `is_standing`, whether one ended before
    // or behind it.
    has_matched: bool,
    // A second list, whose states are of use within one call only. In `hear` it is for the states
    // to which the letter leads. In `has_match`, for an automaton with assertions, `stand_beside`
    // gathers in it the other states in which a search stands at the end: those to which edges lead
    // that read no byte, some of which may be in `behind` too.
    spare: StateList,
    // Whether the automaton has an assertion, which may look at the next letter.
    has_assertions: bool,
}

// Written out, so that its holder drops it by one call.
impl Drop for TextMatcher {
    fn drop(self) {
        let TextMatcher {
            source: _source,
            nfa: _nfa,
            heard: _heard,
            behind: _behind,
            is_standing: _,
            has_matched: _has_matched,
            spare: _spare,
            has_assertions: _,
        } = self;
    }
}

impl Model for TextMatcher {
    ghost use Rattle.text_matcher.specs.MatcherFields.{MatcherView, matcher_view, IsBuilt};

    ghost Value = { MatcherView };

    ghost view = { matcher_view };

    ghost invariant = { IsBuilt };
}

impl TextMatcher {
    /// The matcher of this text, with the default options of `regex`; it has room for so many
    /// letters. Refused: the text is no expression, nests too deep, or its automaton is larger than
    /// the limits say. NoMemory: memory was refused.
    pub fn build(
        alloc: Global,
        text: &str,
        limits: Limits,
        letters: usize,
    ) -> Result<TextMatcher, BuildFault>
        ensures text { IfOk result (λ m. m ≡ record { source = text.now; heard = [] }) }
        ensures expression { IfOk result (λ _. is_expression text.now ≡ true) }
    {
        let nfa = automaton_of(alloc, text, limits.bytes)?;
        let has_assertions = has_assertion(&nfa);
        // What one letter costs grows with the states in which a search may stand.
        if letter_cost(&nfa, has_assertions) > limits.letter_cost {
            return Err(BuildFault::Refused);
        }
        // Each list has room for all states, and `heard` for all letters, so that no letter takes
        // memory later.
        let states = nfa.states.len();
        let mut behind = StateList::new(alloc, states)?;
        // Where a search begins that may skip letters before a match.
        behind.add(nfa.unanchored);
        // A second list, whose states are of use within one call only.
        let spare = StateList::new(alloc, states)?;
        let heard = Vec::with_capacity(alloc, letters)?;
        let source = String::from_str(alloc, text)?;
        Ok(TextMatcher {
            source,
            nfa,
            heard,
            behind,
            // So far `behind` has only the state where a search begins: those beside it are added
            // before the first letter, or by `has_match`.
            is_standing: false,
            has_matched: false,
            spare,
            has_assertions,
        })
    }

    /// The text that it was built from.
    pub fn source(&self) -> &str
        ensures text { result.now ≡ self.now.source }
    {
        self.source.as_str()
    }

    /// The letters that it heard.
    pub fn heard(&self) -> &[u8]
        ensures { result.now ≡ self.now.heard }
    {
        &self.heard
    }

    /// Forgets the letters that it heard: a search begins anew.
    pub fn restart(&mut self)
        ensures { self.new ≡ record self.old { heard = [] } }
    {
        self.heard.clear();
        self.behind.clear();
        // A search of the empty text is in the state in which each search begins.
        self.behind.add(self.nfa.unanchored);
        // The states beside that one are not added yet, and no match is found yet.
        self.is_standing = false;
        self.has_matched = false;
    }

    /// Hears one letter more. An error where memory is refused, which is never while there is room:
    /// it heard nothing then.
    pub fn hear(&mut self, letter: u8) -> Result<(), AllocError>
        requires { letter < 128 }
        ensures ok { OnOk result (self.new ≡ record self.old {
          heard = self.old.heard ++ letter ∷ [];
        }) }
        ensures err { OnErr result (self.new ≡ self.old) }
    {
        let place = self.heard.len();
        self.heard.push(letter)?;
        // First the place before this letter: its assertions may look at the letter, which is why
        // it was pushed before.
        self.has_matched = stand_once(
            &self.nfa,
            &self.heard,
            place,
            &mut self.behind,
            self.is_standing,
            self.has_matched,
        );
        // The states to which the letter leads are gathered in `spare`, and become those behind it.
        read_over(&self.nfa, letter, &self.behind, &mut self.spare);
        mem::swap(&mut self.behind, &mut self.spare);
        self.is_standing = false;
        Ok(())
    }

    /// Whether there is a match somewhere in the letters that it heard. Each of them is below 128.
    pub fn has_match(&mut self) -> bool
        ensures found { result ≡ has_match self.old.source self.old.heard }
        ensures ascii { All (λ b. b < 128) self.old.heard }
        ensures same { self.new ≡ self.old }
    {
        let end = self.heard.len();
        if self.has_assertions {
            // `behind` and `has_matched` stay as they are, since an assertion may hold here only
            // until the next letter comes.
            return stand_beside(
                &self.nfa,
                &self.heard,
                end,
                &self.behind,
                &mut self.spare,
                self.has_matched,
            );
        }
        self.has_matched = stand_once(
            &self.nfa,
            &self.heard,
            end,
            &mut self.behind,
            self.is_standing,
            self.has_matched,
        );
        // `stand_once` added to `behind` all other states in which the search stands here: the next
        // call needn't.
        self.is_standing = true;
        self.has_matched
    }
}

// How much a letter below 128 costs at most, as `Limits` says. It has no clause: a limit of another
// size would only refuse other patterns.
fn letter_cost(nfa: &Nfa, has_assertions: bool) -> usize {
    let mut cost: usize = 0;
    for state in &nfa.states {
        cost = cost.saturating_add(state_cost(nfa, *state));
    }
    if has_assertions {
        cost.saturating_mul(WALKS_WITH_ASSERTIONS)
    } else {
        cost
    }
}

// How much a state costs where a search of letters below 128 stands in it.
fn state_cost(nfa: &Nfa, state: State) -> usize {
    match state {
        // It reads one range of bytes: none that counts where that begins at 128 or above.
        State::ByteRange(transition) => reading_cost(usize::from(transition.start < 128)),
        State::Sparse { from, to } => reading_cost(letter_ranges(nfa, from, to)),
        State::Split { .. } => CHOICE_COST,
        State::Look { .. } => ASSERTION_COST,
        State::Save { .. } | State::Match | State::Fail => 1,
    }
}

// How much a state costs that reads so many ranges of bytes below 128: nothing where it reads none,
// since such a search never stands in it.
fn reading_cost(ranges: usize) -> usize {
    match ranges.checked_sub(1) {
        None => 0,
        Some(more) => more.div_ceil(RANGES_FOR_ONE).saturating_add(1),
    }
}

// How many of these transitions, which ascend, begin below 128.
fn letter_ranges(nfa: &Nfa, from: u32, to: u32) -> usize {
    let mut count: usize = 0;
    for place in from..to {
        match nfa.transitions.get(place as usize) {
            Some(transition) if transition.start < 128 => count = count.saturating_add(1),
            _ => break,
        }
    }
    count
}

// The automaton of the expression in this text.
fn automaton_of(alloc: Global, text: &str, size_limit: usize) -> Result<Nfa, BuildFault>
    ensures matches { IfOk result (λ nfa. Matches nfa text.now) }
    ensures expression { IfOk result (λ _. is_expression text.now ≡ true) }
{
    let Parsed { hir, names } = match parse(alloc, text, &Config::default()) {
        Ok(parsed) => parsed,
        Err(error) => return Err(BuildFault::of_parser(error.kind)),
    };
    // The parser gives a name, perhaps none, for each group; the compiler takes their number in 32
    // bits.
    let Ok(groups) = u32::try_from(names.len()) else {
        return Err(BuildFault::Refused);
    };
    match compile(alloc, &hir, groups, size_limit) {
        Ok(nfa) => Ok(nfa),
        Err(error) => Err(BuildFault::of_compiler(error)),
    }
}
