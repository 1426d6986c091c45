//! Finds the wrong word of a command line. A clue says where to look: at a place (`At`), at a place
//! if the word there is of a kind (`AtIf`), or for the first, second or only word of a kind
//! (`Wrong`; `Plain` is no option). Places are counted from 0, behind the socket's path. Two clues
//! are tried, one after the other.
ghost use Rattle.std.specs.Prelude.{◌≡◌, ◌<◌, ◌≤◌, IfSome, codes, length, map, option_map, position, slice_get};
ghost use Rattle.std.specs.List.{find};
ghost use Rattle.std.specs.Str.{bytes_eq};
ghost use Rattle.tool_lines.specs.Culprits.{behind, before_dashes, own_words, seen_by, seen_by_either, culprit_of, subject_of, program_of};
ghost use Rattle.tool_lines.specs.Clues.{strange_of, spare_of, excess_of, number_clues, list_clues, name_clues, clues_of, subject_clues};
ghost use Rattle.tool_lines.specs.WrongWords.{is_wrong};

use crate::misuse::Misuse;
use crate::tool::Tool;
use crate::wrong_word::{Wrong, is_wrong};

/// Where to look for a word of a command line. Places are counted from 0, behind the socket's path.
#[derive(Clone, Copy, Debug, PartialEq, Eq)]
enum Clue {
    /// Nowhere: no word is wrong, or it isn't known which.
    Nowhere,
    /// The word at this place.
    At(usize),
    /// The word at this place, if it is of this kind.
    AtIf(usize, Wrong),
    /// The word behind the first one of this kind.
    Behind(Wrong),
    /// The first word of this kind.
    First(Wrong),
    /// The second word of this kind.
    Second(Wrong),
    /// The only word of this kind; no word where there are more.
    Only(Wrong),
}

// The word at a place.
fn word_at<'a>(words: &'a [&'a str], place: usize) -> Option<&'a str>
    ensures { option_map (λ w. w.now) result ≡ slice_get (map (λ w. w.now) words.entry.now) place }
{
    words.get(place).copied()
}

// The first word of this kind.
fn first_wrong<'a>(words: &'a [&'a str], wrong: Wrong) -> Option<&'a str>
    ensures { option_map (λ w. w.now) result
        ≡ find (is_wrong wrong) (map (λ w. w.now) words.entry.now) }
{
    words
        .iter()
        .copied()
        .find(|word| is_wrong(wrong, word.as_bytes()))
}

// The place of the first word of this kind, counted from 0.
fn place_of(words: &[&str], wrong: Wrong) -> Option<usize>
    ensures place { result ≡ position (λ w. is_wrong wrong w.now) words.now }
    ensures bound { IfSome result (λ place. place < length words.now) }
{
    words
        .iter()
        .position(|word| is_wrong(wrong, word.as_bytes()))
}

// The words behind the first one of this kind; no words where there is no such word.
fn words_behind<'a>(words: &'a [&'a str], wrong: Wrong) -> &'a [&'a str]
    ensures { map (λ w. w.now) result.now ≡ behind wrong (map (λ w. w.now) words.entry.now) }
{
    match place_of(words, wrong) {
        Some(place) => &words[place + 1..],
        None => &[],
    }
}

// The word at a place, if it is of this kind.
fn word_at_if<'a>(words: &'a [&'a str], place: usize, wrong: Wrong) -> Option<&'a str>
    ensures { option_map (λ w. w.now) result
        ≡ seen_by (Clue.AtIf place wrong) (map (λ w. w.now) words.entry.now) }
{
    let word = word_at(words, place)?;
    if is_wrong(wrong, word.as_bytes()) {
        Some(word)
    } else {
        None
    }
}

// The only word of this kind; None where there is no such word, or more than one.
fn only_wrong<'a>(words: &'a [&'a str], wrong: Wrong) -> Option<&'a str>
    ensures { option_map (λ w. w.now) result
        ≡ seen_by (Clue.Only wrong) (map (λ w. w.now) words.entry.now) }
{
    match first_wrong(words_behind(words, wrong), wrong) {
        Some(_) => None,
        None => first_wrong(words, wrong),
    }
}

// The word that a clue leads to: at a place, of a kind, or behind the first of a kind. Behind that
// one the second of its kind is looked for too.
fn seen_by<'a>(clue: Clue, words: &'a [&'a str]) -> Option<&'a str>
    ensures { option_map (λ w. w.now) result ≡ seen_by clue (map (λ w. w.now) words.entry.now) }
{
    match clue {
        Clue::Nowhere => None,
        Clue::At(place) => word_at(words, place),
        Clue::AtIf(place, wrong) => word_at_if(words, place, wrong),
        Clue::Behind(wrong) => word_at(words_behind(words, wrong), 0),
        Clue::First(wrong) => first_wrong(words, wrong),
        Clue::Second(wrong) => first_wrong(words_behind(words, wrong), wrong),
        Clue::Only(wrong) => only_wrong(words, wrong),
    }
}

// The kind of the wrong word where a tool doesn't have an option, or a letter behind a dash.
fn strange_of(tool: Tool) -> Wrong
    ensures { result ≡ strange_of tool }
{
    match tool {
        Tool::List | Tool::Follow => Wrong::StrangeOption,
        _ => Wrong::Strange(tool),
    }
}

// Where to look for another word that the tool doesn't take, if no option is the wrong one: a dash
// alone, or a word behind those that it takes, which are at most three for `svstat` and four for
// `permafailon`.
fn spare_of(tool: Tool) -> Clue
    ensures { result ≡ spare_of tool }
{
    match tool {
        Tool::Svc | Tool::Svscanctl => Clue::First(Wrong::Dash),
        Tool::Svstat => Clue::At(3),
        Tool::Permafailon => Clue::At(4),
        _ => Clue::Nowhere,
    }
}

// Where to look on the tool's command line for the first word that is one too many, as a second
// name behind `svc`, and where else. `svwait` and `svlisten` may have many names, but only one
// condition, as `-u`, and one mode, as `-a`; behind `record` no word is taken, behind `mkfifodir`
// one, and behind the others two.
fn excess_of(tool: Tool) -> (Clue, Clue)
    ensures { result ≡ excess_of tool }
{
    match tool {
        Tool::Svc => (Clue::Second(Wrong::Plain), Clue::Nowhere),
        Tool::Svscanctl => (Clue::First(Wrong::Plain), Clue::Nowhere),
        Tool::Svwait | Tool::Svlisten => {
            (Clue::Second(Wrong::Condition), Clue::Second(Wrong::Mode))
        }
        Tool::Record => (Clue::At(0), Clue::Nowhere),
        Tool::Mkfifodir => (Clue::At(1), Clue::Nowhere),
        _ => (Clue::At(2), Clue::Nowhere),
    }
}

// Where to look for the word that should be a number and is none, and where else: for `permafailon`
// SECS or else COUNT, for the others the value of `-t`, in one word with it (`Valued`) or in the
// next, behind a word that ends with this letter (`Ended`).
fn number_clues(tool: Tool) -> (Clue, Clue)
    ensures { result ≡ number_clues tool }
{
    match tool {
        Tool::Permafailon => (Clue::AtIf(1, Wrong::NoNumber), Clue::At(2)),
        _ => (
            Clue::First(Wrong::Valued(b't')),
            Clue::Behind(Wrong::Ended(b't')),
        ),
    }
}

// Where to look for the word that should be a list and is none, and where else: for `permafailon`
// LIST, for `svstat` the value of `-o`, in one word with it (`Valued`) or in the next, behind a
// word that ends with this letter (`Ended`).
fn list_clues(tool: Tool) -> (Clue, Clue)
    ensures { result ≡ list_clues tool }
{
    match tool {
        Tool::Permafailon => (Clue::At(3), Clue::Nowhere),
        _ => (
            Clue::First(Wrong::Valued(b'o')),
            Clue::Behind(Wrong::Ended(b'o')),
        ),
    }
}

// Where to look on the tool's command line for the word that should name a service or an event
// directory and doesn't; there is no second place.
fn name_clues(tool: Tool) -> (Clue, Clue)
    ensures { result ≡ name_clues tool }
{
    match tool {
        Tool::Svstat => (Clue::First(Wrong::NoSingleName), Clue::Nowhere),
        Tool::Permafailon | Tool::Mkfifodir | Tool::FtrigNotify | Tool::FtrigWait => {
            (Clue::At(0), Clue::Nowhere)
        }
        _ => (Clue::First(Wrong::NoName), Clue::Nowhere),
    }
}

// Where to look for the wrong word, and where else, by what is wrong with the words (`misuse`). A
// missing word can't be found.
fn clues_of(tool: Tool, misuse: Misuse) -> (Clue, Clue)
    ensures { result ≡ clues_of tool misuse }
{
    match misuse {
        Misuse::Missing | Misuse::Empty => (Clue::Nowhere, Clue::Nowhere),
        Misuse::Unknown => (Clue::First(strange_of(tool)), spare_of(tool)),
        Misuse::TooMany => excess_of(tool),
        Misuse::BadNumber => number_clues(tool),
        Misuse::BadList => list_clues(tool),
        Misuse::BadName => name_clues(tool),
        Misuse::BadMessage | Misuse::BadPattern => (Clue::At(1), Clue::Nowhere),
    }
}

// The place of the first `--`, behind which the program of `svlisten` stands; None where no word is
// `--`.
fn dashes_in(words: &[&str]) -> Option<usize>
    ensures place { result ≡ position (λ w. bytes_eq w.now (codes "--")) words.now }
    ensures bound { IfSome result (λ place. place < length words.now) }
{
    words.iter().position(|word| *word == "--")
}

// The words before the first `--`.
fn before_dashes<'a>(words: &'a [&'a str]) -> &'a [&'a str]
    ensures { map (λ w. w.now) result.now ≡ before_dashes (map (λ w. w.now) words.entry.now) }
{
    match dashes_in(words) {
        Some(place) => &words[..place],
        None => words,
    }
}

// The words of the tool itself: for `svlisten` those before the first `--`, else all.
fn own_words<'a>(tool: Tool, words: &'a [&'a str]) -> &'a [&'a str]
    ensures { map (λ w. w.now) result.now ≡ own_words tool (map (λ w. w.now) words.entry.now) }
{
    match tool {
        Tool::Svlisten => before_dashes(words),
        _ => words,
    }
}

// The word to which the first clue leads, or else the second one.
fn seen_by_either<'a>(clues: (Clue, Clue), words: &'a [&'a str]) -> Option<&'a str>
    ensures { option_map (λ w. w.now) result
        ≡ seen_by_either clues (map (λ w. w.now) words.entry.now) }
{
    match seen_by(clues.0, words) {
        Some(word) => Some(word),
        None => seen_by(clues.1, words),
    }
}

/// The wrong word, where it is known which.
pub fn culprit_of<'a>(tool: Tool, misuse: Misuse, words: &'a [&'a str]) -> Option<&'a str>
    ensures { option_map (λ w. w.now) result
        ≡ culprit_of tool misuse (map (λ w. w.now) words.entry.now) }
{
    seen_by_either(clues_of(tool, misuse), own_words(tool, words))
}

// Where to look on a tool's command line for the word that names the service or the event directory
// that it asks about, and where else. A tool that may have several names has such a word only where
// just one is given.
fn subject_clues(tool: Tool) -> (Clue, Clue)
    ensures { result ≡ subject_clues tool }
{
    match tool {
        Tool::Svc => (Clue::First(Wrong::Plain), Clue::Nowhere),
        // The name stands first, or behind `-o` and its list of fields.
        Tool::Svstat => (Clue::AtIf(0, Wrong::Plain), Clue::AtIf(2, Wrong::Plain)),
        Tool::Svscanctl | Tool::Record => (Clue::Nowhere, Clue::Nowhere),
        // One plain word may be the number of milliseconds behind `-t`.
        Tool::Svwait | Tool::Svlisten => (
            Clue::Only(Wrong::Plain),
            Clue::Only(Wrong::PlainNoNumber),
        ),
        Tool::List | Tool::Follow => (Clue::Only(Wrong::Plain), Clue::Nowhere),
        _ => (Clue::At(0), Clue::Nowhere),
    }
}

/// The word that names what a tool asks about, where it is known which.
pub fn subject_of<'a>(tool: Tool, words: &'a [&'a str]) -> Option<&'a str>
    ensures { option_map (λ w. w.now) result ≡ subject_of tool (map (λ w. w.now) words.entry.now) }
{
    seen_by_either(subject_clues(tool), own_words(tool, words))
}

/// The program of `svlisten`: the word behind the first `--`.
pub fn program_of<'a>(words: &'a [&'a str]) -> Option<&'a str>
    ensures { option_map (λ w. w.now) result ≡ program_of (map (λ w. w.now) words.entry.now) }
{
    seen_by(Clue::Behind(Wrong::Dashes), words)
}
