//! The kinds of words by which the wrong word of a command line is found, to be told to people.
ghost use Rattle.std.specs.Prelude.{◌≡◌, ◌==◌};
ghost use Rattle.std.specs.List.{list_any};
ghost use Rattle.tool_lines.specs.WrongWords.{letters_of, valued_of, is_dashed, has_strange_letter, is_strange, is_list_option, is_no_name, is_condition, is_mode, is_ended, is_valued, is_wrong};

use crate::tool::Tool;
use crate::words::is_word;
use s6_events::Name;
use servicedir::parse_number;

/// A kind of word, by which the wrong word of a command line is looked for.
#[derive(Clone, Copy, Debug, PartialEq, Eq)]
pub enum Wrong {
    /// A dash and letters, one of which the tool doesn't have.
    Strange(Tool),
    /// A dash alone.
    Dash,
    /// Two dashes alone.
    Dashes,
    /// An option that `list` and `follow` don't have.
    StrangeOption,
    /// A word that is no option.
    Plain,
    /// A word that is neither an option nor a number.
    PlainNoNumber,
    /// A word that is neither an option nor a name.
    NoName,
    /// A word that is neither an option nor a name, and has no comma: a list of the fields of
    /// `svstat` has one.
    NoSingleName,
    /// A word that is no number.
    NoNumber,
    /// A condition of a wait.
    Condition,
    /// A mode of a wait.
    Mode,
    /// An option that ends with this letter.
    Ended(u8),
    /// An option of this letter and its value, in one word.
    Valued(u8),
}

// The letters that a tool takes behind a dash.
fn letters_of(tool: Tool) -> &'static [u8]
    ensures { result.now ≡ letters_of tool }
{
    match tool {
        Tool::Svc => b"abqhkti12pcyudoOrx",
        Tool::Svscanctl => b"anhtq",
        Tool::Svwait => b"uUdDaot",
        Tool::Svlisten => b"uUdDrRaot",
        Tool::Svstat => b"o",
        _ => b"",
    }
}

// The letter of the option that has a value; a space where the tool has no such option.
fn valued_of(tool: Tool) -> u8
    ensures { result ≡ valued_of tool }
{
    match tool {
        Tool::Svwait | Tool::Svlisten => b't',
        Tool::Svstat => b'o',
        _ => b' ',
    }
}

// Whether a word begins with a dash, as options do.
fn is_dashed(word: &[u8]) -> bool
    ensures { result ≡ is_dashed word.now }
{
    word.first() == Some(&b'-')
}

// Whether a byte is one of these. `letters` are those that a tool takes behind a dash, or the bytes
// of a word in which a comma is looked for.
fn has_byte(letters: &[u8], byte: u8) -> bool
    ensures { result ≡ list_any (λ l. l == byte) letters.now }
{
    letters.iter().any(|letter| *letter == byte)
}

// Whether one of the letters behind the dash is none of these. The letters behind `valued` are not
// looked at: they are the value of that option.
fn has_strange_letter(letters: &[u8], valued: u8, word: &[u8]) -> bool
    ensures { result ≡ has_strange_letter letters.now valued word.now }
{
    word.iter()
        .skip(1)
        .take_while(|byte| **byte != valued)
        .any(|byte| !has_byte(letters, *byte))
}

// Whether a word is a dash and letters, one of which this tool doesn't have; the value of an option
// doesn't count. False for `-` and `--`.
fn is_strange(tool: Tool, word: &[u8]) -> bool
    ensures { result ≡ is_strange tool word.now }
{
    is_dashed(word)
        && !is_word(word, b"--")
        && has_strange_letter(letters_of(tool), valued_of(tool), word)
}

// Whether a word is an option that `list` and `follow` have: `--json`, or `--`, behind which each
// word is a name.
fn is_list_option(word: &[u8]) -> bool
    ensures { result ≡ is_list_option word.now }
{
    is_word(word, b"--") || is_word(word, b"--json")
}

// Whether a word is neither an option nor a name.
fn is_no_name(word: &[u8]) -> bool
    ensures { result ≡ is_no_name word.now }
{
    !is_dashed(word) && Name::new(word).is_none()
}

// Whether a word is an option that says what `svwait` or `svlisten` waits for: a dash, and one of
// the letters u, U, d, D, r, R.
fn is_condition(word: &[u8]) -> bool
    ensures { result ≡ is_condition word.now }
{
    word.len() == 2 && is_dashed(word) && has_byte(b"uUdDrR", word[1])
}

// Whether a word is an option that says for how many services a wait is: `-a` for all of them, `-o`
// for one.
fn is_mode(word: &[u8]) -> bool
    ensures { result ≡ is_mode word.now }
{
    is_word(word, b"-a") || is_word(word, b"-o")
}

// Whether a word is the option of this letter and its value.
fn is_valued(letter: u8, word: &[u8]) -> bool
    ensures { result ≡ is_valued letter word.now }
{
    is_dashed(word) && word.len() >= 3 && word[1] == letter
}

// Whether a word is an option that ends with this letter.
fn is_ended(letter: u8, word: &[u8]) -> bool
    ensures { result ≡ is_ended letter word.now }
{
    is_dashed(word) && word.last() == Some(&letter)
}

/// Whether a word is of this kind.
pub fn is_wrong(wrong: Wrong, word: &[u8]) -> bool
    ensures { result ≡ is_wrong wrong word.now }
{
    match wrong {
        Wrong::Strange(tool) => is_strange(tool, word),
        Wrong::Dash => is_word(word, b"-"),
        Wrong::Dashes => is_word(word, b"--"),
        Wrong::StrangeOption => is_dashed(word) && !is_list_option(word),
        Wrong::Plain => !is_dashed(word),
        Wrong::PlainNoNumber => !is_dashed(word) && parse_number(word).is_none(),
        Wrong::NoName => is_no_name(word),
        Wrong::NoSingleName => is_no_name(word) && !has_byte(word, b','),
        Wrong::NoNumber => parse_number(word).is_none(),
        Wrong::Condition => is_condition(word),
        Wrong::Mode => is_mode(word),
        Wrong::Ended(letter) => is_ended(letter, word),
        Wrong::Valued(letter) => is_valued(letter, word),
    }
}
