//! The sentences about a fault, and about what would be right.
ghost use Rattle.std.specs.Prelude.{◌≡◌, option_map};
ghost use Rattle.tool_lines.specs.Sentences.{complaint_of, number_complaint, list_complaint, name_complaint, form_of, list_form, name_form, right_of, refusal_of_subject, refusal_of_tree};
ghost use Rattle.tool_lines.specs.Sentences.{help_words, see_words, unnamed_of, unread_words};

use crate::misuse::Misuse;
use crate::tool::Tool;
use crate::words::is_word;

// What the second line about a fault says behind a word that should be a number and is none.
fn number_complaint(tool: Tool) -> &'static str
    ensures { result.now ≡ number_complaint tool }
{
    match tool {
        Tool::Permafailon => " is no number",
        _ => " is no number of milliseconds",
    }
}

// What the second line about a fault says behind a word that should be a list and is none: of exits
// for `permafailon`, of fields for `svstat`.
fn list_complaint(tool: Tool) -> &'static str
    ensures { result.now ≡ list_complaint tool }
{
    match tool {
        Tool::Permafailon => " is no list of exits",
        _ => " is no list of fields",
    }
}

// What the second line about a fault says behind a word that should be a name and is none; for
// `ftrig-notify` and `ftrig-wait` it should name an event directory.
fn name_complaint(tool: Tool) -> &'static str
    ensures { result.now ≡ name_complaint tool }
{
    match tool {
        Tool::FtrigNotify | Tool::FtrigWait => " is no event directory",
        _ => " is no name",
    }
}

/// What the second line about a fault says of the wrong word, where it is not known which it is.
pub fn unnamed_of(misuse: Misuse) -> &'static str
    ensures { result.now ≡ unnamed_of misuse }
{
    match misuse {
        Misuse::Empty => "SOCKET",
        _ => "a word",
    }
}

/// What the second line about a fault says behind the wrong word of a command line.
pub fn complaint_of(tool: Tool, misuse: Misuse) -> &'static str
    ensures { result.now ≡ complaint_of tool misuse }
{
    match misuse {
        Misuse::Unknown => " is not taken",
        Misuse::Missing => " is missing",
        Misuse::TooMany => " is one too many",
        Misuse::BadNumber => number_complaint(tool),
        Misuse::BadList => list_complaint(tool),
        Misuse::BadName => name_complaint(tool),
        Misuse::BadMessage => " is no message",
        Misuse::BadPattern => " is no pattern",
        Misuse::Empty => " is empty",
    }
}

// The words that a tool takes.
fn form_of(tool: Tool) -> &'static str
    ensures { result.now ≡ form_of tool }
{
    match tool {
        Tool::Svc => "svc SOCKET -LETTERS.. NAME, at most 63 letters",
        Tool::Svstat => "svstat SOCKET -o FIELDS NAME",
        Tool::List => "list SOCKET [--json] [--] [NAME..]",
        Tool::Follow => "follow SOCKET [--json] [--] [NAME..]",
        Tool::Record => "record SOCKET",
        Tool::Svwait => {
            "svwait SOCKET [-u | -U | -d | -D] [-a | -o] [-t MS] NAME.., at most 16 names"
        }
        Tool::Svlisten => {
            "svlisten SOCKET [-u | -U | -d | -D | -r | -R] [-a | -o] [-t MS] NAME.. -- PROGRAM.., at most 16 names"
        }
        Tool::Svscanctl => "svscanctl SOCKET -LETTERS.., at most 63 letters",
        Tool::Mkfifodir => "mkfifodir SOCKET NAME",
        Tool::FtrigNotify => "ftrig-notify SOCKET TARGET MESSAGE",
        Tool::FtrigWait => "ftrig-wait SOCKET TARGET PATTERN",
        Tool::Permafailon => "permafailon SOCKET NAME SECS COUNT LIST",
    }
}

// How a list has to be written for this tool: one of exits for `permafailon`, one of fields for
// `svstat`.
fn list_form(tool: Tool) -> &'static str
    ensures { result.now ≡ list_form tool }
{
    match tool {
        Tool::Permafailon => "at most 32 of 1, 1-5, SEGV and the like, with one comma between two",
        _ => {
            "up, wantedup, normallyup, ready, paused, pid, exitcode, signum, updownfor, readyfor, with one comma between two"
        }
    }
}

// How a name has to be written for this tool: for `ftrig-notify` and `ftrig-wait` that of an event
// directory, free or a service's, else a plain name.
fn name_form(tool: Tool) -> &'static str
    ensures { result.now ≡ name_form tool }
{
    match tool {
        Tool::FtrigNotify | Tool::FtrigWait => "NAME for a free one, NAME/event for a service's",
        _ => "1 to 64 of A-Z a-z 0-9 . _ - @, with no dot in front",
    }
}

/// What would be right.
pub fn right_of(tool: Tool, misuse: Misuse) -> &'static str
    ensures { result.now ≡ right_of tool misuse }
{
    match misuse {
        Misuse::Unknown | Misuse::Missing | Misuse::TooMany | Misuse::Empty => form_of(tool),
        Misuse::BadNumber => "digits, at most 4294967295",
        Misuse::BadList => list_form(tool),
        Misuse::BadName => name_form(tool),
        Misuse::BadMessage => "1 to 64 printable bytes, none of them a space",
        Misuse::BadPattern => {
            "1 to 256 printable bytes, a regular expression of Rust's regex that is not too large"
        }
    }
}

/// What the reason of a refusal says about the word that the request names; None where it is about
/// no word.
pub fn refusal_of_subject(reason: &[u8]) -> Option<&'static str>
    ensures { option_map (λ text. text.now) result ≡ refusal_of_subject reason.now }
{
    if is_word(reason, b"NoService") {
        Some(" is no service of this tree; see s6_tree list SOCKET")
    } else if is_word(reason, b"NoSuch") {
        Some(" is no free event directory of this tree; see s6_tree mkfifodir --help")
    } else if is_word(reason, b"Exists") {
        Some(" is there already")
    } else if is_word(reason, b"Reserved") {
        Some(" belongs to a service, and takes no letters of others")
    } else if is_word(reason, b"Ended") {
        Some(" takes no letters now: its supervisor has ended")
    } else {
        None
    }
}

/// What any other reason of a refusal says.
pub fn refusal_of_tree(reason: &[u8]) -> &'static str
    ensures { result.now ≡ refusal_of_tree reason.now }
{
    if is_word(reason, b"Repeated") {
        "a name stands twice: leave one out"
    } else if is_word(reason, b"TooMany") {
        "the tree has no room for it: it keeps 1,024 waiters, 256 subscriptions and 256 free event directories"
    } else if is_word(reason, b"Busy") {
        "too many wait at once, and the last place is kept for short requests; try again later"
    } else if is_word(reason, b"Pattern") {
        "the pattern is none, or too large; see s6_tree ftrig-wait --help"
    } else if is_word(reason, b"Line") {
        "the server doesn't know this request: it may be of another version"
    } else if is_word(reason, b"Directory") {
        "svscan can't read its directory, or there is too much in it; see svcheck"
    } else if is_word(reason, b"Full") {
        "scans are asked for too often; try again later"
    } else if is_word(reason, b"Closing") {
        "the tree is ending"
    } else if is_word(reason, b"Record") {
        "svscan was started without RECORD, or its file was removed"
    } else if is_word(reason, b"NoMemory") {
        "the server has no memory for it; try again later"
    } else {
        "see docs/SCRIPT.md"
    }
}

/// Where to read on: the text before the name of a tool.
#[tactic(auto, unfolding(crate::specs::Sentences::see_words))]
pub fn see_words() -> &'static str
    ensures { result.now ≡ see_words }
{
    "; see s6_tree "
}

/// Where to read on: the text behind the name of a tool.
#[tactic(auto, unfolding(crate::specs::Sentences::help_words))]
pub fn help_words() -> &'static str
    ensures { result.now ≡ help_words }
{
    " --help"
}

/// The text before the name of a service whose directory could not be read.
#[tactic(auto, unfolding(crate::specs::Sentences::unread_words))]
pub fn unread_words() -> &'static str
    ensures { result.now ≡ unread_words }
{
    "NoService: the last scan could not read "
}
