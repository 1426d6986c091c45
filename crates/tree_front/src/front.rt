//! What the words of the command line ask for. A client, a check or a help text is done here; a
//! tree, a connection or a replay is left to the caller.
ghost use Rattle.std.specs.Prelude.{◌≡◌};

use crate::asked::{NamedProgram, asks_help, program_named};
use crate::check_dir::check_directory;
use crate::help::{print_help, print_help_of, refuse_tool};
use crate::help_text::{CONNECT_HELP, SVCHECK_HELP, SVSCAN_HELP};
use crate::no_memory::tell_no_memory;
use crate::place::TreePlace;
use crate::usage::refuse_words;
use s6_tools::run_client;
use std::alloc::Global;
use std::env::Env;
use std::io::Write;
use std::net::Net;
use std::process::Processes;
use std::rt::Files;
use std::time::Clock;
use std::{env, io};
use tool_lines::Misuse;

/// The exit status for wrong usage.
const USAGE_STATUS: u8 = 100;

/// The words that `svscan` takes.
const SVSCAN_FORM: &str = "svscan DIRECTORY SOCKET [RECORD]";

/// The words that `svcheck` takes.
const SVCHECK_FORM: &str = "svcheck DIRECTORY";

/// The words that `connect` takes.
const CONNECT_FORM: &str = "connect SOCKET";

/// What the words ask for.
#[derive(Drop)]
pub enum Asked {
    /// It was done, and ends with this status.
    Done(u8),
    /// A tree is to run at this place.
    Tree(TreePlace),
    /// `connect` is to run with the socket at this path.
    Connect(String),
    /// `replay_tool` is to run: it makes a replay, or prints a text of the program itself.
    Replay,
}

/// Does what the command line asks for, with these outputs; a tree, a connection or a replay is
/// left to the caller. Where something was not done, one line on `errors` says why, and a second
/// one what would be right. Where memory for the words is refused a replay is done all the same,
/// since it needs none for them.
pub fn run_words<R: Env + Net + Files + Processes + Clock + Copy + Drop, W: Write, E: Write>(
    rt: &R,
    alloc: Global,
    output: &mut W,
    errors: &mut E,
) -> Asked {
    let words = match words_of(rt, alloc) {
        Ok(words) => words,
        // A word is no text in UTF-8.
        Err(error) if error.kind() == io::ErrorKind::InvalidData => {
            return Asked::Done(refuse_bytes(errors));
        }
        // Memory for the words was refused.
        Err(_) => return refuse_program(rt, alloc, errors),
    };
    match program_of(words.as_slice()) {
        NamedProgram::Svscan => read_place(words, output, errors),
        NamedProgram::Connect => read_socket(words, output, errors),
        // The tool of `replay` also tells the version.
        NamedProgram::Replay | NamedProgram::Version => Asked::Replay,
        NamedProgram::Strange => {
            let word = words.get(1).map(|word| word.as_str());
            Asked::Done(refuse_tool(word, errors))
        }
        // A client, `svcheck` or `help`.
        program => Asked::Done(match borrowed(alloc, words.as_slice()) {
            Ok(further) => run_program(rt, alloc, program, further.as_slice(), output, errors),
            Err(_) => tell_no_memory(name_of(program), errors),
        }),
    }
}

// Runs a program that is done here, with the words behind its name.
fn run_program<R: Env + Net + Files + Processes + Clock + Copy + Drop, W: Write, E: Write>(
    rt: &R,
    alloc: Global,
    program: NamedProgram,
    words: &[&str],
    output: &mut W,
    errors: &mut E,
) -> u8 {
    match program {
        NamedProgram::Client(tool) => run_client(rt, alloc, tool, words, output, errors),
        NamedProgram::Svcheck => run_check(rt, alloc, words, output, errors),
        // `NamedProgram::Help`: the caller has done all others.
        _ => print_help_of(words, output, errors),
    }
}

// The words of the command line, the program's name first.
fn words_of<R: Env>(rt: &R, alloc: Global) -> io::Result<Vec<String>> {
    let mut words = Vec::new(alloc);
    for word in env::args(&(rt, alloc))? {
        words.push(word)?;
    }
    Ok(words)
}

// The program that the command line asks for, by its second word; the first is the program's own
// name. Strange where there is no second word, or a third one behind `--version`.
fn program_of(words: &[String]) -> NamedProgram {
    match words {
        [_, word] => program_named(word.as_str()),
        [_, word, ..] => match program_named(word.as_str()) {
            NamedProgram::Version => NamedProgram::Strange,
            program => program,
        },
        _ => NamedProgram::Strange,
    }
}

// The name under which a fault of a program is told.
fn name_of(program: NamedProgram) -> &'static str {
    match program {
        NamedProgram::Svscan => "svscan",
        NamedProgram::Svcheck => "svcheck",
        NamedProgram::Connect => "connect",
        NamedProgram::Client(tool) => tool.name(),
        _ => "s6_tree",
    }
}

// What is done where memory for the words was refused. The word behind the program's name decides
// alone, if there is memory for that one. Where it names a program that needs all words, the
// refusal of memory is told. All else is left to `replay_tool`, which takes no memory for the
// words.
fn refuse_program<R: Env, E: Write>(rt: &R, alloc: Global, errors: &mut E) -> Asked {
    let Ok(word) = first_word(rt, alloc) else {
        return Asked::Done(tell_no_memory("s6_tree", errors));
    };
    let Some(word) = word else {
        return Asked::Replay;
    };
    let program = program_named(word.as_str());
    match program {
        NamedProgram::Svscan
        | NamedProgram::Svcheck
        | NamedProgram::Connect
        | NamedProgram::Client(_) => { Asked::Done(tell_no_memory(name_of(program), errors)) }
        _ => Asked::Replay,
    }
}

// Tells that a word is no text in UTF-8, so that no word could be read. The exit status, 100.
fn refuse_bytes<E: Write>(errors: &mut E) -> u8
    ensures { result ≡ 100 }
{
    let _ = errors.write_all(b"s6_tree: usage\ns6_tree: BadName: a word is no text in UTF-8\n");
    USAGE_STATUS
}

// The word behind the name of the program; None where there is none.
fn first_word<R: Env>(rt: &R, alloc: Global) -> io::Result<Option<String>> {
    Ok(env::args(&(rt, alloc))?.nth(1))
}

// The words behind the name of the program and that of the tool, which are the first two.
fn borrowed(alloc: Global, words: &[String]) -> io::Result<Vec<&str>> {
    let mut all = Vec::new(alloc);
    for word in words.iter().skip(2) {
        all.push(word.as_str())?;
    }
    Ok(all)
}

// Runs `svcheck` with the words behind it.
fn run_check<R: Files + Copy + Drop, W: Write, E: Write>(
    rt: &R,
    alloc: Global,
    words: &[&str],
    output: &mut W,
    errors: &mut E,
) -> u8 {
    match words {
        [word] if asks_help(word) => print_help("svcheck", SVCHECK_HELP.as_bytes(), output, errors),
        [""] => refuse_words(
            "svcheck",
            Misuse::Empty,
            Some("DIRECTORY"),
            SVCHECK_FORM,
            errors,
        ),
        [directory] => check_directory(rt, alloc, directory, output, errors),
        [] => refuse_words("svcheck", Misuse::Missing, None, SVCHECK_FORM, errors),
        [_, word, ..] => refuse_words(
            "svcheck",
            Misuse::TooMany,
            Some(*word),
            SVCHECK_FORM,
            errors,
        ),
    }
}

// Reads the words behind `svscan`: a place, or `--help`. Others are refused. The first two of
// `words` are the program's name and `svscan`.
fn read_place<W: Write, E: Write>(words: Vec<String>, output: &mut W, errors: &mut E) -> Asked {
    match words.as_slice() {
        [_, _, word] if asks_help(word.as_str()) => {
            return Asked::Done(print_help("svscan", SVSCAN_HELP.as_bytes(), output, errors));
        }
        [_, _, _, _, _, word, ..] => {
            let word = Some(word.as_str());
            return Asked::Done(refuse_words("svscan", Misuse::TooMany, word, SVSCAN_FORM, errors));
        }
        _ => {}
    }
    if let Some(place) = empty_place(words.as_slice()) {
        return Asked::Done(refuse_words("svscan", Misuse::Empty, Some(place), SVSCAN_FORM, errors));
    }
    match place_of(words) {
        Some(place) => Asked::Tree(place),
        // Too many words were refused above, so one is missing.
        None => Asked::Done(refuse_words("svscan", Misuse::Missing, None, SVSCAN_FORM, errors)),
    }
}

// Reads the words behind `connect`: a socket, or `--help`. Others are refused. The first two of
// `words` are the program's name and `connect`.
fn read_socket<W: Write, E: Write>(words: Vec<String>, output: &mut W, errors: &mut E) -> Asked {
    match words.as_slice() {
        [_, _, word] if asks_help(word.as_str()) => {
            let text = CONNECT_HELP.as_bytes();
            return Asked::Done(print_help("connect", text, output, errors));
        }
        [_, _, _, word, ..] => {
            let word = Some(word.as_str());
            return Asked::Done(refuse_words(
                "connect",
                Misuse::TooMany,
                word,
                CONNECT_FORM,
                errors,
            ));
        }
        _ => {}
    }
    let mut words = words;
    match words.pop() {
        Some(socket) if words.len() == 2 && socket.is_empty() => Asked::Done(refuse_words(
            "connect",
            Misuse::Empty,
            Some("SOCKET"),
            CONNECT_FORM,
            errors,
        )),
        Some(socket) if words.len() == 2 => Asked::Connect(socket),
        // Too many words were refused above, so the socket is missing.
        _ => Asked::Done(refuse_words("connect", Misuse::Missing, None, CONNECT_FORM, errors)),
    }
}

// The name of the first of these words that is empty: an unset variable between quotes would else
// name the root of the file system. None where none is. The first two of `words` are the program's
// name and `svscan`.
fn empty_place(words: &[String]) -> Option<&'static str> {
    let places = ["DIRECTORY", "SOCKET", "RECORD"];
    let empty = words.iter().skip(2).position(|word| word.is_empty())?;
    places.get(empty).copied()
}

// The scan directory, the socket and the record; None where the words are too few or too many. The
// first two of `words` are the program's name and `svscan`. The directory and the socket follow,
// and then the path of the record, if there is to be one.
fn place_of(words: Vec<String>) -> Option<TreePlace> {
    let mut words = words;
    if words.len() < 4 || words.len() > 5 {
        return None;
    }
    let record = if words.len() == 5 { words.pop() } else { None };
    match (words.pop(), words.pop()) {
        (Some(socket), Some(directory)) => Some(TreePlace {
            directory,
            socket,
            record,
        }),
        _ => None,
    }
}
