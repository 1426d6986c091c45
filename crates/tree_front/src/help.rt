//! Printing help texts, and what is told of a word that names no program: a line for programs, and
//! one for people.
ghost use Rattle.std.specs.Prelude.{◌≡◌, ◌++◌, IfOk, option_map};
ghost use Rattle.tree_front.specs.Usage.{strange_text, strange_words, tools_words};

use crate::asked::{NamedProgram, program_named};
use crate::help_text::{CONNECT_HELP, SVCHECK_HELP, SVSCAN_HELP};
use crate::usage::refuse_words;
use arrayvec::CapacityError;
use replay_tool::{HELP, REPLAY_HELP};
use std::io::Write;
use tool_lines::{FaultText, Misuse, add_named, help_of};

/// The exit status for wrong usage.
const USAGE_STATUS: u8 = 100;

/// The words that `help` takes.
const HELP_FORM: &str = "help [TOOL]";

/// The status of a program to which the system refused something.
const SYSTEM_STATUS: u8 = 111;

/// Prints a help text of this program. The exit status: 0, or 111 where it can't be written, which
/// is told on `errors` by two lines.
pub fn print_help<W: Write, E: Write>(
    program: &str,
    text: &[u8],
    output: &mut W,
    errors: &mut E,
) -> u8 {
    if output.write_all(text).is_ok() && output.flush().is_ok() {
        return 0;
    }
    let mut lines = FaultText::new();
    let _ = lines.try_extend_from_slice(program.as_bytes());
    let _ = lines.try_extend_from_slice(b": write\n");
    let _ = lines.try_extend_from_slice(program.as_bytes());
    let _ = lines.try_extend_from_slice(
        b": standard output took nothing: is it closed, or its disk full?\n",
    );
    let _ = errors.write_all(lines.as_slice());
    SYSTEM_STATUS
}

/// Prints the help text that the words behind `help` name: that of a program, or the overview
/// without a word. The exit status: as of `print_help`, or 100 where a word names no program, or
/// there is more than one.
pub fn print_help_of<W: Write, E: Write>(words: &[&str], output: &mut W, errors: &mut E) -> u8 {
    match words {
        [] => print_help("s6_tree", HELP, output, errors),
        [word] => match program_named(word) {
            NamedProgram::Svscan => print_help("svscan", SVSCAN_HELP.as_bytes(), output, errors),
            NamedProgram::Svcheck => print_help("svcheck", SVCHECK_HELP.as_bytes(), output, errors),
            NamedProgram::Connect => print_help("connect", CONNECT_HELP.as_bytes(), output, errors),
            NamedProgram::Replay => print_help("replay", REPLAY_HELP, output, errors),
            NamedProgram::Client(tool) => print_help(
                tool.name(),
                help_of(tool).as_bytes(),
                output,
                errors,
            ),
            NamedProgram::Version | NamedProgram::Help => {
                print_help("s6_tree", HELP, output, errors)
            }
            NamedProgram::Strange => refuse_tool(Some(*word), errors),
        },
        [_, word, ..] => { refuse_words("help", Misuse::TooMany, Some(*word), HELP_FORM, errors) }
    }
}

/// Tells that this word names no program, or that there is no word, by one write. The exit status,
/// 100.
pub fn refuse_tool<E: Write>(word: Option<&str>, errors: &mut E) -> u8
    ensures { result ≡ 100 }
{
    if let Ok(told) = told_of(word) {
        let _ = errors.write_all(told.as_slice());
    }
    USAGE_STATUS
}

// The text before a word that names no program: the first line, for programs, and the beginning of
// the second one.
#[tactic(auto, unfolding(crate::specs::Usage::strange_words))]
fn strange_words() -> &'static str
    ensures { result.now ≡ strange_words }
{
    "s6_tree: unknown tool\ns6_tree: "
}

// The text behind a word that names no program: what is wrong with it, and the command that lists
// the tools.
#[tactic(auto, unfolding(crate::specs::Usage::tools_words))]
fn tools_words() -> &'static str
    ensures { result.now ≡ tools_words }
{
    " is no tool; see s6_tree --help\n"
}

// The two lines about this word of the command line, which names no program. `strange_words` has
// the first line, for programs, and begins the second one, for people, which names the word. `word`
// is None where the command line has no such word.
fn told_of(word: Option<&str>) -> Result<FaultText, CapacityError>
    ensures { IfOk result (λ told. told.items ≡ strange_text (option_map (λ w. w.now) word.entry)) }
{
    let mut told = FaultText::new();
    told.try_extend_from_slice(strange_words().as_bytes())?;
    add_named(&mut told, b"no word", word)?;
    told.try_extend_from_slice(tools_words().as_bytes())?;
    Ok(told)
}
