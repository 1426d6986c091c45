//! The lines and the exit status of a tool that could not do what it was asked for.
ghost use Rattle.std.specs.Prelude.{◌≡◌, ◌++◌, IfOk, OnOk, map, option_map};
ghost use Rattle.s6_tools.specs.Endings.{status_of_fault};
ghost use Rattle.s6_tools.specs.FaultLines.{fault_line, reason_of};
ghost use Rattle.s6_tools.specs.SecondLines.{advice_text, cause_of, cause_word, misuse_text, refusal_text, unread_text, hint_of, told_text};
ghost use Rattle.tool_lines.specs.Told.{escaped};

use crate::cause::{cause_before, cause_behind};
use crate::tool_fault::ToolFault;
use arrayvec::CapacityError;
use std::io::Write;
use tool_lines::{
    FaultText, Misuse, Tool, add_escaped, add_named, complaint_of, culprit_of, help_words,
    program_of, refusal_of_subject, refusal_of_tree, right_of, see_words, subject_of, unnamed_of,
    unread_words,
};

/// The status of a request that was refused.
const REFUSED_STATUS: u8 = 1;

/// The status of a tool whose words were wrong.
const USAGE_STATUS: u8 = 100;

/// The status of a tool to which the system refused something.
const SYSTEM_STATUS: u8 = 111;

/// The most bytes of a socket's path.
const PATH_BYTES: usize = 107;

/// Writes two lines about a fault in one write, one for programs and one for people, and returns
/// the exit status. Takes no memory.
pub fn tell_fault<E: Write>(
    tool: Tool,
    socket: &str,
    words: &[&str],
    fault: &ToolFault,
    errors: &mut E,
) -> u8
    ensures { result ≡ status_of_fault tool fault.now }
{
    // This is always `Ok`: the text fits into a `FaultText`.
    if let Ok(told) = told_of(tool, socket, words, fault) {
        let _ = errors.write_all(told.as_slice());
    }
    status_of(tool, fault)
}

// The exit status of a tool that failed by this fault: 100 for wrong words, 1 for a refusal of the
// server (111 for `svwait` and `svlisten`), else 111. `Unread` is a refusal too: the last scan
// could not read the service's directory.
fn status_of(tool: Tool, fault: &ToolFault) -> u8
    ensures { result ≡ status_of_fault tool fault.now }
{
    match fault {
        ToolFault::Usage(_) => USAGE_STATUS,
        ToolFault::Refused(_) | ToolFault::Unread(_) => match tool {
            Tool::Svwait | Tool::Svlisten => SYSTEM_STATUS,
            _ => REFUSED_STATUS,
        },
        _ => SYSTEM_STATUS,
    }
}

// The two lines about a fault of a tool, the first for programs and the second for people. `socket`
// is the path of the tree's socket, and `words` are those behind it.
fn told_of(
    tool: Tool,
    socket: &str,
    words: &[&str],
    fault: &ToolFault,
) -> Result<FaultText, CapacityError>
    ensures { IfOk result (λ told. told.items
        ≡ told_text tool socket.now (map (λ w. w.now) words.now) fault.now) }
{
    let mut told = FaultText::new();
    add_first_line(&mut told, tool, fault)?;
    told.try_extend_from_slice(tool.name().as_bytes())?;
    told.try_extend_from_slice(b": ")?;
    add_hint(&mut told, tool, socket, words, fault)?;
    told.try_extend_from_slice(b"\n")?;
    Ok(told)
}

// Adds the first of the two lines about a fault, the one for programs: the name of the tool, and
// the reason in few words, as `svc: busy`.
fn add_first_line(told: &mut FaultText, tool: Tool, fault: &ToolFault) -> Result<(), CapacityError>
    ensures { OnOk result (told.new.items ≡ told.old.items ++ fault_line tool fault.now) }
{
    told.try_extend_from_slice(tool.name().as_bytes())?;
    told.try_extend_from_slice(b": ")?;
    add_reason(told, fault)?;
    told.try_extend_from_slice(b"\n")
}

// Adds the reason of a fault to the line for programs, in few words, as `usage`, `busy` or
// `refused NoService`.
fn add_reason(told: &mut FaultText, fault: &ToolFault) -> Result<(), CapacityError>
    ensures { OnOk result (told.new.items ≡ told.old.items ++ reason_of fault.now) }
{
    match fault {
        ToolFault::Usage(_) => told.try_extend_from_slice(b"usage"),
        ToolFault::Refused(reason) => {
            told.try_extend_from_slice(b"refused ")?;
            told.try_extend_from_slice(reason.as_bytes())
        }
        ToolFault::Unread(_) => told.try_extend_from_slice(b"refused NoService"),
        ToolFault::Busy => told.try_extend_from_slice(b"busy"),
        ToolFault::NoServer
        | ToolFault::Forbidden
        | ToolFault::LongPath
        | ToolFault::Socket
        | ToolFault::Ended
        | ToolFault::Unanswered
        | ToolFault::NoAnswer
        | ToolFault::TreeEnded => told.try_extend_from_slice(b"socket"),
        ToolFault::Program => told.try_extend_from_slice(b"program"),
        ToolFault::Write => told.try_extend_from_slice(b"write"),
        ToolFault::NoMemory => told.try_extend_from_slice(b"no memory"),
    }
}

// Adds what the second line, the one for people, says about the fault.
fn add_hint(
    told: &mut FaultText,
    tool: Tool,
    socket: &str,
    words: &[&str],
    fault: &ToolFault,
) -> Result<(), CapacityError>
    ensures { OnOk result (told.new.items
        ≡ told.old.items ++ hint_of tool socket.now (map (λ w. w.now) words.now) fault.now) }
{
    match fault {
        ToolFault::Usage(misuse) => {
            add_misuse(told, tool, *misuse, culprit_of(tool, *misuse, words))
        }
        ToolFault::Refused(reason) => add_refusal(told, subject_of(tool, words), reason.as_bytes()),
        ToolFault::Unread(why) => add_unread(told, subject_of(tool, words), why.as_bytes()),
        _ => add_cause(told, socket, words, fault),
    }
}

// What the system or the server failed to do.
fn add_cause(
    told: &mut FaultText,
    socket: &str,
    words: &[&str],
    fault: &ToolFault,
) -> Result<(), CapacityError>
    ensures { OnOk result (told.new.items
        ≡ told.old.items ++ cause_of socket.now (map (λ w. w.now) words.now) fault.now) }
{
    told.try_extend_from_slice(cause_before(fault).as_bytes())?;
    add_cause_word(told, socket, words, fault)?;
    told.try_extend_from_slice(cause_behind(fault).as_bytes())
}

// The path or the program that the fault is about.
fn add_cause_word(
    told: &mut FaultText,
    socket: &str,
    words: &[&str],
    fault: &ToolFault,
) -> Result<(), CapacityError>
    ensures { OnOk result (told.new.items
        ≡ told.old.items ++ cause_word socket.now (map (λ w. w.now) words.now) fault.now) }
{
    match fault {
        ToolFault::NoServer
        | ToolFault::Forbidden
        | ToolFault::Socket
        | ToolFault::Ended
        | ToolFault::Unanswered
        | ToolFault::NoAnswer
        | ToolFault::TreeEnded => { add_escaped(told, PATH_BYTES, socket.as_bytes()) }
        ToolFault::Program => add_named(told, b"the program", program_of(words)),
        _ => Ok(()),
    }
}

// Adds to the second line what is wrong with the words of a tool, and what would be right. `word`
// is the wrong word, where it is known.
fn add_misuse(
    told: &mut FaultText,
    tool: Tool,
    misuse: Misuse,
    word: Option<&str>,
) -> Result<(), CapacityError>
    ensures { OnOk result (told.new.items
        ≡ told.old.items ++ misuse_text tool misuse (option_map (λ w. w.now) word.entry)) }
{
    told.try_extend_from_slice(misuse.word().as_bytes())?;
    told.try_extend_from_slice(b": ")?;
    add_named(told, unnamed_of(misuse).as_bytes(), word)?;
    told.try_extend_from_slice(complaint_of(tool, misuse).as_bytes())?;
    add_advice(told, tool, misuse)
}

// What would be right, and where to read on: `; see s6_tree TOOL --help`. `see_words` is what
// stands before the tool's name there, and `help_words` what stands behind it.
fn add_advice(told: &mut FaultText, tool: Tool, misuse: Misuse) -> Result<(), CapacityError>
    ensures { OnOk result (told.new.items ≡ told.old.items ++ advice_text tool misuse) }
{
    told.try_extend_from_slice(b": ")?;
    told.try_extend_from_slice(right_of(tool, misuse).as_bytes())?;
    told.try_extend_from_slice(see_words().as_bytes())?;
    told.try_extend_from_slice(tool.name().as_bytes())?;
    told.try_extend_from_slice(help_words().as_bytes())
}

// Why the server refused a request about this word.
fn add_refusal(told: &mut FaultText, word: Option<&str>, reason: &[u8]) -> Result<(), CapacityError>
    ensures { OnOk result (told.new.items
        ≡ told.old.items ++ refusal_text (option_map (λ w. w.now) word.entry) reason.now) }
{
    told.try_extend_from_slice(reason)?;
    told.try_extend_from_slice(b": ")?;
    match refusal_of_subject(reason) {
        Some(text) => {
            add_named(told, b"a name", word)?;
            told.try_extend_from_slice(text.as_bytes())
        }
        None => told.try_extend_from_slice(refusal_of_tree(reason).as_bytes()),
    }
}

// Why the last scan could not read the directory of this service.
fn add_unread(told: &mut FaultText, word: Option<&str>, why: &[u8]) -> Result<(), CapacityError>
    ensures { OnOk result (told.new.items
        ≡ told.old.items ++ unread_text (option_map (λ w. w.now) word.entry) why.now) }
{
    told.try_extend_from_slice(unread_words().as_bytes())?;
    add_named(told, b"a name", word)?;
    told.try_extend_from_slice(b" (")?;
    told.try_extend_from_slice(why)?;
    told.try_extend_from_slice(b")")
}
