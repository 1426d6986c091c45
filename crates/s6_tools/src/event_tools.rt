//! `mkfifodir`, `ftrig-notify` and `ftrig-wait`: the tools for event directories, in which letters
//! are heard. A free one belongs to no service.
ghost use Rattle.std.specs.Prelude.{◌≡◌, All, IfOk, IsOk, OnOk, nat_lt, option_map, true, if◌then◌else◌};
ghost use Rattle.event_directory.specs.Pattern.{is_expression};
ghost use Rattle.tool_lines.specs.declared.misuse.Misuse.TheVariants as misuse;
ghost use Rattle.s6_tools.specs.Targets.{before_event, target_of, IsPrintable};

use crate::answer::{ServerAnswer, expect_done};
use crate::connection::{ask_server, ask_within};
use crate::patience::Patience;
use crate::request::{make_directory_request, send_request, subscribe_request};
use crate::tool_fault::ToolFault;
use event_directory::{Pattern, PatternFault};
use s6_events::Name;
use std::alloc::Global;
use std::io::Write;
use std::net::Net;
use std::time::Clock;
use tool_lines::Misuse;
use tree_core::{Message, Target};

// What comes before `/event` in a word that ends with it; None for any other word.
fn before_event(word: &[u8]) -> Option<&[u8]>
    ensures { option_map (λ w. w.now) result ≡ before_event word.entry.now }
{
    word.strip_suffix(b"/event")
}

// The event directory that a word names: NAME is a free one, NAME/event that of a service.
fn target_of(word: &[u8]) -> Option<Target>
    ensures { result ≡ target_of word.now }
{
    if let Some(name) = Name::new(word) {
        return Some(Target::Directory(name));
    }
    let name = Name::new(before_event(word)?)?;
    Some(Target::Service(name))
}

// The event directory that a word of the command line names: NAME is a free one, NAME/event that of
// a service. BadName where it names none.
fn read_target(word: &str) -> Result<Target, ToolFault> {
    target_of(word.as_bytes()).ok_or(ToolFault::Usage(Misuse::BadName))
}

// The name that `mkfifodir` gives to a new event directory, from the word of the command line;
// BadName where that is no name.
fn name_of(word: &str) -> Result<Name, ToolFault> {
    Name::new(word.as_bytes()).ok_or(ToolFault::Usage(Misuse::BadName))
}

// The pattern, whose bytes have to be printable ones or spaces: a newline in it would begin another
// request.
fn read_pattern(word: &str) -> Result<&str, ToolFault>
    ensures same { IfOk result (λ pattern. pattern.now ≡ word.now) }
    ensures printable { IfOk result (λ pattern. All IsPrintable pattern.now) }
    ensures taken { All IsPrintable word.now → IsOk result }
{
    if word.bytes().all(|byte| matches!(byte, 32..=126)) {
        Ok(word)
    } else {
        Err(ToolFault::Usage(Misuse::BadPattern))
    }
}

// Finds out, before anything is sent, whether the server takes this pattern.
fn try_pattern(alloc: Global, pattern: &str) -> Result<(), ToolFault>
    ensures { OnOk result (is_expression pattern.now ≡ true) }
{
    match Pattern::build(alloc, pattern) {
        Ok(_pattern) => Ok(()),
        Err(PatternFault::NoMemory) => Err(ToolFault::NoMemory),
        Err(_) => Err(ToolFault::Usage(Misuse::BadPattern)),
    }
}

// What is wrong with `count` words, where `taken` are taken.
fn misuse_of(count: usize, taken: usize) -> Misuse
    ensures { result ≡ (if nat_lt count taken then misuse.Missing else misuse.TooMany) }
{
    if count < taken {
        Misuse::Missing
    } else {
        Misuse::TooMany
    }
}

/// Makes a free event directory. Page `s6-mkfifodir`.
pub fn run_mkfifodir<R: Net + Clock>(
    rt: &R,
    alloc: Global,
    socket: &str,
    words: &[&str],
) -> Result<u8, ToolFault> {
    let [name] = words else {
        return Err(ToolFault::Usage(misuse_of(words.len(), 1)));
    };
    let request = make_directory_request(alloc, &name_of(name)?)?;
    // A refusal is a fault.
    let (_connection, answer) = ask_server(rt, alloc, socket, request.as_slice())?;
    expect_done(&answer)?;
    Ok(0)
}

/// Sends letters to an event directory. Page `s6-ftrig-notify`.
pub fn run_ftrig_notify<R: Net + Clock>(
    rt: &R,
    alloc: Global,
    socket: &str,
    words: &[&str],
) -> Result<u8, ToolFault> {
    let [target, message] = words else {
        return Err(ToolFault::Usage(misuse_of(words.len(), 2)));
    };
    let target = read_target(target)?;
    let message = Message::new(message.as_bytes()).ok_or(ToolFault::Usage(Misuse::BadMessage))?;
    let request = send_request(alloc, &target, &message)?;
    // A refusal is a fault.
    let (_connection, answer) = ask_server(rt, alloc, socket, request.as_slice())?;
    expect_done(&answer)?;
    Ok(0)
}

/// Waits until the letters of an event directory match a pattern, and prints the letter that made
/// them match. The status is 1 where too many letters came without a match. Page `s6-ftrig-wait`.
pub fn run_ftrig_wait<R: Net + Clock, W: Write>(
    rt: &R,
    alloc: Global,
    socket: &str,
    words: &[&str],
    output: &mut W,
) -> Result<u8, ToolFault> {
    let [target, pattern] = words else {
        return Err(ToolFault::Usage(misuse_of(words.len(), 2)));
    };
    let (target, pattern) = (read_target(target)?, read_pattern(pattern)?);
    // Finds out, before anything is sent, whether it is a pattern that the server takes.
    try_pattern(alloc, pattern)?;
    let request = subscribe_request(alloc, &target, pattern)?;
    // While the server is busy it is asked again, without end.
    let mut patience = Patience::of(None);
    let asked = ask_within(rt, alloc, socket, request.as_slice(), &mut patience)?;
    // Any other answer is none that a server gives to this request.
    let (mut connection, ServerAnswer::Subscription) = asked else {
        return Err(ToolFault::Socket);
    };
    match connection.answer()? {
        ServerAnswer::Matched(letter) => {
            if output.write_all(&[letter, b'\n']).is_err() || output.flush().is_err() {
                return Err(ToolFault::Write);
            }
            Ok(0)
        }
        // Too many letters came without a match.
        ServerAnswer::Overlong => Ok(1),
        _ => Err(ToolFault::Socket),
    }
}
