//! The requests of the tools: most spell an act, as a line of a script does behind its moment and
//! its actor. `scanctl a` and `follow` are no acts, and only the server knows them.
ghost use Rattle.std.specs.Prelude.{◌≡◌, ◌++◌, ◌∷◌, [], IfOk, OnOk, false};
ghost use Rattle.std.specs.List.{join_with_byte};
ghost use Rattle.tree_core.specs.declared.input.Act.TheVariants.{Svc, Status, Permafailon, Wait, Subscribe, Send, MakeDir};
ghost use Rattle.s6_tools.specs.Requests.{follow_request_of, is_harmless, request_of, request_line, scan_request_of};
ghost use Rattle.tool_lines.specs.Words.{word_in};

use s6_events::Name;
use s6_script::{push_named, push_permafailon, push_send, push_subscribe, push_svc, push_wait};
use std::alloc::{AllocError, Global};
use svc_commands::{PermafailCommand, ScanLetter, SvcCommand, WaitCommand};
use tool_lines::{is_word, word_or_none};
use tree_core::{Message, Target};

/// Fills `line` with a request and its newline, for a tool to send in one write. What it held is
/// gone. Where memory is refused, the line isn't whole, and must not be sent.
pub fn set_request_line(line: &mut Vec<u8>, request: &[u8]) -> Result<(), AllocError>
    ensures { OnOk result (line.new.items ≡ request_line request.now) }
{
    line.clear();
    line.extend_from_slice(request)?;
    line.extend_from_slice(b"\n")
}

/// Whether a request may come twice without harm: it changes nothing, or waits, or has the record
/// written.
pub fn is_harmless(request: &[u8]) -> bool
    ensures { result ≡ is_harmless (word_in request.now 0) }
{
    let verb = word_or_none(request, 0);
    is_word(verb, b"status")
        || is_word(verb, b"states")
        || is_word(verb, b"clock")
        || is_word(verb, b"permafailon")
        || is_word(verb, b"follow")
        || is_word(verb, b"wait")
        || is_word(verb, b"subscribe")
        || is_word(verb, b"record")
}

/// The request of `svc`.
pub fn svc_request(alloc: Global, command: &SvcCommand) -> Result<Vec<u8>, AllocError>
    ensures { IfOk result
        (λ text. text.items ≡ request_of (Svc command.now.name command.now.letters)) }
{
    let mut text = Vec::new(alloc);
    push_svc(&mut text, &command.name, command.letters.as_slice())?;
    Ok(text)
}

/// The request of a letter of `svscanctl`.
pub fn scan_request(letter: ScanLetter) -> &'static [u8]
    ensures { result.now ≡ scan_request_of letter }
{
    match letter {
        ScanLetter::Scan => b"scanctl a",
        ScanLetter::Nuke => b"scanctl n",
        ScanLetter::Terminate => b"scanctl t",
    }
}

/// The request of `svwait` and `svlisten`.
pub fn wait_request(alloc: Global, command: &WaitCommand) -> Result<Vec<u8>, AllocError>
    ensures { IfOk result (λ text. text.items ≡ request_of
        (Wait command.now.condition command.now.mode command.now.timeout command.now.names.items)) }
{
    let mut text = Vec::new(alloc);
    push_wait(
        &mut text,
        command.condition,
        command.mode,
        command.timeout,
        command.names.as_slice(),
    )?;
    Ok(text)
}

/// The request of `svstat`.
pub fn status_request(alloc: Global, name: &Name) -> Result<Vec<u8>, AllocError>
    ensures { IfOk result (λ text. text.items ≡ request_of (Status name.now)) }
{
    named_request(alloc, "status", name)
}

/// The request of `mkfifodir`.
pub fn make_directory_request(alloc: Global, name: &Name) -> Result<Vec<u8>, AllocError>
    ensures { IfOk result (λ text. text.items ≡ request_of (MakeDir name.now)) }
{
    named_request(alloc, "mkdir", name)
}

// A request of two words: a verb, as `status`, and the name of what it is about.
fn named_request(alloc: Global, verb: &str, name: &Name) -> Result<Vec<u8>, AllocError>
    ensures { IfOk result (λ text. text.items ≡ join_with_byte 32 (verb.now ∷ name.now ∷ [])) }
{
    let mut text = Vec::new(alloc);
    push_named(&mut text, verb, name)?;
    Ok(text)
}

/// The request of `permafailon`.
pub fn permafailon_request(alloc: Global, command: &PermafailCommand) -> Result<Vec<u8>, AllocError>
    ensures { IfOk result (λ text. text.items ≡ request_of
        (Permafailon command.now.name command.now.secs command.now.count command.now.list)) }
{
    let mut text = Vec::new(alloc);
    push_permafailon(
        &mut text,
        &command.name,
        command.secs,
        command.count,
        &command.list,
    )?;
    Ok(text)
}

/// The request of `ftrig-notify`.
pub fn send_request(
    alloc: Global,
    target: &Target,
    message: &Message,
) -> Result<Vec<u8>, AllocError>
    ensures { IfOk result (λ text. text.items ≡ request_of (Send target.now message.now)) }
{
    let mut text = Vec::new(alloc);
    push_send(&mut text, target, message)?;
    Ok(text)
}

/// The request of `ftrig-wait`: one match of a pattern.
pub fn subscribe_request(
    alloc: Global,
    target: &Target,
    pattern: &str,
) -> Result<Vec<u8>, AllocError>
    ensures { IfOk result
        (λ text. text.items ≡ request_of (Subscribe target.now pattern.now false)) }
{
    let mut text = Vec::new(alloc);
    // `false`: it ends with its first match.
    push_subscribe(&mut text, target, pattern, false)?;
    Ok(text)
}

/// The request `follow`, to be told letters as services give them: where there is one name, those
/// of its service, else those of all services.
pub fn follow_request(alloc: Global, names: &[Name]) -> Result<Vec<u8>, AllocError>
    ensures { IfOk result (λ text. text.items ≡ follow_request_of names.now) }
{
    let mut text = Vec::new(alloc);
    text.extend_from_slice(b"follow")?;
    if let [name] = names {
        text.extend_from_slice(b" ")?;
        text.extend_from_slice(name.as_bytes())?;
    }
    Ok(text)
}
