//! The lines that are posted to connections, and the line that says where clients can connect. An
//! empty line ends whatever is posted.
ghost use Rattle.std.specs.Prelude.{◌≡◌, ◌++◌, ◌∷◌, [], OnOk, IfOk};
ghost use Rattle.s6_script.specs.EffectLines.{match_line, release_line};
ghost use Rattle.s6_script.specs.ReplyText.{reply_text};
ghost use Rattle.server_rules.specs.Answers.{clock_text, following_text, recorded_text};
ghost use Rattle.server_rules.specs.Recipients.{news_lines, reply_lines};
ghost use Rattle.server_rules.specs.Sockets.{serving_text};

use crate::letters::push_letter;
use crate::todo::News;
use s6_script::{push_match, push_number, push_release, push_reply};
use std::alloc::{AllocError, Global};
use tree_core::Reply;

/// A reply, and the empty line behind it.
pub fn reply_lines(alloc: Global, reply: &Reply<Global>) -> Result<Vec<u8>, AllocError>
    ensures { IfOk result (λ text. text.items ≡ reply_lines reply.now) }
{
    let mut text = Vec::new(alloc);
    push_reply(&mut text, reply)?;
    text.extend_from_slice(b"\n\n")?;
    Ok(text)
}

/// The line of a match, of a release or of a letter, and the empty line behind it.
pub fn news_lines(alloc: Global, news: &News) -> Result<Vec<u8>, AllocError>
    ensures { IfOk result (λ text. text.items ≡ news_lines news.now) }
{
    let mut text = Vec::new(alloc);
    match news {
        News::Match(found) => push_match(&mut text, found)?,
        News::Release(release) => push_release(&mut text, release)?,
        News::Letter(letter) => push_letter(&mut text, letter)?,
    }
    text.extend_from_slice(b"\n")?;
    Ok(text)
}

/// What answers `follow`, and the empty line behind it.
pub fn following_line() -> &'static [u8]
    ensures { result.now ≡ following_text }
{
    b"done\n\n"
}

/// What answers `record`: how many steps the record has, and the empty line behind it.
pub fn recorded_line(alloc: Global, steps: u64) -> Result<Vec<u8>, AllocError>
    ensures { IfOk result (λ text. text.items ≡ recorded_text steps) }
{
    let mut text = Vec::new(alloc);
    text.extend_from_slice(b"recorded ")?;
    push_number(&mut text, steps)?;
    text.extend_from_slice(b"\n\n")?;
    Ok(text)
}

/// What answers `clock`: the time of day at which the tree's clock was 0, and the tree's clock,
/// both in milliseconds, the first one since 1970; and the empty line behind it.
pub fn clock_line(alloc: Global, since: u64, now: u64) -> Result<Vec<u8>, AllocError>
    ensures { IfOk result (λ text. text.items ≡ clock_text since now) }
{
    let mut text = Vec::new(alloc);
    text.extend_from_slice(b"clock ")?;
    push_number(&mut text, since)?;
    text.extend_from_slice(b" ")?;
    push_number(&mut text, now)?;
    text.extend_from_slice(b"\n\n")?;
    Ok(text)
}

/// The line on standard error once clients can connect. It names the socket, and says since which
/// time of day.
pub fn serving_line(alloc: Global, socket: &str, day: &str) -> Result<Vec<u8>, AllocError>
    ensures { IfOk result (λ text. text.items ≡ serving_text socket.now day.now) }
{
    let mut text = Vec::new(alloc);
    text.extend_from_slice(b"svscan: serving ")?;
    text.extend_from_slice(socket.as_bytes())?;
    text.extend_from_slice(b" since ")?;
    text.extend_from_slice(day.as_bytes())?;
    text.extend_from_slice(b"\n")?;
    Ok(text)
}
