//! The lines of a story for the reply to an act. A line begins with its moment.
ghost use Rattle.std.specs.Prelude.{◌≡◌, ◌++◌, [], codes, OnOk, if◌then◌else◌};
ghost use Rattle.std.specs.List.{flat_map};
ghost use Rattle.run_stories.specs.Moments.{moment_text};
ghost use Rattle.run_stories.specs.Requests.{reason_word, act_line, serial_line, dropped_line, name_line, listed_line, reply_lines};

use crate::effect_words::{push_service_line, subscription_bytes};
use crate::moments::{push_moment, push_serial};
use s6_events::{At, Name, Sid};
use std::alloc::{AllocError, Allocator};
use supervise_core::Row;
use tree_core::{Listed, Refusal, Reply};

// The word by which a story says why an act was refused. late: a report of another run than the
// present one; reserved: a message to the event directory of a service, which takes none; spent:
// the tree takes no more steps.
fn reason_bytes(refusal: Refusal) -> &'static [u8]
    ensures { result.now ≡ reason_word refusal }
{
    match refusal {
        Refusal::NoService => b"unknown",
        Refusal::Stale => b"late",
        Refusal::Reserved => b"reserved",
        Refusal::TooMany => b"full",
        Refusal::NoSuch => b"missing",
        Refusal::Closing => b"closing",
        Refusal::Repeated => b"twice",
        Refusal::Empty => b"empty",
        Refusal::Exists => b"exists",
        Refusal::Ended => b"ended",
        Refusal::Spent => b"spent",
    }
}

// Adds to the text the moment, what an act is (`head`), and what it is about (`body`).
fn push_act<A: Allocator>(
    text: &mut Vec<u8, A>,
    now: At,
    head: &[u8],
    body: &[u8],
) -> Result<(), AllocError>
    ensures { OnOk result (text.new.items
        ≡ text.old.items ++ ((moment_text now ++ head.now) ++ body.now)) }
{
    push_moment(text, now)?;
    text.extend_from_slice(head)?;
    text.extend_from_slice(body)
}

// Adds the line of an act that was refused: what it is (`head`), what it is about (`body`), and why
// it was refused.
fn push_refused<A: Allocator>(
    text: &mut Vec<u8, A>,
    now: At,
    head: &[u8],
    body: &[u8],
    refusal: Refusal,
) -> Result<(), AllocError>
    ensures { OnOk result (text.new.items ≡ text.old.items
        ++ act_line now head.now body.now (codes " refused: " ++ reason_word refusal)) }
{
    push_act(text, now, head, body)?;
    text.extend_from_slice(b" refused: ")?;
    text.extend_from_slice(reason_bytes(refusal))?;
    text.extend_from_slice(b"\n")
}

// Adds the line of an act that was done, if it has one (`told`): what it is (`head`), and what it
// is about (`body`).
fn push_act_done<A: Allocator>(
    text: &mut Vec<u8, A>,
    now: At,
    told: bool,
    head: &[u8],
    body: &[u8],
) -> Result<(), AllocError>
    ensures { OnOk result (text.new.items ≡ text.old.items
        ++ (if told then act_line now head.now body.now [] else [])) }
{
    if !told {
        return Ok(());
    }
    push_act(text, now, head, body)?;
    text.extend_from_slice(b"\n")
}

// Adds the line of a new waiter, or a new subscription: its word, its serial, and what it is about
// (`body`).
fn push_made<A: Allocator>(
    text: &mut Vec<u8, A>,
    now: At,
    word: &[u8],
    serial: u64,
    body: &[u8],
) -> Result<(), AllocError>
    ensures { OnOk result (text.new.items
        ≡ text.old.items ++ serial_line now word.now serial body.now) }
{
    push_serial(text, now, word, serial)?;
    text.extend_from_slice(b": ")?;
    text.extend_from_slice(body)?;
    text.extend_from_slice(b"\n")
}

// Adds a line for each service that a scan dropped. They are named by these rows, which are those
// before the scan.
fn push_all_dropped<A: Allocator>(
    text: &mut Vec<u8, A>,
    now: At,
    rows: &[Row],
    sids: &[Sid],
) -> Result<(), AllocError>
    ensures { OnOk result (text.new.items
        ≡ text.old.items ++ flat_map (dropped_line now rows.now) sids.now) }
{
    for sid in sids {
        push_service_line(text, now, rows, *sid, b"dropped")?;
    }
    Ok(())
}

// Adds a line that begins, behind its moment, with a name. `words` are the rest of it, with its
// newline.
fn push_name_line<A: Allocator>(
    text: &mut Vec<u8, A>,
    now: At,
    name: &Name,
    words: &[u8],
) -> Result<(), AllocError>
    ensures { OnOk result (text.new.items
        ≡ text.old.items ++ name_line now name.now words.now) }
{
    push_moment(text, now)?;
    text.extend_from_slice(name.as_bytes())?;
    text.extend_from_slice(words)
}

// Adds the line of a name that a scan found and that no service had before: what became of it.
fn push_listed<A: Allocator>(
    text: &mut Vec<u8, A>,
    now: At,
    listed: &Listed,
) -> Result<(), AllocError>
    ensures { OnOk result (text.new.items ≡ text.old.items ++ listed_line now listed.now) }
{
    match listed {
        Listed::Added(_, name) => push_name_line(text, now, name, b" added\n"),
        Listed::Full(name) => push_name_line(text, now, name, b" has no place\n"),
        Listed::Unread(name) => push_name_line(text, now, name, b" not read\n"),
    }
}

// Adds a line for each name that a scan found and that no service had before.
fn push_all_listed<A: Allocator>(
    text: &mut Vec<u8, A>,
    now: At,
    all: &[Listed],
) -> Result<(), AllocError>
    ensures { OnOk result (text.new.items
        ≡ text.old.items ++ flat_map (listed_line now) all.now) }
{
    for listed in all {
        push_listed(text, now, listed)?;
    }
    Ok(())
}

/// Adds the lines of a reply to an act: `head` is what the act is, `body` what it is about, and
/// `told` whether it has a line of its own once it is done. Services that were dropped are named by
/// these rows. An error where memory is refused.
pub fn push_reply_lines<A: Allocator>(
    text: &mut Vec<u8, A>,
    now: At,
    rows: &[Row],
    told: bool,
    head: &[u8],
    body: &[u8],
    reply: &Reply<A>,
) -> Result<(), AllocError>
    ensures { OnOk result (text.new.items
        ≡ text.old.items ++ reply_lines now rows.now told head.now body.now reply.now) }
{
    match reply {
        Reply::Done => push_act_done(text, now, told, head, body),
        Reply::Refused(refusal) => push_refused(text, now, head, body, *refusal),
        Reply::Scanned(report) => {
            push_all_dropped(text, now, rows, report.dropped())?;
            push_all_listed(text, now, report.listed())
        }
        Reply::Waiter(waiter) => push_made(text, now, b"wait ", waiter.0, body),
        Reply::Subscription(subscription) => {
            push_made(text, now, subscription_bytes(), subscription.0, body)
        }
        // Answers to questions have no line.
        Reply::Row(_) | Reply::Tally(_) | Reply::PermanentFailure(_) => Ok(()),
    }
}
