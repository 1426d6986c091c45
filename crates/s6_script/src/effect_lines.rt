//! The lines for what a step gave: events, orders, matches and releases.
ghost use Rattle.std.specs.Prelude.{◌≡◌, ◌++◌, ◌∷◌, [], codes, decimal, OnOk};
ghost use Rattle.std.specs.List.{flat_map};
ghost use Rattle.s6_script.specs.EffectLines.{event_line, order_line, match_line, release_line, hit_text, verdict_text};

use super::digits::{push_number, push_spaced};
use s6_events::{Order, Sid};
use std::alloc::{AllocError, Allocator};
use tree_core::{Event, Hit, Match, Release, Verdict};

// Adds the line of an event, with its newline: `e`, the serial of its service, and the letter of
// its mark.
fn push_event<A: Allocator>(text: &mut Vec<u8, A>, event: &Event) -> Result<(), AllocError>
    ensures { OnOk result (text.new.items ≡ text.old.items ++ event_line event.now) }
{
    text.extend_from_slice(b"e ")?;
    push_number(text, event.sid.0)?;
    text.extend_from_slice(&[b' ', event.mark.letter().byte(), b'\n'])
}

/// Adds a line for each event, with its newline.
pub fn push_events<A: Allocator>(text: &mut Vec<u8, A>, events: &[Event]) -> Result<(), AllocError>
    ensures { OnOk result (text.new.items ≡ text.old.items ++ flat_map event_line events.now) }
{
    for event in events {
        push_event(text, event)?;
    }
    Ok(())
}

// Adds to the text the beginning of an order's line: `o`, the order's word, the serial of its
// service, and its generation (the number of the run).
fn push_run<A: Allocator>(
    text: &mut Vec<u8, A>,
    word: &str,
    sid: Sid,
    generation: u64,
) -> Result<(), AllocError>
    ensures { OnOk result (text.new.items
        ≡ text.old.items ++ (codes "o "
        ++ (word.now ++ (32 ∷ (decimal sid ++ (32 ∷ decimal generation)))))) }
{
    text.extend_from_slice(b"o ")?;
    text.extend_from_slice(word.as_bytes())?;
    push_spaced(text, sid.0)?;
    push_spaced(text, generation)
}

// Adds to the text the line of an order, but for its newline: the words that all orders have, then
// a descriptor, the arguments of `finish`, or a signal.
fn push_order<A: Allocator>(text: &mut Vec<u8, A>, order: &Order) -> Result<(), AllocError>
    ensures { OnOk result (text.new.items ++ 10 ∷ [] ≡ text.old.items ++ order_line order.now) }
{
    match order {
        Order::Run(sid, generation, _, None) => push_run(text, "run", *sid, *generation),
        Order::Run(sid, generation, _, Some(fd)) => {
            push_run(text, "run", *sid, *generation)?;
            text.extend_from_slice(b" fd")?;
            push_spaced(text, u64::from(*fd))
        }
        Order::Finish(sid, generation, _, code, signal) => {
            push_run(text, "finish", *sid, *generation)?;
            push_spaced(text, u64::from(*code))?;
            push_spaced(text, u64::from(*signal))
        }
        Order::Signal(sid, generation, signal) => {
            push_run(text, "signal", *sid, *generation)?;
            push_spaced(text, u64::from(*signal))
        }
        Order::KillFinish(sid, generation) => {
            push_run(text, "killfinish", *sid, *generation)?;
            Ok(())
        }
    }
}

/// Adds a line for each order, with its newline.
pub fn push_orders<A: Allocator>(text: &mut Vec<u8, A>, orders: &[Order]) -> Result<(), AllocError>
    ensures { OnOk result (text.new.items ≡ text.old.items ++ flat_map order_line orders.now) }
{
    for order in orders {
        push_order(text, order)?;
        text.push(b'\n')?;
    }
    Ok(())
}

// Adds the end of a match's line: the letter at which a text matched, or that the text grew too
// long.
fn push_hit<A: Allocator>(text: &mut Vec<u8, A>, hit: Hit) -> Result<(), AllocError>
    ensures { OnOk result (text.new.items ≡ text.old.items ++ hit_text hit) }
{
    match hit {
        Hit::Matched(letter) => {
            text.push(letter.byte())?;
            text.push(b'\n')?;
            Ok(())
        }
        Hit::Overlong => text.extend_from_slice(b"overlong\n"),
    }
}

/// Adds the line of a match, with its newline: `m`, the serial of the subscription, and the letter
/// at which its text matched.
pub fn push_match<A: Allocator>(text: &mut Vec<u8, A>, found: &Match) -> Result<(), AllocError>
    ensures { OnOk result (text.new.items ≡ text.old.items ++ match_line found.now) }
{
    text.extend_from_slice(b"m ")?;
    push_number(text, found.subscription.0)?;
    text.push(b' ')?;
    push_hit(text, found.hit)
}

/// Adds a line for each match, with its newline.
pub fn push_matches<A: Allocator>(
    text: &mut Vec<u8, A>,
    matched: &[Match],
) -> Result<(), AllocError>
    ensures { OnOk result (text.new.items ≡ text.old.items ++ flat_map match_line matched.now) }
{
    for found in matched {
        push_match(text, found)?;
    }
    Ok(())
}

// The word of a waiter's verdict and a newline, with which the line of its release ends.
fn verdict_bytes(verdict: Verdict) -> &'static str
    ensures { result.now ≡ verdict_text verdict }
{
    match verdict {
        Verdict::Held => "held\n",
        Verdict::Failed => "failed\n",
        Verdict::Gone => "gone\n",
        Verdict::TimedOut => "timedout\n",
    }
}

/// Adds the line of a release, with its newline: `r`, the serial of the waiter, and the word of its
/// verdict (how its wait ended).
pub fn push_release<A: Allocator>(
    text: &mut Vec<u8, A>,
    release: &Release,
) -> Result<(), AllocError>
    ensures { OnOk result (text.new.items ≡ text.old.items ++ release_line release.now) }
{
    text.extend_from_slice(b"r ")?;
    push_number(text, release.waiter.0)?;
    text.push(b' ')?;
    text.extend_from_slice(verdict_bytes(release.verdict).as_bytes())
}

/// Adds a line for each release, with its newline.
pub fn push_releases<A: Allocator>(
    text: &mut Vec<u8, A>,
    released: &[Release],
) -> Result<(), AllocError>
    ensures { OnOk result (text.new.items ≡ text.old.items ++ flat_map release_line released.now) }
{
    for release in released {
        push_release(text, release)?;
    }
    Ok(())
}
