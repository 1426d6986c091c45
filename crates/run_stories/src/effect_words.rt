//! The lines of a story for what a step gives beside its reply: events, orders, matches and
//! releases. A line begins with its moment.
ghost use Rattle.std.specs.Prelude.{◌≡◌, ◌==◌, ◌++◌, codes, decimal, find, option_map, OnOk};
ghost use Rattle.std.specs.List.{flat_map};
ghost use Rattle.tree_core.specs.Effect.{outcome_of};
ghost use Rattle.run_stories.specs.Stories.{effect_lines};
ghost use Rattle.run_stories.specs.Words.{signal_text, end_text, name_or_serial, service_text, spawned_words, died_words, done_words, event_words, service_front, service_line, event_line, signal_line, kill_words, order_line, subscription_word, hit_words, match_line, verdict_words, release_line};

use crate::cause::Cause;
use crate::moments::{push_moment, push_serial};
use s6_events::{At, Exit, Mark, Order, Sid};
use s6_script::push_number;
use servicedir::signal_name;
use std::alloc::{AllocError, Allocator};
use supervise_core::Row;
use tree_core::{Effect, Event, Hit, Match, Release, Verdict};

// Adds a signal to the text, by its name, or by its number where it has none.
fn push_signal<A: Allocator>(text: &mut Vec<u8, A>, number: u8) -> Result<(), AllocError>
    ensures { OnOk result (text.new.items ≡ text.old.items ++ signal_text number) }
{
    match signal_name(number) {
        Some(name) => text.extend_from_slice(name.as_bytes()),
        None => push_number(text, u64::from(number)),
    }
}

// Adds to the text how a program ended: with an exit code, or killed by a signal.
fn push_end<A: Allocator>(text: &mut Vec<u8, A>, exit: Exit) -> Result<(), AllocError>
    ensures { OnOk result (text.new.items ≡ text.old.items ++ end_text exit) }
{
    match exit {
        Exit::Code(code) => {
            text.extend_from_slice(b"code ")?;
            push_number(text, u64::from(code))
        }
        Exit::Killed(signal) => {
            text.extend_from_slice(b"signal ")?;
            push_signal(text, signal)
        }
    }
}

/// The status row of the service of this serial; None where there is no such row.
pub fn row_of<'a>(rows: &'a [Row], sid: Sid) -> Option<&'a Row>
    ensures { option_map (λ r. r.now) result ≡ find (λ row. row.sid == sid) rows.entry.now }
{
    rows.iter().find(|row| row.sid == sid)
}

// Adds to the text the name of a service in its row, or its serial where there is no row.
fn push_row_name<A: Allocator>(
    text: &mut Vec<u8, A>,
    row: Option<&Row>,
    sid: Sid,
) -> Result<(), AllocError>
    ensures { OnOk result (text.new.items
        ≡ text.old.items ++ name_or_serial (option_map (λ r. r.now) row.entry) sid) }
{
    match row {
        Some(row) => text.extend_from_slice(row.name.as_bytes()),
        None => {
            text.extend_from_slice(b"service ")?;
            push_number(text, sid.0)
        }
    }
}

/// Adds a service by its name in these rows, or by its serial where it has no row there. An error
/// where memory is refused.
pub fn push_service<A: Allocator>(
    text: &mut Vec<u8, A>,
    rows: &[Row],
    sid: Sid,
) -> Result<(), AllocError>
    ensures { OnOk result (text.new.items ≡ text.old.items ++ service_text rows.now sid) }
{
    push_row_name(text, row_of(rows, sid), sid)
}

// Adds a process number to the text.
fn push_process<A: Allocator>(text: &mut Vec<u8, A>, pid: u32) -> Result<(), AllocError>
    ensures { OnOk result (text.new.items ≡ text.old.items ++ decimal pid) }
{
    push_number(text, u64::from(pid))
}

// Adds the words of a spawn to the text, with the process number where the step's act told it
// (`cause`).
fn push_spawned<A: Allocator>(text: &mut Vec<u8, A>, cause: Cause) -> Result<(), AllocError>
    ensures { OnOk result (text.new.items ≡ text.old.items ++ spawned_words cause) }
{
    match cause {
        Cause::Started(pid) => {
            text.extend_from_slice(b"up, process ")?;
            push_process(text, pid)
        }
        _ => text.extend_from_slice(b"up"),
    }
}

// Adds the words of a death to the text, with how `run` ended where the step's act told it
// (`cause`).
fn push_died<A: Allocator>(text: &mut Vec<u8, A>, cause: Cause) -> Result<(), AllocError>
    ensures { OnOk result (text.new.items ≡ text.old.items ++ died_words cause) }
{
    match cause {
        Cause::Died(exit) => {
            text.extend_from_slice(b"died, ")?;
            push_end(text, exit)
        }
        _ => text.extend_from_slice(b"died"),
    }
}

// Adds the words of a service that is down with its `finish` done to the text: how `finish` ended
// where the step's act told it (`cause`), or just `down`, as where no `finish` ran.
fn push_done<A: Allocator>(text: &mut Vec<u8, A>, cause: Cause) -> Result<(), AllocError>
    ensures { OnOk result (text.new.items ≡ text.old.items ++ done_words cause) }
{
    match cause {
        Cause::Finished(exit) => {
            text.extend_from_slice(b"finish ended, ")?;
            push_end(text, exit)
        }
        _ => text.extend_from_slice(b"down"),
    }
}

// Adds the words of an event to the text, by its mark. `cause` is what the step's act told of a
// program, such as how it ended.
fn push_event_words<A: Allocator>(
    text: &mut Vec<u8, A>,
    cause: Cause,
    mark: Mark,
) -> Result<(), AllocError>
    ensures { OnOk result (text.new.items ≡ text.old.items ++ event_words cause mark) }
{
    match mark {
        Mark::SupervisorStarted => text.extend_from_slice(b"supervised"),
        Mark::Spawned => push_spawned(text, cause),
        Mark::Ready => text.extend_from_slice(b"ready"),
        Mark::Died => push_died(text, cause),
        Mark::FinishDone => push_done(text, cause),
        Mark::PermanentFailure => text.extend_from_slice(b"FAILED FOR GOOD"),
        Mark::SupervisorEnded => text.extend_from_slice(b"supervised no more"),
    }
}

// Adds the beginning of a line about a service to the text: the moment, and the service, which is
// named by these rows.
fn push_front<A: Allocator>(
    text: &mut Vec<u8, A>,
    now: At,
    rows: &[Row],
    sid: Sid,
) -> Result<(), AllocError>
    ensures { OnOk result (text.new.items ≡ text.old.items ++ service_front now rows.now sid) }
{
    push_moment(text, now)?;
    push_service(text, rows, sid)?;
    text.push(b' ')?;
    Ok(())
}

/// Adds a line about a service, with these words behind its name. Its name is found in these rows.
/// An error where memory is refused.
pub fn push_service_line<A: Allocator>(
    text: &mut Vec<u8, A>,
    now: At,
    rows: &[Row],
    sid: Sid,
    words: &[u8],
) -> Result<(), AllocError>
    ensures { OnOk result (text.new.items
        ≡ text.old.items ++ service_line now rows.now sid words.now) }
{
    push_front(text, now, rows, sid)?;
    text.extend_from_slice(words)?;
    text.extend_from_slice(b"\n")
}

// Adds the line of an event: the moment, its service, which is named by these rows, and its words.
// `cause` is what the step's act told.
fn push_event<A: Allocator>(
    text: &mut Vec<u8, A>,
    now: At,
    rows: &[Row],
    cause: Cause,
    event: &Event,
) -> Result<(), AllocError>
    ensures { OnOk result (text.new.items
        ≡ text.old.items ++ event_line now rows.now cause event.now) }
{
    push_front(text, now, rows, event.sid)?;
    push_event_words(text, cause, event.mark)?;
    text.extend_from_slice(b"\n")
}

// Adds a line for each event.
fn push_events<A: Allocator>(
    text: &mut Vec<u8, A>,
    now: At,
    rows: &[Row],
    cause: Cause,
    events: &[Event],
) -> Result<(), AllocError>
    ensures { OnOk result (text.new.items
        ≡ text.old.items ++ flat_map (event_line now rows.now cause) events.now) }
{
    for event in events {
        push_event(text, now, rows, cause, event)?;
    }
    Ok(())
}

// Adds to the text which signal is sent to `run`, up to the name of its service, which follows.
fn push_signal_words<A: Allocator>(text: &mut Vec<u8, A>, number: u8) -> Result<(), AllocError>
    ensures { OnOk result (text.new.items
        ≡ text.old.items ++ (codes "signal " ++ (signal_text number ++ codes " to "))) }
{
    text.extend_from_slice(b"signal ")?;
    push_signal(text, number)?;
    text.extend_from_slice(b" to ")
}

// The words of the signal to a `finish` that takes too long.
#[tactic(auto, unfolding(crate::specs::Words::kill_words))]
fn kill_bytes() -> &'static [u8]
    ensures { result.now ≡ kill_words }
{
    b"signal KILL to finish of "
}

// Adds the line of a signal: the moment, these words, and the name of the service, which is found
// in these rows.
fn push_signal_line<A: Allocator>(
    text: &mut Vec<u8, A>,
    now: At,
    rows: &[Row],
    sid: Sid,
    words: &[u8],
) -> Result<(), AllocError>
    ensures { OnOk result (text.new.items
        ≡ text.old.items ++ signal_line now rows.now sid words.now) }
{
    push_moment(text, now)?;
    text.extend_from_slice(words)?;
    push_service(text, rows, sid)?;
    text.extend_from_slice(b"\n")
}

// Adds the line of an order: what is to be started or signalled for which service. These rows name
// the service.
fn push_order<A: Allocator>(
    text: &mut Vec<u8, A>,
    now: At,
    rows: &[Row],
    order: &Order,
) -> Result<(), AllocError>
    ensures { OnOk result (text.new.items ≡ text.old.items ++ order_line now rows.now order.now) }
{
    match order {
        Order::Run(sid, _, _, _) => push_service_line(text, now, rows, *sid, b"to be started"),
        Order::Finish(sid, _, _, _, _) => {
            push_service_line(text, now, rows, *sid, b"finish to be started")
        }
        // The words of a signal have a number, so that the line is made here of its parts.
        Order::Signal(sid, _, signal) => {
            push_moment(text, now)?;
            push_signal_words(text, *signal)?;
            push_service(text, rows, *sid)?;
            text.extend_from_slice(b"\n")
        }
        Order::KillFinish(sid, _) => { push_signal_line(text, now, rows, *sid, kill_bytes()) }
    }
}

// Adds a line for each order. The rows are those of the last scan: they name its service.
fn push_orders<A: Allocator>(
    text: &mut Vec<u8, A>,
    now: At,
    rows: &[Row],
    orders: &[Order],
) -> Result<(), AllocError>
    ensures { OnOk result (text.new.items
        ≡ text.old.items ++ flat_map (order_line now rows.now) orders.now) }
{
    for order in orders {
        push_order(text, now, rows, order)?;
    }
    Ok(())
}

/// The word that stands before the serial of a subscription, with a space behind it.
#[tactic(auto, unfolding(crate::specs::Words::subscription_word))]
pub fn subscription_bytes() -> &'static [u8]
    ensures { result.now ≡ subscription_word }
{
    b"subscription "
}

// Adds the end of a match's line: the letter at which the text matched, or that the subscription
// gave up since the text grew too long.
fn push_hit<A: Allocator>(text: &mut Vec<u8, A>, hit: Hit) -> Result<(), AllocError>
    ensures { OnOk result (text.new.items ≡ text.old.items ++ hit_words hit) }
{
    match hit {
        Hit::Matched(letter) => {
            text.extend_from_slice(b" matched ")?;
            text.extend_from_slice(&[letter.byte(), b'\n'])
        }
        Hit::Overlong => text.extend_from_slice(b" gave up\n"),
    }
}

// Adds the line of a match: the moment, the subscription by its serial, and the letter at which its
// text matched.
fn push_match<A: Allocator>(text: &mut Vec<u8, A>, now: At, found: &Match) -> Result<(), AllocError>
    ensures { OnOk result (text.new.items ≡ text.old.items ++ match_line now found.now) }
{
    push_serial(text, now, subscription_bytes(), found.subscription.0)?;
    push_hit(text, found.hit)
}

// Adds a line for each match.
fn push_matches<A: Allocator>(
    text: &mut Vec<u8, A>,
    now: At,
    matched: &[Match],
) -> Result<(), AllocError>
    ensures { OnOk result (text.new.items
        ≡ text.old.items ++ flat_map (match_line now) matched.now) }
{
    for found in matched {
        push_match(text, now, found)?;
    }
    Ok(())
}

// The words of a waiter's verdict, with which the line of its release ends.
fn verdict_bytes(verdict: Verdict) -> &'static [u8]
    ensures { result.now ≡ verdict_words verdict }
{
    match verdict {
        Verdict::Held => b" released: as wanted\n",
        Verdict::Failed => b" released: failed\n",
        Verdict::Gone => b" released: gone\n",
        Verdict::TimedOut => b" released: timed out\n",
    }
}

// Adds the line of a release: the moment, the waiter by its serial, and how its wait ended (its
// verdict).
fn push_release<A: Allocator>(
    text: &mut Vec<u8, A>,
    now: At,
    release: &Release,
) -> Result<(), AllocError>
    ensures { OnOk result (text.new.items ≡ text.old.items ++ release_line now release.now) }
{
    push_serial(text, now, b"wait ", release.waiter.0)?;
    text.extend_from_slice(verdict_bytes(release.verdict))
}

// Adds a line for each release.
fn push_releases<A: Allocator>(
    text: &mut Vec<u8, A>,
    now: At,
    released: &[Release],
) -> Result<(), AllocError>
    ensures { OnOk result (text.new.items
        ≡ text.old.items ++ flat_map (release_line now) released.now) }
{
    for release in released {
        push_release(text, now, release)?;
    }
    Ok(())
}

/// Adds a line for each event, then for each order, match and release of a step, each kind in the
/// order in which they were made. `cause` is what the act told; services are named by these rows.
/// An error where memory is refused.
pub fn push_effect<A: Allocator>(
    text: &mut Vec<u8, A>,
    now: At,
    rows: &[Row],
    cause: Cause,
    effect: &Effect<A>,
) -> Result<(), AllocError>
    ensures { OnOk result (text.new.items
        ≡ text.old.items ++ effect_lines now rows.now cause (outcome_of effect.now)) }
{
    push_events(text, now, rows, cause, effect.events.as_slice())?;
    push_orders(text, now, rows, effect.orders.as_slice())?;
    push_matches(text, now, effect.matched.as_slice())?;
    push_releases(text, now, effect.released.as_slice())
}
