//! The limits within which an act has a spelling. Where a type keeps a limit by itself, the
//! function that looks for it is there for the proof.
ghost use Rattle.std.specs.Prelude.{◌≡◌, ◌<◌, ◌≤◌, ◌^◌, All, IsTrue, IfSome, length, nat_le, ◌&&◌};
ghost use Rattle.std.specs.List.{list_all};
ghost use Rattle.hex.specs.Hex.{IsBytes};
ghost use Rattle.event_directory.specs.Pattern.{is_pattern_text};
ghost use Rattle.s6_events.specs.At.{last_moment};
ghost use Rattle.s6_events.specs.Name.{is_name};
ghost use Rattle.servicedir.specs.Config.{is_served};
ghost use Rattle.tree_core.specs.Plain.{act_of};
ghost use Rattle.s6_script.specs.DeathList.{IsItem, IsDeathList};
ghost use Rattle.s6_script.specs.Options.{IsConfig, IsEntry};
ghost use Rattle.s6_script.specs.Spelling.{IsAct, IsExit, IsSpelt};
ghost use Rattle.s6_script.specs.Telling.{Tells};
ghost use Rattle.s6_script.specs.Verb.{target_name};

use death_tally::DeathItem;
use event_directory::Message;
use s6_events::{Actor, At, Exit, Name};
use servicedir::Config;
use std::alloc::Allocator;
use tree_core::{Entry, PlainAct, PlainInput, Target};

/// The greatest process number.
const PID_LIMIT: u32 = 2_147_483_647;

// Whether a script can spell how a program ended: by any code, or by a signal of at most 64.
fn is_exit(exit: Exit) -> bool
    ensures { Tells result (IsExit exit) }
{
    match exit {
        Exit::Code(_) => true,
        Exit::Killed(signal) => signal <= 64,
    }
}

// Whether a script can spell this item of a list of exits: a code, a range whose end is not below
// its beginning, or a signal from 1 to 31, which have names.
fn is_item(item: &DeathItem) -> bool
    ensures { Tells result (IsItem item.now) }
{
    match *item {
        DeathItem::Code(code) => code <= u8::MAX,
        DeathItem::Range(low, high) => low <= high,
        DeathItem::Signal(number) => 1 <= number && number <= 31,
    }
}

// Whether a script can spell each of these items of a list of exits.
fn are_items(items: &[DeathItem]) -> bool
    ensures { Tells result (All IsItem items.now) }
{
    for item in items {
        if !is_item(item) {
            return false;
        }
    }
    true
}

// Whether a script can spell this list of exits: it has 1 to 32 items, and can spell each.
fn is_death_list(items: &[DeathItem]) -> bool
    ensures { Tells result (IsDeathList items.now) }
{
    if items.is_empty() || items.len() > 32 {
        return false;
    }
    are_items(items)
}

// Whether there is no descriptor, or one on which a daemon may say that it is ready: 1, or 3 to 9.
fn is_descriptor(descriptor: Option<u8>) -> bool
    ensures { Tells result (IfSome descriptor (λ fd. IsTrue (is_served fd))) }
{
    match descriptor {
        Some(number) => number == 1 || (3 <= number && number <= 9),
        None => true,
    }
}

// Whether a number of seconds, deaths or milliseconds has 32 bits; this one always has.
fn is_time(millis: u32) -> bool
    ensures { Tells result (millis ≤ 4294967295) }
{
    millis <= u32::MAX
}

// Whether a script can spell this configuration of a service: its descriptor, times, at most 4096
// deaths, and a signal from 1 to 64.
fn is_config(config: &Config) -> bool
    ensures { Tells result (IsConfig config.now) }
{
    if !is_descriptor(config.notification_fd)
        || !is_time(config.timeout_kill)
        || !is_time(config.timeout_finish)
    {
        return false;
    }
    if config.max_death_tally > 4096 || config.down_signal < 1 || config.down_signal > 64 {
        return false;
    }
    true
}

// Whether a name is valid; each `Name` is. The call of `as_bytes` is for the proof: it says of a
// name's bytes that they are valid.
fn is_named(name: &Name) -> bool
    ensures { Tells result (IsTrue (is_name name.now)) }
{
    let _bytes = name.as_bytes();
    true
}

// Whether each of these names is valid; each `Name` is.
fn are_named(names: &[Name]) -> bool
    ensures { Tells result (All (λ name. IsTrue (is_name name)) names.now) }
{
    for name in names {
        if !is_named(name) {
            return false;
        }
    }
    true
}

// Whether a serial or a generation has 64 bits; each has.
fn is_number(number: u64) -> bool
    ensures { Tells result (number < 2 ^ 64) }
{
    number <= u64::MAX
}

// Whether a script can spell this entry of a listing: its name, and the configuration of its
// service, if that was read.
fn is_entry(entry: &Entry) -> bool
    ensures { Tells result (IsEntry entry.now) }
{
    if !is_named(&entry.name) {
        return false;
    }
    match &entry.config {
        Some(config) => is_config(config),
        None => true,
    }
}

// Whether a script can spell each of these entries of a listing.
fn are_entries(entries: &[Entry]) -> bool
    ensures { Tells result (All IsEntry entries.now) }
{
    for entry in entries {
        if !is_entry(entry) {
            return false;
        }
    }
    true
}

// Whether this may be the text of a pattern: 1 to 256 bytes, each 0x20 to 0x7e.
#[tactic(auto, unfolding(event_directory::specs::Pattern::is_pattern_text))]
fn is_pattern(text: &str) -> bool
    ensures { result ≡ is_pattern_text text.now }
{
    if text.is_empty() || text.len() > 256 {
        return false;
    }
    are_printable(text.as_bytes())
}

// Whether each of these bytes is printable ASCII: 0x20, the space, to 0x7e.
fn are_printable(text: &[u8]) -> bool
    ensures { result ≡ list_all (λ b. nat_le 0x20 b && nat_le b 0x7E) text.now }
{
    text.iter().all(|b| 0x20 <= *b && *b <= 0x7e)
}

// Whether the serial and the generation by which a report names a start have 64 bits; both always
// have.
fn has_start_numbers(sid: u64, generation: u64) -> bool
    ensures { Tells result ((sid < 2 ^ 64) × (generation < 2 ^ 64)) }
{
    is_number(sid) && is_number(generation)
}

// Whether these are 1 to 64 bytes, as many as one notification has.
fn is_notice(bytes: &[u8]) -> bool
    ensures { Tells result ((1 ≤ length bytes.now) × (length bytes.now ≤ 64) × IsBytes bytes.now) }
{
    1 <= bytes.len() && bytes.len() <= 64
}

// Whether the name of the event directory that is meant is valid; each `Name` is.
fn is_target(target: &Target) -> bool
    ensures { Tells result (IsTrue (is_name (target_name target.now))) }
{
    match target {
        Target::Service(name) => is_named(name),
        Target::Directory(name) => is_named(name),
    }
}

// Whether an act is within the limits of a script. Where all of its parts are valid by their types,
// the call of a part's function is for the proof.
fn is_within<A: Allocator>(act: &PlainAct<A>) -> bool
    ensures { Tells result (IsAct (act_of act.now)) }
{
    match act {
        PlainAct::Scan(entries) => are_entries(entries.as_slice()),
        PlainAct::Svc(name, letters) => {
            is_named(name) && 1 <= letters.len() && letters.len() <= 63
        }
        PlainAct::Started(sid, generation, pid) => {
            has_start_numbers(sid.0, *generation) && 1 <= *pid && *pid <= PID_LIMIT
        }
        PlainAct::StartFailed(sid, generation) => has_start_numbers(sid.0, *generation),
        PlainAct::Notify(sid, generation, bytes) => {
            has_start_numbers(sid.0, *generation) && is_notice(bytes.as_slice())
        }
        PlainAct::Death(sid, generation, exit) => has_start_numbers(sid.0, *generation)
            && is_exit(*exit),
        PlainAct::FinishEnded(sid, generation, exit) => {
            has_start_numbers(sid.0, *generation) && is_exit(*exit)
        }
        PlainAct::Permafailon(name, seconds, count, items) => {
            is_named(name)
                && is_time(*seconds)
                && is_time(*count)
                && is_death_list(items.as_slice())
        }
        PlainAct::Wait(_, _, timeout, names) => is_time(*timeout) && are_named(names.as_slice()),
        PlainAct::Cancel(waiter) => is_number(waiter.0),
        PlainAct::Subscribe(target, pattern, _) => {
            is_target(target) && is_pattern(pattern.as_str())
        }
        PlainAct::Unsubscribe(subscription) => is_number(subscription.0),
        PlainAct::Send(target, letters) => {
            is_target(target) && Message::new(letters.as_slice()).is_some()
        }
        PlainAct::Status(name) => is_named(name),
        PlainAct::Tally(name) => is_named(name),
        PlainAct::MakeDir(name) => is_named(name),
        PlainAct::Scanctl(_) | PlainAct::Tick => true,
    }
}

// Whether a moment is valid; each `At` is. The call of `millis` is for the proof: it says that a
// moment is within its limit.
fn is_moment(at: At) -> bool
    ensures { Tells result (at ≤ last_moment) }
{
    let _millis = at.millis();
    true
}

// Whether an actor is valid; each `Actor` is. The call of `number` is for the proof: it says that
// an actor's number is at most 15.
fn is_actor(actor: Actor) -> bool
    ensures { Tells result (actor ≤ 15) }
{
    let _number = actor.number();
    true
}

/// Whether an input is within the limits of a script, and so has a spelling.
pub fn is_spelt<A: Allocator>(input: &PlainInput<A>) -> bool
    ensures { Tells result (IsSpelt input.now) }
{
    if !is_moment(input.at) || !is_actor(input.actor) {
        return false;
    }
    is_within(&input.act)
}
