//! Whether enough deaths whose exits a list names came within the last seconds.
ghost use Rattle.std.specs.Prelude.{◌≡◌, ◌≤◌, length, filter};
ghost use Rattle.death_tally.specs.PermanentFailure.{is_counted, are_permanent_failure};

use super::exit_list::DeathList;
use super::tally::Tally;
use s6_events::{At, Exit};
use std::alloc::Allocator;

// Whether a death counts: it is at most `seconds` seconds ago, and the list names its exit.
fn counts(death: &(At, Exit), now: At, seconds: u32, list: &DeathList) -> bool
    ensures { result ≡ is_counted now seconds list.now death.now }
{
    let (at, exit) = *death;
    now.millis() <= at.millis() + 1000 * u64::from(seconds) && list.names(exit)
}

// How many deaths count.
fn count_of(deaths: &[(At, Exit)], now: At, seconds: u32, list: &DeathList) -> u64
    ensures count { result ≡ length (filter (is_counted now seconds list.now) deaths.now) }
    ensures bound { result ≤ length deaths.now }
{
    let mut count = 0;
    for death in deaths {
        if counts(death, now, seconds, list) {
            count += 1;
        }
    }
    count
}

/// Whether there is a permanent failure: at least `count` deaths of the tally are at most `seconds`
/// seconds ago, and the list names their exits. A count of 0 is always met. Page `s6-permafailon`;
/// what a count of 0 means is this project's own rule.
pub fn permafails<A: Allocator + Copy>(
    tally: &Tally<A>,
    now: At,
    seconds: u32,
    count: u32,
    list: &DeathList,
) -> bool
    ensures { result ≡ are_permanent_failure now seconds count list.now tally.now.kept }
{
    // The two parts in which the deaths lie; together they are all that are kept.
    let (front, back) = tally.as_slices();
    let counted = count_of(front, now, seconds, list) + count_of(back, now, seconds, list);
    counted >= u64::from(count)
}
