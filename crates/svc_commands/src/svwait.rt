//! The words of `s6-svwait`.
ghost use Rattle.std.specs.Prelude.{◌≡◌, true, false, None, Some, IfOk, MatchResult, map};
ghost use Rattle.clap.specs.Words.{app_of, rows_of, found_of};
ghost use Rattle.svc_commands.specs.FirstFault.{wait_fault, IsTaken, IsRefusal};
ghost use Rattle.svc_commands.specs.LineCommands.{IsWaitCommand};
ghost use Rattle.svc_commands.specs.Matches.{wait_app, rows_for, kinds_for};
ghost use Rattle.svc_commands.specs.RowsGiven.{condition_count, condition_of, mode_count, mode_of};
ghost use Rattle.svc_commands.specs.RowsGiven.{timeout_given, timeout_of, is_bad_number};

use crate::matches::{
    bare_command, matches_in, name_words, number_in, with_names, with_wait_options,
};
use crate::names::{WaitNames, names_in};
use crate::usage_fault::UsageFault;
use clap::{ArgMatches, Command};
use s6_events::{Condition, Mode};
use std::alloc::{AllocError, Global};

/// What is waited for. `timeout` is in milliseconds; 0 means no timeout. Page `s6-svwait`.
#[derive(Debug, Drop)]
pub struct WaitCommand {
    pub condition: Condition,
    pub mode: Mode,
    pub timeout: u32,
    pub names: WaitNames,
}

/// Reads the words after `svwait`: `-u`, `-U`, `-d` or `-D`, `-a` or `-o`, `-t` with milliseconds,
/// and 1 to 16 names; by default up, all and no timeout. Unknown where `clap` refuses the words.
/// Else the fault is the first of these: TooMany where there are two conditions or two modes,
/// BadNumber where the timeout is no number, Missing where there is no name, BadName where a name
/// is none, TooMany where there is a 17th name. NoMemory where memory is refused. Page `s6-svwait`;
/// the order of the faults is chosen here.
#[tactic(auto, using(crate::proofs::Parses::wait_is_simple))]
pub fn compile_svwait<'a>(alloc: Global, words: &'a [&'a str]) -> Result<WaitCommand, UsageFault>
    ensures { let texts = map (λ w. w.now) words.entry.now in
        let rows = rows_for wait_app texts in
        let kinds = kinds_for wait_app texts in
        MatchResult result
        (λ command. IsTaken kinds (wait_fault false rows) × IsWaitCommand rows command)
        (IsRefusal kinds (wait_fault false rows)) }
{
    let Ok(command) = svwait_command(alloc) else {
        return Err(UsageFault::NoMemory);
    };
    let matches = matches_in(command, words)?;
    // svwait starts no program, so that none is lacking (`false`).
    wait_command(&matches, false)
}

// The command line, as `clap` sees it: options and names.
#[tactic(auto, unfolding(crate::specs::Matches::wait_app))]
fn svwait_command<'a>(alloc: Global) -> Result<Command<'a>, AllocError>
    ensures { IfOk result (λ r. app_of r ≡ wait_app) }
{
    let command = bare_command(alloc, "svwait");
    let command = with_wait_options(alloc, command)?;
    with_names(alloc, command)
}

// The command that the matches of svwait or svlisten say, or the first fault: its lines are in the
// order of the faults. `lacks_program`: svlisten was given no program.
pub(crate) fn wait_command(
    matches: &ArgMatches<'_>,
    lacks_program: bool,
) -> Result<WaitCommand, UsageFault>
    ensures { let rows = rows_of (found_of matches.now) in
        MatchResult result
        (λ command. (wait_fault lacks_program rows ≡ None) × IsWaitCommand rows command)
        (λ fault. wait_fault lacks_program rows ≡ Some fault) }
{
    if conditions(matches) > 1 || modes(matches) > 1 {
        return Err(UsageFault::TooMany);
    }
    let timeout = timeout(matches)?;
    let Some(words) = name_words(matches) else {
        return Err(UsageFault::Missing);
    };
    if lacks_program || words.is_empty() {
        return Err(UsageFault::Missing);
    }
    let names = names_in(words)?;
    Ok(WaitCommand {
        condition: condition(matches),
        mode: mode(matches),
        timeout,
        names,
    })
}

// How often the options are given in all that say what is waited for: `-u`, `-U`, `-d`, `-D`, and
// for svlisten `-r` and `-R`, of which svwait counts none. More than one is refused.
fn conditions(matches: &ArgMatches<'_>) -> u32
    ensures { result ≡ condition_count (rows_of (found_of matches.now)) }
{
    matches.get_count("u") as u32
        + matches.get_count("U") as u32
        + matches.get_count("d") as u32
        + matches.get_count("D") as u32
        + matches.get_count("r") as u32
        + matches.get_count("R") as u32
}

// How often the options are given in all that say of how many services the condition has to hold:
// `-a` and `-o`. More than one is refused.
fn modes(matches: &ArgMatches<'_>) -> u32
    ensures { result ≡ mode_count (rows_of (found_of matches.now)) }
{
    matches.get_count("a") as u32 + matches.get_count("o") as u32
}

// What is waited for, by the option that is given; without one, that the services are up. More than
// one option was refused before.
fn condition(matches: &ArgMatches<'_>) -> Condition
    ensures { result ≡ condition_of (rows_of (found_of matches.now)) }
{
    if matches.get_count("U") > 0 {
        Condition::Ready
    } else if matches.get_count("d") > 0 {
        Condition::Down
    } else if matches.get_count("D") > 0 {
        Condition::Finished
    } else if matches.get_count("r") > 0 {
        Condition::Restarted
    } else if matches.get_count("R") > 0 {
        Condition::RestartedReady
    } else {
        Condition::Up
    }
}

// Of how many services the condition has to hold, by the option that is given: of one with `-o`,
// else of all of them.
fn mode(matches: &ArgMatches<'_>) -> Mode
    ensures { result ≡ mode_of (rows_of (found_of matches.now)) }
{
    if matches.get_count("o") > 0 {
        Mode::One
    } else {
        Mode::All
    }
}

// The timeout in milliseconds, 0 where none was given.
fn timeout(matches: &ArgMatches<'_>) -> Result<u32, UsageFault>
    ensures { let rows = rows_of (found_of matches.now) in
        MatchResult result
        (λ timeout. (is_bad_number (timeout_given rows) ≡ false) × (timeout ≡ timeout_of rows))
        (λ fault. (is_bad_number (timeout_given rows) ≡ true) × (fault ≡ UsageFault.BadNumber)) }
{
    Ok(number_in(matches, "t")?.unwrap_or(0))
}
