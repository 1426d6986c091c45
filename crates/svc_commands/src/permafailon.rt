//! The words of `s6-permafailon`.
ghost use Rattle.std.specs.Prelude.{◌≡◌, ◌⊎◌, true, false, None, Some, IfOk, MatchResult, map, option_and_then};
ghost use Rattle.clap.specs.Words.{app_of, rows_of, found_of};
ghost use Rattle.death_tally.specs.DeathList.{death_list};
ghost use Rattle.svc_commands.specs.FirstFault.{permafail_fault, IsTaken, IsRefusal};
ghost use Rattle.svc_commands.specs.LineCommands.{IsPermafailCommand};
ghost use Rattle.svc_commands.specs.Matches.{permafail_app, rows_for, kinds_for};
ghost use Rattle.svc_commands.specs.RowsGiven.{exits_given, are_bad_exits};

use crate::matches::{bare_command, matches_in, number_in, text_of, with_word};
use crate::names::name_of;
use crate::usage_fault::UsageFault;
use clap::{ArgMatches, Command};
use death_tally::DeathList;
use s6_events::Name;
use std::alloc::{AllocError, Global};

/// What is asked of the deaths of a service: whether at least `count` of them are named by `list`
/// and no longer ago than `secs` seconds. Page `s6-permafailon`.
#[derive(Debug, Drop)]
pub struct PermafailCommand {
    pub name: Name,
    pub secs: u32,
    pub count: u32,
    pub list: DeathList,
}

/// Reads the words after `permafailon`: a name, seconds, a count and a list of exits, in this
/// order. Unknown where `clap` refuses the words, as it does a fifth one. Else the fault is the
/// first of these: BadNumber where the seconds or the count are no number, BadList where
/// `DeathList::parse` does not take the list, Missing where there are fewer than four words,
/// BadName where the name is none. NoMemory where memory is refused. Page `s6-permafailon`; the
/// name in front and the order of the faults are chosen here.
#[tactic(auto, using(crate::proofs::Parses::permafail_is_simple))]
pub fn compile_permafailon<'a>(
    alloc: Global,
    words: &'a [&'a str],
) -> Result<PermafailCommand, UsageFault>
    ensures { let texts = map (λ w. w.now) words.entry.now in
        let rows = rows_for permafail_app texts in
        let kinds = kinds_for permafail_app texts in
        MatchResult result
        (λ command. IsTaken kinds (permafail_fault rows) × IsPermafailCommand rows command)
        (IsRefusal kinds (permafail_fault rows)) }
{
    let Ok(command) = permafailon_command(alloc) else {
        return Err(UsageFault::NoMemory);
    };
    let matches = matches_in(command, words)?;
    permafail_command(alloc, &matches)
}

// The command line, as `clap` sees it: four words, each with the id by which it is looked up later.
// They ask whether the service `name` died at least `count` times in the last `secs` seconds by one
// of the exits of `list`.
#[tactic(auto, unfolding(crate::specs::Matches::permafail_app))]
fn permafailon_command<'a>(alloc: Global) -> Result<Command<'a>, AllocError>
    ensures { IfOk result (λ r. app_of r ≡ permafail_app) }
{
    let command = bare_command(alloc, "permafailon");
    let command = with_word(alloc, command, "name")?;
    let command = with_word(alloc, command, "secs")?;
    let command = with_word(alloc, command, "count")?;
    with_word(alloc, command, "list")
}

// The command that the matches say, or the first fault.
fn permafail_command(
    alloc: Global,
    matches: &ArgMatches<'_>,
) -> Result<PermafailCommand, UsageFault>
    ensures { let rows = rows_of (found_of matches.now) in
        MatchResult result
        (λ command. (permafail_fault rows ≡ None) × IsPermafailCommand rows command)
        (λ fault. (fault ≡ UsageFault.NoMemory) ⊎ (permafail_fault rows ≡ Some fault)) }
{
    // These lines are in the order of the faults: what is no number or no list, then what is
    // missing, then a name that is none.
    let secs = number_in(matches, "secs")?;
    let count = number_in(matches, "count")?;
    let list = exits_in(alloc, matches)?;
    let name = text_of(matches, "name").ok_or(UsageFault::Missing)?;
    let secs = secs.ok_or(UsageFault::Missing)?;
    let count = count.ok_or(UsageFault::Missing)?;
    let list = list.ok_or(UsageFault::Missing)?;
    let name = name_of(name.as_bytes())?;
    Ok(PermafailCommand {
        name,
        secs,
        count,
        list,
    })
}

// The list of exits; None where none was given, BadList where the word is no such list.
fn exits_in(alloc: Global, matches: &ArgMatches<'_>) -> Result<Option<DeathList>, UsageFault>
    ensures { let given = exits_given (rows_of (found_of matches.now)) in
        MatchResult result
        (λ list. (are_bad_exits given ≡ false) × (list ≡ option_and_then death_list given))
        (λ fault. (fault ≡ UsageFault.NoMemory)
        ⊎ ((are_bad_exits given ≡ true) × (fault ≡ UsageFault.BadList))) }
{
    match text_of(matches, "list") {
        Some(text) => Ok(Some(exits_written(alloc, text.as_bytes())?)),
        None => Ok(None),
    }
}

// The list of exits that a text spells; BadList where it spells none.
fn exits_written(alloc: Global, text: &[u8]) -> Result<DeathList, UsageFault>
    ensures { MatchResult result (λ list. death_list text.now ≡ Some list)
        (λ fault. (fault ≡ UsageFault.NoMemory)
        ⊎ ((death_list text.now ≡ None) × (fault ≡ UsageFault.BadList))) }
{
    match DeathList::parse(alloc, text) {
        Ok(Some(list)) => Ok(list),
        Ok(None) => Err(UsageFault::BadList),
        Err(_) => Err(UsageFault::NoMemory),
    }
}
