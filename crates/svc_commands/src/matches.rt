//! What svwait, svlisten, svstat and permafailon have in common: a simple command of `clap`, and
//! its matches.
ghost use Rattle.std.specs.Prelude.{◌≡◌, [], true, false, None, Some, IfOk, MatchResult, map, codes, option_map, option_and_then};
ghost use Rattle.clap.specs.Words.{app_of, with_rule, rows_of, found_of, first_of, all_of};
ghost use Rattle.svc_commands.specs.Matches.{flag_rule, option_rule, names_rule, word_rule, plain_app, with_wait_rules, is_simple_app, rows_for, kinds_for};
ghost use Rattle.svc_commands.specs.RowsGiven.{is_bad_number};
ghost use Rattle.servicedir.specs.Number.{number_of};
ghost use Rattle.svc_commands.specs.Kinds.{usage_of, IsUsageFault};

use crate::usage_fault::UsageFault;
use clap::error::ErrorKind;
use clap::{Arg, ArgAction, ArgMatches, Command};
use servicedir::parse_number;
use std::alloc::{AllocError, Global};

// A command with no option, and with no help of its own. The words that it is given do not begin
// with the name of the program.
pub fn bare_command<'a>(alloc: Global, name: &'a str) -> Command<'a>
    ensures { app_of result ≡ plain_app name.entry.now }
{
    Command::new(alloc, name)
        .no_binary_name(true)
        .disable_help_flag(true)
}

// The command with one more option: a letter, of which `clap` counts how often it is given.
pub fn with_flag<'a>(
    alloc: Global,
    command: Command<'a>,
    id: &'a str,
    letter: char,
) -> Result<Command<'a>, AllocError>
    ensures { IfOk result (λ r. app_of r
        ≡ with_rule (app_of command.entry) (flag_rule id.entry.now letter)) }
{
    let flag = Arg::new(alloc, id).short(letter).action(ArgAction::Count);
    command.arg(flag)
}

// The command with one more option: a letter with a value.
pub fn with_option<'a>(
    alloc: Global,
    command: Command<'a>,
    id: &'a str,
    letter: char,
) -> Result<Command<'a>, AllocError>
    ensures { IfOk result (λ r. app_of r
        ≡ with_rule (app_of command.entry) (option_rule id.entry.now letter)) }
{
    let option = Arg::new(alloc, id).short(letter).action(ArgAction::Set);
    command.arg(option)
}

// The command with any number of positional arguments, which are the names.
pub fn with_names<'a>(alloc: Global, command: Command<'a>) -> Result<Command<'a>, AllocError>
    ensures { IfOk result (λ r. app_of r ≡ with_rule (app_of command.entry) names_rule) }
{
    let names = Arg::new(alloc, "names").action(ArgAction::Append);
    command.arg(names)
}

// The command with one more positional argument: a word, which is looked up later by `id`.
pub fn with_word<'a>(
    alloc: Global,
    command: Command<'a>,
    id: &'a str,
) -> Result<Command<'a>, AllocError>
    ensures { IfOk result (λ r. app_of r
        ≡ with_rule (app_of command.entry) (word_rule id.entry.now)) }
{
    let word = Arg::new(alloc, id).action(ArgAction::Set);
    command.arg(word)
}

// The command with the options that svwait and svlisten have in common: what is waited for (`u` up,
// `U` up and ready, `d` down, `D` down with `finish` ended), of how many services (`a` all, `o`
// one), and the timeout (`t`).
pub fn with_wait_options<'a>(alloc: Global, command: Command<'a>) -> Result<Command<'a>, AllocError>
    ensures { IfOk result (λ r. app_of r ≡ with_wait_rules (app_of command.entry)) }
{
    let command = with_flag(alloc, command, "u", 'u')?;
    let command = with_flag(alloc, command, "U", 'U')?;
    let command = with_flag(alloc, command, "d", 'd')?;
    let command = with_flag(alloc, command, "D", 'D')?;
    let command = with_flag(alloc, command, "a", 'a')?;
    let command = with_flag(alloc, command, "o", 'o')?;
    with_option(alloc, command, "t", 't')
}

// The fault for an error of `clap`: NoMemory where memory was refused, else Unknown.
fn usage(kind: ErrorKind) -> UsageFault
    ensures { result ≡ usage_of kind }
{
    match kind {
        ErrorKind::OutOfMemory => UsageFault::NoMemory,
        _ => UsageFault::Unknown,
    }
}

// What `clap` finds in the words (its matches); a fault where it does not take them.
pub fn matches_in<'a>(
    command: Command<'a>,
    words: &'a [&'a str],
) -> Result<ArgMatches<'a>, UsageFault>
    requires { is_simple_app (app_of command) ≡ true }
    ensures rows { IfOk result (λ m. rows_of (found_of m)
        ≡ rows_for (app_of command.entry) (map (λ w. w.now) words.entry.now)) }
    ensures kinds { MatchResult result
        (λ _. kinds_for (app_of command.entry) (map (λ w. w.now) words.entry.now) ≡ [])
        (IsUsageFault (kinds_for (app_of command.entry) (map (λ w. w.now) words.entry.now))) }
{
    match command.try_get_matches_from(words) {
        Ok(matches) => Ok(matches),
        Err(error) => Err(usage(error.kind())),
    }
}

// The value of the option, or the positional argument, of this id, as the words have it; None where
// it was not given.
pub fn text_of<'a>(matches: &ArgMatches<'a>, id: &str) -> Option<&'a str>
    ensures { option_map (λ s. s.now) result ≡ first_of id.now (rows_of (found_of matches.now)) }
{
    matches.get_str(id)
}

// The value of the option, or the positional argument, of this id as a number; None where it was
// not given. BadNumber where it is no number.
pub fn number_in(matches: &ArgMatches<'_>, id: &str) -> Result<Option<u32>, UsageFault>
    ensures { let given = first_of id.now (rows_of (found_of matches.now)) in
        MatchResult result
        (λ number. (is_bad_number given ≡ false) × (number ≡ option_and_then number_of given))
        (λ fault. (is_bad_number given ≡ true) × (fault ≡ UsageFault.BadNumber)) }
{
    match text_of(matches, id) {
        Some(text) => Ok(Some(number_written(text.as_bytes())?)),
        None => Ok(None),
    }
}

// The number from 0 to 4294967295 that a text spells in digits; BadNumber where it spells none.
fn number_written(text: &[u8]) -> Result<u32, UsageFault>
    ensures { MatchResult result (λ number. number_of text.now ≡ Some number)
        (λ fault. (number_of text.now ≡ None) × (fault ≡ UsageFault.BadNumber)) }
{
    parse_number(text).ok_or(UsageFault::BadNumber)
}

// The names that were given; None where there was none.
pub fn name_words<'m, 'a>(matches: &'m ArgMatches<'a>) -> Option<&'m [&'a str]>
    ensures { option_map (λ s. map (λ v. v.now) s.now) result
        ≡ all_of (codes "names") (rows_of (found_of matches.entry.now)) }
{
    matches.get_strs("names")
}
