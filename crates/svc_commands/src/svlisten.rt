//! The words of `s6-svlisten`, up to its program.
ghost use Rattle.std.specs.Prelude.{◌≡◌, ◌<◌, ◌≤◌, Some, IfOk, IfSome, MatchResult, codes, length, map, position, unwrap_or};
ghost use Rattle.std.specs.Str.{bytes_eq};
ghost use Rattle.clap.specs.Words.{app_of};
ghost use Rattle.svc_commands.specs.FirstFault.{wait_fault, IsTaken, IsRefusal};
ghost use Rattle.svc_commands.specs.LineCommands.{IsWaitCommand};
ghost use Rattle.svc_commands.specs.Matches.{listen_app, rows_for, kinds_for, own_words, program_words};
ghost use Rattle.svc_commands.specs.RowsGiven.{is_empty};

use crate::matches::{bare_command, matches_in, with_flag, with_names, with_wait_options};
use crate::svwait::{WaitCommand, wait_command};
use crate::usage_fault::UsageFault;
use clap::Command;
use std::alloc::{AllocError, Global};

/// A wait, and the program that is started once the waiter is made: its own name first, then its
/// arguments. Page `s6-svlisten`.
#[derive(Debug, Drop)]
pub struct ListenCommand<'a> {
    pub wait: WaitCommand,
    pub program: &'a [&'a str],
}

/// Reads the words after `svlisten`. Those before the first `--` are read as `compile_svwait` reads
/// them, and may have `-r` or `-R` too; those after it are the program. The faults are those of
/// `compile_svwait`, in its order; Missing also where there is no program. Page `s6-svlisten`; the
/// cut, `-r` and `-R` are chosen here.
#[tactic(auto, using(crate::proofs::Parses::listen_is_simple))]
pub fn compile_svlisten<'a>(
    alloc: Global,
    words: &'a [&'a str],
) -> Result<ListenCommand<'a>, UsageFault>
    ensures { let texts = map (λ w. w.now) words.entry.now in
        let rows = rows_for listen_app (own_words texts) in
        let kinds = kinds_for listen_app (own_words texts) in
        let told = wait_fault (is_empty (program_words texts)) rows in
        MatchResult result (λ command. IsTaken kinds told × IsWaitCommand rows command.wait
        × (map (λ w. w.now) command.program.now ≡ program_words texts)) (IsRefusal kinds told) }
{
    let Ok(command) = svlisten_command(alloc) else {
        return Err(UsageFault::NoMemory);
    };
    // The words of svlisten itself.
    let own = before_dashes(words);
    let program = after_dashes(words);
    let matches = matches_in(command, own)?;
    // A missing program is a fault that is looked for among those of the wait, so `wait_command` is
    // told of it.
    let wait = wait_command(&matches, has_no_word(program))?;
    Ok(ListenCommand { wait, program })
}

// The command line up to `--`, as `clap` sees it: the options of svwait, `-r` and `-R`, and names.
#[tactic(auto, unfolding(crate::specs::Matches::listen_app))]
fn svlisten_command<'a>(alloc: Global) -> Result<Command<'a>, AllocError>
    ensures { IfOk result (λ r. app_of r ≡ listen_app) }
{
    let command = bare_command(alloc, "svlisten");
    let command = with_wait_options(alloc, command)?;
    let command = with_flag(alloc, command, "r", 'r')?;
    let command = with_flag(alloc, command, "R", 'R')?;
    with_names(alloc, command)
}

// Whether there is no word behind `--`, so that `svlisten` has no program to start. `words` are the
// words of that program.
fn has_no_word(words: &[&str]) -> bool
    ensures { result ≡ is_empty (map (λ w. w.now) words.now) }
{
    words.is_empty()
}

// The words before the first `--`.
fn before_dashes<'a>(words: &'a [&'a str]) -> &'a [&'a str]
    ensures { map (λ w. w.now) result.now ≡ own_words (map (λ w. w.now) words.entry.now) }
{
    &words[..cut_at(words)]
}

// The words after the first `--`; none where there is no `--`.
fn after_dashes<'a>(words: &'a [&'a str]) -> &'a [&'a str]
    ensures { map (λ w. w.now) result.now ≡ program_words (map (λ w. w.now) words.entry.now) }
{
    let at = cut_at(words);
    if at < words.len() {
        &words[at + 1..]
    } else {
        &words[at..]
    }
}

// The place of the first `--`, or the end. The words before it are options and names; those behind
// it are the program that is run.
fn cut_at(words: &[&str]) -> usize
    ensures place { result ≡ unwrap_or (position (λ w. bytes_eq w.now (codes "--")) words.now)
        (length words.now) }
    ensures bound { result ≤ length words.now }
{
    match first_dashes(words) {
        Some(at) => at,
        None => words.len(),
    }
}

// The place of the first `--`, which stands between the words of `svlisten` and those of its
// program; None where there is none.
fn first_dashes(words: &[&str]) -> Option<usize>
    ensures place { result ≡ position (λ w. bytes_eq w.now (codes "--")) words.now }
    ensures bound { IfSome result (λ at. at < length words.now) }
{
    words.iter().position(|word| is_dashes(word))
}

// Whether a word is `--`, which ends the words of `svlisten` itself where it comes first.
fn is_dashes(word: &str) -> bool
    ensures { result ≡ bytes_eq word.now (codes "--") }
{
    word == "--"
}
