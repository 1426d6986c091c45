//! The words of `s6-svstat`.
ghost use Rattle.std.specs.Prelude.{◌≡◌, ◌⊎◌, ◌++◌, ◌∷◌, [], true, false, None, Some, IfOk, MatchResult, find, map};
ghost use Rattle.std.specs.Str.{bytes_eq};
ghost use Rattle.clap.specs.Words.{app_of, rows_of, found_of};
ghost use Rattle.svc_commands.specs.Fields.{field_name, field_named};
ghost use Rattle.svc_commands.specs.FirstFault.{stat_fault, IsTaken, IsRefusal};
ghost use Rattle.svc_commands.specs.LineCommands.{IsStatCommand};
ghost use Rattle.svc_commands.specs.Matches.{stat_app, rows_for, kinds_for};
ghost use Rattle.svc_commands.specs.RowsGiven.{items_in, fields_in, is_bad_list};

use crate::matches::{bare_command, matches_in, text_of, with_option, with_word};
use crate::names::name_of;
use crate::usage_fault::UsageFault;
use clap::{ArgMatches, Command};
use s6_events::{Field, Name};
use std::alloc::{AllocError, Global};

/// The fields, in the order of a row.
const FIELDS: [Field; 10] = [
    Field::Up,
    Field::WantedUp,
    Field::NormallyUp,
    Field::Ready,
    Field::Paused,
    Field::Pid,
    Field::ExitCode,
    Field::Signal,
    Field::UpDownFor,
    Field::ReadyFor,
];

/// What is asked of a service: `fields`, in the order written, each as often as it was written.
/// Page `s6-svstat`.
#[derive(Debug, Drop)]
pub struct StatCommand {
    pub name: Name,
    pub fields: Vec<Field>,
}

/// Reads the words after `svstat`: `-o` with a list of fields, a comma between two of them, and one
/// name. Unknown where `clap` refuses the words, as it does a second name. Else the fault is the
/// first of these: BadList where an item is no field, Missing where there is no list or no name,
/// BadName where the name is none. NoMemory where memory is refused. Page `s6-svstat`; the ten
/// fields and the order of the faults are chosen here.
#[tactic(auto, using(crate::proofs::Parses::stat_is_simple))]
pub fn compile_svstat<'a>(alloc: Global, words: &'a [&'a str]) -> Result<StatCommand, UsageFault>
    ensures { let texts = map (λ w. w.now) words.entry.now in
        let rows = rows_for stat_app texts in
        let kinds = kinds_for stat_app texts in
        MatchResult result (λ command. IsTaken kinds (stat_fault rows) × IsStatCommand rows command)
        (IsRefusal kinds (stat_fault rows)) }
{
    let Ok(command) = svstat_command(alloc) else {
        return Err(UsageFault::NoMemory);
    };
    let matches = matches_in(command, words)?;
    stat_command(alloc, &matches)
}

// The command line, as `clap` sees it: `-o` with its list, and a name.
#[tactic(auto, unfolding(crate::specs::Matches::stat_app))]
fn svstat_command<'a>(alloc: Global) -> Result<Command<'a>, AllocError>
    ensures { IfOk result (λ r. app_of r ≡ stat_app) }
{
    let command = bare_command(alloc, "svstat");
    let command = with_option(alloc, command, "o", 'o')?;
    with_word(alloc, command, "name")
}

// The command that the matches say, or the first fault: its lines are in the order of the faults.
fn stat_command(alloc: Global, matches: &ArgMatches<'_>) -> Result<StatCommand, UsageFault>
    ensures { let rows = rows_of (found_of matches.now) in
        MatchResult result (λ command. (stat_fault rows ≡ None) × IsStatCommand rows command)
        (λ fault. (fault ≡ UsageFault.NoMemory) ⊎ (stat_fault rows ≡ Some fault)) }
{
    let Some(list) = text_of(matches, "o") else {
        return Err(UsageFault::Missing);
    };
    let fields = fields_of(alloc, list.as_bytes())?;
    let Some(name) = text_of(matches, "name") else {
        return Err(UsageFault::Missing);
    };
    let name = name_of(name.as_bytes())?;
    Ok(StatCommand { name, fields })
}

// The fields of a list. BadList where an item is no field.
fn fields_of(alloc: Global, list: &[u8]) -> Result<Vec<Field>, UsageFault>
    ensures { MatchResult result
        (λ fields. (is_bad_list (Some list.now) ≡ false) × (fields.items ≡ fields_in list.now))
        (λ fault. (fault ≡ UsageFault.NoMemory)
        ⊎ ((is_bad_list (Some list.now) ≡ true) × (fault ≡ UsageFault.BadList))) }
{
    let Ok(items) = items_of(alloc, list) else {
        return Err(UsageFault::NoMemory);
    };
    let mut fields = Vec::new(alloc);
    for item in &items {
        let field = listed(item)?;
        add_field(&mut fields, field)?;
    }
    Ok(fields)
}

// An item of a list as a field. BadList where it is none.
fn listed(item: &[u8]) -> Result<Field, UsageFault>
    ensures { MatchResult result (λ field. field_named item.now ≡ Some field)
        (λ fault. (field_named item.now ≡ None) × (fault ≡ UsageFault.BadList)) }
{
    field_of(item).ok_or(UsageFault::BadList)
}

// Adds one more field to those that `svstat` is to print of a service; NoMemory where memory is
// refused.
fn add_field(fields: &mut Vec<Field>, field: Field) -> Result<(), UsageFault>
    ensures { MatchResult result (λ _. fields.new.items ≡ fields.old.items ++ field ∷ [])
        (λ fault. fault ≡ UsageFault.NoMemory) }
{
    fields.push(field).map_err(|_| UsageFault::NoMemory)
}

// The items of a list of fields: the texts between its commas.
fn items_of<'a>(alloc: Global, list: &'a [u8]) -> Result<Vec<&'a [u8]>, AllocError>
    ensures { IfOk result (λ items. map (λ i. i.now) items.items ≡ items_in list.entry.now) }
{
    list.split(|byte| *byte == b',').collect(alloc)
}

// The field of a status row that is asked for by this name, as `wantedup`; None where there is
// none.
#[tactic(auto, unfolding(crate::specs::Fields::field_named))]
fn field_of(word: &[u8]) -> Option<Field>
    ensures { result ≡ field_named word.now }
{
    among(FIELDS.as_slice(), word)
}

// The first of these fields that is asked for by this name.
fn among(fields: &[Field], word: &[u8]) -> Option<Field>
    ensures { result ≡ find (λ field. bytes_eq (field_name field) word.now) fields.now }
{
    fields
        .iter()
        .copied()
        .find(|field| name_of_field(*field).as_bytes() == word)
}

// The name by which a field is asked for.
fn name_of_field(field: Field) -> &'static str
    ensures { result.now ≡ field_name field }
{
    match field {
        Field::Up => "up",
        Field::WantedUp => "wantedup",
        Field::NormallyUp => "normallyup",
        Field::Ready => "ready",
        Field::Paused => "paused",
        Field::Pid => "pid",
        Field::ExitCode => "exitcode",
        Field::Signal => "signum",
        Field::UpDownFor => "updownfor",
        Field::ReadyFor => "readyfor",
    }
}
