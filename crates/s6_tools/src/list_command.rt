//! The words of `list` and `follow`, and which entries they ask for: an entry is a service, or a
//! directory that the last scan could not read.
ghost use Rattle.std.specs.Prelude.{◌≡◌, filter};
ghost use Rattle.s6_tools.specs.Listing.{is_among, is_asked, is_there, are_there};

use crate::tool_fault::ToolFault;
use s6_events::Name;
use std::alloc::Global;
use tool_lines::{ListEntry, Misuse};

/// What `list` or `follow` is asked for: the services of these names, or all where there is no
/// name; and whether lines are to be objects of JSON.
#[derive(Debug, Drop)]
pub struct ListCommand {
    pub is_json: bool,
    pub names: Vec<Name>,
}

/// Reads the words behind `list` or `follow`: options and names in any order. A word that begins
/// with `-` is an option; behind `--` each word is a name.
pub fn compile_list(alloc: Global, words: &[&str]) -> Result<ListCommand, ToolFault> {
    let mut command = ListCommand {
        is_json: false,
        names: Vec::new(alloc),
    };
    let mut are_options_over = false;
    for word in words {
        if are_options_over {
            command.add_name(word)?;
        } else if *word == "--" {
            are_options_over = true;
        } else {
            command.read_word(word)?;
        }
    }
    Ok(command)
}

impl ListCommand {
    // Takes a word that stands before any `--`: the option `--json`, or the name of a service.
    // Unknown for any other option, BadName where it is no name.
    fn read_word(&mut self, word: &str) -> Result<(), ToolFault> {
        if word == "--json" {
            self.is_json = true;
            return Ok(());
        }
        if word.starts_with('-') {
            return Err(ToolFault::Usage(Misuse::Unknown));
        }
        self.add_name(word)
    }

    // Adds a word to the names of the services that are asked for; BadName where it is no name,
    // NoMemory where memory is refused.
    fn add_name(&mut self, word: &str) -> Result<(), ToolFault> {
        let name = Name::new(word.as_bytes()).ok_or(ToolFault::Usage(Misuse::BadName))?;
        self.names.push(name).map_err(|_| ToolFault::NoMemory)
    }
}

/// Whether it is one of these names.
pub fn is_among(names: &[Name], name: &Name) -> bool
    ensures { result ≡ is_among names.now name.now }
{
    names.iter().any(|known| known == name)
}

// Whether a service is asked for.
fn is_asked(names: &[Name], entry: &ListEntry) -> bool
    ensures { result ≡ is_asked names.now entry.now }
{
    names.is_empty() || is_among(names, entry.name())
}

/// Keeps the entries that are asked for, in their order.
pub fn keep_asked(entries: &mut Vec<ListEntry>, names: &[Name])
    ensures { entries.new.items ≡ filter (is_asked names.now) entries.old.items }
{
    entries.retain(|entry| is_asked(names, entry));
}

// Whether one of the entries, those that the server told, has this name.
fn is_there(entries: &[ListEntry], name: &Name) -> bool
    ensures { result ≡ is_there entries.now name.now }
{
    entries.iter().any(|entry| entry.name() == name)
}

/// Whether there is an entry of each name.
pub fn are_there(entries: &[ListEntry], names: &[Name]) -> bool
    ensures { result ≡ are_there entries.now names.now }
{
    names.iter().all(|name| is_there(entries, name))
}
