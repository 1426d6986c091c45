//! Which program the first word behind the program's name names. Clients are the tools that talk to
//! a server.
ghost use Rattle.std.specs.Prelude.{◌≡◌, codes, false, true};
ghost use Rattle.std.specs.Str.{bytes_eq};
ghost use Rattle.tree_front.specs.declared.asked.NamedProgram.TheVariants as program;

use tool_lines::{Tool, tool_named};

/// Which program a first word names.
#[derive(Clone, Copy, Debug, PartialEq, Eq)]
pub enum NamedProgram {
    /// `svscan`.
    Svscan,
    /// `svcheck`.
    Svcheck,
    /// A client.
    Client(Tool),
    /// `connect`.
    Connect,
    /// `replay`.
    Replay,
    /// `--version`.
    Version,
    /// `help`, `--help` or `-h`.
    Help,
    /// Any other word.
    Strange,
}

/// Which program this word names.
pub fn program_named(word: &str) -> NamedProgram
    ensures server { bytes_eq word.now (codes "svscan") ≡ true → result ≡ program.Svscan }
    ensures only { result ≡ program.Svscan → bytes_eq word.now (codes "svscan") ≡ true }
{
    if word == "svscan" {
        return NamedProgram::Svscan;
    }
    match tool_named(word) {
        Some(tool) => NamedProgram::Client(tool),
        None => own_program_named(word),
    }
}

// Which program this word names, if it is neither the server nor a client.
fn own_program_named(word: &str) -> NamedProgram
    ensures { result ≡ program.Svscan → bytes_eq word.now (codes "svscan") ≡ true }
{
    match word {
        "svcheck" => NamedProgram::Svcheck,
        "connect" => NamedProgram::Connect,
        "replay" => NamedProgram::Replay,
        "--version" => NamedProgram::Version,
        "help" | "--help" | "-h" => NamedProgram::Help,
        _ => NamedProgram::Strange,
    }
}

/// Whether a word that stands alone behind a program's name asks for its help text.
pub fn asks_help(word: &str) -> bool {
    matches!(word, "--help" | "-h")
}
