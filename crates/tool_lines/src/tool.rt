//! The tools that are clients of a running tree.
ghost use Rattle.std.specs.Prelude.{◌≡◌};
ghost use Rattle.tool_lines.specs.ToolNames.{name_of};

/// A tool that is a client of a running tree.
#[derive(Clone, Copy, Debug, PartialEq, Eq)]
pub enum Tool {
    /// `svc`: letters for a service. Page `s6-svc`.
    Svc,
    /// `svstat`: fields of a service's status. Page `s6-svstat`.
    Svstat,
    /// `list`: the status of all services. Not a tool of s6.
    List,
    /// `follow`: the letters of services, as they come. Not a tool of s6.
    Follow,
    /// `record`: has the run so far recorded. Not a tool of s6.
    Record,
    /// `svwait`: waits for services. Page `s6-svwait`.
    Svwait,
    /// `svlisten`: starts a program, and waits for services. Page `s6-svlisten`.
    Svlisten,
    /// `svscanctl`: letters for the supervisor of the scan directory. Page `s6-svscanctl`.
    Svscanctl,
    /// `mkfifodir`: makes a free event directory. Page `s6-mkfifodir`.
    Mkfifodir,
    /// `ftrig-notify`: sends letters to an event directory. Page `s6-ftrig-notify`.
    FtrigNotify,
    /// `ftrig-wait`: waits until the letters of an event directory match. Page `s6-ftrig-wait`.
    FtrigWait,
    /// `permafailon`: whether a service fails for good. Page `s6-permafailon`.
    Permafailon,
}

const ALL_TOOLS: [Tool; 12] = [
    Tool::Svc,
    Tool::Svstat,
    Tool::List,
    Tool::Follow,
    Tool::Record,
    Tool::Svwait,
    Tool::Svlisten,
    Tool::Svscanctl,
    Tool::Mkfifodir,
    Tool::FtrigNotify,
    Tool::FtrigWait,
    Tool::Permafailon,
];

impl Tool {
    /// Its name, as the first word of the program.
    pub fn name(self) -> &'static str
        ensures { result.now ≡ name_of self }
    {
        match self {
            Tool::Svc => "svc",
            Tool::Svstat => "svstat",
            Tool::List => "list",
            Tool::Follow => "follow",
            Tool::Record => "record",
            Tool::Svwait => "svwait",
            Tool::Svlisten => "svlisten",
            Tool::Svscanctl => "svscanctl",
            Tool::Mkfifodir => "mkfifodir",
            Tool::FtrigNotify => "ftrig-notify",
            Tool::FtrigWait => "ftrig-wait",
            Tool::Permafailon => "permafailon",
        }
    }
}

/// The tool of this name; None where there is no such tool.
pub fn tool_named(name: &str) -> Option<Tool> {
    ALL_TOOLS.iter().copied().find(|tool| tool.name() == name)
}
