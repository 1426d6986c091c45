//! What the system or the server failed to do, in words.
ghost use Rattle.std.specs.Prelude.{◌≡◌};
ghost use Rattle.s6_tools.specs.Causes.{cause_before, cause_behind};

use crate::tool_fault::ToolFault;

/// What the system or the server failed to do: the text up to the word that it is about.
pub fn cause_before(fault: &ToolFault) -> &'static str
    ensures { result.now ≡ cause_before fault.now }
{
    match fault {
        ToolFault::NoServer => "no server at ",
        ToolFault::Forbidden => "no permission for ",
        ToolFault::Socket | ToolFault::Ended | ToolFault::Unanswered => "the server at ",
        ToolFault::NoAnswer => "no answer in 10 s from ",
        ToolFault::TreeEnded => "the tree at ",
        ToolFault::LongPath => "path is longer than 107 bytes",
        ToolFault::Busy => "no place was free in ten seconds; try again later",
        ToolFault::Write => "standard output took nothing: is it closed, or its disk full?",
        ToolFault::Program => "",
        _ => "the system refused memory; try again later",
    }
}

/// What the system or the server failed to do: the text behind the word that it is about.
pub fn cause_behind(fault: &ToolFault) -> &'static str
    ensures { result.now ≡ cause_behind fault.now }
{
    match fault {
        ToolFault::NoServer => " (is svscan running?)",
        ToolFault::Forbidden => " (it is its owner's)",
        ToolFault::Socket => " answered strangely, or the connection failed",
        ToolFault::Ended => " ended the connection before it answered",
        ToolFault::Unanswered => {
            " ended the connection before it answered: whether it did what was asked can't be known"
        }
        ToolFault::NoAnswer => " (is svscan stopped?)",
        ToolFault::TreeEnded => " has ended",
        ToolFault::Program => " can't be started: is it there, and executable?",
        _ => "",
    }
}
