//! What an act tells of a program of a service: the cause of the events that its step gives.
ghost use Rattle.std.specs.Prelude.{◌≡◌};
ghost use Rattle.run_stories.specs.Requests.{cause_of};

use s6_events::Exit;
use std::alloc::Allocator;
use tree_core::Act;

/// What an act tells of a program of a service, as far as the words of events need it.
#[derive(Clone, Copy)]
pub enum Cause {
    /// `run` was spawned, with this process number.
    Started(u32),
    /// `run` ended, in this way.
    Died(Exit),
    /// `finish` ended, in this way.
    Finished(Exit),
    /// Something else, or nothing.
    Other,
}

/// What this act tells of a program: a spawn, or an end of `run` or `finish`.
pub fn cause_of<A: Allocator>(act: &Act<A>) -> Cause
    ensures { result ≡ cause_of act.now }
{
    match act {
        Act::Started(_, _, pid) => Cause::Started(*pid),
        Act::Death(_, _, exit) => Cause::Died(*exit),
        Act::FinishEnded(_, _, exit) => Cause::Finished(*exit),
        _ => Cause::Other,
    }
}
