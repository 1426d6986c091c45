//! The inputs of a tree: who, when, and which act.
ghost use Rattle.std.specs.Prelude.{◌≡◌};

use super::names::Names;
use arrayvec::ArrayVec;
use control_letters::Letters;
use death_tally::DeathList;
use event_directory::{Message, Pattern};
use s6_events::{Actor, At, Condition, Exit, Mode, Name, Sid, SubId, WaitId};
use std::alloc::Allocator;
use std::marker::Model;
use svscan_core::{Entry, ScanOrder};

/// What a look at the scan directory found, in the order in which it came.
#[derive(Drop)]
pub struct Listing<A: Allocator> {
    entries: Vec<Entry, A>,
}

impl<A: Allocator> Model for Listing<A> {
    ghost use Rattle.std.specs.Prelude.{List};
    ghost use Rattle.svscan_core.specs.declared.entry.Entry.{Entry};

    ghost Value = { List Entry };

    ghost view = { λ l. l.entries.items };
}

impl<A: Allocator> Listing<A> {
    /// The listing of these entries.
    pub fn new(entries: Vec<Entry, A>) -> Listing<A>
        ensures { result ≡ entries.items }
    {
        Listing { entries }
    }

    /// Its entries, in the order in which they came.
    pub fn entries(&self) -> &[Entry]
        ensures { result.now ≡ self.now }
    {
        self.entries.as_slice()
    }
}

/// An event directory, by a name. A free directory may have the name of a service. Pages
/// `s6-supervise`, "Events", and `fifodir`.
#[derive(Clone, Copy, PartialEq, Eq, Debug)]
pub enum Target {
    /// That of the service of this name.
    Service(Name),
    /// The free directory of this name.
    Directory(Name),
}

/// What an input asks of the tree or tells it. Reports name a service by its serial; requests name
/// a service or a free directory, or a waiter or a subscription by its serial.
#[derive(Drop)]
pub enum Act<A: Allocator> {
    /// The scan directory was listed. Page `s6-svscanctl`, `-a`.
    Scan(Listing<A>),
    /// A user gave all services this command: nuke, which is for the inactive ones, or terminate.
    /// Page `s6-svscanctl`, `-n` and `-t`.
    Scanctl(ScanOrder),
    /// A user sent the service of this name these letters, 1 to 63. Page `s6-svc`.
    Svc(Name, Letters),
    /// `run` of this service and generation was spawned, with this process number.
    Started(Sid, u64, u32),
    /// `run`, or `finish`, of this service and generation could not be spawned.
    StartFailed(Sid, u64),
    /// `run` of this service and generation wrote these bytes, 1 to 64, to its notification
    /// descriptor. Page `notifywhenup`.
    Notify(Sid, u64, ArrayVec<u8, 64>),
    /// `run` of this service and generation died.
    Death(Sid, u64, Exit),
    /// `finish` of this service and generation ended.
    FinishEnded(Sid, u64, Exit),
    /// A user asked for the status row of the service of this name. Page `s6-svstat`.
    Status(Name),
    /// A user asked for the last deaths of the service of this name. Page `servicedir`,
    /// `max-death-tally`.
    Tally(Name),
    /// A user asked whether the service of this name fails for good. The fields are the name, a
    /// number of seconds, a count, and a list of exits: whether at least `count` of its last deaths
    /// are at most that many seconds ago and have an exit in the list. Page `s6-permafailon`.
    Permafailon(Name, u32, u32, DeathList),
    /// A user waits for services: for a condition, of all or of one of them, with a timeout in
    /// milliseconds (0: none), and the names of the services, 1 to 16. Pages `s6-svwait` and
    /// `s6-svlisten`.
    Wait(Condition, Mode, u32, Names<A>),
    /// The waiter of this serial ends, released or not.
    Cancel(WaitId),
    /// A user subscribes to an event directory: from now on its letters are a text, in which the
    /// pattern is looked for once, or again after each match. Page `s6-ftrig-listen1`.
    Subscribe(Target, Pattern, bool),
    /// The subscription of this serial ends, whatever it has heard.
    Unsubscribe(SubId),
    /// A user sends this message. Only a free directory takes one: a service's letters are its
    /// supervisor's. Page `s6-ftrig-notify`.
    Send(Target, Message),
    /// A user makes a free directory of this name. Page `s6-mkfifodir`.
    MakeDir(Name),
    /// Nothing but the input's moment, for the clock.
    Tick,
}

/// One input: who gives it, at which moment, and what. What it does never depends on the actor.
#[derive(Drop)]
pub struct Input<A: Allocator> {
    pub actor: Actor,
    pub at: At,
    pub act: Act<A>,
}
