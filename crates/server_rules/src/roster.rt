//! Which services there are and have been, and which of them are over.
ghost use Rattle.std.specs.Prelude.{◌≡◌, ◌++◌, ◌∷◌, [], IfOk, OnOk, OnErr, filter, map, option_map};
ghost use Rattle.server_rules.specs.Letters.{told_letter};
ghost use Rattle.server_rules.specs.Roster.{added, after_failed_start, after_letter, after_letters, after_report, ending_by, ending_in, has_row, is_long, member_in, member_of, name_in, since_by, since_in, start_failed_in};

use crate::letters::ToldLetter;
use s6_events::{At, Mark, Name, NoMemory, Report, Sid};
use std::alloc::Global;
use std::marker::Model;
use supervise_core::Row;
use svscan_core::Event;
use tree_core::Listed;

/// A roster with more services than this forgets those that have no row any more.
const MEMBER_LIMIT: usize = 512;

/// How a service is over.
#[derive(Clone, Copy, Debug, PartialEq, Eq)]
pub enum Ending {
    /// It failed for good: it was told the letter `O`, and neither `u` nor `s` since.
    Failed,
    /// Its supervisor has ended: it was told the letter `x`, and no `s` since.
    Gone,
}

/// A service that a scan added: how it is over, if it is, since when it is up or down, and whether
/// its last start failed.
#[derive(Clone, Copy, Debug, PartialEq, Eq)]
pub struct Member {
    pub sid: Sid,
    pub name: Name,
    /// How it is over, if it is.
    pub ending: Option<Ending>,
    /// Since when it is up or down: the moment of its last letter `u` or `d`; None where neither
    /// came since its last `s`.
    pub since: Option<At>,
    /// Whether a start of it failed, and no letter of it came since.
    pub start_failed: bool,
}

// How a service is over after this letter: `s` and `u` say that it is not, `O` that it failed for
// good, and `x` that its supervisor has ended.
fn ending_by(mark: Mark, ending: Option<Ending>) -> Option<Ending>
    ensures { result ≡ ending_by mark ending }
{
    match mark {
        Mark::SupervisorStarted | Mark::Spawned => None,
        Mark::PermanentFailure => Some(Ending::Failed),
        Mark::SupervisorEnded => Some(Ending::Gone),
        Mark::Ready | Mark::Died | Mark::FinishDone => ending,
    }
}

// Since when a service is up or down after this letter, which was told at this moment: since then
// for `u` and `d`, and neither after an `s`.
fn since_by(at: At, mark: Mark, since: Option<At>) -> Option<At>
    ensures { result ≡ since_by at mark since }
{
    match mark {
        Mark::SupervisorStarted => None,
        Mark::Spawned | Mark::Died => Some(at),
        Mark::Ready | Mark::FinishDone | Mark::PermanentFailure | Mark::SupervisorEnded => since,
    }
}

impl Member {
    // Notes the letters of a step at this moment. Those of other services change nothing.
    fn note(&mut self, at: At, events: &[Event])
        ensures { self.new ≡ after_letters at events.now self.old }
    {
        for event in events {
            self.note_one(at, event);
        }
    }

    // Notes one letter.
    fn note_one(&mut self, at: At, event: &Event)
        ensures { self.new ≡ after_letter at self.old event.now }
    {
        if event.sid == self.sid {
            self.ending = ending_by(event.mark, self.ending);
            self.since = since_by(at, event.mark, self.since);
            // A letter of it came since.
            self.start_failed = false;
        }
    }

    // A start of the service of this serial failed.
    fn note_failed_start(&mut self, sid: Sid)
        ensures { self.new ≡ after_failed_start sid self.old }
    {
        if self.sid == sid {
            self.start_failed = true;
        }
    }
}

/// The services that scans added, in rising serial, and how each is over.
#[derive(Drop)]
pub struct Roster {
    members: Vec<Member>,
}

impl Model for Roster {
    ghost use Rattle.std.specs.Prelude.{List};
    ghost use Rattle.server_rules.specs.declared.roster.Member.{Member};

    ghost Value = { List Member };

    ghost view = { λ r. r.members.items };
}

impl Roster {
    /// No scan was made.
    pub fn new(alloc: Global) -> Roster
        ensures { result ≡ [] }
    {
        Roster {
            members: Vec::new(alloc),
        }
    }

    /// Whether it is so long that services without a row on the board, which have left the tree,
    /// are to be forgotten.
    pub fn is_long(&self) -> bool
        ensures { result ≡ is_long self.now }
    {
        self.members.len() > MEMBER_LIMIT
    }

    /// Adds the services that a scan added, as its report lists them. At `NoMemory` the roster is
    /// as it was.
    pub fn add(&mut self, listed: &[Listed]) -> Result<(), NoMemory>
        ensures added { OnOk result (self.new ≡ self.old ++ added listed.now) }
        ensures refused { OnErr result (self.new ≡ self.old) }
    {
        let added = members_of(*self.members.allocator(), listed)?;
        self.members.extend_from_slice(added.as_slice())?;
        Ok(())
    }

    /// The letters of a step at this moment were told.
    pub fn note(&mut self, at: At, events: &[Event])
        ensures { self.new ≡ map (after_letters at events.now) self.old }
    {
        note_all(self.members.as_mut_slice(), at, events);
    }

    /// A lane made this report. Only a failed start is noted, since no letter tells it.
    pub fn note_report(&mut self, report: &Report)
        ensures { self.new ≡ after_report report.now self.old }
    {
        if let Report::StartFailed(sid, _) = report {
            note_failed_start_in(self.members.as_mut_slice(), *sid);
        }
    }

    // The service of this serial.
    fn member(&self, sid: Sid) -> Option<&Member>
        ensures { option_map (λ m. m.now) result ≡ member_in sid self.now }
    {
        self.members.iter().find(|member| member.sid == sid)
    }

    /// How the service of this serial is over, if it is.
    pub fn ending(&self, sid: Sid) -> Option<Ending>
        ensures { result ≡ ending_in sid self.now }
    {
        match self.member(sid) {
            Some(member) => member.ending,
            None => None,
        }
    }

    /// Since when the service of this serial is up or down, if it has been either.
    pub fn since(&self, sid: Sid) -> Option<At>
        ensures { result ≡ since_in sid self.now }
    {
        match self.member(sid) {
            Some(member) => member.since,
            None => None,
        }
    }

    /// Whether a start of the service of this serial failed, and no letter of it came since.
    pub fn start_failed(&self, sid: Sid) -> bool
        ensures { result ≡ start_failed_in sid self.now }
    {
        match self.member(sid) {
            Some(member) => member.start_failed,
            None => false,
        }
    }

    // The name of the service of this serial; a dash where no scan added it.
    fn name(&self, sid: Sid) -> Name
        ensures { result ≡ name_in sid self.now }
    {
        match self.member(sid) {
            Some(member) => member.name,
            None => dash(),
        }
    }

    /// A letter of a step at this moment, as it is told to followers.
    pub fn letter(&self, at: At, event: &Event) -> ToldLetter
        ensures { result ≡ told_letter at self.now event.now }
    {
        ToldLetter {
            at,
            sid: event.sid,
            name: self.name(event.sid),
            mark: event.mark,
        }
    }

    /// Forgets the services that have no row on the board any more.
    pub fn keep(&mut self, rows: &[Row])
        ensures { self.new ≡ filter (has_row rows.now) self.old }
    {
        self.members.retain(|member| has_row(rows, member));
    }

    /// Becomes a copy of the other. At `NoMemory` services may be missing.
    pub fn copy_from(&mut self, other: &Roster) -> Result<(), NoMemory>
        ensures same { OnOk result (self.new ≡ other.now) }
    {
        self.members.clear();
        self.members.extend_from_slice(other.members.as_slice())?;
        Ok(())
    }
}

// Has each of these services note the letters that a step at this moment told.
fn note_all(members: &mut [Member], at: At, events: &[Event])
    ensures { members.new ≡ map (after_letters at events.now) members.old }
{
    for member in members.iter_mut() {
        member.note(at, events);
    }
}

// Notes that a start of the service of this serial failed.
fn note_failed_start_in(members: &mut [Member], sid: Sid)
    ensures { members.new ≡ map (after_failed_start sid) members.old }
{
    for member in members.iter_mut() {
        member.note_failed_start(sid);
    }
}

// The services that a scan added.
fn members_of(alloc: Global, listed: &[Listed]) -> Result<Vec<Member>, NoMemory>
    ensures { IfOk result (λ members. members.items ≡ added listed.now) }
{
    let mut members = Vec::new(alloc);
    for one in listed {
        push_member(&mut members, one)?;
    }
    Ok(members)
}

// Adds the new service of a listed name; nothing where a scan added none for it.
fn push_member(members: &mut Vec<Member>, listed: &Listed) -> Result<(), NoMemory>
    ensures { OnOk result (members.new.items ≡ members.old.items ++ member_of listed.now) }
{
    if let Listed::Added(sid, name) = listed {
        members.push(Member {
            sid: *sid,
            name: *name,
            ending: None,
            since: None,
            start_failed: false,
        })?;
    }
    Ok(())
}

// The name of a service that no scan added.
#[tactic(auto, unfolding(s6_events::specs::Name::is_name))]
fn dash() -> Name
    ensures { result ≡ 45 ∷ [] }
{
    let Some(name) = Name::new(b"-") else {
        // A dash alone is a valid name.
        unreachable!()
    };
    name
}

// Whether one of these rows is that of this service.
fn has_row(rows: &[Row], member: &Member) -> bool
    ensures { result ≡ has_row rows.now member.now }
{
    rows.iter().any(|row| row.sid == member.sid)
}
