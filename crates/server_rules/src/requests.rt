//! What a line of a client asks for.
ghost use Rattle.std.specs.Prelude.{◌≡◌, ◌&&◌, ◌==◌, take, drop};
ghost use Rattle.server_rules.specs.Requests.{follow_one, follow_request, is_lasting, last_client, own_request, request_of, allowed_request, AsksFor, IsAsked};

use crate::following::Following;
use crate::own_answer::OwnAnswer;
use crate::places::LAST_CLIENT;
use crate::status_lines::Subject;
use s6_events::{Actor, Name};
use s6_script::{LineFault, parse_act};
use std::alloc::Global;
use tree_core::Act;

/// What a line of a client asks for.
#[derive(Drop)]
pub enum Request {
    /// The status of a service, or of all, from the board.
    Status(Subject),
    /// A scan of the directory.
    Scan,
    /// A record of the run so far.
    Record,
    /// The letters of these services, from now on.
    Follow(Following),
    /// The clock.
    Clock,
    /// A step with this act.
    Step(Act<Global>),
    /// It is no request of a client, or can't be done: this is the answer.
    Refused(OwnAnswer),
}

impl Request {
    // Whether the client waits for more than the answer.
    fn is_lasting(&self) -> bool
        ensures { result ≡ is_lasting self.now }
    {
        matches!(
            self,
            Request::Step(Act::Wait(..) | Act::Subscribe(..)) | Request::Follow(_)
        )
    }
}

/// Reads a line of a client: the words of an act, or a request of the server alone. The last slot
/// is kept for short requests, so that however many clients wait, another can still tell the tree
/// what to do: there a wait, a subscription, and a request to be told letters are refused as
/// `Busy`.
pub fn read_request(alloc: Global, actor: Actor, line: &[u8]) -> Request
    ensures { IsAsked result actor line.now }
{
    match own_request(line) {
        Some(request) => allowed(actor, request),
        None => allowed(actor, act_request(alloc, line)),
    }
}

// The request; `Busy` where it is one that the last slot doesn't take.
fn allowed(actor: Actor, request: Request) -> Request
    ensures { result ≡ allowed_request actor request }
{
    if usize::from(actor.number()) == LAST_CLIENT && request.is_lasting() {
        return Request::Refused(OwnAnswer::Busy);
    }
    request
}

// The request of a line that only the server knows, and that is no act of a script; None for any
// other line.
fn own_request(line: &[u8]) -> Option<Request>
    ensures { result ≡ own_request line.now }
{
    if line == b"scanctl a".as_slice() {
        Some(Request::Scan)
    } else if line == b"rows".as_slice() {
        Some(Request::Status(Subject::All))
    } else if line == b"states".as_slice() {
        Some(Request::Status(Subject::States))
    } else if line == b"record".as_slice() {
        Some(Request::Record)
    } else if line == b"clock".as_slice() {
        Some(Request::Clock)
    } else {
        follow_request(line)
    }
}

// The request to be told letters, of all services or of those of one name; None for any other line.
fn follow_request(line: &[u8]) -> Option<Request>
    ensures { result ≡ follow_request line.now }
{
    if line == b"follow".as_slice() {
        return Some(Request::Follow(Following::All));
    }
    match line.strip_prefix(b"follow ") {
        Some(name) => follow_one(name),
        None => None,
    }
}

// The request to be told the letters of the service of this name, which is the rest of the line;
// None where it is no name.
fn follow_one(name: &[u8]) -> Option<Request>
    ensures { result ≡ follow_one name.now }
{
    match Name::new(name) {
        Some(name) => Some(Request::Follow(Following::One(name))),
        None => None,
    }
}

// The request of a line with the words of an act.
fn act_request(alloc: Global, line: &[u8]) -> Request
    ensures { AsksFor result line.now }
{
    match parse_act(alloc, alloc, line) {
        Ok(act) => request_of(act),
        Err(LineFault::Line) => Request::Refused(OwnAnswer::Line),
        Err(LineFault::Pattern) => Request::Refused(OwnAnswer::Pattern),
        Err(LineFault::NoMemory) => Request::Refused(OwnAnswer::NoMemory),
    }
}

// What an act asks for. A client can't hand in reports, listings and ticks, which the server itself
// makes: such a line is refused.
fn request_of(act: Act<Global>) -> Request
    ensures { result ≡ request_of act }
{
    match act {
        Act::Status(name) => Request::Status(Subject::One(name)),
        Act::Scan(_)
        | Act::Started(..)
        | Act::StartFailed(..)
        | Act::Notify(..)
        | Act::Death(..)
        | Act::FinishEnded(..)
        | Act::Tick => Request::Refused(OwnAnswer::Line),
        act => Request::Step(act),
    }
}
