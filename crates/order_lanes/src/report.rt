//! What a report of a backend is about: the act that tells the tree of it, and the orders that it
//! answers.
ghost use Rattle.std.specs.Prelude.{◌≡◌, ◌↔◌, IsTrue};
ghost use Rattle.std.specs.List.{list_any};
ghost use Rattle.order_lanes.specs.Report.{act_of};
ghost use Rattle.order_lanes.specs.Backend.{answers, is_of_run, is_of_finish, IsOfAsked};

use arrayvec::ArrayVec;
use s6_events::{Order, Report, Sid};
use std::alloc::Global;
use tree_core::Act;

// A copy of these bytes. It can't be refused, since it has as much room as they have.
fn same_bytes(bytes: &ArrayVec<u8, 64>) -> ArrayVec<u8, 64>
    ensures { result ≡ bytes.now }
{
    let mut copy = ArrayVec::new();
    match copy.try_extend_from_slice(bytes.as_slice()) {
        Ok(()) => copy,
        Err(_) => unreachable!(),
    }
}

/// The act that tells the tree of this report.
pub fn act_of(report: &Report) -> Act<Global>
    ensures { result ≡ act_of report.now }
{
    match report {
        Report::Started(sid, generation, pid) => Act::Started(*sid, *generation, *pid),
        Report::StartFailed(sid, generation) => Act::StartFailed(*sid, *generation),
        Report::Notify(sid, generation, bytes) => {
            Act::Notify(*sid, *generation, same_bytes(bytes))
        }
        Report::Death(sid, generation, exit) => Act::Death(*sid, *generation, *exit),
        Report::FinishEnded(sid, generation, exit) => Act::FinishEnded(*sid, *generation, *exit),
    }
}

// Whether the report may be of `run` of this service and generation. That of a failed start may be
// of `run` or of `finish`.
fn is_of_run(service: Sid, number: u64, report: &Report) -> bool
    ensures { result ≡ is_of_run service number report.now }
{
    match report {
        Report::Started(sid, generation, _)
        | Report::StartFailed(sid, generation)
        | Report::Notify(sid, generation, _)
        | Report::Death(sid, generation, _) => *sid == service && *generation == number,
        Report::FinishEnded(_, _, _) => false,
    }
}

// Whether the report may be of `finish` of this service and generation. That of a failed start may
// be of `run` or of `finish`.
fn is_of_finish(service: Sid, number: u64, report: &Report) -> bool
    ensures { result ≡ is_of_finish service number report.now }
{
    match report {
        Report::StartFailed(sid, generation) | Report::FinishEnded(sid, generation, _) => {
            *sid == service && *generation == number
        }
        Report::Started(_, _, _) | Report::Notify(_, _, _) | Report::Death(_, _, _) => false,
    }
}

/// Whether the report is of the program that this order starts.
pub fn answers(order: &Order, report: &Report) -> bool
    ensures { result ≡ answers order.now report.now }
{
    match order {
        Order::Run(sid, generation, _, _) => is_of_run(*sid, *generation, report),
        Order::Finish(sid, generation, _, _, _) => is_of_finish(*sid, *generation, report),
        Order::Signal(_, _, _) | Order::KillFinish(_, _) => false,
    }
}

// Whether the report answers one of these orders.
fn answers_any(orders: &[Order], report: &Report) -> bool
    ensures { result ≡ list_any (λ order. answers order report.now) orders.now }
{
    orders.iter().any(|order| answers(order, report))
}

/// Whether the report is of a program whose start is among these orders.
pub fn is_of_asked(asked: &[Order], report: &Report) -> bool
    ensures { IsTrue result ↔ IsOfAsked asked.now report.now }
{
    answers_any(asked, report)
}
