//! The two commands to all services: nuke tells each inactive one to leave, terminate tells every
//! one.
ghost use Rattle.std.specs.Prelude.{◌≡◌, ◌+◌, ◌<◌, ◌≤◌, ◌^◌, length};
ghost use Rattle.supervise_core.specs.Chart.{control_move};
ghost use Rattle.supervise_core.specs.MatchesMove.{MatchesMove};
ghost use Rattle.supervise_core.specs.Service.{KeepsAgreeing};
ghost use Rattle.svscan_core.specs.Work.{closing_after, leave_letters, nuke_move, terminate_move};
ghost use Rattle.svscan_core.specs.Work.Work.{command};

use super::entry::ScanOrder;
use super::visit::make_change;
use arrayvec::ArrayVec;
use control_letters::{ControlLetter, Letters};
use s6_events::At;
use supervise_core::{Change, Out, ServiceState};

// The letters for a service that is told to leave: `x` and `d`.
fn leaving_letters() -> Letters
    ensures { result.items ≡ leave_letters }
{
    let mut letters = ArrayVec::new();
    letters.push(ControlLetter::Exit);
    letters.push(ControlLetter::Down);
    letters
}

// Tells the service to go down, and its supervisor to end: by letters, as a user would.
fn tell_to_leave(standing: &mut ServiceState, now: At, out: &mut Out)
    requires { standing.old.chart.generation + 1 < 2 ^ 64 }
    ensures gives { MatchesMove (control_move leave_letters now standing.old.chart)
        standing.new.chart out.new }
    ensures agrees { KeepsAgreeing now out.new.events.items standing.old standing.new }
    ensures sid { standing.new.chart.sid ≡ standing.old.chart.sid }
    ensures name { standing.new.chart.name ≡ standing.old.chart.name }
    ensures few { length out.new.orders.items ≤ 2 }
{
    make_change(standing, &Change::Control(leaving_letters()), now, out);
}

/// Tells the service to leave, if it is inactive. Page `s6-svscanctl`, `-n`.
pub fn nuke(standing: &mut ServiceState, now: At, out: &mut Out)
    requires { standing.old.chart.generation + 1 < 2 ^ 64 }
    ensures gives { MatchesMove (nuke_move now standing.old.chart) standing.new.chart out.new }
    ensures agrees { KeepsAgreeing now out.new.events.items standing.old standing.new }
    ensures sid { standing.new.chart.sid ≡ standing.old.chart.sid }
    ensures name { standing.new.chart.name ≡ standing.old.chart.name }
    ensures few { length out.new.orders.items ≤ 2 }
{
    if standing.chart().active {
        // It gives nothing, while `out` may still hold what another service gave.
        out.clear();
    } else {
        tell_to_leave(standing, now, out);
    }
}

/// Whether the tree is closing once this command is done: terminate closes it, for good. Page
/// `s6-svscanctl`, `-t`.
pub fn closing_after(order: ScanOrder, closing: bool) -> bool
    ensures { result ≡ closing_after (command order) closing }
{
    match order {
        ScanOrder::Terminate => true,
        ScanOrder::Nuke => closing,
    }
}

/// Makes the service inactive, and tells it to leave. Page `s6-svscanctl`, `-t`.
pub fn terminate(standing: &mut ServiceState, now: At, out: &mut Out)
    requires { standing.old.chart.generation + 1 < 2 ^ 64 }
    ensures gives { MatchesMove (terminate_move now standing.old.chart) standing.new.chart out.new }
    ensures agrees { KeepsAgreeing now out.new.events.items standing.old standing.new }
    ensures sid { standing.new.chart.sid ≡ standing.old.chart.sid }
    ensures name { standing.new.chart.name ≡ standing.old.chart.name }
    ensures few { length out.new.orders.items ≤ 2 }
{
    standing.set_active(false, now);
    tell_to_leave(standing, now, out);
}
