//! A backend, which carries out orders.
ghost use Rattle.std.specs.Prelude.{◌≡◌, List, [], ◌∷◌, ◌++◌, OnOk, IfErr, IfSome, IfNone};
ghost use Rattle.s6_events.specs.declared.order.Order.{Order as Asked};
ghost use Rattle.s6_events.specs.declared.report.Report.{Report as Given};
ghost use Rattle.order_lanes.specs.Backend.{IsOfAsked};

use s6_events::{Order, Report};

/// Why a backend handed an order back. It may be asked the same order again at any time.
#[derive(Clone, Copy, PartialEq, Eq, Debug)]
pub enum AskFault {
    /// It takes no order now.
    Busy = 1,
    /// Memory was refused.
    NoMemory = 2,
}

/// A backend carries out orders, and reports what became of them. A contract sees two lists of it:
/// the orders that it took, and the reports that it gave. That an order is carried out is no
/// promise.
pub trait Backend: Drop {
    ghost asked: { Self → List Asked };

    ghost given: { Self → List Given };

    /// Takes the order; or hands it back with a fault, and then it took none. It doesn't wait for
    /// what the order starts.
    fn ask(&mut self, order: Order) -> Result<(), (Order, AskFault)>
        ensures asked { OnOk result (asked self.new ≡ asked self.old ++ order ∷ []) }
        ensures back { IfErr result (λ e. (e.0 ≡ order) × (asked self.new ≡ asked self.old)) }
        ensures given { given self.new ≡ given self.old };

    /// The next report, which is of a `run` or a `finish` whose start was asked here; None where
    /// there is none yet. It doesn't wait.
    fn report(&mut self) -> Option<Report>
        ensures asked { asked self.new ≡ asked self.old }
        ensures given { IfSome result (λ r.
            (given self.new ≡ given self.old ++ r ∷ []) × IsOfAsked (asked self.old) r) }
        ensures none { IfNone result (given self.new ≡ given self.old) };
}

impl Backend for Box<dyn Backend + Send> {
    ghost asked = { λ b. (Backend-box b).asked b.value };

    ghost given = { λ b. (Backend-box b).given b.value };

    fn ask(&mut self, order: Order) -> Result<(), (Order, AskFault)> {
        (**self).ask(order)
    }

    fn report(&mut self) -> Option<Report> {
        (**self).report()
    }
}
