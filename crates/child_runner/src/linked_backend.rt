//! The backend that a run has for a lane whose own backend is in a thread: it sends orders over a
//! link to that thread, and reports come back.
ghost use Rattle.std.specs.Prelude.{◌≡◌, [], IfOk};

use crate::lane_link::LaneLink;
use crate::roll::Roll;
use order_lanes::{AskFault, Backend, Report};
use s6_events::{NoMemory, Order};
use std::alloc::Global;
use std::marker::Model;
use std::sync::{Arc, Wait};

/// A backend that sends its orders to the thread of its lane, where `serve_lane` runs, and gives
/// the reports that come back.
#[derive(Drop)]
pub struct LinkedBackend<R> {
    rt: R,
    link: Arc<LaneLink, Global>,
    roll: Roll,
}

impl<R> Model for LinkedBackend<R> {
    ghost use Rattle.child_runner.specs.Roll.{RollView};

    ghost Value = { RollView };

    ghost view = { λ b. b.roll };
}

impl<R: Wait + Drop> LinkedBackend<R> {
    /// A backend over this link, which was asked nothing yet. Make one for a link, and keep it as
    /// long as the lane has services: one that is made later doesn't know their starts, and drops
    /// their reports. `NoMemory` where memory is refused.
    pub fn new(
        rt: R,
        alloc: Global,
        link: &Arc<LaneLink, Global>,
    ) -> Result<LinkedBackend<R>, NoMemory>
        ensures { IfOk result (λ b. b ≡ record { asked = []; given = []; living = [] }) }
    {
        Ok(LinkedBackend {
            rt,
            link: Arc::try_clone(link)?,
            // Which starts were ordered and may still be reported on.
            roll: Roll::new(alloc)?,
        })
    }
}

impl<R: Wait + Drop> Backend for LinkedBackend<R> {
    ghost asked = { λ b. b.asked };

    ghost given = { λ b. b.given };

    /// Sends the order to the lane's thread. `Busy` while 1,024 orders are on their way, `NoMemory`
    /// where memory is refused; then it wasn't sent.
    fn ask(&mut self, order: Order) -> Result<(), (Order, AskFault)> {
        match self.link.send(&self.rt, &mut self.roll, &order) {
            Ok(()) => Ok(()),
            Err(fault) => Err((order, fault)),
        }
    }

    /// The next report that came back, if it is of a start that was asked here and hasn't ended.
    /// Any other report is dropped.
    fn report(&mut self) -> Option<Report> {
        let report = self.link.take_report(&self.rt)?;
        self.roll.pass(report)
    }
}
