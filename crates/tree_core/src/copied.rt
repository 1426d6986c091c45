//! Copies of replies.
ghost use Rattle.std.specs.Prelude.{◌≡◌, IfOk};

use super::reply::{Reply, ScanReport, TallyReport};
use s6_events::NoMemory;
use std::alloc::Allocator;

impl<A: Allocator + Copy> Reply<A> {
    /// A copy of this reply. `NoMemory` where memory is refused.
    pub fn copied(&self, alloc: A) -> Result<Reply<A>, NoMemory>
        ensures { IfOk result (λ copy. copy ≡ self.now) }
    {
        match self {
            Reply::Done => Ok(Reply::Done),
            Reply::Refused(why) => Ok(Reply::Refused(*why)),
            Reply::Scanned(report) => Ok(Reply::Scanned(report.copied(alloc)?)),
            Reply::Row(row) => Ok(Reply::Row(*row)),
            Reply::Tally(report) => Ok(Reply::Tally(report.copied(alloc)?)),
            Reply::PermanentFailure(fails) => Ok(Reply::PermanentFailure(*fails)),
            Reply::Waiter(id) => Ok(Reply::Waiter(*id)),
            Reply::Subscription(id) => Ok(Reply::Subscription(*id)),
        }
    }
}

impl<A: Allocator + Copy> ScanReport<A> {
    /// A copy of this report. `NoMemory` where memory is refused.
    pub fn copied(&self, alloc: A) -> Result<ScanReport<A>, NoMemory>
        ensures { IfOk result (λ copy. copy ≡ self.now) }
    {
        let dropped = Vec::from_slice(alloc, self.dropped())?;
        let listed = Vec::from_slice(alloc, self.listed())?;
        Ok(ScanReport::new(dropped, listed))
    }
}

impl<A: Allocator + Copy> TallyReport<A> {
    /// A copy of this report. `NoMemory` where memory is refused.
    pub fn copied(&self, alloc: A) -> Result<TallyReport<A>, NoMemory>
        ensures { IfOk result (λ copy. copy ≡ self.now) }
    {
        let deaths = Vec::from_slice(alloc, self.deaths())?;
        Ok(TallyReport::new(deaths))
    }
}
