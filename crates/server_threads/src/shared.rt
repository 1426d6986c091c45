//! What the threads of a running tree share.
use crate::caller::Caller;
use crate::clock::ServerClock;
use crate::row_cache::RowCache;
use crate::scan_tasks::ScanTasks;
use child_runner::{Bell, LaneLink, Unwanted};
use line_server::{AfterLine, Answers, Mailbox};
use server_rules::{OwnAnswer, Request, Subject, client_actor, read_request, take_down};
use std::alloc::Global;
use std::sync::{Arc, Wait};
use std::time::Clock;
use tree_core::{Act, ScanOrder};

/// What the threads of a running tree share, from its first run to its last: each connection's
/// requests, the scans that are asked for, the rows that were last read of the board, and the bell
/// of the driver.
#[derive(Drop)]
pub struct Shared {
    pub alloc: Global,
    pub clock: ServerClock,
    /// What each connection asks, by its slot.
    pub callers: Vec<Caller>,
    pub scans: ScanTasks,
    pub rows: RowCache,
    /// For each lane the way to the thread that starts and signals its services.
    pub lanes: Vec<Arc<LaneLink, Global>>,
    /// The driver's bell. It is rung when a connection waits for answers or leaves, when a listing
    /// was read, and when a lane has a report, or room for orders again.
    pub driver: Bell,
}

impl Answers for Shared {
    // Answers the line of the client on this slot, at once or by asking the driver. Each slot has a
    // caller, where its requests wait for the driver, and an actor, the number of whoever hands in
    // an input. `Close` where there is no such slot.
    fn answer<R: Wait + Clock>(
        &self,
        rt: &R,
        slot: usize,
        line: &[u8],
        mailbox: &Mailbox,
    ) -> AfterLine {
        let (Some(caller), Some(actor)) = (self.callers.get(slot), client_actor(slot)) else {
            return AfterLine::Close;
        };
        let request = read_request(self.alloc, actor, line);
        if !self.is_answered_at_once(rt, caller, &request, mailbox) {
            self.ask(rt, caller, request, mailbox);
        }
        AfterLine::GoOn
    }

    // Waits until all that the connection on this slot asked is answered. The caller is where its
    // requests wait for the driver.
    fn settle<R: Wait>(&self, rt: &R, slot: usize) {
        if let Some(caller) = self.callers.get(slot) {
            self.await_answers(rt, caller);
        }
    }

    // Answers a line that is too long by `refused Line`, after all that was asked before it.
    fn refuse_long_line<R: Wait>(&self, rt: &R, slot: usize, mailbox: &Mailbox) {
        self.settle(rt, slot);
        let _ = mailbox.post(rt, OwnAnswer::Line.text());
    }

    // Whether the connection on this slot stays, though its client asks nothing: it may still be
    // told news.
    fn keeps<R: Wait>(&self, rt: &R, slot: usize) -> bool {
        match self.callers.get(slot) {
            Some(caller) => caller.is_kept(rt),
            None => false,
        }
    }

    // The connection on this slot has ended: waits until the driver has ended what it made. The
    // driver's bell wakes the driver for that.
    fn leave<R: Wait>(&self, rt: &R, slot: usize) {
        if let Some(caller) = self.callers.get(slot) {
            caller.leave(rt);
            self.driver.ring(rt);
            caller.await_end(rt);
        }
    }
}

impl Shared {
    /// Notes that this act was handed in: where it takes services down, those of their starts end
    /// that are tried again.
    pub fn note_act<R: Wait>(&self, rt: &R, act: &Act<Global>) {
        match act {
            Act::Svc(name, letters) if take_down(letters.as_slice()) => {
                self.end_starts(rt, &Unwanted::Run(*name));
            }
            Act::Scanctl(ScanOrder::Terminate) => self.end_starts(rt, &Unwanted::EachRun),
            _ => {}
        }
    }

    // Says to the thread of each lane that starts are wanted no more.
    fn end_starts<R: Wait>(&self, rt: &R, unwanted: &Unwanted) {
        for lane in &self.lanes {
            lane.end_starts(rt, *unwanted);
        }
    }

    // Answers a request that doesn't need the driver: a status, if the rows that were last read are
    // fresh, or a line that is refused. False for any other request, and while an earlier one is
    // not answered.
    fn is_answered_at_once<R: Wait + Clock>(
        &self,
        rt: &R,
        caller: &Caller,
        request: &Request,
        mailbox: &Mailbox,
    ) -> bool {
        // Answers come in the order asked, so this one must not overtake an earlier one.
        if !caller.is_answered(rt) {
            return false;
        }
        match request {
            Request::Status(subject) => self.tell_fresh_status(rt, caller, subject, mailbox),
            Request::Refused(reason) => {
                // So the end of the tree waits until this is written, though the driver knows of no
                // connection here.
                caller.note_here(rt);
                let _ = mailbox.post(rt, reason.text());
                true
            }
            Request::Clock
            | Request::Scan
            | Request::Record
            | Request::Follow(_)
            | Request::Step(_) => false,
        }
    }

    // Tells a status from the rows that were last read (`rows`). False where they are not fresh,
    // and nothing is told.
    fn tell_fresh_status<R: Wait + Clock>(
        &self,
        rt: &R,
        caller: &Caller,
        subject: &Subject,
        mailbox: &Mailbox,
    ) -> bool {
        let now = self.clock.millis(rt);
        let Some(text) = self.rows.status(rt, self.alloc, now, subject) else {
            return false;
        };
        // So the end of the tree waits until this is written, though the driver knows of no
        // connection here.
        caller.note_here(rt);
        let _ = match text {
            Ok(text) => mailbox.post(rt, text.as_slice()),
            Err(_) => mailbox.post(rt, OwnAnswer::NoMemory.text()),
        };
        true
    }

    // Asks the driver: leaves it the request, at `caller`. Once as many requests wait as may, waits
    // until all are answered. Where memory for the request is refused, it is answered by
    // `refused NoMemory`, after all earlier ones.
    fn ask<R: Wait>(&self, rt: &R, caller: &Caller, request: Request, mailbox: &Mailbox) {
        match caller.add_request(rt, request) {
            // More requests may be left. Their answers are waited for later.
            Ok(true) => {}
            Ok(false) => self.await_answers(rt, caller),
            Err(_) => {
                self.await_answers(rt, caller);
                let _ = mailbox.post(rt, OwnAnswer::NoMemory.text());
            }
        }
    }

    // Waits until all that was asked is answered, or the tree has ended. Rings the driver's bell
    // first, since it may wait for something to do, unless all is answered already.
    fn await_answers<R: Wait>(&self, rt: &R, caller: &Caller) {
        if !caller.is_answered(rt) {
            self.driver.ring(rt);
            caller.await_answers(rt);
        }
    }
}
