//! What the driver keeps for one run (`DriverState`), and from the first run to the last
//! (`Lasting`).
use channel_names::Channels;
use client_desk::{Clients, RunBoard};
use inbox::Seat;
use locked_services::new_effect;
use order_lanes::{Lanes, Report};
use run_history::KnownHistory;
use s6_events::{At, NoMemory};
use scan_directory::{FoundServices, Remark};
use server_rules::{FullServices, LANE_LIMIT, Pace, Plans, Post, SCANNER};
use server_threads::moment_of;
use status_board::BoardReader;
use std::alloc::Global;
use tree_core::{Act, Effect};

/// What goes on from one run to the next, beside the tree and its backends: the connections, the
/// scans and ticks that are planned, and what is not handed in, posted or written yet.
#[derive(Drop)]
pub struct Lasting {
    pub clients: Clients,
    pub plans: Plans,
    /// The listing of the first scan, which is handed in before anything else; None once it is.
    pub first_listing: Option<FoundServices>,
    /// Whether the first scan isn't answered yet: nothing is begun for connections before.
    pub awaits_first: bool,
    /// What could not be read of the scan that is handed in.
    pub unread: Vec<Remark>,
    /// The services for which the last scan had no room, so that each is told of once.
    pub full: FullServices,
    /// Lines that are still to be told on standard error.
    pub lines: Vec<u8>,
    /// By lane: the report that the lane's seat has not taken yet.
    pub kept: Vec<Option<Report>>,
    /// What the last step gave: the driver reads each step's effect into it, so that all use the
    /// same memory. None before the first step, and while it is taken out.
    pub effect: Option<Box<Effect<Global>>>,
    /// The tree's clock after the last step that was handed out.
    pub clock: At,
    /// The greatest moment of what was handed in, in milliseconds.
    pub handed_in: u64,
}

impl Lasting {
    /// What the first run begins with: nothing was handed in, and the first scan found this
    /// listing. `NoMemory` where memory is refused.
    pub fn new(
        alloc: Global,
        first_listing: FoundServices,
        has_record: bool,
    ) -> Result<Lasting, NoMemory> {
        // By lane: the report that could not be handed in yet.
        let mut kept = Vec::with_capacity(alloc, LANE_LIMIT)?;
        for _ in 0..LANE_LIMIT {
            kept.push(None)?;
        }
        Ok(Lasting {
            // The connections of clients, and what they ask. `has_record`: runs are recorded.
            clients: Clients::new(alloc, has_record)?,
            plans: Plans::new(),
            first_listing: Some(first_listing),
            awaits_first: true,
            unread: Vec::new(alloc),
            full: FullServices::new(alloc),
            lines: Vec::new(alloc),
            kept,
            effect: None,
            clock: At::zero(),
            handed_in: 0,
        })
    }

    /// Takes out the report of this lane that the lane's seat did not take; None where there is
    /// none.
    pub fn take_kept(&mut self, lane: usize) -> Option<Report> {
        self.kept.get_mut(lane)?.take()
    }

    /// Takes out `effect`, into which each step's result is read, or makes one where there is none.
    /// So all steps use the same memory: put it back afterwards. `NoMemory` where memory is
    /// refused.
    pub fn take_effect(&mut self, alloc: Global) -> Result<Box<Effect<Global>>, NoMemory> {
        match self.effect.take() {
            Some(effect) => Ok(effect),
            None => new_effect(alloc),
        }
    }
}

/// What the driver keeps for a run: the seats at which it hands inputs in, the board from which
/// statuses are told, how long the run is (`pace`), the scan that was handed in and isn't answered
/// yet (`scan`), and, in `lasting`, what outlasts the run.
#[derive(Drop)]
pub struct DriverState<'a, C: Channels + Lanes> {
    /// The seats at which inputs are handed in, by their actors.
    pub seats: Vec<Seat<C>>,
    pub board: RunBoard<C>,
    /// The inputs of the run that are known so far. It exists for proofs alone; calls of the office
    /// make it longer.
    pub known: KnownHistory<C>,
    pub lasting: &'a mut Lasting,
    pub pace: Pace,
    /// How many steps with an input of actor 0 were handed out in this run.
    pub scans_and_ticks: u64,
    /// The number of the scan among the inputs of actor 0, from 1, until it is answered.
    pub scan: Option<u64>,
    /// What is posted of a step. It is empty between two steps, and keeps its memory.
    pub posts: Vec<Post>,
}

impl<'a, C: Channels + Lanes> DriverState<'a, C> {
    /// The state of a run in which no step was made.
    pub fn new(
        alloc: Global,
        seats: Vec<Seat<C>>,
        reader: BoardReader<C>,
        known: KnownHistory<C>,
        lasting: &'a mut Lasting,
        pace: Pace,
    ) -> DriverState<'a, C> {
        DriverState {
            seats,
            board: RunBoard::new(reader),
            known,
            lasting,
            pace,
            scans_and_ticks: 0,
            scan: None,
            posts: Vec::new(alloc),
        }
    }

    /// Whether the next step of actor 0 is the scan that was handed in.
    pub fn is_scan_next(&self) -> bool {
        self.scan == Some(self.scans_and_ticks.saturating_add(1))
    }

    /// Hands in an act of this actor at the moment `now`, in milliseconds. Where its ring is full,
    /// or has taken as many inputs as it ever may, the act comes back.
    pub fn hand_in(&mut self, actor: usize, now: u64, act: Act<Global>) -> Result<(), Act<Global>> {
        // The input end of this actor's ring.
        let Some(seat) = self.seats.get_mut(actor) else {
            return Err(act);
        };
        if seat.sent() >= i64::MAX as u64 {
            return Err(act);
        }
        match seat.submit(moment_of(now), act) {
            Ok(_ticket) => {
                self.lasting.handed_in = self.lasting.handed_in.max(now);
                Ok(())
            }
            Err((act, _full)) => Err(act),
        }
    }

    /// Hands in a scan of what was found, at the moment `now`, in milliseconds. Returns whether the
    /// scanner's ring took it.
    pub fn submit_scan(&mut self, now: u64, found: FoundServices) -> bool {
        // The input end of the scanner's ring.
        let Some(seat) = self.seats.get(SCANNER) else {
            return false;
        };
        // The number of this scan among the inputs of the scanner, counted from 1.
        let number = seat.sent().saturating_add(1);
        // What is noted was told when the directory was read.
        let FoundServices {
            listing,
            remarks,
            ..
        } = found;
        let is_taken = self.hand_in(SCANNER, now, Act::Scan(listing)).is_ok();
        if is_taken {
            self.scan = Some(number);
            self.lasting.unread = remarks;
        }
        is_taken
    }
}
