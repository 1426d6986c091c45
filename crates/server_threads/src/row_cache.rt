//! The rows of the board as they were last read, behind a lock that the threads of connections and
//! the driver share.
use channel_names::Channels;
use s6_events::NoMemory;
use scan_directory::Remark;
use server_rules::{CachedRows, Roster, Subject};
use status_board::BoardReader;
use std::alloc::{AllocError, Global};
use std::sync::{Mutex, Wait};

/// The rows of the board as they were last read. The driver reads them, and forgets them with each
/// step. The threads of connections tell a status from them, so a status of a tree at rest wakes
/// nobody.
#[derive(Drop)]
pub struct RowCache {
    rows: Mutex<CachedRows>,
}

impl RowCache {
    /// Nothing is read yet. `NoMemory` where memory is refused.
    pub fn new(alloc: Global) -> Result<RowCache, NoMemory> {
        Ok(RowCache {
            rows: Mutex::new(CachedRows::new(alloc)?),
        })
    }

    /// A step was made: the rows may not be those of the board any more.
    pub fn invalidate<R: Wait>(&self, rt: &R) {
        self.rows.lock(rt).forget();
    }

    /// A scan was made, which could not read these directories.
    pub fn set_unread<R: Wait>(&self, rt: &R, unread: Vec<Remark>) {
        self.rows.lock(rt).unread = unread;
    }

    /// The status of these services at the moment `now`, in milliseconds. None where the rows may
    /// not be those of the board any more, where the last step is a second old or older, or where
    /// the states are asked for and the roster wasn't copied since the rows were read.
    pub fn status<R: Wait>(
        &self,
        rt: &R,
        alloc: Global,
        now: u64,
        subject: &Subject,
    ) -> Option<Result<Vec<u8>, AllocError>> {
        let rows = self.rows.lock(rt);
        if !rows.is_fresh(now, subject) {
            return None;
        }
        Some(rows.status(alloc, subject))
    }

    /// Reads the board anew, and returns the status of these services. `step` is the moment of the
    /// last step, in milliseconds; None where the board doesn't show that step yet. The roster has
    /// noted that step.
    pub fn read<C: Channels, R: Wait>(
        &self,
        rt: &R,
        alloc: Global,
        reader: &mut BoardReader<C>,
        step: Option<u64>,
        roster: &Roster,
        subject: &Subject,
    ) -> Result<Vec<u8>, AllocError> {
        let mut rows = self.rows.lock(rt);
        rows.read(reader, step);
        // For states the roster is needed too: it is copied.
        if !rows.has(subject) && rows.take_roster(roster).is_err() {
            return Err(AllocError);
        }
        rows.status(alloc, subject)
    }

    /// Reads the board anew, and has the roster forget the services that have no row. `step` is the
    /// moment of the last step, in milliseconds; None where the board doesn't show that step yet:
    /// then nothing is forgotten. The roster has noted that step.
    pub fn forget_gone<C: Channels, R: Wait>(
        &self,
        rt: &R,
        reader: &mut BoardReader<C>,
        step: Option<u64>,
        roster: &mut Roster,
    ) {
        let mut rows = self.rows.lock(rt);
        rows.read(reader, step);
        rows.keep_present(roster);
    }
}
