//! The thread that reads the scan directory.
use crate::scan_tasks::{ReadScan, Task};
use crate::shared::Shared;
use scan_directory::read_listing;
use server_rules::OwnAnswer;
use std::io::{ErrorKind, Write};
use std::mem;
use std::rt::Files;
use std::sync::Wait;

/// Reads the directory whenever a listing is asked for, and drops the runs that were closed, until
/// the tree has ended. Faults of the directory's services are told on `errors`.
pub fn attend<R: Files + Wait + Copy + Drop, E: Write>(
    rt: &R,
    shared: &Shared,
    directory: &str,
    errors: &mut E,
) {
    for _ in rt.forever() {
        match shared.scans.await_task(rt) {
            Task::Read => {
                let found = read_scan(rt, shared, directory, errors);
                // The driver takes it there; its bell tells it to look.
                shared.scans.leave_found(rt, found);
                shared.driver.ring(rt);
            }
            Task::Drop(run) => mem::drop(run),
            Task::End => break,
        }
    }
}

// Reads the scan directory, and tells faults of its services' directories on `errors`. Where that
// gives no listing, the error is the answer for those who asked for a scan.
fn read_scan<R: Files + Copy + Drop, E: Write>(
    rt: &R,
    shared: &Shared,
    directory: &str,
    errors: &mut E,
) -> ReadScan {
    match read_listing(rt, shared.alloc, directory, errors) {
        Ok(found) => Ok(found),
        Err(error) => match error.kind() {
            // Memory for the listing was refused.
            ErrorKind::OutOfMemory => Err(OwnAnswer::NoMemory),
            // Its listing is too long for a line of a script, which is told already.
            ErrorKind::InvalidData => Err(OwnAnswer::Directory),
            _ => {
                let _ = errors.write_all(
                    b"svscan: the directory can't be read: nothing was scanned\n",
                );
                Err(OwnAnswer::Directory)
            }
        },
    }
}
