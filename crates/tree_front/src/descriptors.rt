//! The standard descriptors of a program that was started without some of them.
use std::fs::{File, OpenOptions};
use std::os::fd::{AsRawFd, IntoRawFd};
use std::rt::Files;

/// The last of the standard descriptors.
const LAST_STANDARD: i32 = 2;

/// Opens `/dev/null` for each of the descriptors 0, 1 and 2 that is closed. Else a file that is
/// opened later would take its place: an error line could go to a client, or a client's bytes to
/// the record. The system always gives the least number that is free.
pub fn open_standard<R: Files<File = File>>(rt: &R) {
    for _ in 0..=LAST_STANDARD {
        // It gets the least number that is free.
        let opened = OpenOptions::new()
            .read(true)
            .write(true)
            .open(rt, "/dev/null");
        let Ok(file) = opened else {
            return;
        };
        // All three are open, and this one is closed again.
        if file.as_raw_fd() > LAST_STANDARD {
            return;
        }
        // It stays open to the end of the program.
        let _kept = file.into_raw_fd();
    }
}
