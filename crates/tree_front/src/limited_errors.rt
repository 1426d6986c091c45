//! Standard error, where it is a file whose size the system limits: whoever writes behind that
//! limit is killed (SIGXFSZ).
use run_recorder::file_size_limit;
use std::alloc::Global;
use std::fs::{self, File};
use std::io::{self, ErrorKind, Write};
use std::rt::Files;

/// Standard error as this process has it.
const STANDARD_ERROR: &str = "/proc/self/fd/2";

/// A writer of standard error that refuses what the file has no room for. The limit and the file's
/// length are looked at before each write, since both may change.
#[derive(Drop)]
pub struct LimitedErrors<R, E> {
    rt: R,
    alloc: Global,
    errors: E,
}

impl<R, E> LimitedErrors<R, E> {
    /// A writer over `errors`, which writes to standard error.
    pub fn new(rt: R, alloc: Global, errors: E) -> LimitedErrors<R, E> {
        LimitedErrors { rt, alloc, errors }
    }
}

impl<R: Files<File = File>, E: Write> Write for LimitedErrors<R, E> {
    fn write(&mut self, bytes: &[u8]) -> io::Result<usize> {
        if has_room(&self.rt, self.alloc, bytes.len() as u64) {
            self.errors.write(bytes)
        } else {
            Err(ErrorKind::FileTooLarge.into())
        }
    }

    fn flush(&mut self) -> io::Result<()> {
        self.errors.flush()
    }
}

// Whether standard error may get so many bytes more: it is no regular file, or stays within the
// limit of a file's size.
fn has_room<R: Files<File = File>>(rt: &R, alloc: Global, count: u64) -> bool {
    let Some(limit) = file_size_limit(rt, alloc) else {
        return true;
    };
    match fs::metadata(rt, STANDARD_ERROR) {
        Ok(found) => !found.is_file() || found.len().saturating_add(count) <= limit,
        Err(_) => true,
    }
}
