//! The file of a record: how it is made, and how much the system lets it grow.
use crate::file_limit::{limit_in, room};
use server_rules::FileIdentity;
use std::alloc::Global;
use std::fs::{self, File, OpenOptions, Permissions, TryLockError};
use std::io::{self, BufWriter, ErrorKind, Read, Write};
use std::os::unix::fs::{MetadataExt, OpenOptionsExt, PermissionsExt};
use std::rt::Files;

/// The rights of a record: its owner's alone.
const RECORD_MODE: u32 = 0o600;

/// What is written to a new record, to see whether the disk has room, and then cut off again: as
/// many bytes as a block of most file systems has.
const PROBE: [u8; 4_096] = [0; 4_096];

/// The most bytes that are read of what the system tells of its limits.
const LIMITS_SIZE: u64 = 8_192;

/// A writer of a record.
pub trait RecordWriter: Write {
    /// Whether its file was removed, so that nobody could read what is written.
    fn is_removed(&self) -> bool;
}

/// The file of a record. The system kills whoever writes behind the limit of a file's size
/// (SIGXFSZ): a write that would is refused here, as it is where the disk is full.
#[derive(Drop)]
pub struct RecordFile {
    file: File,
    // The most bytes that it may have; None where the system sets no limit.
    limit: Option<u64>,
}

impl RecordFile {
    // How many bytes more it may get; None where no limit is set.
    fn room(&self) -> io::Result<Option<u64>> {
        match self.limit {
            Some(limit) => Ok(Some(room(limit, self.file.metadata()?.len()))),
            None => Ok(None),
        }
    }
}

impl Write for RecordFile {
    fn write(&mut self, bytes: &[u8]) -> io::Result<usize> {
        match self.room()? {
            Some(0) if !bytes.is_empty() => Err(ErrorKind::FileTooLarge.into()),
            Some(room) => {
                let count = usize::try_from(room).unwrap_or(usize::MAX);
                self.file.write(bytes.get(..count).unwrap_or(bytes))
            }
            None => self.file.write(bytes),
        }
    }

    fn flush(&mut self) -> io::Result<()> {
        self.file.flush()
    }
}

impl RecordWriter for BufWriter<RecordFile> {
    fn is_removed(&self) -> bool {
        match self.get_ref().file.metadata() {
            Ok(found) => found.nlink() == 0,
            Err(_) => false,
        }
    }
}

/// A writer of the file at this path, which is made, or made empty, with rights for its owner
/// alone. It is an error where a link is at the path, or another file that isn't regular, where
/// another server records in the file, or where the disk has no room: what is there is left as it
/// is, but for a file in which no room was left.
pub fn create_record<R: Files<File = File>>(
    rt: &R,
    alloc: Global,
    path: &str,
) -> io::Result<BufWriter<RecordFile>> {
    let file = open_record(rt, path)?;
    // Another server has the lock. A lock that fails otherwise, as on a file system that has none,
    // is no error.
    if let Err(TryLockError::WouldBlock) = file.try_lock() {
        return Err(ErrorKind::WouldBlock.into());
    }
    file.set_permissions(Permissions::from_mode(RECORD_MODE))?;
    // An earlier record in the file is given up.
    file.set_len(0)?;
    let limit = file_size_limit(rt, alloc);
    let mut record = RecordFile { file, limit };
    // A full disk is seen now, and not only once the record is asked for.
    record.write_all(&PROBE)?;
    record.file.set_len(0)?;
    BufWriter::new(alloc, record)
}

/// The limit of a file's size, in bytes, as the system tells it; None where it sets none, or tells
/// nothing.
pub fn file_size_limit<R: Files<File = File>>(rt: &R, alloc: Global) -> Option<u64> {
    let file = File::open(rt, "/proc/self/limits").ok()?;
    let mut text = Vec::new(alloc);
    file.take(LIMITS_SIZE).read_to_end(&mut text).ok()?;
    limit_in(text.as_slice())
}

// Makes the file at this path, or opens the one that is there. Only a regular file is opened: to
// open a pipe would wait for its reader.
fn open_record<R: Files<File = File>>(rt: &R, path: &str) -> io::Result<File> {
    let mut options = OpenOptions::new();
    // With `create_new` the opening fails where a file is there: that one is opened by
    // `open_standing`.
    options.append(true).create_new(true).mode(RECORD_MODE);
    match options.open(rt, path) {
        Err(error) if error.kind() == ErrorKind::AlreadyExists => open_standing(rt, path),
        made => made,
    }
}

// Opens the regular file that is at this path. `InvalidInput` where the file is not regular, or is
// replaced meanwhile.
fn open_standing<R: Files<File = File>>(rt: &R, path: &str) -> io::Result<File> {
    // The look at the path doesn't follow a link, so a link is not regular here.
    let found = fs::symlink_metadata(rt, path)?;
    if !found.is_file() {
        return Err(ErrorKind::InvalidInput.into());
    }
    let file = OpenOptions::new().append(true).open(rt, path)?;
    let opened = file.metadata()?;
    // The file was replaced between the look and the opening.
    if !FileIdentity::of(&found).is_that_of(&FileIdentity::of(&opened)) {
        return Err(ErrorKind::InvalidInput.into());
    }
    Ok(file)
}
