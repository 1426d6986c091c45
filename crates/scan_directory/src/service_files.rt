//! The files of a service directory, as they were found at one moment.
ghost use Rattle.std.specs.Prelude.{◌≡◌, ◌≤◌, Err, IfOk, IfSome, option_map, length};
ghost use Rattle.servicedir.specs.Files.{Counts, CountsRefusal, reading_limit};
ghost use Rattle.scan_directory.specs.Files.{found_of, content_of};
ghost use Rattle.scan_directory.specs.TextNotes.{text_notes};

use crate::dir_note::DirNote;
use crate::text_notes::{
    note_of_down_signal, note_of_max_death_tally, note_of_timeout_finish, note_of_timeout_kill,
};
use s6_events::Name;
use servicedir::{ReadFault, ServiceFile};
use std::alloc::{Allocator, Global};
use std::io::{ErrorKind, Read};
use std::rt::Files;
use std::{fs, io};

/// The most bytes that are read of a file: one more than a valid text may have.
const READING_LIMIT: usize = 4097;

/// What reading a file gave.
#[derive(Drop)]
pub enum Reading {
    /// It is absent.
    Absent,
    /// Its bytes; only the first 4,097 where it has more.
    Text(Vec<u8>),
    /// It is there, and could not be read.
    Unread,
    /// It isn't known whether it is there.
    Unknown,
    /// Memory was refused.
    NoMemory,
}

/// The files of one service directory: what reading each of them gave; `kind` is the file `type`.
/// And how many readings failed (`failures`) or were refused memory (`refused`).
#[derive(Drop)]
pub struct ServiceFiles {
    run: Reading,
    kind: Reading,
    finish: Reading,
    down: Reading,
    notification_fd: Reading,
    timeout_kill: Reading,
    timeout_finish: Reading,
    max_death_tally: Reading,
    down_signal: Reading,
    // How many readings failed for another reason than a refusal of memory.
    failures: u64,
    // How many readings were refused memory.
    refused: u64,
    // The file of the last reading that failed or was refused memory.
    failed: Option<ServiceFile>,
}

impl ServiceFiles {
    /// Looks at the files of the directory of this path.
    pub fn of<R: Files>(rt: &R, alloc: Global, directory: &str) -> ServiceFiles {
        ServiceFiles {
            run: look(rt, alloc, directory, ServiceFile::Run),
            kind: look(rt, alloc, directory, ServiceFile::Kind),
            finish: look(rt, alloc, directory, ServiceFile::Finish),
            down: look(rt, alloc, directory, ServiceFile::Down),
            notification_fd: look(rt, alloc, directory, ServiceFile::NotificationFd),
            timeout_kill: look(rt, alloc, directory, ServiceFile::TimeoutKill),
            timeout_finish: look(rt, alloc, directory, ServiceFile::TimeoutFinish),
            max_death_tally: look(rt, alloc, directory, ServiceFile::MaxDeathTally),
            down_signal: look(rt, alloc, directory, ServiceFile::DownSignal),
            failures: 0,
            refused: 0,
            failed: None,
        }
    }

    /// What is noted of the files whose texts are read, but for `notification-fd`: that one
    /// `servicedir::read` notes.
    pub fn text_notes(&self) -> [Option<DirNote>; 4]
        ensures { result ≡ text_notes self.now }
    {
        [
            note_of_timeout_kill(&self.timeout_kill),
            note_of_timeout_finish(&self.timeout_finish),
            note_of_max_death_tally(&self.max_death_tally),
            note_of_down_signal(&self.down_signal),
        ]
    }

    /// What reading this file of the service directory gave.
    pub fn found(&self, file: ServiceFile) -> &Reading
        ensures { result.now ≡ found_of self.now file }
    {
        match file {
            ServiceFile::Run => &self.run,
            ServiceFile::Kind => &self.kind,
            ServiceFile::Finish => &self.finish,
            ServiceFile::Down => &self.down,
            ServiceFile::NotificationFd => &self.notification_fd,
            ServiceFile::TimeoutKill => &self.timeout_kill,
            ServiceFile::TimeoutFinish => &self.timeout_finish,
            ServiceFile::MaxDeathTally => &self.max_death_tally,
            ServiceFile::DownSignal => &self.down_signal,
        }
    }

    // Counts a reading of this file that failed: in `failures`, or in `refused` where memory was
    // refused; and keeps the file in `failed`. Returns the fault; where `failures` is full, the
    // reading counts as refused, and the fault becomes `NoMemory`.
    fn fail(&mut self, file: ServiceFile, fault: ReadFault) -> ReadFault
        ensures same { (f : _) → found_of self.new f ≡ found_of self.old f }
        ensures count { Counts {V = Unit {0}} (Err result) file
            self.old.failures self.new.failures self.new.failed }
        ensures memory { CountsRefusal {V = Unit {0}} (Err result)
            self.old.refused self.new.refused }
    {
        self.failed = Some(file);
        if fault == ReadFault::Io && self.failures < u64::MAX {
            self.failures += 1;
            return ReadFault::Io;
        }
        self.refused = self.refused.wrapping_add(1);
        ReadFault::NoMemory
    }
}

// Reads this file of the directory at this path.
fn look<R: Files>(rt: &R, alloc: Global, directory: &str, file: ServiceFile) -> Reading {
    let name = file.name();
    let Ok(path) = format!(in alloc; "{directory}/{name}") else {
        return Reading::NoMemory;
    };
    match read_file(rt, alloc, path.as_str()) {
        Ok(text) => Reading::Text(text),
        Err(error) => match error.kind() {
            ErrorKind::NotFound => Reading::Absent,
            ErrorKind::OutOfMemory => Reading::NoMemory,
            // For any other error, it is looked up whether the file is there at all.
            _ => match fs::metadata(rt, path.as_str()) {
                Ok(_) => Reading::Unread,
                Err(_) => Reading::Unknown,
            },
        },
    }
}

// The bytes of a regular file; only the first 4,097 where it has more. A file of another kind is
// not opened, since to open a pipe would wait for its writer: the error is `InvalidInput`.
fn read_file<R: Files>(rt: &R, alloc: Global, path: &str) -> io::Result<Vec<u8>> {
    if !fs::metadata(rt, path)?.is_file() {
        return Err(ErrorKind::InvalidInput.into());
    }
    let file = fs::File::open(rt, path)?;
    let mut text = Vec::new(alloc);
    let mut reader = file.take(READING_LIMIT as u64);
    reader.read_to_end(&mut text)?;
    Ok(text)
}

impl servicedir::Files for ServiceFiles {
    ghost use Rattle.scan_directory.specs.Files.{content_of, found_of};

    ghost gives = { λ f name file. content_of (found_of f file) };

    ghost failures = { λ f. f.failures };

    ghost failed = { λ f. f.failed };

    ghost refused = { λ f. f.refused };

    // Whether the file is there. One that can't be read counts as there; where it isn't known
    // whether it is, that is a failure, which is counted. The name is not looked at: the files are
    // those of one service.
    fn has(&mut self, _name: Name, file: ServiceFile) -> Result<bool, ReadFault> {
        match self.found(file) {
            Reading::Absent => Ok(false),
            Reading::Text(_) | Reading::Unread => Ok(true),
            Reading::Unknown => Err(self.fail(file, ReadFault::Io)),
            Reading::NoMemory => Err(self.fail(file, ReadFault::NoMemory)),
        }
    }

    // A copy of what was read of the file; None where it is absent. A failure is counted. The name
    // is not looked at: the files are those of one service.
    fn text<A: Allocator + Copy>(
        &mut self,
        alloc: A,
        _name: Name,
        file: ServiceFile,
    ) -> Result<Option<Vec<u8, A>>, ReadFault> {
        match copy_of(alloc, self.found(file)) {
            Ok(text) => Ok(text),
            Err(fault) => Err(self.fail(file, fault)),
        }
    }
}

// A copy of the bytes that were read of a file; None where it is absent. `Io` where it could not be
// read, `NoMemory` where memory was refused, then or now.
fn copy_of<A: Allocator + Copy>(alloc: A, found: &Reading) -> Result<Option<Vec<u8, A>>, ReadFault>
    ensures text { IfOk result (λ text. option_map (λ t. t.items) text ≡ content_of found.now) }
    ensures bound { IfOk result (λ text. IfSome text (λ t. length t.items ≤ reading_limit)) }
{
    match found {
        Reading::Absent => Ok(None),
        // The guard always holds, since `read_file` gives no more bytes. It is there for the clause
        // `bound`.
        Reading::Text(text) if text.len() <= READING_LIMIT => {
            match Vec::from_slice(alloc, text.as_slice()) {
                Ok(copy) => Ok(Some(copy)),
                Err(_) => Err(ReadFault::NoMemory),
            }
        }
        Reading::NoMemory => Err(ReadFault::NoMemory),
        // The file could not be read, or it isn't known whether it is there.
        _ => Err(ReadFault::Io),
    }
}
