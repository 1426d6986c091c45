//! The files of a service directory, and the trait by which they are read.
ghost use Rattle.std.specs.Prelude.{◌≡◌, ◌≤◌, ℕ, List, Option, IfOk, IfSome, is_some, option_map, length};
ghost use Rattle.servicedir.specs.Files.{Directory, reading_limit, file_name, Counts, CountsRefusal};

use s6_events::Name;
use std::alloc::Allocator;

/// The files of a service directory that are read. Page `servicedir`, but for `type`, which is a
/// file of s6-rc.
#[derive(Clone, Copy, PartialEq, Eq, Debug)]
pub enum ServiceFile {
    /// `run`: the program of the service.
    Run,
    /// `type`: what kind of service it is.
    Kind,
    /// `finish`: the program that runs after each death of `run`.
    Finish,
    /// `down`: the service is not started by itself.
    Down,
    /// `notification-fd`: where the daemon says that it is ready.
    NotificationFd,
    /// `timeout-kill`: how long the service may take to die once it was told to go down.
    TimeoutKill,
    /// `timeout-finish`: how long `finish` may take.
    TimeoutFinish,
    /// `max-death-tally`: how many deaths are kept.
    MaxDeathTally,
    /// `down-signal`: what tells the service to go down.
    DownSignal,
}

impl ServiceFile {
    /// What the file is called in the directory.
    pub fn name(self) -> &'static str
        ensures { result.now ≡ file_name self }
    {
        match self {
            ServiceFile::Run => "run",
            ServiceFile::Kind => "type",
            ServiceFile::Finish => "finish",
            ServiceFile::Down => "down",
            ServiceFile::NotificationFd => "notification-fd",
            ServiceFile::TimeoutKill => "timeout-kill",
            ServiceFile::TimeoutFinish => "timeout-finish",
            ServiceFile::MaxDeathTally => "max-death-tally",
            ServiceFile::DownSignal => "down-signal",
        }
    }
}

/// Why a reading of a file failed.
#[derive(Clone, Copy, PartialEq, Eq, Debug)]
pub enum ReadFault {
    /// The file could not be looked at or read; the `Files` that was asked counts that. That a file
    /// is absent is no failure.
    Io,
    /// Memory was refused; the `Files` that was asked counts that.
    NoMemory,
}

/// Where the files of service directories are read. What this gives stays the same while they are
/// read: since a real directory may change meanwhile, an implementation takes a copy of its files
/// first. A reading is bounded: of a file of over 4096 bytes it gives the first 4097, and so the
/// reader knows that the text is too long to be valid.
pub trait Files {
    ghost use Rattle.servicedir.specs.declared.files.ServiceFile.{ServiceFile};

    /// What a reading gives of each file of the service of this name: None where the file is
    /// absent, else its bytes, or the first 4097 where there are more than 4096.
    ghost gives: { Self → List ℕ → Directory };

    /// How many readings failed so far.
    ghost failures: { Self → ℕ };

    /// The file of the last reading that gave nothing: it failed, or memory was refused.
    ghost failed: { Self → Option ServiceFile };

    /// How many readings were refused memory so far, modulo 2^64, so that a counter can keep it.
    ghost refused: { Self → ℕ };

    /// Whether the file is there; it need not be readable for that.
    fn has(&mut self, name: Name, file: ServiceFile) -> Result<bool, ReadFault>
        ensures there { IfOk result (λ there. there ≡ is_some (gives self.old name file)) }
        ensures same { gives self.new ≡ gives self.old }
        ensures count { Counts result file (failures self.old) (failures self.new)
            (failed self.new) }
        ensures memory { CountsRefusal result (refused self.old) (refused self.new) };

    /// The bytes of the file, or the first 4097 where there are more than 4096; None where it is
    /// absent.
    fn text<A: Allocator + Copy>(
        &mut self,
        alloc: A,
        name: Name,
        file: ServiceFile,
    ) -> Result<Option<Vec<u8, A>>, ReadFault>
        ensures text { IfOk result (λ text. option_map (λ t. t.items) text
            ≡ gives self.old name file) }
        ensures bound { IfOk result (λ text. IfSome text (λ t. length t.items ≤ reading_limit)) }
        ensures same { gives self.new ≡ gives self.old }
        ensures count { Counts result file (failures self.old) (failures self.new)
            (failed self.new) }
        ensures memory { CountsRefusal result (refused self.old) (refused self.new) };
}
