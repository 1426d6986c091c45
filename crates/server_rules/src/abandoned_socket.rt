//! Which socket is abandoned, and which file is a server's own.
ghost use Rattle.std.specs.Prelude.{◌≡◌, true};
ghost use Rattle.std.specs.declared.io.ErrorKind.TheVariants.{ConnectionRefused};
ghost use Rattle.server_rules.specs.Sockets.{is_one_file};

use std::fs::Metadata;
use std::io::ErrorKind;
use std::os::unix::fs::MetadataExt;

/// By what a file is known again: no other file has both numbers as long as this one is there.
#[derive(Clone, Copy, PartialEq, Eq, Debug)]
pub struct FileIdentity {
    pub device: u64,
    pub inode: u64,
}

impl FileIdentity {
    /// The identity of the file that has these metadata.
    pub fn of(metadata: &Metadata) -> FileIdentity {
        FileIdentity {
            device: metadata.dev(),
            inode: metadata.ino(),
        }
    }

    /// Whether both are one file.
    pub fn is_that_of(&self, other: &FileIdentity) -> bool
        ensures { result ≡ is_one_file self.now other.now }
    {
        self.device == other.device && self.inode == other.inode
    }
}

/// Whether this failure to connect says that nobody listens on the socket any more. Any other
/// failure, such as want of a descriptor or of permission, says nothing about the server.
pub fn says_abandoned(kind: ErrorKind) -> bool
    ensures abandoned { result ≡ true → kind ≡ ConnectionRefused }
    ensures refused { kind ≡ ConnectionRefused → result ≡ true }
{
    kind == ErrorKind::ConnectionRefused
}
