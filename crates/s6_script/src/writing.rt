//! Writing a text whole.
ghost use Rattle.std.specs.Prelude.{◌≡◌, IfErr, OnOk};
ghost use Rattle.std.specs.Io.KnownBytes.{Appends};
ghost use Rattle.s6_script.specs.Writing.{AppendsFront};

use std::alloc::AllocError;
use std::io::Write;
use thiserror::Error;

/// Why a text was not written whole.
#[derive(Clone, Copy, Debug, PartialEq, Eq, Error)]
pub enum WriteFault {
    /// The writer answered an error, or took no byte. Of the text nothing was written, or a part
    /// from its beginning on, which may end within a line, but never all.
    #[error("the transcript was not written")]
    Write = 1,
    /// Memory was refused. Nothing was written.
    #[error("out of memory")]
    NoMemory = 2,
}

impl From<AllocError> for WriteFault {
    ghost use Rattle.s6_script.specs.declared.writing.WriteFault.TheVariants.{NoMemory};

    ghost from_gives = { λ _ fault. fault ≡ NoMemory };

    fn from(_refused: AllocError) -> WriteFault {
        WriteFault::NoMemory
    }
}

/// Writes all of the bytes. The only fault is `Write`: then some of them, or none, were written,
/// from the front on, and not all. The writer is not flushed.
pub fn write_whole<W: Write>(writer: &mut W, bytes: &[u8]) -> Result<(), WriteFault>
    ensures ok { OnOk result (Appends (W.contents writer.old) (W.contents writer.new) bytes.now) }
    ensures write { IfErr result (λ fault. (fault ≡ WriteFault.Write)
        × AppendsFront (W.contents writer.old) (W.contents writer.new) bytes.now) }
{
    let mut at = 0;
    while at < bytes.len() {
        match writer.write(&bytes[at..]) {
            // A writer that takes no byte has failed too: else this would go on for ever.
            Err(_) | Ok(0) => return Err(WriteFault::Write),
            Ok(n) => at += n,
        }
    }
    Ok(())
}
