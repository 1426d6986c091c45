//! The head line of a script: `s6-script 1` or `s6-script 2`, by the version of its format.
ghost use Rattle.std.specs.Prelude.{◌∷◌, [], ◌++◌, codes, OnOk, IfOk, IfErr};
ghost use Rattle.std.specs.Io.KnownBytes.{Consumes};
ghost use Rattle.s6_script.specs.Script.{head_line};
ghost use Rattle.s6_replay.specs.Turn.{HeadStops, LiteralStops, version_digit, VersionStops};

use super::fault::ReplayFault;
use s6_script::Version;
use std::io::{BufRead, Read};

// Reads just these bytes. `Head` where other bytes come, or the end of the input; `Read` where the
// reader answered an error.
fn read_literal<R: BufRead>(reader: &mut R, text: &[u8]) -> Result<(), ReplayFault>
    ensures ok { OnOk result (Consumes (R.remaining reader.old) (R.remaining reader.new) text.now) }
    ensures fault { IfErr result
        (λ fault. LiteralStops fault text.now (R.remaining reader.old) (R.remaining reader.new)) }
{
    let mut byte = [0; 1];
    for want in text {
        match reader.read(&mut byte) {
            Err(_) => return Err(ReplayFault::Read),
            // The input ended.
            Ok(0) => return Err(ReplayFault::Head),
            Ok(_) => {}
        }
        if byte[0] != *want {
            return Err(ReplayFault::Head);
        }
    }
    Ok(())
}

// Reads the digit of a version. `Head` where it is another byte, or the input ends; `Read` where
// the reader answered an error.
fn read_version<R: BufRead>(reader: &mut R) -> Result<Version, ReplayFault>
    ensures ok { IfOk result (λ version. Consumes (R.remaining reader.old) (R.remaining reader.new)
        (version_digit version ∷ [])) }
    ensures fault { IfErr result
        (λ fault. VersionStops fault (R.remaining reader.old) (R.remaining reader.new)) }
{
    let mut byte = [0; 1];
    match reader.read(&mut byte) {
        Err(_) => return Err(ReplayFault::Read),
        Ok(0) => return Err(ReplayFault::Head),
        Ok(_) => {}
    }
    match byte[0] {
        b'1' => Ok(Version::One),
        b'2' => Ok(Version::Two),
        _ => Err(ReplayFault::Head),
    }
}

/// Reads the head line of a script, `s6-script 1` or `s6-script 2` with its newline, and returns
/// the version. `Head` where the input begins otherwise, `Read` where the reader answered an error.
pub fn read_head<R: BufRead>(reader: &mut R) -> Result<Version, ReplayFault>
    ensures ok { IfOk result (λ version. Consumes (R.remaining reader.old) (R.remaining reader.new)
        (head_line version)) }
    ensures fault { IfErr result
        (λ fault. HeadStops fault (R.remaining reader.old) (R.remaining reader.new)) }
{
    if let Err(fault) = read_literal(reader, b"s6-script ") {
        return Err(fault);
    }
    let version = match read_version(reader) {
        Ok(version) => version,
        Err(fault) => return Err(fault),
    };
    match read_literal(reader, b"\n") {
        Ok(()) => Ok(version),
        Err(fault) => Err(fault),
    }
}
