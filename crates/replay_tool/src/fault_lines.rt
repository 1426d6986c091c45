//! The line on standard error and the exit status of each fault.
ghost use Rattle.std.specs.Prelude.{◌≡◌, ℕ, take, IfOk, OnOk};
ghost use Rattle.std.specs.Io.KnownBytes.{Appends};
ghost use Rattle.replay_tool.specs.FaultLines.{status_of, fault_line};

use arrayvec::ArrayVec;
use s6_replay::ReplayFault;
use s6_script::write_whole;
use std::io::{self, Write};

/// The status of a program whose words were wrong, or whose input is no script.
pub const USAGE_STATUS: u8 = 100;

/// The status of a program to which the system refused something.
pub const SYSTEM_STATUS: u8 = 111;

/// The line where the words name no tool, or an unknown one.
pub const NO_TOOL: &[u8] = b"s6_tree: unknown tool\n";

/// The line where the words after `replay` are wrong.
pub const REPLAY_USAGE: &[u8] = b"replay: usage\n";

// Writes the line that tells a fault of `replay`, with its newline. The error is the writer's.
fn write_line<W: Write>(fault: &ReplayFault, writer: &mut W) -> io::Result<()>
    ensures { OnOk result (Appends (W.contents writer.old) (W.contents writer.new)
        (fault_line fault.now)) }
{
    match fault {
        ReplayFault::Head => writer.write_all(b"replay: no head line\n"),
        ReplayFault::Line(number) => write!(writer, "replay: line {number}\n"),
        ReplayFault::Pattern(number) => write!(writer, "replay: pattern in line {number}\n"),
        ReplayFault::Truncated => writer.write_all(b"replay: truncated\n"),
        ReplayFault::Read => writer.write_all(b"replay: read\n"),
        ReplayFault::Write => writer.write_all(b"replay: write\n"),
        ReplayFault::NoMemory => writer.write_all(b"replay: no memory\n"),
    }
}

// The line of a fault. The longest has 45 bytes.
fn line_of(fault: &ReplayFault) -> io::Result<ArrayVec<u8, 64>>
    ensures { IfOk result (λ line. line.items ≡ fault_line fault.now) }
{
    let mut line = ArrayVec::new();
    write_line(fault, &mut line)?;
    Ok(line)
}

// Writes the line of a fault, or as much of it as the writer takes. The line always fits into its
// buffer.
fn tell<W: Write>(fault: &ReplayFault, writer: &mut W)
    ensures { (n : ℕ) × Appends (W.contents writer.old) (W.contents writer.new)
        (take n (fault_line fault.now)) }
{
    if let Ok(line) = line_of(fault) {
        let _ = write_whole(writer, line.as_slice());
    }
}

/// Writes the line about a fault of `replay`, and returns the exit status: 100 where the input is
/// no script, 111 where the system refused something. Where the line can't be written whole, a part
/// from its beginning on may be, and the status is the same. Takes no memory. The lines are this
/// program's own; the statuses are after the exit codes of s6's programs.
pub fn replay_fault<W: Write>(fault: &ReplayFault, writer: &mut W) -> u8
    ensures status { result ≡ status_of fault.now }
    ensures line { (n : ℕ) × Appends (W.contents writer.old) (W.contents writer.new)
        (take n (fault_line fault.now)) }
{
    tell(fault, writer);
    match fault {
        ReplayFault::Head
        | ReplayFault::Line(_)
        | ReplayFault::Pattern(_)
        | ReplayFault::Truncated => USAGE_STATUS,
        ReplayFault::Read | ReplayFault::Write | ReplayFault::NoMemory => SYSTEM_STATUS,
    }
}
