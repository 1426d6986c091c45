//! Signals that whoever started svscan had it ignore: services inherit that, and svscan can't
//! change it.
ghost use Rattle.std.specs.Prelude.{◌≡◌, ◌≤◌, ◌-◌};
ghost use Rattle.tree_front.specs.IgnoredSignals.{is_ignored};

use std::alloc::Global;
use std::fs::File;
use std::io::{Read, Write};
use std::rt::Files;

/// The numbers of the signals that are looked at.
const SIGHUP: u8 = 1;

const SIGINT: u8 = 2;

const SIGTERM: u8 = 15;

const SIGCHLD: u8 = 17;

/// The most bytes that are read of what the system tells of this process.
const STATUS_SIZE: u64 = 16_384;

/// What is told of a signal that is ignored.
const LINES: [(u8, &str); 3] = [
    (
        SIGTERM,
        "svscan: TERM is ignored, also by services: svc -d ends none; start svscan by: env --default-signal=TERM\n",
    ),
    (
        SIGHUP,
        "svscan: HUP is ignored, also by services, as under nohup: svc -h does nothing; start svscan by: env --default-signal=HUP\n",
    ),
    (
        SIGINT,
        "svscan: INT is ignored, also by services: svc -i does nothing; start svscan by: env --default-signal=INT\n",
    ),
];

// Whether this signal is ignored, where `mask` has a bit for each signal, the first for signal 1.
fn is_ignored(mask: u64, signal: u8) -> bool
    requires low { 1 ≤ signal }
    requires high { signal ≤ 64 }
    ensures { result ≡ is_ignored mask signal }
{
    (mask >> (signal - 1)) % 2 == 1
}

/// The signals that this process ignores, a bit for each; 0 where the system doesn't tell.
pub fn ignored_signals<R: Files<File = File>>(rt: &R, alloc: Global) -> u64 {
    let Ok(file) = File::open(rt, "/proc/self/status") else {
        return 0;
    };
    let mut text = Vec::new(alloc);
    match file.take(STATUS_SIZE).read_to_end(&mut text) {
        Ok(_) => mask_in(text.as_slice()).unwrap_or(0),
        Err(_) => 0,
    }
}

// The mask of ignored signals in what `/proc/self/status` tells; None where it isn't there.
fn mask_in(status: &[u8]) -> Option<u64> {
    let digits = status
        .split(|byte| *byte == b'\n')
        .find_map(|line| line.strip_prefix(b"SigIgn:\t".as_slice()))?;
    u64::from_str_radix(str::from_utf8(digits).ok()?, 16).ok()
}

/// Whether SIGCHLD is ignored: then the system tells no end of a child.
pub fn is_child_ignored(mask: u64) -> bool
    ensures { result ≡ is_ignored mask 17 }
{
    is_ignored(mask, SIGCHLD)
}

/// Tells by one line each which of TERM, HUP and INT are ignored, what that means, and how svscan
/// is started without.
pub fn tell_ignored<E: Write>(mask: u64, errors: &mut E) {
    for (signal, line) in LINES {
        if is_ignored(mask, signal.clamp(1, 64)) {
            let _ = errors.write_all(line.as_bytes());
        }
    }
}
