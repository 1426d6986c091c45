//! The program's command line, its help texts and the lines of its faults.
ghost use Rattle.std.specs.Io.{WritesAtMost};

use super::{holds, same};
use linked_list_allocator::LocalHeap;
use replay_tool::{replay, replay_fault, run_tool};
use s6_replay::ReplayFault;
use std::alloc::Global;
use std::env::{Env, FillError};
use std::io::{self, ErrorKind, Write};
use std::process::Abort;
use std::test::Fail;

const SCRIPT: &str = "s6-script 1\n0 1 tick\n";

const FAULTS: &[(ReplayFault, u8, &str)] = &[
    (ReplayFault::Head, 100, "replay: no head line\n"),
    (ReplayFault::Line(7), 100, "replay: line 7\n"),
    (
        ReplayFault::Pattern(12),
        100,
        "replay: pattern in line 12\n",
    ),
    (
        ReplayFault::Pattern(u64::MAX),
        100,
        "replay: pattern in line 18446744073709551615\n",
    ),
    (ReplayFault::Truncated, 100, "replay: truncated\n"),
    (ReplayFault::Read, 111, "replay: read\n"),
    (ReplayFault::Write, 111, "replay: write\n"),
    (ReplayFault::NoMemory, 111, "replay: no memory\n"),
];

#[test]
fn tells_of_each_fault_with_its_status(rt: HostRuntime) {
    for (fault, status, line) in FAULTS {
        let mut written = Vec::new(rt.alloc());
        let found = replay_fault(fault, &mut written);
        same(&rt, *line, written.as_slice(), line.as_bytes());
        holds(&rt, *line, found == *status);
    }
}

// The words of a command line, behind the program's name.
#[derive(Drop)]
pub struct CommandWords<'a>(pub &'a [&'a [u8]]);

// Copies the word to the front of the buffer.
fn fill(word: &[u8], buf: &mut [u8]) -> Result<usize, FillError>
    ensures { WritesAtMost result buf.new }
{
    if word.len() > buf.len() {
        return Err(FillError::TooLong);
    }
    buf[..word.len()].copy_from_slice(word);
    Ok(word.len())
}

impl<'a> Env for CommandWords<'a> {
    fn arg(&self, i: usize, buf: &mut [u8]) -> Result<usize, FillError> {
        if i == 0 {
            return fill(b"s6_tree", buf);
        }
        match self.0.get(i - 1) {
            Some(word) => fill(word, buf),
            None => Err(FillError::NotPresent),
        }
    }

    fn var(&self, _name: &str, _buf: &mut [u8]) -> Result<usize, FillError> {
        Err(FillError::NotPresent)
    }

    fn var_at(&self, _i: usize, _buf: &mut [u8]) -> Result<usize, FillError> {
        Err(FillError::NotPresent)
    }
}

// A run of the program: its words, its standard input, its status, its standard output, its
// standard error.
#[derive(Clone, Copy)]
struct ProgramRun {
    words: &'static [&'static [u8]],
    input: &'static str,
    status: u8,
    output: &'static str,
    errors: &'static str,
}

const RUNS: &[ProgramRun] = &[
    ProgramRun {
        words: &[b"--help"],
        input: SCRIPT,
        status: 0,
        output: HELP,
        errors: "",
    },
    ProgramRun {
        words: &[b"--version"],
        input: SCRIPT,
        status: 0,
        output: "s6_tree (Reskjavin) 0.1.0\n",
        errors: "",
    },
    ProgramRun {
        words: &[b"replay", b"--help"],
        input: SCRIPT,
        status: 0,
        output: REPLAY_HELP,
        errors: "",
    },
    ProgramRun {
        words: &[b"replay", b"-h"],
        input: SCRIPT,
        status: 0,
        output: REPLAY_HELP,
        errors: "",
    },
    ProgramRun {
        words: &[b"replay"],
        input: SCRIPT,
        status: 0,
        output: "1 done\n",
        errors: "",
    },
    ProgramRun {
        words: &[b"replay"],
        input: "s6-script 1\n0 1 tick",
        status: 100,
        output: "",
        errors: "replay: truncated\n",
    },
    // The worked row `pattern-that-does-not-build`.
    ProgramRun {
        words: &[b"replay"],
        input: "s6-script 1\n0 1 subscribe dir q once (\n",
        status: 100,
        output: "",
        errors: "replay: pattern in line 2\n",
    },
    ProgramRun {
        words: &[b"replay", b"--migrate"],
        input: SCRIPT,
        status: 0,
        output: "s6-script 2\n0 1 tick\n= done\n",
        errors: "",
    },
    ProgramRun {
        words: &[b"replay", b"--migrate"],
        input: "s6-script 2\n0 1 tick\n= done\n",
        status: 100,
        output: "",
        errors: "replay: no head line\n",
    },
    ProgramRun {
        words: &[b"replay", b"--check"],
        input: "s6-script 2\n0 1 tick\n= done\n",
        status: 0,
        output: "legal 1\n",
        errors: "",
    },
    ProgramRun {
        words: &[b"replay", b"--check"],
        input: "s6-script 2\n0 1 tick\n= refused Stale\n",
        status: 1,
        output: "differs at line 3\n",
        errors: "",
    },
    ProgramRun {
        words: &[b"replay", b"--check"],
        input: SCRIPT,
        status: 100,
        output: "",
        errors: "replay: no head line\n",
    },
];

// Words that name no tool.
const UNKNOWN_TOOLS: &[&[&[u8]]] = &[
    &[],
    &[b""],
    &[b"Replay"],
    &[b"replay "],
    &[b"replays"],
    &[b"-h"],
    &[b"--hel"],
    &[b"--help "],
    &[b"s6_tree"],
    &[b"\xff"],
    &[b"a word that is longer than each known one"],
    &[b"--help", b"replay"],
    &[b"--help", b"--help"],
    &[b"--help", b"--version"],
];

// Words that `replay` doesn't know.
const UNKNOWN_OPTIONS: &[&[&[u8]]] = &[
    &[b"replay", b""],
    &[b"replay", b"replay"],
    &[b"replay", b"\xff"],
    &[b"replay", b"a word that is longer than each known one"],
    &[b"replay", b"--help", b"--help"],
    &[b"replay", b"--story", b"--timeline"],
    &[b"replay", b"--check", b"--story"],
    &[b"replay", b"--stories"],
    &[b"replay", b"--story", b"--since"],
    &[b"replay", b"--story", b"--since", b"yesterday"],
    &[b"replay", b"--story", b"--since", b"1969-12-31T23:59:59Z"],
    &[b"replay", b"--story", b"--since", b"2026-11-27T11:18:48"],
    &[b"replay", b"--story", b"2026-11-27T11:18:48Z", b"--since"],
    &[b"replay", b"--check", b"--since", b"2026-11-27T11:18:48Z"],
    &[
        b"replay",
        b"--story",
        b"--since",
        b"2026-11-27T11:18:48Z",
        b"--since",
    ],
];

// Runs the program, and compares how it ends.
fn check_run(rt: &impl Abort, alloc: Global, run: &ProgramRun) {
    let mut output = Vec::new(alloc);
    let mut errors = Vec::new(alloc);
    let input = run.input.as_bytes();
    let words = CommandWords(run.words);
    let status = run_tool(&words, alloc, alloc, input, &mut output, &mut errors);
    same(rt, run.input, errors.as_slice(), run.errors.as_bytes());
    same(rt, run.input, output.as_slice(), run.output.as_bytes());
    holds(rt, run.input, status == run.status);
}

#[test]
fn does_what_it_is_asked_for(rt: HostRuntime) {
    for run in RUNS {
        check_run(&rt, rt.alloc(), run);
    }
}

// Run with any of these words, the program says this line, and that it was used wrongly.
fn check_usage(
    rt: &impl Abort,
    alloc: Global,
    lines: &'static [&'static [&'static [u8]]],
    errors: &'static str,
) {
    for words in lines {
        let run = ProgramRun {
            words: *words,
            input: SCRIPT,
            status: 100,
            output: "",
            errors,
        };
        check_run(rt, alloc, &run);
    }
}

#[test]
fn refuses_strange_words(rt: HostRuntime) {
    check_usage(&rt, rt.alloc(), UNKNOWN_TOOLS, "s6_tree: unknown tool\n");
    check_usage(&rt, rt.alloc(), UNKNOWN_OPTIONS, "replay: usage\n");
}

// The status of a replay on a heap of so many bytes, if its outputs are those of this status.
fn replay_on_heap(alloc: Global, bytes: usize) -> Result<Option<u8>, Fail> {
    let heap = LocalHeap::new(alloc, bytes)?;
    let mut output = Vec::new(alloc);
    let mut errors = Vec::new(alloc);
    let words = CommandWords(&[b"replay"]);
    let input = SCRIPT.as_bytes();
    let status = run_tool(&words, &heap, alloc, input, &mut output, &mut errors);
    let is_told = match status {
        0 => output.as_slice() == "1 done\n".as_bytes() && errors.is_empty(),
        111 => output.is_empty() && errors.as_slice() == "replay: no memory\n".as_bytes(),
        _ => false,
    };
    Ok(if is_told { Some(status) } else { None })
}

// Memory runs out for the first buffer, for the second, in the replay; and then it is enough.
const SIZES: &[(usize, u8)] = &[
    (0, 111),
    (8_000, 111),
    (8_300, 111),
    (16_384, 111),
    (1_000_000, 0),
];

#[test]
fn tells_that_memory_ran_out(rt: HostRuntime) -> Result<(), Fail> {
    for (bytes, status) in SIZES {
        let found = replay_on_heap(rt.alloc(), *bytes)?;
        assert!(&rt; found == Some(*status), "{bytes} bytes");
    }
    Ok(())
}

// Takes all bytes, and fails where they are to be handed on.
#[derive(Drop)]
struct Unflushed;

impl Write for Unflushed {
    fn write(&mut self, buf: &[u8]) -> io::Result<usize> {
        Ok(buf.len())
    }

    fn flush(&mut self) -> io::Result<()> {
        Err(ErrorKind::Other.into())
    }
}

// The text that can't be written is told, with the status.
#[test]
fn help_that_is_not_written_is_told(rt: HostRuntime) {
    let mut errors = Vec::new(rt.alloc());
    let words = CommandWords(&[b"--help"]);
    let input = SCRIPT.as_bytes();
    let status = run_tool(
        &words,
        rt.alloc(),
        rt.alloc(),
        input,
        Unflushed,
        &mut errors,
    );
    same(&rt, "help", errors.as_slice(), b"s6_tree: write\n");
    holds(&rt, "help", status == 111);
}

// Whether a replay tells of a flush that fails.
fn is_flush_told(alloc: Global, script: &str) -> bool {
    replay(alloc, alloc, script.as_bytes(), Unflushed) == Err(ReplayFault::Write)
}

#[test]
fn a_flush_that_fails_is_told(rt: HostRuntime) {
    holds(&rt, "a script", is_flush_told(rt.alloc(), SCRIPT));
    holds(
        &rt,
        "a head line",
        is_flush_told(rt.alloc(), "s6-script 1\n"),
    );
    holds(&rt, "no script", is_flush_told(rt.alloc(), ""));
}

const HELP: &str = "usage: s6_tree TOOL ..
       s6_tree help [TOOL]
       s6_tree TOOL --help
       s6_tree --help | --version

The programs of a proved s6 supervision tree.

tools:
  svscan        run a supervision tree, and serve its clients
  svcheck       say what svscan would do with a scan directory
  svc           send letters to a service
  svstat        print fields of the status of a service
  list          print the state of all services
  follow        print what happens to services, as it happens
  svwait        wait for services
  svlisten      wait for services, with a program started meanwhile
  svscanctl     tell the tree to scan or to end
  record        have the record of the tree written up to now
  connect       send requests by hand, and print the answers
  mkfifodir     make an event directory
  ftrig-notify  send letters to an event directory
  ftrig-wait    wait for letters of an event directory
  permafailon   tell whether a service fails for good
  replay        read a script of inputs, write what the tree answers

options:
  -h, --help    print this text; behind a TOOL, that of the tool
  --version     print the version

exit status:
  0             done; of a wait: held; of permafailon: it doesn't fail for
                good; of svcheck: nothing is wrong
  1             refused by the server; of a wait: failed for good; of
                ftrig-wait also: the text got too long; of list also: a
                name is of no service; of replay --check: a reply differs;
                of svcheck: something is wrong
  2             of a wait: gone, the supervisor of a service has ended
  99            of a wait: timed out, also where the server was busy all
                the time
  100           the words are not those of the tool; of replay also: the
                input is no script
  111           the server can't be reached or is busy, or the system
                refused something; of a wait also: refused by the server
  125           of permafailon: it fails for good
At 100 and 111, and where the server refused something, standard error
has two lines: one for programs, which stays as it is, and one for
people; of replay one.
";

const REPLAY_HELP: &str = "usage: s6_tree replay < SCRIPT
       s6_tree replay --check < RECORDED
       s6_tree replay --migrate < SCRIPT
       s6_tree replay --story [--since TIME] < SCRIPT
       s6_tree replay --timeline < SCRIPT > PICTURE

Reads a script on standard input and writes its transcript to standard
output: for each input line a reply, and then its events, orders,
matches and releases. A script of version 2 has a reply line behind
each input line.

options:
  --check     compare each reply of a script of version 2 with what the
              tree answers: print legal N for N inputs, or differs at
              line N, the first reply that is another
  --migrate   read a script of version 1, and write that of version 2
  --story     write in words what happened, a line for each event;
              with --since TIME, as 2026-11-27T11:18:48Z, by times of
              day, where TIME is that of the line since of svscan
  --timeline  write a picture in SVG, with a row for each service
  -h, --help  print this text

limits:
  65,536 bytes an input line, with its newline
  262,144 bytes a reply line, with its newline
  1,000,000 input lines

exit status, and the line on standard error:
  0           the whole script was read, and all was written
  1           a reply differs
  100         replay: no head line
              replay: line N
              replay: pattern in line N
              replay: truncated
              replay: usage
  111         replay: read
              replay: write
              replay: no memory
Lines are counted from 1, the head line included. At a fault the
transcript or the story of the inputs before it was written, and
nothing of a picture.
";
