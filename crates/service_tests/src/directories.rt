//! Service directories, file by file, and which fault comes first.
use crate::fake_files::FakeFiles;
use linked_list_allocator::LocalHeap;
use s6_events::Name;
use servicedir::{Config, DirFault, Found, ServiceFile, read};
use std::alloc::{Allocator, Global};
use std::process::Abort;

// The files of a directory, with their texts.
type FileTexts<'a> = &'a [(ServiceFile, &'a [u8])];

const RUN: (ServiceFile, &[u8]) = (ServiceFile::Run, b"");

const LONGRUN: (ServiceFile, &[u8]) = (ServiceFile::Kind, b"longrun\n");

const ONESHOT: (ServiceFile, &[u8]) = (ServiceFile::Kind, b"oneshot\n");

// What `read` says of these files, where the reading of one of them fails; and the file whose
// reading failed.
fn read_failing<A: Allocator + Copy>(
    alloc: A,
    files: FileTexts<'_>,
    failing: Option<ServiceFile>,
) -> (Result<Found, DirFault>, Option<ServiceFile>) {
    let mut files = FakeFiles::new(files);
    files.failing = failing;
    let found = read(alloc, &mut files, Name::default());
    (found, files.failed)
}

// The files give this answer, and no reading fails.
fn answers<A: Allocator + Copy>(
    rt: &impl Abort,
    alloc: A,
    files: FileTexts<'_>,
    answer: Result<Found, DirFault>,
) {
    assert_eq!(rt;
        read_failing(alloc, files, None),
        (answer, None),
        "{files:?}"
    );
}

// What a directory says with `run` and this file, where the file says this number; 0 for a
// descriptor that is noted.
fn found_with(file: ServiceFile, number: u32) -> Found {
    let mut config = Config::plain();
    let mut note = None;
    match file {
        ServiceFile::Run | ServiceFile::Kind => {}
        ServiceFile::Finish => config.finish = number == 1,
        ServiceFile::Down => config.down = number == 1,
        ServiceFile::NotificationFd if number == 0 => note = Some(DirFault::NotifyFd),
        ServiceFile::NotificationFd => config.notification_fd = u8::try_from(number).ok(),
        ServiceFile::TimeoutKill => config.timeout_kill = number,
        ServiceFile::TimeoutFinish => config.timeout_finish = number,
        ServiceFile::MaxDeathTally => config.max_death_tally = u16::try_from(number).unwrap_or(0),
        ServiceFile::DownSignal => config.down_signal = u8::try_from(number).unwrap_or(0),
    }
    Found { config, note }
}

// A file beside `run`, the number that it says or that its absence gives, and its text, in which a
// dollar is a newline, a circumflex the byte 0xff, and a tilde the byte 0xfe.
const TEXTS: &str = "type|0|longrun
finish|1|
finish|1|^
down|1|
down|1|no$
notification-fd|1|1$
notification-fd|3|3
notification-fd|9|9$
notification-fd|0|0$
notification-fd|0|2$
notification-fd|0|10$
notification-fd|0|257$
notification-fd|0|4294967299$
notification-fd|0|3$$
notification-fd|0|
timeout-kill|500|500$
timeout-kill|4294967295|4294967295$
timeout-kill|0|4294967296$
timeout-kill|0| 500
timeout-finish|0|0
timeout-finish|7|007
timeout-finish|5000|500$$
timeout-finish|5000|^~
max-death-tally|0|0$
max-death-tally|4096|4096$
max-death-tally|4096|4097$
max-death-tally|4096|65539$
max-death-tally|4096|4294967295$
max-death-tally|100|4294967296$
max-death-tally|100|x$
down-signal|1|SIGHUP$
down-signal|9|KILL
down-signal|64|64$
down-signal|15|65$
down-signal|15|0$
down-signal|15|hup$";

// The file of this name.
fn file_of(name: &str) -> ServiceFile {
    match name {
        "type" => ServiceFile::Kind,
        "finish" => ServiceFile::Finish,
        "down" => ServiceFile::Down,
        "notification-fd" => ServiceFile::NotificationFd,
        "timeout-kill" => ServiceFile::TimeoutKill,
        "timeout-finish" => ServiceFile::TimeoutFinish,
        "max-death-tally" => ServiceFile::MaxDeathTally,
        _ => ServiceFile::DownSignal,
    }
}

// The bytes of a text that is written so.
fn bytes_of(rt: &impl Abort, alloc: Global, text: &str) -> Vec<u8> {
    let mut bytes = Vec::new(alloc);
    for byte in text.bytes() {
        let meant = match byte {
            b'$' => b'\n',
            b'^' => 0xff,
            b'~' => 0xfe,
            _ => byte,
        };
        bytes.push(meant).expect(rt, "memory");
    }
    bytes
}

// A row of these.
fn row_is_said(rt: &impl Abort, alloc: Global, row: &str) {
    let (name, rest) = row.split_once('|').expect(rt, "a row");
    let (number, text) = rest.split_once('|').expect(rt, "a row");
    let number = number.parse::<u32>().expect(rt, "a number");
    is_said(rt, alloc, file_of(name), &bytes_of(rt, alloc, text), number);
}

// Beside `run` a file of this text says this number.
fn is_said(rt: &impl Abort, alloc: Global, file: ServiceFile, text: &[u8], number: u32) {
    answers(
        rt,
        alloc,
        &[RUN, (file, text)],
        Ok(found_with(file, number)),
    );
}

#[test]
fn each_file_says_its_part(rt: HostRuntime) {
    for row in TEXTS.split('\n') {
        row_is_said(&rt, rt.alloc(), row);
    }
}

// 4096 bytes may be valid; of 4097 and more none is, whatever comes first.
#[test]
fn a_text_of_over_4096_bytes_is_invalid(rt: HostRuntime) {
    let zeros = [b'0'; 5000];
    let file = ServiceFile::TimeoutFinish;
    is_said(&rt, rt.alloc(), file, &zeros[..4096], 0);
    is_said(&rt, rt.alloc(), file, &zeros[..4097], 5000);
    is_said(&rt, rt.alloc(), file, &zeros, 5000);
}

// All files at once, in another order than that in which they are looked at.
const FULL: [(ServiceFile, &[u8]); 9] = [
    (ServiceFile::DownSignal, b"SIGINT\n"),
    (ServiceFile::MaxDeathTally, b"7\n"),
    (ServiceFile::TimeoutFinish, b"2\n"),
    (ServiceFile::TimeoutKill, b"1\n"),
    (ServiceFile::NotificationFd, b"4\n"),
    (ServiceFile::Down, b""),
    (ServiceFile::Finish, b""),
    LONGRUN,
    RUN,
];

const FULL_SAYS: Found = Found {
    config: Config {
        down: true,
        finish: true,
        notification_fd: Some(4),
        timeout_kill: 1,
        timeout_finish: 2,
        max_death_tally: 7,
        down_signal: 2,
    },
    note: None,
};

const PLAIN: Found = Found {
    config: Config {
        down: false,
        finish: false,
        notification_fd: None,
        timeout_kill: 0,
        timeout_finish: 5000,
        max_death_tally: 100,
        down_signal: 15,
    },
    note: None,
};

// Texts of `type` that are not longrun, with a bar between two.
const OTHER_TYPES: &str = "|$|oneshot$|bundle|longrun$$| longrun|longrun |Longrun|longrun^";

#[test]
fn whole_directories_and_faults(rt: HostRuntime) {
    let alloc = rt.alloc();
    let timeout = (ServiceFile::TimeoutKill, b"500\n".as_slice());
    answers(&rt, alloc, &FULL, Ok(FULL_SAYS));
    answers(&rt, alloc, &[RUN], Ok(PLAIN));
    answers(&rt, alloc, &[RUN, LONGRUN], Ok(PLAIN));
    answers(&rt, alloc, &[timeout], Err(DirFault::NoRun));
    answers(&rt, alloc, &[ONESHOT], Err(DirFault::NoRun));
    answers(&rt, alloc, &[], Err(DirFault::NoRun));
}

// Beside `run` a file `type` of this text is a fault.
fn is_other_type(rt: &impl Abort, alloc: Global, text: &[u8]) {
    let kind = (ServiceFile::Kind, text);
    answers(rt, alloc, &[RUN, kind], Err(DirFault::NotLongrun));
}

#[test]
fn other_types_are_faults(rt: HostRuntime) {
    for text in OTHER_TYPES.split('|') {
        is_other_type(&rt, rt.alloc(), &bytes_of(&rt, rt.alloc(), text));
    }
}

// All the files, in the order in which they are looked at.
const IN_ORDER: &[ServiceFile] = &[
    ServiceFile::Run,
    ServiceFile::Kind,
    ServiceFile::Finish,
    ServiceFile::Down,
    ServiceFile::NotificationFd,
    ServiceFile::TimeoutKill,
    ServiceFile::TimeoutFinish,
    ServiceFile::MaxDeathTally,
    ServiceFile::DownSignal,
];

// Where the reading of this file fails, the directory has this fault; and this is the file whose
// reading failed.
fn answers_failing(
    rt: &impl Abort,
    alloc: Global,
    files: FileTexts<'_>,
    failing: ServiceFile,
    wanted: (DirFault, Option<ServiceFile>),
) {
    let (found, failed) = read_failing(alloc, files, Some(failing));
    let (fault, file) = wanted;
    assert_eq!(rt; (found, failed), (Err(fault), file), "{failing:?}");
}

// The reading of each file fails in turn; so many are looked at before the fault of the directory.
fn fails_in_turn(
    rt: &impl Abort,
    alloc: Global,
    files: FileTexts<'_>,
    looked_at: usize,
    fault: DirFault,
) {
    for (place, file) in IN_ORDER.iter().enumerate() {
        let wanted = if place < looked_at {
            (DirFault::Io, Some(*file))
        } else {
            (fault, None)
        };
        answers_failing(rt, alloc, files, *file, wanted);
    }
}

// In a directory without fault, without run, and with the type oneshot.
#[test]
fn a_failed_reading_is_answered_unless_a_fault_came_before(rt: HostRuntime) {
    let alloc = rt.alloc();
    fails_in_turn(&rt, alloc, &[RUN, LONGRUN], 9, DirFault::Io);
    fails_in_turn(&rt, alloc, &[RUN, ONESHOT], 2, DirFault::NotLongrun);
    fails_in_turn(&rt, alloc, &[ONESHOT], 1, DirFault::NoRun);
}

// Whether these files are read on a heap of so many bytes; a refused growth, and nothing else, is
// answered.
fn is_read_on(rt: &impl Abort, alloc: Global, bytes: usize, files: FileTexts<'_>) -> bool {
    let heap = LocalHeap::new(alloc, bytes).expect(rt, "memory");
    match read(&heap, &mut FakeFiles::new(files), Name::default()) {
        Ok(found) => {
            assert_eq!(rt; found.config.down_signal, 1);
            true
        }
        Err(fault) => {
            assert_eq!(rt; fault, DirFault::NoMemory);
            false
        }
    }
}

// On heaps of a growing size each growth is the first one refused; then it is that, and nothing
// else, that is answered.
#[test]
fn a_refused_growth_is_answered(rt: HostRuntime) {
    let texts: FileTexts<'_> = &[
        RUN,
        LONGRUN,
        (ServiceFile::TimeoutKill, &[b'0'; 45]),
        (ServiceFile::TimeoutFinish, &[b'0'; 300]),
        (ServiceFile::DownSignal, b"HUP"),
    ];
    let mut done = 0u32;
    for step in 0..60usize {
        if is_read_on(&rt, rt.alloc(), 16 * step, texts) {
            done = done.saturating_add(1);
        }
    }
    assert!(rt; done > 2 && done < 58, "{done} of 60");
}
