//! The words of the command-line tools, table by table.
use arrayvec::ArrayVec;
use death_tally::DeathList;
use s6_events::{Condition, Exit, Mode, Name};
use std::alloc::Global;
use std::process::Abort;
use svc_commands::{
    ControlLetter, ScanLetter, UsageFault, WaitCommand, compile_permafailon, compile_svc,
    compile_svlisten, compile_svscanctl, compile_svstat, compile_svwait,
};

// Each row is the words of a command, with one bar between two, and what is read in them, or the
// fault.

// The name, and the letters.
const SVC: &str = "-o|web = web uO
-u|web = web u
web|-d = web d
-du|web|-x = web dux
-abqhkit12pcyudOrx|web = web abqhkit12pcyudOrx
-oo|web = web uOuO
-hhhhhhhhhhhhhhhhhhhhhhhhhhhhhhhhhhhhhhhhhhhhhhhhhhhhhhhhhhhhhhh|web = web hhhhhhhhhhhhhhhhhhhhhhhhhhhhhhhhhhhhhhhhhhhhhhhhhhhhhhhhhhhhhhh
-hhhhhhhhhhhhhhhhhhhhhhhhhhhhhhhhhhhhhhhhhhhhhhhhhhhhhhhhhhhhh|web|-o = web hhhhhhhhhhhhhhhhhhhhhhhhhhhhhhhhhhhhhhhhhhhhhhhhhhhhhhhhhhhhhuO
-hhhhhhhhhhhhhhhhhhhhhhhhhhhhhhhhhhhhhhhhhhhhhhhhhhhhhhhhhhhhhho|web = TooMany
-hhhhhhhhhhhhhhhhhhhhhhhhhhhhhhhhhhhhhhhhhhhhhhhhhhhhhhhhhhhhhhhh|web = TooMany
-hhhhhhhhhhhhhhhhhhhhhhhhhhhhhhhhhhhhhhhhhhhhhhhhhhhhhhhhhhhhhhh|-u|web = TooMany
-hhhhhhhhhhhhhhhhhhhhhhhhhhhhhhhhhhhhhhhhhhhhhhhhhhhhhhhhhhhhhhhhz|web = TooMany
-hhhhhhhhhhhhhhhhhhhhhhhhhhhhhhhhhhhhhhhhhhhhhhhhhhhhhhhhhhhhhhhz|web = Unknown
-hhhhhhhhhhhhhhhhhhhhhhhhhhhhhhhhhhhhhhhhhhhhhhhhhhhhhhhhhhhhhhhh|.web = TooMany
.web|-hhhhhhhhhhhhhhhhhhhhhhhhhhhhhhhhhhhhhhhhhhhhhhhhhhhhhhhhhhhhhhhh = BadName
web = Missing
-u = Missing
 = BadName
-|web = Unknown
--|web = Unknown
-uz|web = Unknown
-U|web = Unknown
-u|.web = BadName
-u|a:b = BadName
-u||web = BadName
-u|web|db = TooMany
-u|web|.db = BadName";

// The letters.
const SVSCANCTL: &str = "-h = an
-a = a
-n = n
-t = t
-q = t
-hq = ant
-t|-a = ta
-hhhhhhhhhhhhhhhhhhhhhhhhhhhhhhha = ananananananananananananananananananananananananananananananana
-hhhhhhhhhhhhhhhhhhhhhhhhhhhhhhhh = TooMany
web = TooMany
-a|web = TooMany
 = TooMany
- = Unknown
-z = Unknown
-- = Unknown";

// Condition, mode, timeout and names.
const SVWAIT: &str = "-U|-o|-t|5|a|b = U o 5 a b
a = u a 0 a
-Uot5|a|b = U o 5 a b
-t5|a = u a 5 a
-t|5|a = u a 5 a
-t=5|a = u a 5 a
-t|007|a = u a 7 a
-t|4294967295|a = u a 4294967295 a
-D|a = D a 0 a
-d|-a|b|a = d a 0 b a
a|-u|b = u a 0 a b
--|-x|b = u a 0 -x b
-d|--|-t|-- = d a 0 -t --
- = u a 0 -
a1|a2|a3|a4|a5|a6|a7|a8|a9|a10|a11|a12|a13|a14|a15|a16 = u a 0 a1 a2 a3 a4 a5 a6 a7 a8 a9 a10 a11 a12 a13 a14 a15 a16
a1|a2|a3|a4|a5|a6|a7|a8|a9|a10|a11|a12|a13|a14|a15|a16|a17 = TooMany
a1|a2|a3|a4|a5|a6|a7|a8|a9|a10|a11|a12|a13|a14|a15|a16|.a = BadName
-u|-U|a = TooMany
-uU|a = TooMany
-u|-u|a = TooMany
-a|-o|a = TooMany
-oo|a = TooMany
-u|-d|-t|x = TooMany
-t|x|a = BadNumber
-t|x = BadNumber
-t|x|.a = BadNumber
-t|4294967296|a = BadNumber
-t||a = BadNumber
-u = Missing
-- = Missing
-u|.a = BadName
 = BadName
a||b = BadName
-z|a = Unknown
-r|a = Unknown
-h = Unknown
--help = Unknown
a|-t = Unknown
-t|5|-t|6|a = Unknown
-t|-5|a = Unknown
-u|-U|-z = Unknown";

// The same, and the program.
const SVLISTEN: &str = "-r|a|--|true = r a 0 a -- true
-R|-o|-t9|a|b|--|prog|-x|--|y = R o 9 a b -- prog -x -- y
a|--|-- = u a 0 a -- --
-u|a|-- = Missing
-u|a = Missing
--|true = Missing
.a|-- = Missing
.a|--|true = BadName
-t|x|-- = BadNumber
-r|-R|a|--|true = TooMany
a1|a2|a3|a4|a5|a6|a7|a8|a9|a10|a11|a12|a13|a14|a15|a16|a17|--|true = TooMany
-z|a|--|true = Unknown";

// The name, and the place of each field in a row.
const SVSTAT: &str = "-o|up,pid|web = web 0 5
-o|up,wantedup,normallyup,ready,paused,pid,exitcode,signum,updownfor,readyfor|web = web 0 1 2 3 4 5 6 7 8 9
-o|up,up|web = web 0 0
web|-o|ready = web 3
-osignum|web = web 7
-o|up|--|-x = -x 0
-o|up,uptime|web = BadList
-o||web = BadList
-o|up,|web = BadList
-o|,up|web = BadList
-o|UP|web = BadList
-o|up pid|web = BadList
-o|nope = BadList
web = Missing
-o|up = Missing
-- = Missing
-o|up|.web = BadName
-o|up| = BadName
-o|up|a|b = Unknown
-o|up|-o|pid|web = Unknown
web|-o = Unknown
-p|web = Unknown";

// The name, the seconds, the count, and of the codes 0 to 9 and SIGTERM what the list names.
const PERMAFAILON: &str = "web|60|3|1-2 = web 60 3 12
web|0|0|7,SIGTERM,0 = web 0 0 07T
web|4294967295|007|TERM = web 4294967295 7 T
-|1|2|3-3 = - 1 2 3
--|-x|1|2|3 = -x 1 2 3
web|60|x|1 = BadNumber
web|4294967296|3|1 = BadNumber
web||3|1 = BadNumber
60|3|1-2 = BadNumber
web|x = BadNumber
.web|60|x|2-1 = BadNumber
web|60|3|2-1 = BadList
web|60|3|256 = BadList
web|60|3|1,,2 = BadList
web|60|3|sigterm = BadList
.web|60|3| = BadList
web|60|3|1,1,1,1,1,1,1,1,1,1,1,1,1,1,1,1,1,1,1,1,1,1,1,1,1,1,1,1,1,1,1,1,1 = BadList
.web|60|3 = Missing
60|3|7 = Missing
web|60 = Missing
web = Missing
-- = Missing
.web|60|3|1 = BadName
|60|3|1 = BadName
web|60|3|1|2 = Unknown
.web|x|3|2-1|1 = Unknown
web|-60|3|1 = Unknown
web|60|3|-1 = Unknown
-h = Unknown";

/// A command, as it is compared with the text of a row.
type ShownCommand = ArrayVec<u8, 256>;

#[derive(Clone, Copy, Debug)]
enum CommandTool {
    Svc,
    Svscanctl,
    Svwait,
    Svlisten,
    Svstat,
    Permafailon,
}

// Adds a word behind those before it.
fn add(shown: &mut ShownCommand, word: &[u8]) {
    if !shown.is_empty() {
        add_bytes(shown, b" ");
    }
    add_bytes(shown, word);
}

fn add_bytes(shown: &mut ShownCommand, bytes: &[u8]) {
    let _ = shown.try_extend_from_slice(bytes);
}

fn show_svc(words: &[&str], shown: &mut ShownCommand) -> Result<(), UsageFault> {
    let command = compile_svc(words)?;
    add(shown, command.name.as_bytes());
    add(shown, b"");
    for letter in &command.letters {
        add_bytes(shown, &[letter.byte()]);
    }
    Ok(())
}

fn show_svscanctl(words: &[&str], shown: &mut ShownCommand) -> Result<(), UsageFault> {
    for letter in &compile_svscanctl(words)?.letters {
        add_bytes(
            shown,
            match letter {
                ScanLetter::Scan => b"a",
                ScanLetter::Nuke => b"n",
                ScanLetter::Terminate => b"t",
            },
        );
    }
    Ok(())
}

fn condition_letter(condition: Condition) -> u8 {
    match condition {
        Condition::Up => b'u',
        Condition::Ready => b'U',
        Condition::Down => b'd',
        Condition::Finished => b'D',
        Condition::Restarted => b'r',
        Condition::RestartedReady => b'R',
    }
}

fn show_number(alloc: Global, number: u32, shown: &mut ShownCommand) -> Result<(), UsageFault> {
    let Ok(text) = format!(in alloc; "{number}") else {
        return Err(UsageFault::NoMemory);
    };
    add(shown, text.as_bytes());
    Ok(())
}

fn show_wait(
    alloc: Global,
    wait: &WaitCommand,
    shown: &mut ShownCommand,
) -> Result<(), UsageFault> {
    add(shown, &[condition_letter(wait.condition)]);
    add(shown, if wait.mode == Mode::All { b"a" } else { b"o" });
    show_number(alloc, wait.timeout, shown)?;
    for name in &wait.names {
        add(shown, name.as_bytes());
    }
    Ok(())
}

fn show_svstat(alloc: Global, words: &[&str], shown: &mut ShownCommand) -> Result<(), UsageFault> {
    let command = compile_svstat(alloc, words)?;
    add(shown, command.name.as_bytes());
    for field in &command.fields {
        add(shown, &[b'0' + *field as u8]);
    }
    Ok(())
}

fn show_svlisten(
    alloc: Global,
    words: &[&str],
    shown: &mut ShownCommand,
) -> Result<(), UsageFault> {
    let command = compile_svlisten(alloc, words)?;
    show_wait(alloc, &command.wait, shown)?;
    add(shown, b"--");
    for word in command.program {
        add(shown, word.as_bytes());
    }
    Ok(())
}

fn show_permafailon(
    alloc: Global,
    words: &[&str],
    shown: &mut ShownCommand,
) -> Result<(), UsageFault> {
    let command = compile_permafailon(alloc, words)?;
    add(shown, command.name.as_bytes());
    show_number(alloc, command.secs, shown)?;
    show_number(alloc, command.count, shown)?;
    show_list(&command.list, shown);
    Ok(())
}

// What the list names of the codes 0 to 9 and SIGTERM.
fn show_list(list: &DeathList, shown: &mut ShownCommand) {
    add(shown, b"");
    for code in 0..10u8 {
        if list.names(Exit::Code(code)) {
            add_bytes(shown, &[b'0' + code]);
        }
    }
    if list.names(Exit::Killed(15)) {
        add_bytes(shown, b"T");
    }
}

// What a tool reads in the words.
fn show(
    alloc: Global,
    tool: CommandTool,
    words: &[&str],
    shown: &mut ShownCommand,
) -> Result<(), UsageFault> {
    match tool {
        CommandTool::Svc => show_svc(words, shown),
        CommandTool::Svscanctl => show_svscanctl(words, shown),
        CommandTool::Svwait => show_wait(alloc, &compile_svwait(alloc, words)?, shown),
        CommandTool::Svlisten => show_svlisten(alloc, words, shown),
        CommandTool::Svstat => show_svstat(alloc, words, shown),
        CommandTool::Permafailon => show_permafailon(alloc, words, shown),
    }
}

fn fault_name(fault: UsageFault) -> &'static [u8] {
    match fault {
        UsageFault::Unknown => b"Unknown",
        UsageFault::Missing => b"Missing",
        UsageFault::TooMany => b"TooMany",
        UsageFault::BadNumber => b"BadNumber",
        UsageFault::BadList => b"BadList",
        UsageFault::BadName => b"BadName",
        UsageFault::NoMemory => b"NoMemory",
    }
}

// A tool answers so.
fn answers(rt: &impl Abort, alloc: Global, tool: CommandTool, words: &[&str], answer: &str) {
    let mut shown = ShownCommand::new();
    if let Err(fault) = show(alloc, tool, words, &mut shown) {
        shown.clear();
        add(&mut shown, fault_name(fault));
    }
    assert_eq!(rt; shown.as_slice(), answer.as_bytes(), "{tool:?}: {words:?}");
}

// A row of a tool.
fn row_agrees(rt: &impl Abort, alloc: Global, tool: CommandTool, row: &str) {
    let (line, answer) = row.split_once(" = ").expect(rt, "a row");
    let words: Vec<&str> = line.split('|').collect(alloc).expect(rt, "memory");
    answers(rt, alloc, tool, &words, answer);
}

// The rows of a tool, which wants at least one word.
fn rows_agree(rt: &impl Abort, alloc: Global, tool: CommandTool, rows: &str) {
    answers(rt, alloc, tool, &[], "Missing");
    for row in rows.split('\n') {
        row_agrees(rt, alloc, tool, row);
    }
}

#[test]
fn reads_the_words_of_svc(rt: HostRuntime) {
    rows_agree(&rt, rt.alloc(), CommandTool::Svc, SVC);
}

#[test]
fn reads_the_words_of_svscanctl(rt: HostRuntime) {
    rows_agree(&rt, rt.alloc(), CommandTool::Svscanctl, SVSCANCTL);
}

#[test]
fn reads_the_words_of_svwait(rt: HostRuntime) {
    rows_agree(&rt, rt.alloc(), CommandTool::Svwait, SVWAIT);
}

#[test]
fn reads_the_words_of_svlisten(rt: HostRuntime) {
    rows_agree(&rt, rt.alloc(), CommandTool::Svlisten, SVLISTEN);
}

#[test]
fn reads_the_words_of_svstat(rt: HostRuntime) {
    rows_agree(&rt, rt.alloc(), CommandTool::Svstat, SVSTAT);
}

#[test]
fn reads_the_words_of_permafailon(rt: HostRuntime) {
    rows_agree(&rt, rt.alloc(), CommandTool::Permafailon, PERMAFAILON);
}

// The tool reads the words, or is refused memory.
fn reads_or_tells(rt: &impl Abort, alloc: Global, tool: CommandTool, words: &[&str]) {
    let answer = show(alloc, tool, words, &mut ShownCommand::new());
    assert!(rt;
        matches!(answer, Ok(()) | Err(UsageFault::NoMemory)),
        "{tool:?}"
    );
}

// With the Nth growth refused (`rt try --test --fail-alloc N`) each call answers as it should, or
// NoMemory.
#[test]
fn a_refused_growth_is_told(rt: HostRuntime) {
    let alloc = rt.alloc();
    reads_or_tells(
        &rt,
        alloc,
        CommandTool::Svwait,
        &["-U", "-t", "5", "a", "b"],
    );
    reads_or_tells(
        &rt,
        alloc,
        CommandTool::Svlisten,
        &["-r", "a", "--", "prog", "x"],
    );
    reads_or_tells(&rt, alloc, CommandTool::Svstat, &["-o", "up,pid", "web"]);
    reads_or_tells(
        &rt,
        alloc,
        CommandTool::Permafailon,
        &["web", "60", "3", "1-2"],
    );
}

// A fault has this number, and its text has this part.
fn tells(rt: &impl Abort, alloc: Global, fault: UsageFault, number: u8, part: &str) {
    let text = format!(in alloc; "{fault}").expect(rt, "memory");
    assert_eq!(rt; (fault as u8, text.as_str().contains(part)), (number, true));
}

#[test]
fn faults_tell_what_to_change(rt: HostRuntime) {
    let alloc = rt.alloc();
    tells(&rt, alloc, UsageFault::Unknown, 1, "leave it out");
    tells(&rt, alloc, UsageFault::Missing, 2, "add it");
    tells(&rt, alloc, UsageFault::TooMany, 3, "leave some out");
    tells(
        &rt,
        alloc,
        UsageFault::BadNumber,
        4,
        "write milliseconds, seconds",
    );
    tells(
        &rt,
        alloc,
        UsageFault::BadList,
        5,
        "write known fields, or at most",
    );
    tells(&rt, alloc, UsageFault::BadName, 6, "write 1 to 64 of");
    tells(&rt, alloc, UsageFault::NoMemory, 7, "out of memory");
}

// The letter that a byte is read as is written as this byte, and has this signal; or there is none.
fn is_letter(rt: &impl Abort, byte: u8, wanted: Option<(u8, Option<u8>)>) {
    let found = match ControlLetter::of_byte(byte) {
        Some(letter) => Some((letter.byte(), letter.signal())),
        None => None,
    };
    assert_eq!(rt; found, wanted);
}

// Letters, and the signal of each that has one.
const LETTERS: &str = "a=14 b=6 q=3 h=1 k=9 t=15 i=2 1=10 2=12 p=19 c=18 y=28 u= d= O= r= x=";

// A row of these.
fn is_row(rt: &impl Abort, row: &str) {
    let (letter, signal) = row.split_once('=').expect(rt, "a row");
    let byte = letter.bytes().next().expect(rt, "a letter");
    is_letter(rt, byte, Some((byte, signal.parse::<u8>().ok())));
}

#[test]
fn letters_stand_for_their_signals(rt: HostRuntime) {
    for row in LETTERS.split(' ') {
        is_row(&rt, row);
    }
    for byte in b"oUDz-" {
        is_letter(&rt, *byte, None);
    }
}
