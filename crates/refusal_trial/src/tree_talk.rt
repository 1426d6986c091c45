//! What a client says to the running tree, and what it reads. A request whose answer was lost with
//! its connection is asked again, and may then be answered otherwise: a line of the talk has that
//! answer behind a bar, in place of `done`.
use crate::attempts::Text;
use crate::plain_lines::write_all_plain;
use crate::tree_client::{Answered, Client, TalkOver, TalkText, is_refused, text_of};
use crate::tree_places::Places;
use crate::tree_record::tell_recorded;
use s6_events::NoMemory;
use std::alloc::Global;
use std::fs::File;
use std::io::Write;
use std::net::Net;
use std::rt::Files;

/// What is asked first, once `web` is ready. The wait ends once each report of the starts came.
const FIRST: &str = "wait u a 0 log
states
states
rows
status web
status nobody
clock
nonsense
subscribe dir q once (
mkdir q|refused Exists
permafailon web 60 1 SIGTERM
wait D a 1 web log";

/// What is asked once both services are down.
const AFTER_DEATHS: &str = "tally web
permafailon log 60 1 SIGTERM
permafailon log 60 2 SIGTERM
status web
rows
states";

/// What is sent at once.
const TOGETHER: [&str; 5] = [
    "tally log",
    "svc nobody u",
    "status log",
    "permafailon web 60 1 1-2",
    "scanctl n",
];

/// What is asked at the end, of a tree with one more service.
const LAST: &str = "rows
states";

/// What is answered where a request is done for the second time, as the answer to the first was
/// lost; and that answer.
#[derive(Clone, Copy)]
struct Lost<'a> {
    second: &'a str,
    first: &'a str,
}

/// The second answer is as the first.
const SAME: Lost<'static> = Lost {
    second: "",
    first: "",
};

/// A request, the letters that come of it, and a wait for the state to which they lead.
#[derive(Clone, Copy)]
struct Deed<'a> {
    request: &'a str,
    lost: Lost<'a>,
    letters: &'a str,
    state: &'a str,
}

/// Takes `web` down.
const WEB_DOWN: Deed<'static> = Deed {
    request: "svc web d",
    lost: SAME,
    letters: "e 2 web d\ne 2 web D\n",
    state: "wait D a 0 web",
};

/// Takes `log` down, whose `finish` runs.
const LOG_DOWN: Deed<'static> = Deed {
    request: "svc log d",
    lost: SAME,
    letters: "e 1 log d\ne 1 log D\n",
    state: "wait D a 0 log",
};

/// Finds one more service, which starts.
const LATE_FOUND: Deed<'static> = Deed {
    request: "scanctl a",
    lost: Lost {
        second: "scanned unread:broken",
        first: "scanned unread:broken +3:late",
    },
    letters: "e 3 late s\ne 3 late u\n",
    state: "wait u a 0 late",
};

/// How many answers a client has read, and how often memory was refused to it.
#[derive(Clone, Copy)]
pub struct Talked {
    pub answers: u32,
    pub refusals: u32,
}

impl Talked {
    /// Nothing was said.
    pub fn none() -> Talked {
        Talked {
            answers: 0,
            refusals: 0,
        }
    }
}

/// Has the whole talk, and tells what was read.
pub fn talk<R: Net + Files<File = File>>(
    rt: &R,
    alloc: Global,
    places: &Places,
    text: &mut Text,
) -> Talked {
    let mut client = Client::new(rt, places.socket.as_str());
    // The tree may have ended for want of memory before it began to run.
    if say_wait(&mut client, "wait U a 0 web", text) {
        say_rest(rt, alloc, places, &mut client, text);
    }
    if client.has_missed_some {
        add(text, "something was awaited in vain\n");
    }
    Talked {
        answers: client.answers,
        refusals: client.refusals,
    }
}

// The talk with a tree that runs.
fn say_rest<R: Net + Files<File = File>>(
    rt: &R,
    alloc: Global,
    places: &Places,
    client: &mut Client<'_, R>,
    text: &mut Text,
) {
    say_all(client, FIRST, text);
    tell_matches(client, text);
    tell_deaths(client, text);
    say_all(client, AFTER_DEATHS, text);
    say_together(client, text);
    record(rt, alloc, places, client, text);
    tell_late(rt, alloc, places, client, text);
    say_all(client, LAST, text);
    ask_both(rt, places, client, "scanctl a", text);
    ask_both(rt, places, client, "record", text);
    end(client, text);
}

// Says each line.
fn say_all<R: Net>(client: &mut Client<'_, R>, lines: &str, text: &mut Text) {
    for line in lines.split('\n') {
        let (request, second) = line.split_once('|').unwrap_or((line, ""));
        let first = "done";
        if request.starts_with("wait ") {
            let _ = say_wait(client, request, text);
        } else {
            let _ = writeln!(text, "> {request}");
            say(client, request, Lost { second, first }, text);
        }
    }
}

// Says a request, and tells the answer. Where it may be the second time that it is done, the one
// that was lost is told.
fn say<R: Net>(client: &mut Client<'_, R>, request: &str, lost: Lost<'_>, text: &mut Text) {
    match client.request(request) {
        Some(answered) if answered.may_be_second && is_line(&answered, lost.second) => {
            let _ = writeln!(text, "{}", lost.first);
        }
        Some(answered) => write_all_plain(text_of(&answered.message), text),
        None => add(text, "not answered\n"),
    }
}

// Whether the answer is this line.
fn is_line(answered: &Answered, line: &str) -> bool {
    text_of(&answered.message).strip_suffix("\n") == Some(line)
}

// Says a wait, and tells its end. Whether it has one.
fn say_wait<R: Net>(client: &mut Client<'_, R>, request: &str, text: &mut Text) -> bool {
    let _ = writeln!(text, "> {request}");
    match client.wait(request) {
        Some(verdict) => {
            let _ = text.try_extend_from_slice(verdict.as_slice());
            true
        }
        None => {
            add(text, "not released\n");
            false
        }
    }
}

fn add(text: &mut Text, line: &str) {
    let _ = text.try_extend_from_slice(line.as_bytes());
}

// Subscribes, and sends letters, once more on a new connection where this one ended: the matches
// come behind the replies.
fn tell_matches<R: Net>(client: &mut Client<'_, R>, text: &mut Text) {
    add(text, "> subscribe dir q repeat a+b, send dir q aabab\n");
    for _ in 0..2 {
        let mut told = TalkText::new();
        if is_matched(client, &mut told) {
            let _ = text.try_extend_from_slice(told.as_slice());
            return;
        }
    }
    add(text, "not matched\n");
}

// Whether both were answered and two matches came, on one connection.
fn is_matched<R: Net>(client: &mut Client<'_, R>, told: &mut TalkText) -> bool {
    client.begin_anew();
    for request in ["subscribe dir q repeat a+b", "send dir q aabab"].iter() {
        match client.request(request) {
            Some(answered) => write_all_plain(text_of(&answered.message), told),
            None => return false,
        }
    }
    if client.has_lost_news || client.await_news(0, "m b\nm b\n".len()).is_err() {
        client.leave();
        return false;
    }
    let _ = told.try_extend_from_slice(client.others.as_slice());
    true
}

// Follows all services, and takes both down: their letters come in order.
fn tell_deaths<R: Net>(client: &mut Client<'_, R>, text: &mut Text) {
    add(text, "> follow\n");
    add(
        text,
        if client.follow() {
            "done\n"
        } else {
            "not followed\n"
        },
    );
    tell_letters(client, WEB_DOWN, text);
    tell_letters(client, LOG_DOWN, text);
}

// Says a request, and tells the letters that come of it. Where the connection has ended meanwhile,
// some may be lost: then the state to which they lead is awaited.
fn tell_letters<R: Net>(client: &mut Client<'_, R>, deed: Deed<'_>, text: &mut Text) {
    let Deed {
        request,
        lost,
        letters,
        state,
    } = deed;
    client.begin_anew();
    let _ = writeln!(text, "> {request}");
    say(client, request, lost, text);
    if !client.has_lost_news && client.await_news(letters.len(), 0).is_err() {
        client.leave();
    }
    if !client.has_lost_news {
        let _ = text.try_extend_from_slice(client.letters.as_slice());
        return;
    }
    match client.wait(state) {
        Some(verdict) if text_of(&verdict) == "r held\n" => add(text, letters),
        _ => add(text, "letters are lost, and so is the state\n"),
    }
}

// Sends several requests at once, and tells their answers. All are asked once more where one was
// refused memory, or the connection ended.
fn say_together<R: Net>(client: &mut Client<'_, R>, text: &mut Text) {
    add(text, "> five requests at once\n");
    for _ in 0..2 {
        let mut told = TalkText::new();
        match ask_together(client, &mut told) {
            Ok(false) => {
                let _ = text.try_extend_from_slice(told.as_slice());
                return;
            }
            Ok(true) => client.note_refusal(),
            Err(TalkOver) => client.leave(),
        }
    }
    add(text, "not answered\n");
}

// Adds the answers, in order. Whether one of them was refused memory.
fn ask_together<R: Net>(client: &mut Client<'_, R>, told: &mut TalkText) -> Result<bool, TalkOver> {
    client.send(&TOGETHER)?;
    let mut is_any_refused = false;
    for _ in TOGETHER.iter() {
        let message = client.reply()?;
        is_any_refused |= is_refused(&message);
        write_all_plain(text_of(&message), told);
    }
    Ok(is_any_refused)
}

// Has the run recorded, and tells whether the record has all steps that the answer counts.
fn record<R: Net + Files<File = File>>(
    rt: &R,
    alloc: Global,
    places: &Places,
    client: &mut Client<'_, R>,
    text: &mut Text,
) {
    add(text, "> record\n");
    let told = match client.request("record") {
        Some(answered) => answered.message,
        None => TalkText::new(),
    };
    write_all_plain(text_of(&told), text);
    for _ in 0..2 {
        match tell_recorded(rt, alloc, places, text_of(&told), text) {
            Ok(()) => return,
            Err(NoMemory) => client.note_refusal(),
        }
    }
    add(text, "not checked\n");
}

// Makes one more service, and has it found and started.
fn tell_late<R: Net + Files<File = File>>(
    rt: &R,
    alloc: Global,
    places: &Places,
    client: &mut Client<'_, R>,
    text: &mut Text,
) {
    if places.make_late(rt, alloc).is_err() {
        client.note_refusal();
        let _ = places.make_late(rt, alloc);
    }
    tell_letters(client, LATE_FOUND, text);
    // Of a service that stands, only the states say that it could not be read.
    if is_unread_for_memory(client) {
        client.note_refusal();
        let _ = client.request("scanctl a");
    }
}

// Whether the last scan lacked memory to read a service.
fn is_unread_for_memory<R: Net>(client: &mut Client<'_, R>) -> bool {
    match client.request("states") {
        Some(answered) => {
            let mut lines = text_of(&answered.message).split('\n');
            lines.any(|line| line.ends_with(" NoMemory"))
        }
        None => false,
    }
}

// Two clients ask the same before either reads its answer: both are answered.
fn ask_both<R: Net>(
    rt: &R,
    places: &Places,
    client: &mut Client<'_, R>,
    request: &str,
    text: &mut Text,
) {
    let mut other = Client::new(rt, places.socket.as_str());
    let _ = writeln!(text, "> {request}, of two clients");
    let asked = client.send(&[request]);
    let other_asked = other.send(&[request]);
    tell_reply(client, asked, request, text);
    tell_reply(&mut other, other_asked, request, text);
    client.add_up(&other);
}

// Tells the answer to what was sent, or the one that comes when it is asked once more.
fn tell_reply<R: Net>(
    client: &mut Client<'_, R>,
    asked: Result<(), TalkOver>,
    request: &str,
    text: &mut Text,
) {
    let reply = match asked {
        Ok(()) => client.reply(),
        Err(TalkOver) => Err(TalkOver),
    };
    match reply {
        Ok(message) if !is_refused(&message) => write_all_plain(text_of(&message), text),
        Ok(_) => {
            client.note_refusal();
            say(client, request, SAME, text);
        }
        Err(TalkOver) => {
            client.leave();
            say(client, request, SAME, text);
        }
    }
}

// Ends the tree. Where the answer was lost with its connection, the tree may have ended before the
// second one.
fn end<R: Net>(client: &mut Client<'_, R>, text: &mut Text) {
    add(text, "> scanctl t\n");
    match client.request("scanctl t") {
        Some(answered) if is_line(&answered, "done") => {}
        Some(answered) if answered.may_be_second && is_line(&answered, "refused Closing") => {}
        Some(answered) => write_all_plain(text_of(&answered.message), text),
        None => {}
    }
    client.read_to_end();
}
