//! What the server reads of lines.
use crate::attempts::Text;
use s6_events::{Actor, Name, NoMemory};
use s6_script::push_act;
use server_rules::{Following, OwnAnswer, Request, Subject, read_request};
use std::alloc::Global;
use std::io::Write;
use tree_core::Act;

/// Lines of clients.
const LINES: &str = "status web
rows
states
follow
scanctl a
record
follow web
clock
svc web ud
subscribe dir q repeat a(b|c)+d
wait u a 500 web other third
send dir q aab
mkdir q
permafailon web 60 3 1-2,SIGTERM
subscribe dir q once (
nonsense";

/// Reads each line, and prints what was asked, with all that was read of it.
pub fn read_all(alloc: Global, text: &mut Text) -> Result<(), NoMemory> {
    for line in LINES.split('\n') {
        let Some(actor) = Actor::new(5) else {
            return Ok(());
        };
        let request = read_request(alloc, actor, line.as_bytes());
        let _ = write!(text, "{line}: ");
        tell(alloc, &request, text)?;
        let _ = text.try_push(b'\n');
    }
    Ok(())
}

// What is asked.
fn tell(alloc: Global, request: &Request, text: &mut Text) -> Result<(), NoMemory> {
    match request {
        Request::Status(Subject::One(name)) => tell_name("the row of ", name, text),
        Request::Status(Subject::All) => add(text, "all rows"),
        Request::Status(Subject::States) => add(text, "all states"),
        Request::Scan => add(text, "a scan"),
        Request::Record => add(text, "a record"),
        Request::Follow(Following::One(name)) => tell_name("the letters of ", name, text),
        Request::Follow(Following::All) => add(text, "all letters"),
        Request::Follow(Following::Nobody) => add(text, "no letters"),
        Request::Clock => add(text, "the clock"),
        Request::Step(act) => return tell_step(alloc, act, text),
        Request::Refused(OwnAnswer::NoMemory) => return Err(NoMemory),
        Request::Refused(reason) => {
            let _ = write!(text, "refused {reason:?}");
        }
    }
    Ok(())
}

fn add(text: &mut Text, words: &str) {
    let _ = text.try_extend_from_slice(words.as_bytes());
}

fn tell_name(words: &str, name: &Name, text: &mut Text) {
    add(text, words);
    let _ = text.try_extend_from_slice(name.as_bytes());
}

// The act, as a script spells it.
fn tell_step(alloc: Global, act: &Act<Global>, text: &mut Text) -> Result<(), NoMemory> {
    let mut words = Vec::new(alloc);
    push_act(alloc, &mut words, act)?;
    add(text, "the step ");
    let _ = text.try_extend_from_slice(words.as_slice());
    Ok(())
}
