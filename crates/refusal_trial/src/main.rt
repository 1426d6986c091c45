//! Prints the same whether memory is refused once or not at all: what was refused is asked for
//! again. With the word `count` it prints how often memory was refused, too.
//! `tools/refusals/try.sh` runs it once for each growth, which is refused then.
#![tactic(auto)]

mod acts;
mod attempts;
mod client;
mod fake_worker;
mod office_run;
mod office_steps;
mod plain_lines;
mod requests;
mod rows;
mod scan;
mod scripts;
mod tree_client;
mod tree_places;
mod tree_record;
mod tree_run;
mod tree_talk;

use attempts::Attempts;
use std::alloc::Global;
use std::fs::File;
use std::io::Write;
use std::net::Net;
use std::process::Processes;
use std::rt::Files;
use std::sync::Wait;
use std::thread::Threads;
use std::time::Clock;
use std::{env, fs, io, process};
use tree_places::Places;
use tree_run::{FileReader, ScanReader};

// The path of a folder for this run alone.
fn folder_of(rt: &HostRuntime) -> io::Result<String> {
    let temp = env::temp_dir(rt)?;
    let number = process::id(rt.process());
    Ok(format!(in rt.alloc(); "{}/refusal-trial-{number}", temp.as_path().display())?)
}

// Whether refusals are to be counted.
fn is_counting(rt: &HostRuntime) -> bool {
    match env::args(&(rt, rt.alloc())) {
        Ok(mut words) => words.any(|word| word.as_str() == "count"),
        Err(_) => false,
    }
}

// All parts of the trial.
fn try_all<
    K: ScanReader + Copy + Send + Drop,
    R: Wait + Net + Processes + Clock + Files<File = File> + Threads + Copy + Sync + Send + Drop,
>(rt: &R, reader: K, alloc: Global, folders: &Folders, attempts: &mut Attempts) {
    attempts.make("requests", |text| requests::read_all(alloc, text));
    attempts.make(
        "scan",
        |text| scan::list(rt, alloc, folders.listed.as_str(), text),
    );
    attempts.make("client", |text| client::ask_nobody(rt, alloc, text));
    attempts.make("replay", |text| scripts::replay(alloc, text));
    attempts.make("check", |text| scripts::check_script(alloc, text));
    attempts.make("migrate", |text| scripts::migrate_script(alloc, text));
    rows::play_all(alloc, attempts);
    office_run::play(rt, alloc, attempts);
    run_tree(rt, reader, alloc, &folders.tree, attempts);
}

// The part that runs a tree.
fn run_tree<
    K: ScanReader + Copy + Send + Drop,
    R: Wait + Net + Clock + Files<File = File> + Threads + Copy + Sync + Send + Drop,
>(rt: &R, reader: K, alloc: Global, places: &Places, attempts: &mut Attempts) {
    let mut refusals = 0;
    attempts.make(
        "tree",
        |text| tree_run::run_tree(rt, alloc, places, reader, text, &mut refusals),
    );
    for _ in 0..refusals {
        attempts.refuse();
    }
}

// The folders of the trial: all of it, the one that is listed, and those of the running tree.
#[derive(Drop)]
struct Folders {
    whole: String,
    listed: String,
    tree: Places,
}

// The folders, with their services.
fn prepare(rt: &HostRuntime) -> io::Result<Folders> {
    let alloc = rt.alloc();
    let whole = folder_of(rt)?;
    let listed = format!(in alloc; "{whole}/listed")?;
    let tree = Places::new(alloc, whole.as_str())?;
    scan::make_services(rt, alloc, listed.as_str())?;
    tree.make_services(rt, alloc)?;
    Ok(Folders {
        whole,
        listed,
        tree,
    })
}

fn main(rt: HostRuntime) -> io::Result<()> {
    let is_counting = is_counting(&rt);
    let folders = match prepare(&rt) {
        Ok(folders) => folders,
        Err(_) => prepare(&rt)?,
    };
    let mut attempts = Attempts::new();
    let reader = FileReader { rt };
    try_all(&rt, reader, rt.alloc(), &folders, &mut attempts);
    if fs::remove_dir_all(&rt, folders.whole.as_str()).is_err() {
        fs::remove_dir_all(&rt, folders.whole.as_str())?;
    }
    let mut output = rt.stdout();
    output.write_all(attempts.text())?;
    if is_counting {
        writeln!(output, "{} refusals", attempts.refusals())?;
    }
    Ok(())
}
