//! The commands of the script.
use crate::stage::TestStage;
use child_runner::ShellProbe;
use std::fs::File;
use std::io::{self, ErrorKind};
use std::process::{Processes, SystemProcess};
use std::rt::Files;
use std::sync::Wait;
use std::sync::atomic::Ordering;
use std::thread::Threads;
use std::time::Clock;

/// What a shell does for `write`: the words are a service, the name and the mode of its program,
/// and the script that this is.
const WRITE: &str = "read -r service file mode script <<END
$0
END
mkdir -p \"$service\"; printf '#!/bin/sh\\n%s\\n' \"$script\" >\"$service/$file\"; chmod \"$mode\" \"$service/$file\"";

/// The first word, and the others.
pub fn cut(words: &str) -> (&str, &str) {
    words.split_once(' ').unwrap_or((words, ""))
}

/// The number that a word is.
pub fn number_of(word: &str) -> io::Result<u64> {
    match word.parse::<u64>() {
        Ok(number) => Ok(number),
        Err(_) => Err(io::Error::from(ErrorKind::InvalidInput)),
    }
}

impl<
    R: Print
        + Processes<Started = SystemProcess>
        + Files<File = File>
        + Threads
        + Wait
        + Clock
        + Copy
        + Send
        + Sync
        + Drop
        + 'static,
> TestStage<R> {
    /// Carries the script out, line by line. An error names its line.
    pub fn try_all(&mut self, script: &str) -> io::Result<()> {
        for line in script.lines() {
            if let Err(error) = self.try_line(line) {
                return Err(io::Error::new(error.kind(), line));
            }
        }
        Ok(())
    }

    fn try_line(&mut self, line: &str) -> io::Result<()> {
        let (command, words) = cut(line);
        match command {
            "" | "#" => Ok(()),
            "say" => println!(self.rt; "{words}"),
            "shell" => self.say_shell(),
            "sh" => self.run_shell(words, ""),
            "write" => self.run_shell(WRITE, words),
            "keeper" => self.start_keeper(),
            "end" => {
                self.end_keeper();
                Ok(())
            }
            "backend" => self.add_backend(),
            "choose" => self.choose(words),
            "gate" => {
                self.is_shut.store(words == "shut", Ordering::SeqCst);
                Ok(())
            }
            "until" => self.tell_until(words),
            "gather" => self.gather(words),
            "silent" => self.tell_within(words),
            "post" => self.post(words),
            "close" => {
                self.notes.close(&self.rt);
                Ok(())
            }
            "notes" => self.gather_notes(words),
            "thread" => self.try_thread(),
            _ => self.ask_all(command, words),
        }
    }

    fn choose(&mut self, number: &str) -> io::Result<()> {
        self.chosen = number_of(number)? as usize;
        Ok(())
    }

    fn say_shell(&self) -> io::Result<()> {
        let has_shell = ShellProbe::start(&self.rt, self.alloc).has_shell();
        println!(self.rt; "a shell: {has_shell}")
    }
}
