//! The commands that take reports.
use crate::commands::{cut, number_of};
use crate::stage::TestStage;
use crate::words::line_of;
use std::fmt::Write;
use std::fs::File;
use std::io;
use std::process::{Processes, SystemProcess};
use std::rt::Files;
use std::sync::Wait;
use std::time::Clock;

/// How many milliseconds a report may take.
const PATIENCE: u64 = 30_000;

/// The most reports of a command.
const LIMIT: u64 = 1000;

impl<
    R: Print + Processes<Started = SystemProcess> + Files<File = File> + Wait + Clock + Drop,
> TestStage<R> {
    // The next report, in words, or that none came in time.
    fn next_line(&mut self, millis: u64) -> io::Result<String> {
        match self.next_report(millis) {
            Some(report) => Ok(line_of(self.alloc, &report, self.number)?),
            None => Ok(String::from_str(self.alloc, "no report")?),
        }
    }

    // Adds the next report to what was told. Whether what it says begins with this word, or none
    // came.
    fn add_line(&mut self, last: &str, told: &mut String) -> io::Result<bool> {
        let line = self.next_line(PATIENCE)?;
        writeln!(told, "{}", line.as_str())?;
        let (service, words) = cut(line.as_str());
        Ok(service == "no" || words.starts_with(last))
    }

    // So many reports, or those up to one that begins with this word.
    fn collect(&mut self, last: &str) -> io::Result<String> {
        let mut told = String::new(self.alloc);
        for _ in 0..last.parse::<u64>().unwrap_or(LIMIT) {
            if self.add_line(last, &mut told)? {
                break;
            }
        }
        Ok(told)
    }

    /// Prints so many reports, or those up to one that begins with this word.
    pub fn tell_until(&mut self, last: &str) -> io::Result<()> {
        let told = self.collect(last)?;
        print!(self.rt; "{}", told.as_str())
    }

    /// Runs a script with them as `$0`.
    pub fn gather(&mut self, words: &str) -> io::Result<()> {
        let (last, script) = cut(words);
        let told = self.collect(last)?;
        self.run_shell(script, told.as_str())
    }

    /// Prints the report that comes within so many milliseconds, or that none does.
    pub fn tell_within(&mut self, millis: &str) -> io::Result<()> {
        let line = self.next_line(number_of(millis)?)?;
        println!(self.rt; "{}", line.as_str())
    }
}
