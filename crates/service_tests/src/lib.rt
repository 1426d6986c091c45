//! Tests of service directories, command words, tallies and the service machine: what no clause
//! says.
#![tactic(auto)]

#[cfg(test)]
mod command_words;
#[cfg(test)]
mod directories;
#[cfg(test)]
mod fake_files;
#[cfg(test)]
mod services;
#[cfg(test)]
mod tallies;
#[cfg(test)]
mod texts;
