//! Tests of the parts that history, timers, waiters and event directories are: what no clause says.
#![tactic(auto)]

#[cfg(test)]
mod event_directories;
#[cfg(test)]
mod events;
#[cfg(test)]
mod patterns;
#[cfg(test)]
mod restarts;
#[cfg(test)]
mod shared;
#[cfg(test)]
mod timers;
#[cfg(test)]
mod waiters;
#[cfg(test)]
mod waiters_memory;
