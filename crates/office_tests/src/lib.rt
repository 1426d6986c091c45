//! Tests of the office and of a tree under a lock, with and without threads.
#![tactic(auto)]

#[cfg(test)]
mod acts;
#[cfg(test)]
mod asking;
#[cfg(test)]
mod lanes;
#[cfg(test)]
mod locked_tree;
#[cfg(test)]
mod opened;
#[cfg(test)]
mod parts;
#[cfg(test)]
mod replaying;
#[cfg(test)]
mod scenes;
#[cfg(test)]
mod seats;
#[cfg(test)]
mod stage;
#[cfg(test)]
mod storm;
