//! Tests of the table of services: what no clause says.
#![tactic(auto)]

#[cfg(test)]
mod full;
#[cfg(test)]
mod order;
#[cfg(test)]
mod refused;
#[cfg(test)]
mod tables;
