//! Why a measurement stopped.
use office::OpenFault;
use s6_events::NoMemory;
use thiserror::Error;

/// Why there are no figures.
#[derive(Clone, Copy, PartialEq, Eq, Debug, Error)]
pub enum Fault {
    #[error("no memory")]
    NoMemory(#[from] NoMemory),
    #[error("the office was not opened: {0}")]
    NotOpened(OpenFault),
    #[error("a step was not made")]
    NotMade,
    #[error("no clock")]
    NoClock,
    #[error("write")]
    Write,
}
