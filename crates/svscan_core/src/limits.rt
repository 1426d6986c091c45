//! The most services of a table, and the most orders of a step.

/// The most services of a scan directory at one time.
pub const SERVICE_LIMIT: usize = 256;

/// The most orders that a step gives: one for the timer of each service, and two more for each that
/// is told to leave.
pub const ORDER_LIMIT: usize = 768;
