//! Why a waiter is not made.
ghost use Rattle.std.specs.Prelude.{◌≡◌};
ghost use Rattle.wait_conditions.specs.declared.add_fault.AddFault.TheVariants as fault;

use s6_events::NoMemory;
use thiserror::Error;

/// Why a waiter was not made. The first four are looked for in this order.
#[derive(Clone, Copy, Debug, PartialEq, Eq, Error)]
pub enum AddFault {
    /// No service is named.
    #[error("no service to wait for")]
    Empty = 1,
    /// A service is named twice.
    #[error("a service is named twice")]
    Repeated = 2,
    /// More than 16 services are named.
    #[error("over 16 services")]
    TooManyServices = 3,
    /// There are 1,024 waiters already.
    #[error("as many waiters stand as may")]
    TooMany = 4,
    /// Memory was refused.
    #[error("out of memory")]
    NoMemory = 5,
}

// By hand, since `?` from the derive doesn't say which fault it makes.
impl From<NoMemory> for AddFault {
    ghost from_gives = { λ _ told. told ≡ fault.NoMemory };

    fn from(_error: NoMemory) -> AddFault {
        AddFault::NoMemory
    }
}
