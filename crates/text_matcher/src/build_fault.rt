//! Why a text makes no matcher.
ghost use Rattle.std.specs.Prelude.{◌≡◌};
ghost use Rattle.text_matcher.specs.BuildFault.{of_parser, of_compiler};
ghost use Rattle.text_matcher.specs.declared.build_fault.BuildFault.TheVariants.{NoMemory};

use regex_syntax::ErrorKind;
use std::alloc::AllocError;

/// Why a matcher was not built.
#[derive(Clone, Copy, Debug, PartialEq, Eq)]
pub enum BuildFault {
    /// The text is no expression, nests too deep, or makes tables past the limit.
    Refused = 1,
    /// Memory was refused.
    NoMemory = 2,
}

impl BuildFault {
    // The fault for an error of the parser: NoMemory where memory was refused, else Refused.
    pub(crate) fn of_parser(kind: ErrorKind) -> BuildFault
        ensures { result ≡ of_parser kind }
    {
        match kind {
            ErrorKind::OutOfMemory => BuildFault::NoMemory,
            _ => BuildFault::Refused,
        }
    }

    // The fault for an error of the compiler: NoMemory where memory was refused, else Refused.
    pub(crate) fn of_compiler(error: regex_compile::Error) -> BuildFault
        ensures { result ≡ of_compiler error }
    {
        match error {
            regex_compile::Error::OutOfMemory => BuildFault::NoMemory,
            regex_compile::Error::TooBig | regex_compile::Error::Malformed => BuildFault::Refused,
        }
    }
}

impl From<AllocError> for BuildFault {
    ghost from_gives = { λ _ fault. fault ≡ NoMemory };

    fn from(_refused: AllocError) -> BuildFault {
        BuildFault::NoMemory
    }
}
