ghost use Rattle.std.specs.Prelude.{◌≡◌, Some};
ghost use Rattle.faults.specs.Faults.{error_text};
ghost use Rattle.faults.specs.declared.error.Error.TheVariants.{Refused as ARefusal, Memory as NoMemory};

use crate::fault::Fault;
use std::alloc::AllocError;
use std::fmt;

/// What a step answers that can be refused and can want memory, which is no refusal and has no number.
#[derive(Clone, Copy, PartialEq, Eq, Debug)]
pub enum Error {
    Refused(Fault),
    Memory,
}

// By hand: what `thiserror` writes has no contract.
impl fmt::Display for Error {
    ghost output = { λ e. Some (error_text e) };

    fn fmt<W: fmt::Write>(&self, f: &mut fmt::Formatter<W>) -> fmt::Result {
        match self {
            Self::Refused(fault) => write!(f, "{fault}"),
            Self::Memory => write!(f, "out of memory"),
        }
    }
}

impl std::error::Error for Error {}

impl From<Fault> for Error {
    ghost from_gives = { λ f e. e ≡ ARefusal f };

    fn from(fault: Fault) -> Error {
        Error::Refused(fault)
    }
}

impl From<AllocError> for Error {
    ghost from_gives = { λ _ e. e ≡ NoMemory };

    fn from(_lack: AllocError) -> Error {
        Error::Memory
    }
}
