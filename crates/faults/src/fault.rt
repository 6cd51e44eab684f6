ghost use Rattle.std.specs.Prelude.{Some};
ghost use Rattle.faults.specs.Faults.{fault_line};

use crate::layer::Layer;
use crate::reason::Reason;
use std::error::Error;
use std::fmt;

/// The number of a sheet's line, from 1; 0 where there is none, as it is printed.
pub type LineNumber = u32;

/// A refusal: why, by which part of the product, and where in a sheet or in calls.
#[derive(Clone, Copy, PartialEq, Eq, Debug)]
pub struct Fault {
    pub reason: Reason,
    pub layer: Layer,
    pub line: LineNumber,
    /// The field of the line, from 1; 0 where there is none, as it is printed.
    pub field: u32,
}

/// The line that a program prints for a fault, as in `refused graph 11 5 0`.
impl fmt::Display for Fault {
    ghost output = { λ f. Some (fault_line f) };

    fn fmt<W: fmt::Write>(&self, f: &mut fmt::Formatter<W>) -> fmt::Result {
        write!(
            f,
            "refused {} {} {} {}",
            self.layer,
            self.reason.number(),
            self.line,
            self.field
        )
    }
}

impl Error for Fault {}
