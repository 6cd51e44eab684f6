ghost use Rattle.std.specs.Prelude.{◌++◌};
ghost use Rattle.faults.specs.Faults.{fault_line};
ghost use Rattle.lexer.specs.Text.{end};
ghost use Rattle.texts.specs.Puts.{Puts};

use crate::line::{Cell, put_line};
use faults::fault::Fault;
use std::alloc::AllocError;

/// Appends the line of a fault, as its `Display` has it.
// By cells: a `writeln!` may fail for any reason, and says nothing of what it then left.
pub fn put_fault(out: &mut Vec<u8>, fault: Fault) -> Result<(), AllocError>
    ensures { Puts out.old (fault_line fault ++ end) result out.new }
{
    let cells = [
        Cell::Word(b"refused"),
        Cell::Word(fault.layer.word().as_bytes()),
        Cell::Number(u64::from(fault.reason.number())),
        Cell::Number(u64::from(fault.line)),
        Cell::Number(u64::from(fault.field)),
    ];
    put_line(out, &cells)
}
