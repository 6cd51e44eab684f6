ghost use Rattle.std.specs.Prelude.{◌≡◌, Some};
ghost use Rattle.ahead.specs.Givens.{Gives, refuses};

use calls::call_line::CallLine;
use calls::lines::{call_in, heading_in};
use faults::fault::Fault;
use sheet_lines::line::Line;

/// What a line of calls gives: its call, or the fault by which it is refused, below which nothing is read.
#[derive(Clone, Copy, PartialEq, Eq, Debug)]
pub enum Given {
    Call(CallLine),
    Fault(Fault),
}

impl Given {
    pub(crate) fn is_fault(&self) -> bool
        ensures { result ≡ refuses (Some self.now) }
    {
        match self {
            Given::Call(_) => false,
            Given::Fault(_) => true,
        }
    }
}

/// What a line gives by its number. The first is the heading, which gives nothing where it is in order.
pub(crate) fn given_by(line: Line<'_>) -> Option<Given>
    ensures { Gives line.entry.number line.entry.text.now result }
{
    if line.number == 1 {
        return heading_in(line).err().map(Given::Fault);
    }
    Some(match call_in(line) {
        Ok(call) => Given::Call(call),
        Err(fault) => Given::Fault(fault),
    })
}
