ghost use Rattle.std.specs.Prelude.{◌≡◌, ◌<◌};
ghost use Rattle.graph.specs.Lines.{line_of};

use faults::fault::LineNumber;

/// The line on which a sheet's first task stands.
pub const FIRST_TASK_LINE: LineNumber = 5;

/// Where a graph comes from: built by calls, or read from a sheet, whose first task stands on line 5 and each other one line below.
#[derive(Clone, Copy, PartialEq, Eq, Debug)]
pub enum Origin {
    Built,
    Sheet,
}

impl Origin {
    /// The line on which a task stands.
    pub(crate) fn line(self, task: usize) -> LineNumber
        requires { task < 16 }
        ensures { result ≡ line_of self task }
    {
        match self {
            Origin::Built => 0,
            Origin::Sheet => FIRST_TASK_LINE + task as u32,
        }
    }
}
