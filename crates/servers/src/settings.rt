ghost use Rattle.std.specs.Prelude.{◌≡◌};
ghost use Rattle.faults.specs.Faults.{fault};
ghost use Rattle.faults.specs.declared.layer.Layer.TheVariants.{Server as AtServer};

use faults::fault::{Fault, LineNumber};
use faults::layer::Layer;
use faults::reason::Reason;

/// The longest period of a server, in ticks.
pub const LONGEST_PERIOD: u64 = 65_535;

/// What a planner writes of a server: `slice` ticks of every `period` are the task's, and `phase` ticks of the first period have passed at the start.
/// The line where they stand is no part of them: a task's settings and its layer's stand on one line, and a server built by calls has none.
// The makers are handed it beside them, a rule of the project: a server's refusal is told at its line.
#[derive(Clone, Copy, PartialEq, Eq, Debug)]
pub struct Settings {
    pub period: u64,
    pub slice: u64,
    pub phase: u64,
}

impl Settings {
    /// Each tick is the task's: the only settings of a processor of its own.
    pub const WHOLE: Settings = Settings {
        period: 1,
        slice: 1,
        phase: 0,
    };

    /// No server: so a planner says that there is no layer.
    pub const NONE: Settings = Settings {
        period: 0,
        slice: 0,
        phase: 0,
    };
}

/// The refusal of settings that stand on this line.
pub(crate) fn refused(line: LineNumber) -> Fault
    ensures { result ≡ fault 10 AtServer line 0 }
{
    Layer::Server.refuses(Reason::Settings, line, 0)
}
