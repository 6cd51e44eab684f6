ghost use Rattle.std.specs.Prelude.{◌<◌, ◌≤◌};

use crate::figures::told;
use crate::settings::{LONGEST_PERIOD, Settings, refused};
use faults::fault::{Fault, LineNumber};

/// `ticks` of every `period` are a task's.
#[derive(Clone, Copy, PartialEq, Eq, Debug)]
pub(crate) struct Slice {
    pub(crate) period: u64,
    pub(crate) ticks: u64,
    ghost some: { 0 < ticks },
    ghost within: { ticks ≤ period },
    ghost short: { period ≤ 65535 },
}

impl Slice {
    ghost use Rattle.std.specs.Prelude.{◌≡◌, ◌-◌};
    ghost use Rattle.servers.specs.Figures.{Tells};
    ghost use Rattle.servers.specs.Settings.{MakesSlice};
    ghost use Rattle.servers.specs.Slices.{worst_of, pace_of};

    /// The phase of the settings is not read.
    pub(crate) fn new(settings: Settings, line: LineNumber) -> Result<Slice, Fault>
        ensures { MakesSlice settings line result }
    {
        let Settings { period, slice, .. } = settings;
        if period > LONGEST_PERIOD || slice == 0 || slice > period {
            return Err(refused(line));
        }
        Ok(Slice {
            period,
            ticks: slice,
        })
    }

    /// The ticks of a period that are not the task's.
    pub(crate) fn gap(self) -> u64
        ensures { result ≡ self.period - self.ticks }
    {
        self.period - self.ticks
    }

    /// The worst wait for n grants: n, and a gap before each slice that is begun.
    #[tactic(auto, using(crate::specs::Rounding::up_quotient))]
    pub(crate) fn worst(self, n: u64) -> Result<u64, Fault>
        ensures { Tells (worst_of self.period self.ticks n) result }
    {
        let n = told(n)?;
        told(n + self.gap() * n.div_ceil(self.ticks))
    }

    /// The ticks for n grants at the slice's rate.
    #[tactic(auto, using(crate::specs::Rounding::up_quotient, crate::specs::SliceLaws::pace_least))]
    pub(crate) fn pace(self, n: u64) -> Result<u64, Fault>
        ensures { Tells (pace_of self.period self.ticks n) result }
    {
        let n = told(n)?;
        told((n * self.period).div_ceil(self.ticks))
    }
}
