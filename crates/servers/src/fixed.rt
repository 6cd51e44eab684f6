ghost use Rattle.std.specs.Prelude.{◌<◌};

use crate::figures::told;
use crate::server::Server;
use crate::settings::{Settings, refused};
use crate::slice::Slice;
use faults::fault::{Fault, LineNumber};

/// The first ticks of every period, a slice, are granted; `position` ticks of this one have passed.
#[derive(Clone, Copy, PartialEq, Eq, Debug)]
pub struct Fixed {
    pub(crate) slice: Slice,
    pub(crate) position: u64,
    ghost passed: { position < slice.period },
}

impl Fixed {
    ghost use Rattle.std.specs.Prelude.{◌≡◌, ℕ};
    ghost use Rattle.servers.specs.Exactly.{Exactly};
    ghost use Rattle.servers.specs.Settings.{MakesFixed};
    ghost use Rattle.servers.specs.Slices.{wait_at, worst_of};

    /// A slice that starts at its phase, which is below the period.
    pub fn new(settings: Settings, line: LineNumber) -> Result<Fixed, Fault>
        ensures { MakesFixed settings line result }
    {
        let slice = Slice::new(settings, line)?;
        if settings.phase >= settings.period {
            return Err(refused(line));
        }
        Ok(Fixed {
            slice,
            position: settings.phase,
        })
    }

    /// A phase in which every wait is the worst: the slice has just closed. And a wait is exact: the n-th grant comes at it.
    pub fn worst_phase(&self) -> u64
        ensures within { result < self.now.slice.period }
        ensures attains { (n : ℕ) → wait_at self.now.slice.period self.now.slice.ticks result n ≡ worst_of self.now.slice.period self.now.slice.ticks n }
        ensures exact { Exactly }
    {
        if self.slice.ticks < self.slice.period {
            self.slice.ticks
        } else {
            0
        }
    }
}

impl Server for Fixed {
    ghost use Rattle.servers.specs.FixedService.{fixed_service, Moves};
    ghost use Rattle.servers.specs.SliceLaws.{fixed_laws, fixed_moves};

    ghost service = { fixed_service };

    ghost steps = { Moves };

    ghost keeps = { fixed_laws };

    ghost moves = { fixed_moves };

    fn tick(&mut self, _claimed: bool) -> bool {
        let granted = self.position < self.slice.ticks;
        // By a comparison: a remainder would be most of what a tick costs.
        let next = self.position + 1;
        self.position = if next < self.slice.period { next } else { 0 };
        granted
    }

    fn worst(&self, n: u64) -> Result<u64, Fault> {
        self.slice.worst(n)
    }

    fn lead(&self) -> Result<u64, Fault> {
        told(self.slice.gap())
    }

    fn pace(&self, n: u64) -> Result<u64, Fault> {
        self.slice.pace(n)
    }
}
