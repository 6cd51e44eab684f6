ghost use Rattle.std.specs.Prelude.{◌+◌, ◌<◌, ◌≤◌};

use crate::figures::told;
use crate::server::Server;
use crate::settings::{Settings, refused};
use crate::slice::Slice;
use faults::fault::{Fault, LineNumber};

/// A slice of every period is granted, where others leave it: of this one `passed` ticks have gone, and `given` were granted.
#[derive(Clone, Copy, PartialEq, Eq, Debug)]
pub struct Float {
    pub(crate) slice: Slice,
    pub(crate) passed: u64,
    pub(crate) given: u64,
    ghost going: { passed < slice.period },
    ghost most: { given ≤ slice.ticks },
    ghost each: { given ≤ passed },
    ghost room: { slice.ticks + passed ≤ slice.period + given },
}

impl Float {
    ghost use Rattle.servers.specs.Exactly.{EachPeriod};
    ghost use Rattle.servers.specs.Settings.{MakesFloat};

    /// A float has no phase but 0.
    #[tactic(auto, using(crate::proofs::GrantsExact::each_period))]
    pub fn new(settings: Settings, line: LineNumber) -> Result<Float, Fault>
        ensures made { MakesFloat settings line result }
        ensures exact { EachPeriod }
    {
        let slice = Slice::new(settings, line)?;
        if settings.phase != 0 {
            return Err(refused(line));
        }
        Ok(Float {
            slice,
            passed: 0,
            given: 0,
        })
    }
}

impl Server for Float {
    ghost use Rattle.servers.specs.FloatService.{float_service, Floats};
    ghost use Rattle.servers.specs.FloatLaws.{float_laws, float_moves};

    ghost service = { float_service };

    ghost steps = { Floats };

    ghost keeps = { float_laws };

    ghost moves = { float_moves };

    fn tick(&mut self, claimed: bool) -> bool {
        let owed = self.slice.ticks - self.given;
        let granted = owed > 0 && (!claimed || owed == self.slice.period - self.passed);
        // An `if`: both start anew together, and beside a `%` for one the other would still be tested for.
        let passed = self.passed + 1;
        let given = self.given + u64::from(granted);
        (self.passed, self.given) = if passed < self.slice.period {
            (passed, given)
        } else {
            (0, 0)
        };
        granted
    }

    fn worst(&self, n: u64) -> Result<u64, Fault> {
        if n == 0 {
            return told(0);
        }
        told(self.slice.worst(n)? + self.slice.gap())
    }

    fn lead(&self) -> Result<u64, Fault> {
        told(2 * self.slice.gap())
    }

    fn pace(&self, n: u64) -> Result<u64, Fault> {
        self.slice.pace(n)
    }
}
