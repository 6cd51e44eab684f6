ghost use Rattle.servers.specs.Settings.{MakesOwn};
ghost use Rattle.servers.specs.OwnService.{own_service, OwnSteps};
ghost use Rattle.servers.specs.OwnLaws.{own_laws, own_moves};

use crate::figures::told;
use crate::server::Server;
use crate::settings::{Settings, refused};
use faults::fault::{Fault, LineNumber};

/// A processor of the task's own: every tick is granted.
#[derive(Clone, Copy, PartialEq, Eq, Debug)]
pub struct Own;

impl Own {
    /// Its settings are 1 1 0 and no others.
    pub fn new(settings: Settings, line: LineNumber) -> Result<Own, Fault>
        ensures { MakesOwn settings line result }
    {
        if settings != Settings::WHOLE {
            return Err(refused(line));
        }
        Ok(Own)
    }
}

impl Server for Own {
    ghost service = { own_service };

    ghost steps = { OwnSteps };

    ghost keeps = { own_laws };

    ghost moves = { own_moves };

    fn tick(&mut self, _claimed: bool) -> bool {
        true
    }

    fn worst(&self, n: u64) -> Result<u64, Fault> {
        told(n)
    }

    fn lead(&self) -> Result<u64, Fault> {
        told(0)
    }

    fn pace(&self, n: u64) -> Result<u64, Fault> {
        told(n)
    }
}
