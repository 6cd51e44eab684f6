use faults::fault::{Fault, LineNumber};
use servers::figures::told;
use servers::fixed::Fixed;
use servers::server::Server;
use servers::settings::Settings;

/// A layer over any server: a fixed slice of its own, kept in the ticks that the server below grants.
#[derive(Clone, Copy, PartialEq, Eq, Debug)]
pub struct Inner<S> {
    pub(crate) below: S,
    pub(crate) slice: Fixed,
}

impl<S: Drop> Inner<S> {
    ghost use Rattle.layers.specs.InnerService.{MakesInner};

    /// The layer's settings are those of a fixed slice.
    pub fn new(below: S, layer: Settings, line: LineNumber) -> Result<Inner<S>, Fault>
        ensures { MakesInner below layer line result }
    {
        let slice = Fixed::new(layer, line)?;
        Ok(Inner { below, slice })
    }
}

impl<S: Server> Server for Inner<S> {
    ghost use Rattle.layers.specs.InnerService.{inner_service, InnerSteps};
    ghost use Rattle.layers.specs.WithinLaws.{inner_laws, inner_moves};

    ghost service = { inner_service S.Server.service };

    ghost steps = { InnerSteps S.Server.steps };

    ghost keeps = { inner_laws S.Server.keeps };

    ghost moves = { inner_moves S.Server.keeps S.Server.moves };

    fn tick(&mut self, claimed: bool) -> bool {
        self.below.tick(claimed) && self.slice.tick(claimed)
    }

    fn worst(&self, n: u64) -> Result<u64, Fault> {
        let needed = self.slice.worst(n)?;
        self.below.worst(needed)
    }

    fn lead(&self) -> Result<u64, Fault> {
        let gap = self.slice.lead()?;
        let start = self.below.lead()?;
        let more = self.below.pace(gap)?;
        told(start + more)
    }

    fn pace(&self, n: u64) -> Result<u64, Fault> {
        let needed = self.slice.pace(n)?;
        self.below.pace(needed)
    }
}
