ghost use Rattle.std.specs.Prelude.{◌≡◌, ◌<◌, MatchResult};
ghost use Rattle.racks.specs.Places.{missing_place};
ghost use Rattle.std.proofs.Common.{rules};

use crate::rack::{Rack, no_place};
use faults::fault::Fault;
use servers::server::Server;

/// A rack of one place.
#[derive(PartialEq, Eq, Debug, Drop)]
pub struct One<S> {
    pub server: S,
}

// Place 0 is there, and no other. It answers no server, since a tick wants one to change and the others one to read.
fn only(place: usize) -> Result<(), Fault>
    ensures { MatchResult result (λ _. place ≡ 0) (λ e. (e ≡ missing_place) × (0 < place)) }
{
    if place == 0 { Ok(()) } else { Err(no_place()) }
}

impl<S: Server> Rack for One<S> {
    ghost places = { λ _. 1 };

    ghost service = { λ s _. S.Server.service s.server };

    ghost steps = { λ a k c g b. (k ≡ 0) × S.Server.steps a.server c g b.server };

    ghost keeps = { λ s k h. S.Server.keeps s.server };

    ghost moves = { λ a b k c r m. S.Server.moves a.server b.server c r m.1 };

    ghost others = { Prim.search rules };

    ghost stays = { Prim.search rules };

    fn places(&self) -> usize {
        1
    }

    fn tick(&mut self, place: usize, claimed: bool) -> Result<bool, Fault> {
        only(place)?;
        Ok(self.server.tick(claimed))
    }

    fn worst(&self, place: usize, n: u64) -> Result<u64, Fault> {
        only(place)?;
        self.server.worst(n)
    }

    fn lead(&self, place: usize) -> Result<u64, Fault> {
        only(place)?;
        self.server.lead()
    }

    fn pace(&self, place: usize, n: u64) -> Result<u64, Fault> {
        only(place)?;
        self.server.pace(n)
    }
}
