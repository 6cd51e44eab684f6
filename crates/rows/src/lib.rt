#![tactic(auto)]

ghost use Rattle.std.specs.Prelude.{◌≡◌, ◌≤◌, MatchResult, Some, slice_get, vec_len};
ghost use Rattle.racks.specs.Places.{missing_place};
ghost use Rattle.rows.specs.Rows.{row_service, RowSteps};
ghost use Rattle.rows.specs.RowLaws.{row_keeps, row_moves, row_others};
ghost use Rattle.std.proofs.Common.{rules};

use faults::fault::Fault;
use racks::rack::{Rack, no_place};
use servers::server::Server;

/// Servers of one type in a row, one to a place.
#[derive(PartialEq, Eq, Debug, Drop)]
pub struct Row<S> {
    pub servers: Vec<S>,
}

impl<S> Row<S> {
    fn server_at(&self, place: usize) -> Result<&S, Fault>
        ensures { MatchResult result (λ s. slice_get self.now.servers.items place ≡ Some s.now) (λ e. (e ≡ missing_place) × (vec_len self.now.servers ≤ place)) }
    {
        self.servers.get(place).ok_or_else(no_place)
    }
}

impl<S: Server> Rack for Row<S> {
    ghost places = { λ s. vec_len s.servers };

    ghost service = { λ s. row_service S.Server.service s.servers.items };

    ghost steps = { λ a k c g b. RowSteps S.Server.steps a.servers.items k c g b.servers.items };

    ghost keeps = { λ s k _. row_keeps S.Server.keeps s.servers.items k };

    ghost moves = { λ a b. row_moves S.Server.moves a.servers.items b.servers.items };

    ghost others = { λ a b k c g m j _. row_others S.Server.service m j };

    ghost stays = { Prim.search rules };

    fn places(&self) -> usize {
        self.servers.len()
    }

    fn tick(&mut self, place: usize, claimed: bool) -> Result<bool, Fault> {
        // `ok_or`: behind an `ok_or_else` the proof would not know which server is written back.
        let server = self.servers.get_mut(place).ok_or(no_place())?;
        Ok(server.tick(claimed))
    }

    fn worst(&self, place: usize, n: u64) -> Result<u64, Fault> {
        self.server_at(place)?.worst(n)
    }

    fn lead(&self, place: usize) -> Result<u64, Fault> {
        self.server_at(place)?.lead()
    }

    fn pace(&self, place: usize, n: u64) -> Result<u64, Fault> {
        self.server_at(place)?.pace(n)
    }
}
