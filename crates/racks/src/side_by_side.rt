ghost use Rattle.std.specs.Prelude.{◌≡◌, ◌-◌, ◌^◌, ◌≤◌, MatchResult};
ghost use Rattle.std.proofs.Common.{rules};
ghost use Rattle.racks.specs.Places.{missing_place};
ghost use Rattle.racks.specs.Beside.{places_beside, beside, Sided, OnSide};
ghost use Rattle.racks.specs.Sides.{racks_keep, beside_moves, beside_others};

use crate::rack::{Rack, no_place};
use faults::fault::Fault;

/// Two racks side by side: the places of the first, and then those of the second, as many as a usize counts.
#[derive(PartialEq, Eq, Debug, Drop)]
pub struct SideBySide<A, B> {
    pub first: A,
    pub second: B,
}

// The place of the second rack that a place of both is, or none where it is one of the first, which has `split` places.
// The last number of a usize is no place, since the places are counted by one.
fn in_second(split: usize, place: usize) -> Result<Option<usize>, Fault>
    ensures { MatchResult result (OnSide split place) (λ e. (e ≡ missing_place) × (place ≡ 2 ^ 64 - 1) × (split ≤ place)) }
{
    if place == usize::MAX {
        return Err(no_place());
    }
    Ok(place.checked_sub(split))
}

// The same call on the rack that has a place, by its number there.
macro_rules! at_its_rack {
    ($racks:expr, $method:ident($place:expr $(, $argument:expr)*)) => {
        match in_second($racks.first.places(), $place)? {
            None => $racks.first.$method($place $(, $argument)*),
            Some(place) => $racks.second.$method(place $(, $argument)*),
        }
    };
}

impl<A: Rack, B: Rack> Rack for SideBySide<A, B> {
    ghost places = { λ s. places_beside (A.Rack.places s.first) (B.Rack.places s.second) };

    ghost service = { λ s. beside (A.Rack.places s.first) (A.Rack.service s.first) (B.Rack.service s.second) };

    ghost steps = { λ s k c g t. Sided A.Rack.steps B.Rack.steps (A.Rack.places s.first) s.first s.second k c g t.first t.second };

    ghost keeps = { racks_keep A.Rack.keeps B.Rack.keeps };

    ghost moves = { beside_moves A.Rack.stays A.Rack.moves B.Rack.moves };

    ghost others = { beside_others A.Rack.stays A.Rack.others B.Rack.others };

    ghost stays = { Prim.search rules };

    fn places(&self) -> usize {
        let first = self.first.places();
        let second = self.second.places();
        first.saturating_add(second)
    }

    fn tick(&mut self, place: usize, claimed: bool) -> Result<bool, Fault> {
        at_its_rack!(self, tick(place, claimed))
    }

    fn worst(&self, place: usize, n: u64) -> Result<u64, Fault> {
        at_its_rack!(self, worst(place, n))
    }

    fn lead(&self, place: usize) -> Result<u64, Fault> {
        at_its_rack!(self, lead(place))
    }

    fn pace(&self, place: usize, n: u64) -> Result<u64, Fault> {
        at_its_rack!(self, pace(place, n))
    }
}
