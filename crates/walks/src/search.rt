use crate::arcs::Arcs;
use crate::best::{Best, Pushed, push};
use crate::found::{Found, Walk};
use graph::parts::MOST_TASKS;

impl Arcs<'_> {
    ghost use Rattle.std.specs.Prelude.{MatchOption};
    ghost use Rattle.walks.specs.Arcs.{Begun, Settles, Closes, Finds};

    /// Each task at its base.
    fn begin(&self) -> [Best; MOST_TASKS]
        ensures { Begun self.now.bases.now result }
    {
        let mut bests = [Best {
            value: 0,
            count: 0,
            walk: [0; MOST_TASKS],
        }; MOST_TASKS];
        for (task, base) in self.bases.iter().enumerate() {
            bests[task].value = *base;
        }
        bests
    }

    /// As many rounds over the arcs as there are tasks: the values are then settled, or an arc has closed a ring with the walk to its start, from a place of that walk on.
    fn rounds(&self, bests: &mut [Best; MOST_TASKS]) -> Option<(usize, usize)>
        requires begun { Begun self.now.bases.now bests.old }
        ensures { MatchOption result (Settles self.now.list.now self.now.bases.now bests.new) (λ p. Closes self.now.list.now self.now.bases.now bests.new p.0 p.1) }
    {
        for round in 0..self.bases.len() {
            for e in 0..self.list.len() {
                match push(self.list, e, bests) {
                    Pushed::Closed(place) => return Some((e, place)),
                    Pushed::Kept | Pushed::Raised => {}
                }
            }
        }
        None
    }

    /// The least values from the bases on that keep to the arcs, or the arcs of a ring that improves on standing still.
    pub fn search(&self) -> Found
        ensures { Finds self.now.list.now self.now.bases.now result }
    {
        let mut bests = self.begin();
        match self.rounds(&mut bests) {
            None => Found::Still(values(&bests)),
            Some((e, place)) => Found::Ring(ring(&bests[self.list[e].from], place, e)),
        }
    }
}

ghost use Rattle.std.specs.Prelude.{◌≡◌, ℕ, ◌<◌, ◌≤◌, pos, length, slice_index_or, take, drop, ◌++◌, ◌∷◌, []};
ghost use Rattle.walks.specs.Arcs.{best_at, arcs_of};

/// The value of each.
fn values(bests: &[Best; MOST_TASKS]) -> [i64; MOST_TASKS]
    ensures { (k : ℕ) → k < 16 → slice_index_or result k (pos 0) ≡ (best_at bests.now k).value }
{
    let mut values = [0; MOST_TASKS];
    for task in 0..MOST_TASKS {
        values[task] = bests[task].value;
    }
    values
}

/// The arcs of a walk from a place on, and then an arc more.
fn ring(best: &Best, place: usize, e: usize) -> Walk
    requires place { place ≤ best.now.count }
    requires count { best.now.count < 16 }
    ensures few { result.count ≤ 16 }
    ensures arcs { arcs_of result ≡ drop place (take best.now.count best.now.walk) ++ e ∷ [] }
{
    let mut ring = Walk {
        count: 0,
        arcs: [0; MOST_TASKS],
    };
    for k in place..best.count {
        ring.arcs[ring.count] = best.walk[k];
        ring.count += 1;
    }
    ring.arcs[ring.count] = e;
    ring.count += 1;
    ring
}
