ghost use Rattle.std.specs.Prelude.{◌≡◌, ℕ, ◌+◌, ◌-◌, ◌*◌, ◌<◌, ◌≤◌, length, set, slice_index, vec_len};
ghost use Rattle.flow.specs.Nets.{net_of};
ghost use Rattle.flow.specs.Finish.{Feeds};
ghost use Rattle.finish.specs.Filling.{IsLargest, Kept, Shaped, Stepped, entry, kept_above};

use graph::graph::Graph;
use servers::figures::CEILING;

/// What is kept of every figure above the ceiling.
pub(crate) const ABOVE: u64 = CEILING + 1;

/// A graph, and the worst waits of 1 to n firings of each of its tasks, a row of n for each.
#[derive(Clone, Copy)]
pub(crate) struct Waits<'a> {
    pub(crate) graph: &'a Graph,
    pub(crate) n: usize,
    pub(crate) worst: &'a [u64],
}

/// The largest, over k from 0 to i, of the ready time of firing k and the worst wait of firings k to i, in the row that begins at `at`.
fn latest(ready: &[u64], worst: &[u64], at: usize, i: usize) -> u64
    requires low { at + i < 65536 }
    requires ready_in { at + i < length ready.now }
    requires worst_in { at + i < length worst.now }
    requires ready_kept { Kept ready.now }
    requires worst_kept { Kept worst.now }
    ensures { IsLargest (λ k. Unit {0}) (λ k. slice_index ready.now (at + k) + slice_index worst.now (at + (i - k))) 0 (i + 1) result }
{
    let mut latest = 0;
    // A loop, which proves its indices where a chain of iterators would have to require them.
    for k in 0..i + 1 {
        latest = latest.max(ready[at + k] + worst[at + (i - k)]);
    }
    latest
}

impl Waits<'_> {
    /// The largest of the arrival and of the bounds that feed firing i of task v.
    fn ready_at(&self, table: &[u64], v: usize, i: usize, arrival: u64) -> u64
        requires wide { vec_len self.now.graph.now.tasks * self.now.n ≤ length table.now }
        requires firing { i < self.now.n }
        requires short { self.now.n ≤ 256 }
        ensures { IsLargest (Feeds (net_of self.now.graph.now) v i) (λ e. entry table.now self.now.n ((net_of self.now.graph.now).from e) (i - (net_of self.now.graph.now).tokens e)) arrival (vec_len self.now.graph.now.edges) result }
    {
        let mut ready = arrival;
        // A loop: an edge's bound is read only where the edge feeds the firing.
        for edge in &self.graph.edges {
            let tokens = edge.tokens as usize;
            if edge.to == v && tokens <= i {
                ready = ready.max(table[edge.from * self.n + (i - tokens)]);
            }
        }
        ready
    }

    /// Writes the ready time and the finish bound of firing i of task v, and answers the bound, or one more than the ceiling where it is above.
    pub(crate) fn step(
        &self,
        ready: &mut [u64],
        table: &mut [u64],
        v: usize,
        i: usize,
        arrival: u64,
    ) -> u64
        requires shaped { Shaped (net_of self.now.graph.now) self.now.n self.now.worst.now ready.old table.old }
        requires task { v < vec_len self.now.graph.now.tasks }
        requires firing { i < self.now.n }
        requires kept { arrival ≤ kept_above }
        ensures stepped { Stepped (net_of self.now.graph.now) self.now.n v i arrival self.now.worst.now ready.old table.old ready.new table.new }
        ensures wrote { table.new ≡ set table.old (v * self.now.n + i) result }
    {
        let at = v * self.n;
        ready[at + i] = self.ready_at(table, v, i, arrival);
        let bound = latest(ready, self.worst, at, i).min(ABOVE);
        table[at + i] = bound;
        bound
    }
}
