ghost use Rattle.std.specs.Prelude.{◌≡◌, ℕ, ◌*◌, ◌^◌, ◌<◌, ◌≤◌, pos, ◌≤ℤ◌, length, slice_index, MatchOption};
ghost use Rattle.walks.specs.Arcs.{arc_at, best_at, Pushes};

use crate::arcs::Arc;
use graph::parts::MOST_TASKS;

/// A task's best value so far, and the arcs that led to it.
#[derive(Clone, Copy)]
pub(crate) struct Best {
    pub(crate) value: i64,
    pub(crate) count: usize,
    pub(crate) walk: [usize; MOST_TASKS],
}

/// What an arc made of the task that it leads to: nothing, a better value, or a ring with the walk to the arc's start, from a place of that walk on.
pub(crate) enum Pushed {
    Kept,
    Raised,
    Closed(usize),
}

/// The place at which a walk meets the task.
fn met(arcs: &[Arc], best: &Best, task: usize) -> Option<usize>
    requires count { best.now.count ≤ 16 }
    requires arcs { (i : ℕ) → i < best.now.count → slice_index best.now.walk i < length arcs.now }
    ensures { MatchOption result ((i : ℕ) → i < best.now.count → (arc_at arcs.now (slice_index best.now.walk i)).from ≡ task → ⊥) (λ i. (i < best.now.count) × ((arc_at arcs.now (slice_index best.now.walk i)).from ≡ task)) }
{
    for i in 0..best.count {
        if arcs[best.walk[i]].from == task {
            return Some(i);
        }
    }
    None
}

/// Steps the value at the arc's start along it.
pub(crate) fn push(arcs: &[Arc], e: usize, bests: &mut [Best; MOST_TASKS]) -> Pushed
    requires arc { e < length arcs.now }
    requires from { (arc_at arcs.now e).from < 16 }
    requires to { (arc_at arcs.now e).to < 16 }
    requires count { (best_at bests.old (arc_at arcs.now e).from).count < 16 }
    requires walk { (i : ℕ) → i < (best_at bests.old (arc_at arcs.now e).from).count → slice_index (best_at bests.old (arc_at arcs.now e).from).walk i < length arcs.now }
    requires low { pos 0 ≤ℤ (best_at bests.old (arc_at arcs.now e).from).value }
    requires high { (best_at bests.old (arc_at arcs.now e).from).value ≤ℤ pos (2 ^ 60) }
    requires lag { (arc_at arcs.now e).lag ≤ℤ pos (2 ^ 60) }
    ensures { Pushes arcs.now e bests.old bests.new result }
{
    let arc = arcs[e];
    let start = bests[arc.from];
    let value = start.value + arc.lag;
    if value <= bests[arc.to].value {
        return Pushed::Kept;
    }
    if arc.from == arc.to {
        return Pushed::Closed(start.count);
    }
    if let Some(i) = met(arcs, &start, arc.to) {
        return Pushed::Closed(i);
    }
    let mut longer = start;
    longer.value = value;
    longer.walk[start.count] = e;
    longer.count = start.count + 1;
    bests[arc.to] = longer;
    Pushed::Raised
}
