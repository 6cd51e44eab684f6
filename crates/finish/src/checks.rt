ghost use Rattle.std.specs.Prelude.{◌≡◌, ℕ, ◌+◌, ◌*◌, ◌<◌, ◌≤◌, ◌↔◌, IsTrue, length, count_by};
ghost use Rattle.finish.specs.Table.{Low, Sized, Rises, has_inlet, inlets};

use crate::table::MOST_FIRINGS;
use graph::graph::Graph;
use graph::parts::Task;
use servers::figures::CEILING;

/// How many of the tasks have an inlet.
pub(crate) fn inlets(tasks: &[Task]) -> usize
    ensures { result ≡ count_by has_inlet tasks.now }
{
    tasks.iter().filter(|task| task.inlet).count()
}

/// 1 to 256 firings, so many times for each inlet, and so many entries for each task.
pub(crate) fn sized(graph: &Graph, n: usize, times: &[u64], table: &[u64]) -> bool
    ensures { IsTrue result ↔ Sized graph.now n times.now table.now }
{
    (1..=MOST_FIRINGS).contains(&n)
        && times.len() == inlets(&graph.tasks) * n
        && table.len() == graph.tasks.len() * n
}

/// None of the times is above the ceiling.
pub(crate) fn low(times: &[u64]) -> bool
    ensures { IsTrue result ↔ Low times.now }
{
    times.iter().all(|time| *time <= CEILING)
}

/// The n times of inlet r do not fall.
fn row_rises(times: &[u64], n: usize, r: usize) -> bool
    requires within { r * n + n ≤ length times.now }
    ensures { IsTrue result ↔ Rises times.now n r n }
{
    for k in 1..n {
        if times[r * n + k] < times[r * n + (k - 1)] {
            return false;
        }
    }
    true
}

/// The times of none of the inlets fall.
pub(crate) fn all_rise(times: &[u64], n: usize, inlets: usize) -> bool
    requires within { length times.now ≡ inlets * n }
    ensures { IsTrue result ↔ ((r : ℕ) → r < inlets → Rises times.now n r n) }
{
    for r in 0..inlets {
        if !row_rises(times, n, r) {
            return false;
        }
    }
    true
}
