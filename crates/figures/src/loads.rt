ghost use Rattle.std.specs.Prelude.{◌≡◌, ℕ, ◌<◌, ◌≤◌, slice_index, vec_len};
ghost use Rattle.graph.specs.Racked.{Racked};
ghost use Rattle.flow.specs.Nets.{net_of};
ghost use Rattle.flow.specs.Rings.{pace_of};
ghost use Rattle.flow.specs.Verdicts.{Load};

use graph::figures::figures_at;
use graph::graph::Graph;
use graph::parts::MOST_TASKS;
use racks::rack::Rack;
use ratios::ratio::Ratio;

/// The load of each task at cycle over parts, on a rack that the graph accepts.
pub(crate) fn loads<R: Rack>(graph: &Graph, rack: &R, ratio: Ratio) -> [u64; MOST_TASKS]
    requires { Racked graph.now (R.Rack.places rack.now) (R.Rack.service rack.now) }
    ensures tasks { (v : ℕ) → v < vec_len graph.now.tasks → Load (pace_of (net_of graph.now) (R.Rack.service rack.now) v) ratio.cycle ratio.parts (slice_index result v) }
    ensures rest { (v : ℕ) → vec_len graph.now.tasks ≤ v → slice_index result v ≡ 0 }
{
    let mut loads = [0; MOST_TASKS];
    for (v, task) in graph.tasks.iter().enumerate() {
        let figures = figures_at(rack, v, task.time).unwrap();
        loads[v] = ratio.load(figures.pace).unwrap();
    }
    loads
}

/// The numbers of the graph's tasks, and 0 where there is no task.
pub(crate) fn of_tasks(graph: &Graph, numbers: [u64; MOST_TASKS]) -> [u64; MOST_TASKS]
    ensures tasks { (v : ℕ) → v < vec_len graph.now.tasks → slice_index result v ≡ slice_index numbers v }
    ensures rest { (v : ℕ) → vec_len graph.now.tasks ≤ v → slice_index result v ≡ 0 }
{
    let mut kept = [0; MOST_TASKS];
    for v in 0..graph.tasks.len() {
        kept[v] = numbers[v];
    }
    kept
}
