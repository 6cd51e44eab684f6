ghost use Rattle.std.specs.Prelude.{◌≡◌, ℕ, ◌+◌, ◌*◌, ◌<◌, ◌≤◌, length, vec_len};
ghost use Rattle.flow.specs.Nets.{net_of};
ghost use Rattle.flow.specs.Finish.{by_worst};
ghost use Rattle.finish.specs.Filling.{capped, Kept, WaitsTold};

use crate::step::ABOVE;
use graph::graph::Graph;
use racks::rack::Rack;

/// The worst wait of m firings of task v, or one more than the ceiling where it is above.
fn wait_of<R: Rack>(graph: &Graph, rack: &R, v: usize, m: u64) -> u64
    requires task { v < vec_len graph.now.tasks }
    requires firing { m ≤ 256 }
    requires served { R.Rack.places rack.now ≡ vec_len graph.now.tasks }
    ensures { result ≡ capped (by_worst (net_of graph.now) (R.Rack.service rack.now) v m) }
{
    rack.worst(v, m * graph.tasks[v].time).unwrap_or(ABOVE)
}

/// The worst waits of 1 to n firings of each task, each asked for once.
pub(crate) fn worst_waits<R: Rack>(graph: &Graph, rack: &R, n: usize, worst: &mut [u64])
    requires short { n ≤ 256 }
    requires wide { vec_len graph.now.tasks * n ≤ length worst.old }
    requires kept { Kept worst.old }
    requires served { R.Rack.places rack.now ≡ vec_len graph.now.tasks }
    ensures told { WaitsTold (net_of graph.now) (by_worst (net_of graph.now) (R.Rack.service rack.now)) n worst.new }
    ensures kept { Kept worst.new }
{
    for v in 0..graph.tasks.len() {
        for j in 0..n {
            worst[v * n + j] = wait_of(graph, rack, v, j as u64 + 1);
        }
    }
}
