ghost use Rattle.std.specs.Prelude.{◌≡◌, ℕ, ◌+◌, ◌*◌, ◌<◌, ◌≤◌, length, vec_len};
ghost use Rattle.flow.specs.Nets.{net_of};
ghost use Rattle.finish.specs.Table.{arrivals};
ghost use Rattle.finish.specs.Filling.{Came, Shaped, Timed, Went, kept_above};

use crate::checks::inlets;
use crate::step::Waits;
use graph::graph::Graph;
use servers::figures::CEILING;

/// The arrival that firing i of task v takes, or 0 where the task has no inlet.
fn arrival(graph: &Graph, n: usize, times: &[u64], v: usize, i: usize) -> u64
    requires timed { Timed graph.now n times.now }
    requires task { v < vec_len graph.now.tasks }
    requires firing { i < n }
    requires short { n ≤ 256 }
    ensures came { Came (net_of graph.now) (arrivals graph.now n times.now) v i result }
    ensures kept { result ≤ kept_above }
{
    if graph.tasks[v].inlet {
        times[inlets(&graph.tasks[..v]) * n + i]
    } else {
        0
    }
}

/// Firing i of every task, those first that feed others by edges without tokens; false where a bound is above the ceiling.
fn fill_row(waits: &Waits, times: &[u64], ready: &mut [u64], table: &mut [u64], i: usize) -> bool
    requires shaped { Shaped (net_of waits.now.graph.now) waits.now.n waits.now.worst.now ready.old table.old }
    requires timed { Timed waits.now.graph.now waits.now.n times.now }
    requires firing { i < waits.now.n }
    ensures { Went (net_of waits.now.graph.now) (arrivals waits.now.graph.now waits.now.n times.now) waits.now.n waits.now.worst.now (λ _. i) ready.old table.old (λ _. i + 1) ready.new table.new result }
{
    let graph = waits.graph;
    for p in 0..graph.tasks.len() {
        let v = graph.order.list[p];
        let arrival = arrival(graph, waits.n, times, v, i);
        if waits.step(ready, table, v, i, arrival) > CEILING {
            return false;
        }
    }
    true
}

/// Every firing below n of every task; false where a bound is above the ceiling.
pub(crate) fn fill_rows(waits: &Waits, times: &[u64], ready: &mut [u64], table: &mut [u64]) -> bool
    requires shaped { Shaped (net_of waits.now.graph.now) waits.now.n waits.now.worst.now ready.old table.old }
    requires timed { Timed waits.now.graph.now waits.now.n times.now }
    ensures { Went (net_of waits.now.graph.now) (arrivals waits.now.graph.now waits.now.n times.now) waits.now.n waits.now.worst.now (λ _. 0) ready.old table.old (λ _. waits.now.n) ready.new table.new result }
{
    for i in 0..waits.n {
        if !fill_row(waits, times, ready, table, i) {
            return false;
        }
    }
    true
}
