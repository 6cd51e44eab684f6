ghost use Rattle.std.specs.Prelude.{◌≡◌, ◌*◌, ◌≤◌, length, vec_len};
ghost use Rattle.flow.specs.Nets.{net_of};
ghost use Rattle.flow.specs.Finish.{by_worst};
ghost use Rattle.finish.specs.Table.{arrivals, Tabled};
ghost use Rattle.finish.specs.Filling.{Filled, Timed};

use crate::checks::{all_rise, inlets, low, sized};
use crate::rows::fill_rows;
use crate::step::Waits;
use crate::waits::worst_waits;
use faults::fault::Fault;
use faults::layer::Layer;
use faults::reason::Reason;
use graph::graph::Graph;
use graph::parts::MOST_TASKS;
use racks::rack::Rack;

/// The most firings of a task that a table holds.
pub const MOST_FIRINGS: usize = 256;

/// The most entries: a row for each task.
pub(crate) const ENTRIES: usize = MOST_TASKS * MOST_FIRINGS;

/// Fills the table over what it held; false where a bound is above the ceiling.
fn fill<R: Rack>(graph: &Graph, rack: &R, n: usize, times: &[u64], table: &mut [u64]) -> bool
    requires short { n ≤ 256 }
    requires wide { length table.old ≡ vec_len graph.now.tasks * n }
    requires timed { Timed graph.now n times.now }
    requires served { R.Rack.places rack.now ≡ vec_len graph.now.tasks }
    ensures { Filled (net_of graph.now) (arrivals graph.now n times.now) (by_worst (net_of graph.now) (R.Rack.service rack.now)) n table.new result }
{
    // In fixed memory, 32 KB each, since a table may not fail for want of it.
    let mut worst = [0; ENTRIES];
    let mut ready = [0; ENTRIES];
    table.fill(0);
    worst_waits(graph, rack, n, &mut worst);
    let waits = Waits {
        graph,
        n,
        worst: &worst,
    };
    fill_rows(&waits, times, &mut ready, table)
}

/// Writes the finish bound of firing i of task v at `v * n + i`, for every task and i below n, where each inlet has n arrivals:
/// `times` has those of the first inlet, in task order, then those of the next.
/// A refusal leaves the table as it was, but for a bound above the ceiling, which leaves zeros.
pub fn finish_table<R: Rack>(
    graph: &Graph,
    rack: &R,
    n: usize,
    times: &[u64],
    table: &mut [u64],
) -> Result<(), Fault>
    ensures { Tabled graph.now (R.Rack.places rack.now) (R.Rack.service rack.now) n times.now table.old result table.new }
{
    graph.check_rack(rack)?;
    if !sized(graph, n, times, table) {
        return Err(Layer::Table.refuses(Reason::Length, 0, 0));
    }
    if !low(times) || !all_rise(times, n, inlets(&graph.tasks)) {
        return Err(Layer::Table.refuses(Reason::Times, 0, 0));
    }
    if !fill(graph, rack, n, times, table) {
        table.fill(0);
        return Err(Layer::Table.refuses(Reason::Ceiling, 0, 0));
    }
    Ok(())
}
