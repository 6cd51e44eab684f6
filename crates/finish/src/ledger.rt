ghost use Rattle.std.specs.Prelude.{◌≡◌, ℕ, ◌≤◌, cond, nat_le, slice_index};
ghost use Rattle.servers.specs.Figures.{ceiling};

use crate::step::{ABOVE, Waits};
use crate::table::{ENTRIES, MOST_FIRINGS};
use crate::waits::worst_waits;
use faults::fault::Fault;
use graph::graph::Graph;
use graph::parts::MOST_TASKS;
use racks::rack::Rack;
use servers::figures::CEILING;

/// The finish bounds of firings as they end, one after another: for each inlet the clocks of its first 256 arrivals, and of each task the bounds of its first 256 firings.
// In fixed memory, so that no arrival or firing is lost for want of it.
#[derive(Drop)]
pub struct Ledger {
    arrived: [usize; MOST_TASKS],
    arrivals: [u64; ENTRIES],
    fired: [usize; MOST_TASKS],
    worst: [u64; ENTRIES],
    ready: [u64; ENTRIES],
    bounds: [u64; ENTRIES],
    ghost arrivals_kept: { (k : ℕ) → slice_index arrivals k ≤ 1000000000001 },
    ghost worst_kept: { (k : ℕ) → slice_index worst k ≤ 1000000000001 },
    ghost ready_kept: { (k : ℕ) → slice_index ready k ≤ 1000000000001 },
    ghost bounds_kept: { (k : ℕ) → slice_index bounds k ≤ 1000000000001 },
}

// A bound as it is told, from what is kept of it.
fn told(kept: u64) -> u64
    ensures { result ≡ cond (nat_le kept ceiling) kept 0 }
{
    if kept > CEILING { 0 } else { kept }
}

impl Ledger {
    ghost use Rattle.std.specs.Prelude.{◌<◌, vec_len};
    ghost use Rattle.flow.specs.Nets.{net_of};
    ghost use Rattle.finish.specs.Table.{entry};
    ghost use Rattle.finish.specs.Ledgers.{Opens, Admits, Books};

    /// A ledger of a graph on a rack, with no arrival and no firing yet. A rack that does not fit the graph is refused.
    pub fn new<R: Rack>(graph: &Graph, rack: &R) -> Result<Ledger, Fault>
        ensures { Opens graph.now (R.Rack.places rack.now) (R.Rack.service rack.now) result }
    {
        graph.check_rack(rack)?;
        let mut worst = [0; ENTRIES];
        worst_waits(graph, rack, MOST_FIRINGS, &mut worst);
        Ok(Ledger {
            arrived: [0; MOST_TASKS],
            arrivals: [0; ENTRIES],
            fired: [0; MOST_TASKS],
            worst,
            ready: [0; ENTRIES],
            bounds: [0; ENTRIES],
        })
    }

    /// An arrival at the task's inlet, at this clock.
    pub fn arrive(&mut self, task: usize, clock: u64)
        ensures admits { Admits self.old task clock self.new }
        ensures beyond { 16 ≤ task → self.new ≡ self.old }
    {
        if task >= MOST_TASKS {
            return;
        }
        let k = self.arrived[task];
        if k < MOST_FIRINGS {
            self.arrivals[task * MOST_FIRINGS + k] = clock.min(ABOVE);
            self.arrived[task] = k + 1;
        }
    }

    // What is kept of the arrival that firing i of the task takes, or 0 where it has no inlet.
    fn arrival(&self, graph: &Graph, task: usize, i: usize) -> u64
        requires there { task < vec_len graph.now.tasks }
        requires firing { i < 256 }
        ensures { result ≡ cond ((net_of graph.now).inlet task) (entry self.now.arrivals 256 task i) 0 }
    {
        if graph.tasks[task].inlet {
            self.arrivals[task * MOST_FIRINGS + i]
        } else {
            0
        }
    }

    /// The finish bound of the task's next firing, once it ended: 0 where it is above the ceiling, and from firing 256 on.
    pub fn bound(&mut self, graph: &Graph, task: usize) -> u64
        ensures books { task < vec_len graph.now.tasks → Books (net_of graph.now) task self.old result self.new }
        ensures missing { vec_len graph.now.tasks ≤ task → result ≡ 0 }
        ensures kept { vec_len graph.now.tasks ≤ task → self.new ≡ self.old }
    {
        if task >= graph.tasks.len() {
            return 0;
        }
        let i = self.fired[task];
        if i >= MOST_FIRINGS {
            return 0;
        }
        let arrival = self.arrival(graph, task, i);
        let waits = Waits {
            graph,
            n: MOST_FIRINGS,
            worst: &self.worst,
        };
        let bound = waits.step(&mut self.ready, &mut self.bounds, task, i, arrival);
        self.fired[task] = i + 1;
        told(bound)
    }
}
