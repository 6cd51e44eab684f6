ghost use Rattle.std.specs.Prelude.{◌≡◌, ℕ, ◌<◌, vec_len, slice_index};
ghost use Rattle.graph.specs.Edges.{Ends, edge_at};
ghost use Rattle.graph.specs.Legal.{Counts, Ranges};

use crate::edges::Edges;
use crate::figures::figures_at;
use crate::legal::{legal_counts, legal_ranges};
use crate::order::Order;
use crate::origin::Origin;
use crate::parts::{Edge, Task};
use faults::fault::Fault;
use faults::layer::Layer;
use faults::reason::Reason;
use racks::rack::{Rack, no_place};

/// A graph that was accepted. `goal` is the paper's ticks per firing. In `order` each token-free edge goes forward.
#[derive(PartialEq, Eq, Debug, Drop)]
pub struct Graph {
    pub goal: u64,
    pub tasks: Vec<Task>,
    pub edges: Vec<Edge>,
    pub origin: Origin,
    pub order: Order,
    ghost counts: { Counts tasks.items edges.items },
    ghost ranges: { Ranges goal tasks.items edges.items },
    ghost ends: { Ends edges.items (vec_len tasks) },
    ghost ordered: { order.tasks ≡ vec_len tasks },
    ghost forward: { (e : ℕ) → e < vec_len edges → (edge_at edges.items e).tokens ≡ 0 → slice_index order.place (edge_at edges.items e).from < slice_index order.place (edge_at edges.items e).to },
}

impl Graph {
    ghost use Rattle.graph.specs.Graphs.{Builds};
    ghost use Rattle.graph.specs.Racked.{ChecksRack};

    /// Checks the counts, the ranges, the ends of the edges and that no ring of edges is without tokens, in this order.
    pub fn new(
        goal: u64,
        tasks: Vec<Task>,
        edges: Vec<Edge>,
        origin: Origin,
    ) -> Result<Graph, Fault>
        ensures { Builds goal tasks.items edges.items origin result }
    {
        if !legal_counts(&tasks, &edges) {
            return Err(Layer::Graph.refuses(Reason::Count, 0, 0));
        }
        if !legal_ranges(goal, &tasks, &edges) {
            return Err(Layer::Graph.refuses(Reason::NumberRange, 0, 0));
        }
        let unknown = Layer::Graph.refuses(Reason::UnknownTask, 0, 0);
        let ends = Edges::new(&edges, tasks.len()).ok_or(unknown)?;
        if let Some(task) = ends.first_on_ring() {
            return Err(Layer::Graph.refuses(Reason::TokenFreeRing, origin.line(task), 0));
        }
        let order = ends.order().unwrap();
        Ok(Graph {
            goal,
            tasks,
            edges,
            origin,
            order,
        })
    }

    /// Checks that the rack has just one place for each task, and then that every figure of each task's server is told.
    pub fn check_rack<R: Rack>(&self, rack: &R) -> Result<(), Fault>
        ensures { ChecksRack self.now (R.Rack.places rack.now) (R.Rack.service rack.now) result }
    {
        if rack.places() != self.tasks.len() {
            return Err(no_place());
        }
        for (v, task) in self.tasks.iter().enumerate() {
            let above = Layer::Graph.refuses(Reason::Ceiling, self.origin.line(v), 0);
            figures_at(rack, v, task.time).map_err(|_| above)?;
        }
        Ok(())
    }
}
