ghost use Rattle.rings.specs.Spans.{ReadsWeights};

use faults::fault::Fault;
use graph::figures::figures_at;
use graph::graph::Graph;
use graph::parts::MOST_TASKS;
use racks::rack::Rack;

/// What the hops into each task weigh: an edge its server's lead and pace together, its link the pace.
#[derive(Clone, Copy)]
pub(crate) struct Weights {
    pub(crate) spans: [u64; MOST_TASKS],
    pub(crate) paces: [u64; MOST_TASKS],
}

/// The weights of a graph's tasks, each by its server and its time, after the checks of the rack.
pub(crate) fn weights_on<R: Rack>(graph: &Graph, rack: &R) -> Result<Weights, Fault>
    ensures { ReadsWeights graph.now (R.Rack.places rack.now) (R.Rack.service rack.now) result }
{
    graph.check_rack(rack)?;
    let mut spans = [0; MOST_TASKS];
    let mut paces = [0; MOST_TASKS];
    for (v, task) in graph.tasks.iter().enumerate() {
        let figures = figures_at(rack, v, task.time)?;
        spans[v] = figures.lead + figures.pace;
        paces[v] = figures.pace;
    }
    Ok(Weights { spans, paces })
}
