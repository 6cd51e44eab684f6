ghost use Rattle.std.specs.Prelude.{ℕ, ◌≡◌};
ghost use Rattle.servers.specs.Service.{Service};
ghost use Rattle.rings.specs.Spans.{Told, Spans};
ghost use Rattle.rings.specs.AtRatios.{Finds, AnswersAt};
ghost use Rattle.flow.specs.Nets.{net_of};

use crate::arcs::{arcs, bases, whole};
use crate::weights::weights_on;
use faults::fault::Fault;
use graph::graph::Graph;
use graph::parts::MOST_TASKS;
use racks::rack::Rack;
use ratios::ratio::Ratio;
use walks::arcs::Arcs;
use walks::found::{Found, Walk};

/// What there is at cycle over parts: the least numbers that meet the start inequalities, or the edges of a ring that has more ticks per token. Links of tasks to themselves are not asked.
#[derive(Clone, Copy, PartialEq, Eq, Debug)]
pub enum AtRatio {
    Starts([u64; MOST_TASKS]),
    Slower(Walk),
}

/// The same by the spans.
pub(crate) fn search(graph: &Graph, spans: &[u64; MOST_TASKS], ratio: Ratio) -> AtRatio
    requires { Told graph.now spans.now }
    ensures { (service : ℕ → Service) → Spans graph.now service spans.now → Finds (net_of graph.now) service ratio.cycle ratio.parts result }
{
    let arcs = arcs(graph, spans, ratio);
    let bases = bases(graph, spans, ratio);
    let all = Arcs::new(&arcs[..graph.edges.len()], &bases[..graph.tasks.len()]).unwrap();
    match all.search() {
        Found::Still(values) => AtRatio::Starts(whole(&values)),
        Found::Ring(ring) => AtRatio::Slower(ring),
    }
}

/// The least numbers that meet the start inequalities at cycle over parts, or a ring of edges that has more ticks per token; refused where the rack is. A task's link to itself may be slower all the same.
pub fn at_ratio<R: Rack>(graph: &Graph, rack: &R, ratio: Ratio) -> Result<AtRatio, Fault>
    ensures { AnswersAt graph.now (R.Rack.places rack.now) (R.Rack.service rack.now) ratio.cycle ratio.parts result }
{
    let weights = weights_on(graph, rack)?;
    Ok(search(graph, &weights.spans, ratio))
}
