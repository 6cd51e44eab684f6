ghost use Rattle.figures.specs.AllFigures.{AnswersAll};

use crate::critical::critical;
use crate::loads::{loads, of_tasks};
use crate::ring_tasks::RingTasks;
use faults::fault::Fault;
use graph::graph::Graph;
use graph::parts::MOST_TASKS;
use racks::rack::Rack;
use ratios::ratio::Ratio;
use ratios::verdict::Verdict;
use rings::cycle::ring_figures;

/// All figures of a graph on a rack: cycle over parts, the margin to the goal and the verdict, the start figure and the load of each task, and the tasks of a ring that reaches cycle over parts.
#[derive(Clone, Copy, PartialEq, Eq, Debug)]
pub struct Figures {
    pub ratio: Ratio,
    pub margin: i64,
    pub verdict: Verdict,
    pub starts: [u64; MOST_TASKS],
    pub loads: [u64; MOST_TASKS],
    pub critical: RingTasks,
}

/// The figures of a graph on a rack; refused where the rack is.
pub fn figures_of<R: Rack>(graph: &Graph, rack: &R) -> Result<Figures, Fault>
    ensures { AnswersAll graph.now (R.Rack.places rack.now) (R.Rack.service rack.now) result }
{
    let found = ring_figures(graph, rack)?;
    let ratio = found.ratio;
    Ok(Figures {
        ratio,
        margin: ratio.margin(graph),
        verdict: ratio.verdict(graph),
        starts: of_tasks(graph, found.starts),
        loads: loads(graph, rack, ratio),
        critical: critical(graph, &found.ring),
    })
}
