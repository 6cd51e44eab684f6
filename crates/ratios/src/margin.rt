ghost use Rattle.std.specs.Prelude.{◌≡◌};

use crate::ratio::Ratio;
use crate::verdict::Verdict;
use faults::fault::Fault;
use graph::graph::Graph;
use servers::figures::told;

impl Ratio {
    ghost use Rattle.flow.specs.Verdicts.{margin};
    ghost use Rattle.ratios.specs.Ratios.{verdict_of, TellsLoad};

    /// The goal times parts, less cycle: what is left of the goal, or lacks where it is below 0.
    pub fn margin(self, graph: &Graph) -> i64
        ensures { result ≡ margin graph.now.goal self.cycle self.parts }
    {
        (graph.goal * self.parts) as i64 - self.cycle as i64
    }

    /// They keep up exactly where the margin is not below 0.
    pub fn verdict(self, graph: &Graph) -> Verdict
        ensures { result ≡ verdict_of graph.now.goal self.cycle self.parts }
    {
        if self.margin(graph) >= 0 {
            Verdict::Keeps
        } else {
            Verdict::Late
        }
    }

    /// The load of a task of this pace, in thousandths, halves rounded up; refused where the pace is above the ceiling.
    pub fn load(self, pace: u64) -> Result<u64, Fault>
        ensures { TellsLoad self.cycle self.parts pace result }
    {
        let thousandths = 1_000 * told(pace)? * self.parts;
        Ok((2 * thousandths + self.cycle) / (2 * self.cycle))
    }
}
