ghost use Rattle.std.specs.Prelude.{◌≡◌, ◌&&◌, nat_le};
ghost use Rattle.faults.specs.Faults.{refusal};
ghost use Rattle.faults.specs.declared.layer.Layer.TheVariants as layer;
ghost use Rattle.runner.specs.Marks.{Marked};

use crate::board::Board;
use crate::record::Record;
use crate::records::put_records;
use crate::sweep::sweep;
use crate::unfit::Unfit;
use belt::belt::Belt;
use faults::fault::Fault;
use faults::layer::Layer;
use faults::reason::Reason;
use graph::graph::Graph;
use racks::rack::Rack;

/// The most arrivals that wait at an inlet.
pub const MOST_WAITING: u64 = 65_535;

/// The clock at which no further tick is done.
pub const LAST_CLOCK: u64 = 1_000_000_000;

/// A graph and a rack whose place v serves task v, and what became of their calls so far.
#[derive(Drop)]
pub struct Runner<R> {
    graph: Graph,
    rack: R,
    board: Board,
    ghost marked: { Marked graph board },
}

fn refuses(reason: Reason) -> Fault
    ensures { result ≡ refusal reason layer.Runner 0 0 }
{
    Layer::Runner.refuses(reason, 0, 0)
}

// Whether a firing of a task with this time may need so many granted ticks.
fn legal_need(ticks: u64, time: u64) -> bool
    ensures { result ≡ (nat_le 1 ticks && nat_le ticks time) }
{
    (1..=time).contains(&ticks)
}

impl<R: Rack> Runner<R> {
    ghost use Rattle.flow.specs.Nets.{net_of};
    ghost use Rattle.runs.specs.States.{arrived, need_set};
    ghost use Rattle.runs.specs.Runs.{arrive as arrival, need as need_of, tick as tick_with, why};
    ghost use Rattle.runs.specs.Exact.{Exact, NoSmaller};
    ghost use Rattle.runner.specs.Boards.{shown};
    ghost use Rattle.runner.specs.Alone.{RunnersExact};
    ghost use Rattle.runner.specs.Promises.{Timely, InPace, Steady};
    ghost use Rattle.runner.specs.Runners.{Made, shown_whole, Answers, Turns, Goes, whole_with, Ticks, GoesOn};
    ghost use Rattle.belt.specs.Belts.{contents, room};

    /// A new runner, with which a run begins. Where the rack does not fit the graph, both come back as they were.
    pub fn new(graph: Graph, rack: R) -> Result<Runner<R>, Unfit<R>>
        ensures { Made R.Rack.places R.Rack.service R.Rack.steps graph rack result }
    {
        if let Err(fault) = graph.check_rack(&rack) {
            return Err(Unfit { fault, graph, rack });
        }
        let board = Board::new(&graph);
        Ok(Runner { graph, rack, board })
    }

    /// The graph of the tasks.
    pub fn graph(&self) -> &Graph
        ensures { result.now ≡ self.now.graph }
    {
        &self.graph
    }

    /// How many ticks were done.
    pub fn clock(&self) -> u64
        ensures { result ≡ (shown self.now.board).clock }
    {
        self.board.clock()
    }

    /// An arrival at the task's inlet, at the present clock.
    pub fn arrive(&mut self, task: usize) -> Result<(), Fault>
        ensures answers { Answers (why (net_of self.old.graph) 0 (shown_whole self.old) (arrival task)) result }
        ensures turns { Turns self.old result (arrived (shown self.old.board) task) self.new }
        ensures goes { Goes R.Rack.places R.Rack.steps self.old (arrival task) result self.new }
    {
        if task >= self.graph.tasks.len() || !self.graph.tasks[task].inlet {
            return Err(refuses(Reason::Missing));
        }
        if self.board.waiting(task) >= MOST_WAITING {
            return Err(refuses(Reason::InletFull));
        }
        self.board.arrive(task);
        Ok(())
    }

    /// What later firings of the task need, in granted ticks. A firing takes it at its first one.
    pub fn need(&mut self, task: usize, ticks: u64) -> Result<(), Fault>
        ensures answers { Answers (why (net_of self.old.graph) 0 (shown_whole self.old) (need_of task ticks)) result }
        ensures turns { Turns self.old result (need_set (shown self.old.board) task ticks) self.new }
        ensures goes { Goes R.Rack.places R.Rack.steps self.old (need_of task ticks) result self.new }
    {
        if task >= self.graph.tasks.len() {
            return Err(refuses(Reason::Missing));
        }
        if !legal_need(ticks, self.graph.tasks[task].time) {
            return Err(refuses(Reason::NeedRange));
        }
        self.board.need(task, ticks);
        Ok(())
    }

    /// One tick of every task's place, in order, with a claim of others for each. The records of the firings that end by it go on the belt.
    /// `timely`: every firing whose finish bound is not above the clock is finished. `paced`: firing i is finished by its start figure and i cycles, where arrivals keep to the cycle.
    /// `steady`: the bounds, cycle and start figures that were told of the rack before it was handed over are those of the runner's.
    /// `exact`: one task alone on a fixed slice ends exactly at its bound in some phase, so that no smaller bound is true in all phases.
    pub fn tick(&mut self, claims: &[bool], belt: &mut Belt<'_, Record>) -> Result<(), Fault>
        ensures answers { Answers (why (net_of self.old.graph) (room belt.old) (whole_with self.old (contents belt.old)) (tick_with claims.now)) result }
        ensures turns { Ticks R.Rack.places R.Rack.steps self.old belt.old claims.now result self.new belt.new }
        ensures goes { GoesOn R.Rack.places R.Rack.steps self.old belt.old (tick_with claims.now) result self.new belt.new }
        ensures timely { Timely R.Rack.places R.Rack.service R.Rack.steps self.new }
        ensures paced { InPace R.Rack.places R.Rack.service R.Rack.steps self.new }
        ensures steady { Steady R.Rack.places R.Rack.service R.Rack.steps self.new }
        ensures exact { Exact × NoSmaller × RunnersExact }
    {
        let tasks = self.graph.tasks.len();
        if claims.len() != tasks {
            return Err(refuses(Reason::Missing));
        }
        if self.clock() >= LAST_CLOCK {
            return Err(refuses(Reason::ClockSpent));
        }
        if belt.free() < tasks {
            return Err(refuses(Reason::SlotsTaken));
        }
        let grants = sweep(&mut self.rack, claims);
        let ends = self.board.tick(&self.graph, &grants);
        put_records(belt, &self.board, &ends, tasks);
        Ok(())
    }
}
