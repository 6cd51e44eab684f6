ghost use Rattle.std.specs.Prelude.{◌≡◌, ◌↔◌, ◌≤◌, IsTrue, length, map};
ghost use Rattle.sheets.specs.Pages.{names};
ghost use Rattle.sheets.specs.Reads.{entry};
ghost use Rattle.player.specs.Works.{work_in};

use crate::lookup::place_of;
use crate::player::Player;
use crate::playing::ROOM;
use crate::work::{Ask, Work};
use belt::belt::Belt;
use calls::call_line::CallLine;
use faults::fault::Fault;
use faults::layer::Layer;
use faults::reason::Reason;
use finish::ledger::Ledger;
use graph::graph::Graph;
use racks::rack::Rack;
use runner::record::Record;
use runner::runner::Runner;
use sheets::sheet::SheetTask;
use std::alloc::AllocError;
use texts::fault::put_fault;

// No line is under way.
const IDLE: Work = Work {
    ask: Ask::Tick(false),
    left: 0,
};

// What a call's line asks for, of tasks by their places.
fn work_of(tasks: &[SheetTask], line: CallLine) -> Option<Work>
    ensures { result ≡ work_in (names (map entry tasks.now)) line }
{
    Some(match line {
        CallLine::Arrive { task, times } => Work {
            ask: Ask::Arrive(place_of(tasks, task)?),
            left: times,
        },
        CallLine::Need { task, ticks } => Work {
            ask: Ask::Need(place_of(tasks, task)?, ticks),
            left: 1,
        },
        CallLine::Quiet { ticks } => Work {
            ask: Ask::Tick(false),
            left: ticks,
        },
        CallLine::Busy { ticks } => Work {
            ask: Ask::Tick(true),
            left: ticks,
        },
    })
}

impl<'b, R: Rack + Drop> Player<'b, R> {
    ghost use Rattle.player.specs.Openings.{Opens};

    /// A player of a sheet's tasks, with which a run begins. The records of a tick lie in these slots until their lines are written.
    pub fn new(
        tasks: Vec<SheetTask>,
        graph: Graph,
        rack: R,
        slots: &'b mut [Option<Record>],
    ) -> Result<Player<'b, R>, Fault>
        ensures { Opens R.Rack.places R.Rack.service R.Rack.steps tasks graph rack (length slots.old) result }
    {
        let ledger = Ledger::new(&graph, &rack)?;
        let runner = match Runner::new(graph, rack) {
            Ok(runner) => runner,
            Err(unfit) => return Err(unfit.fault),
        };
        Ok(Player {
            tasks,
            runner,
            ledger,
            records: Belt::new(slots),
            work: IDLE,
        })
    }
}

impl<'b, R: Rack> Player<'b, R> {
    ghost use Rattle.player.specs.Openings.{Begins};

    /// Takes the next line, whatever was left of the one before. Where no task has the line's name, its refusal is all that there is of it.
    /// Where the buffer lacks room and no memory is to be had, all is left as it was.
    pub fn begin(&mut self, line: CallLine, out: &mut Vec<u8>) -> Result<(), AllocError>
        ensures { Begins self.old line out.old result self.new out.new }
    {
        out.reserve(ROOM)?;
        let Some(work) = work_of(&self.tasks, line) else {
            self.work = IDLE;
            put_fault(out, Layer::Runner.refuses(Reason::Missing, 0, 0)).unwrap();
            return Ok(());
        };
        self.work = work;
        Ok(())
    }

    /// Whether calls of a line are still to be made.
    pub fn is_busy(&self) -> bool
        ensures { IsTrue result ↔ (1 ≤ self.now.work.left) }
    {
        self.work.left > 0
    }
}
