ghost use Rattle.std.specs.Prelude.{◌+◌, ◌*◌, ◌≤◌, length, map, vec_len, vec_capacity};
ghost use Rattle.belt.specs.Belts.{contents};
ghost use Rattle.flow.specs.Nets.{net_of};
ghost use Rattle.sheets.specs.Pages.{names};
ghost use Rattle.sheets.specs.Reads.{entry};
ghost use Rattle.player.specs.Lines.{Told};

use crate::lookup::name_at;
use belt::belt::Belt;
use finish::ledger::Ledger;
use graph::graph::Graph;
use runner::record::Record;
use sheets::sheet::SheetTask;
use texts::line::{Cell, put_line};

/// The most bytes of a record's line: a name, three numbers, and what is between them.
pub(crate) const LONGEST_LINE: usize = 76;

/// Appends the line of each record, the oldest first, and takes it off the belt. Each firing's finish bound is told by the ledger.
pub(crate) fn put_records(
    out: &mut Vec<u8>,
    belt: &mut Belt<'_, Record>,
    ledger: &mut Ledger,
    graph: &Graph,
    tasks: &[SheetTask],
)
    requires { vec_len out.old + 76 * length (contents belt.old) ≤ vec_capacity out.old }
    ensures { Told (net_of graph.now) (names (map entry tasks.now)) ledger.old belt.old out.old ledger.new belt.new out.new }
{
    while let Some(record) = belt.take() {
        let bound = ledger.bound(graph, record.task);
        let cells = [
            Cell::Word(name_at(tasks, record.task)),
            Cell::Number(record.firing),
            Cell::Number(record.clock),
            Cell::Number(bound),
        ];
        // It is in the room that is required.
        put_line(out, &cells).unwrap();
    }
}
