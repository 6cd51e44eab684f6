ghost use Rattle.std.specs.Prelude.{◌≡◌, [], map, slice_index_or};
ghost use Rattle.sheets.specs.Pages.{entry_line, edge_line, names};
ghost use Rattle.sheets.specs.Reads.{entry};
ghost use Rattle.texts.specs.Puts.{Puts};

use graph::parts::Edge;
use sheets::sheet::SheetTask;
use std::alloc::AllocError;
use texts::line::{Cell, put_line};

/// A task's line.
pub(crate) fn put_entry(out: &mut Vec<u8>, task: &SheetTask) -> Result<(), AllocError>
    ensures { Puts out.old (entry_line (entry task.now)) result out.new }
{
    let cells = [
        Cell::Word(task.name.as_bytes()),
        Cell::Number(task.time),
        Cell::Word(task.kind.word().as_bytes()),
        Cell::Number(task.slice.period),
        Cell::Number(task.slice.slice),
        Cell::Number(task.slice.phase),
        Cell::Number(task.layer.period),
        Cell::Number(task.layer.slice),
        Cell::Number(task.layer.phase),
        Cell::Number(u64::from(task.inlet)),
    ];
    put_line(out, &cells)
}

// The name of the task at this place; none where there is no such task: a call of `write` takes any sheet, and one whose type says that its edges end at tasks would ask more of callers.
fn name_at(tasks: &[SheetTask], place: usize) -> &[u8]
    ensures { result.now ≡ slice_index_or (names (map entry tasks.now)) place [] }
{
    tasks.get(place).map_or(b"", |task| task.name.as_bytes())
}

/// An edge's line. The tasks are those that the edge's ends are places of.
pub(crate) fn put_edge(
    out: &mut Vec<u8>,
    tasks: &[SheetTask],
    edge: &Edge,
) -> Result<(), AllocError>
    ensures { Puts out.old (edge_line (names (map entry tasks.now)) edge.now) result out.new }
{
    let cells = [
        Cell::Word(name_at(tasks, edge.from)),
        Cell::Word(name_at(tasks, edge.to)),
        Cell::Number(edge.tokens),
    ];
    put_line(out, &cells)
}
