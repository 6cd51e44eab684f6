ghost use Rattle.std.specs.Prelude.{◌≡◌, []};
ghost use Rattle.cells.specs.Checks.{Meets};
ghost use Rattle.headings.specs.declared.table.Table.TheVariants.{Tasks};
ghost use Rattle.sheets.specs.Reads.{entry as says};
ghost use Rattle.sheets.specs.Offers.{Made};
ghost use Rattle.sheets.specs.Checks.{value_checks, entry_checks, entry_of};
ghost use Rattle.sheet_lines.specs.Groups.{server_checks};

use crate::above::Above;
use crate::line::Line;
use cells::line::is_well;
use faults::fault::{Fault, LineNumber};
use faults::layer::Layer;
use faults::reason::Reason;
use graph::parts::{LONGEST_TIME, MOST_TASKS};
use kinds::any_kind::AnyKind;
use layers::stack::Stack;
use sheets::sheet::SheetTask;

/// A task, and the server that its settings make.
#[derive(Clone, Copy, PartialEq, Eq, Debug)]
pub struct ServedTask {
    pub task: SheetTask,
    pub server: Stack<AnyKind>,
}

// What a task's line says.
fn task_in(line: Line<'_>) -> Result<SheetTask, Fault>
    ensures { Meets result (value_checks [] Tasks line.entry.number line.entry.text.now) (λ t. says t ≡ entry_of line.entry.text.now) }
{
    let mut values = line.values(10)?;
    let name = values.name()?;
    let time = values.number(1, LONGEST_TIME)?;
    let kind = values.kind()?;
    let slice = values.settings(1)?;
    let layer = values.settings(0)?;
    let inlet = values.number(0, 1)?;
    Ok(SheetTask {
        name,
        time,
        kind,
        slice,
        layer,
        inlet: inlet == 1,
    })
}

// The server that a task's settings make.
fn server_in(task: &SheetTask, line: LineNumber) -> Result<Stack<AnyKind>, Fault>
    ensures { Meets result (server_checks line (says task.now)) (Made (says task.now)) }
{
    let below = AnyKind::new(task.kind, task.slice, line)?;
    Stack::new(below, task.layer, line)
}

/// A task's line below those of other tasks, with the server that its settings make.
pub fn entry_in(line: Line<'_>, above: &Above<'_>) -> Result<ServedTask, Fault>
    ensures { Meets result (entry_checks above.now line.entry.number line.entry.text.now) (λ x. (says x.task ≡ entry_of line.entry.text.now) × Made (entry_of line.entry.text.now) x.server) }
{
    line.must(is_well(line.text), Reason::ForeignByte)?;
    line.must(above.len() < MOST_TASKS, Reason::Count)?;
    let task = task_in(line)?;
    if above.is_taken(task.name.as_bytes()) {
        return Err(Layer::Reader.refuses(Reason::NameTaken, line.number, 1));
    }
    let server = server_in(&task, line.number)?;
    Ok(ServedTask { task, server })
}
