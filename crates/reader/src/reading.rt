ghost use Rattle.cells.specs.Checks.{Meets};
ghost use Rattle.sheets.specs.Checks.{checks, meaning};
ghost use Rattle.reader.specs.Lists.{ListsSay};

use crate::lists::Lists;
use crate::numbered_lines::NumberedLines;
use crate::room::Room;
use crate::tables::{edge_table, goal_table, task_table};
use faults::fault::Fault;
use faults::layer::Layer;
use faults::reason::Reason;

// The most bytes of a sheet.
const MOST_BYTES: usize = 8192;

/// What the lines of a text say, or the first fault of one of them.
pub(crate) fn read_lines(text: &[u8], room: Room) -> Result<Lists, Fault>
    ensures { Meets result (checks text.now) (ListsSay (meaning text.now)) }
{
    if text.is_empty() || text.len() > MOST_BYTES {
        return Err(Layer::Reader.refuses(Reason::SheetSize, 0, 0));
    }
    let Room {
        mut entries,
        mut edges,
    } = room;
    let mut lines = NumberedLines::new(text);
    // One after another, no plainer in a loop: each table is read into another list, and the first answers a number.
    let goal = goal_table(&mut lines)?;
    task_table(&mut lines, &mut entries)?;
    edge_table(&mut lines, &entries, &mut edges)?;
    Ok(Lists {
        goal,
        entries,
        edges,
    })
}
