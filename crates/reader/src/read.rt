ghost use Rattle.sheets.specs.Laws.{OneMeaning};
ghost use Rattle.sheets.specs.Reads.{Reads};

use crate::lists::Lists;
use crate::reading::read_lines;
use crate::room::Room;
use faults::fault::Fault;
use graph::graph::Graph;
use graph::origin::Origin;
use rows::Row;
use sheets::sheet::Sheet;

/// The sheet that the text is the written form of, or the first fault of the text.
pub fn read(text: &[u8], room: Room) -> Result<Sheet, Fault>
    ensures reads { Reads text.now result }
    ensures one { OneMeaning }
{
    let Lists {
        goal,
        entries,
        edges,
    } = read_lines(text, room)?;
    let (tasks, parts, servers) = entries.into_lists();
    let graph = Graph::new(goal, parts, edges.into_vec(), Origin::Sheet)?;
    let rack = Row { servers };
    graph.check_rack(&rack)?;
    Ok(Sheet { tasks, graph, rack })
}
