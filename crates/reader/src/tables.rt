ghost use Rattle.std.specs.Prelude.{◌≡◌, ◌+◌, [], ◌++◌, map, length, drop, slice_index_or};
ghost use Rattle.cells.specs.Bytes.{field};
ghost use Rattle.cells.specs.Checks.{Meets};
ghost use Rattle.cells.specs.Values.{value};
ghost use Rattle.sheets.specs.Pages.{names};
ghost use Rattle.sheets.specs.Checks.{up_to_empty, past_empty, entry_of, edge_of};
ghost use Rattle.reader.specs.Numbered.{left, Stands};
ghost use Rattle.reader.specs.TableChecks.{goal_table, task_table, edge_table};

use crate::entries::Entries;
use crate::numbered_lines::NumberedLines;
use crate::reserved::Reserved;
use faults::fault::Fault;
use faults::reason::Reason;
use graph::parts::{Edge, MOST_EDGES};
use headings::table::Table;
use sheet_lines::edge::edge_in;
use sheet_lines::entry::entry_in;

/// The first table, and the empty line behind it.
pub(crate) fn goal_table(lines: &mut NumberedLines<'_>) -> Result<u64, Fault>
    requires { lines.old.number ≡ 1 }
    ensures { Meets result (goal_table (left lines.old)) (λ n. (n ≡ value (field 0 (slice_index_or (left lines.old) 1 []))) × Stands 4 (drop 3 (left lines.old)) lines.new) }
{
    lines.heading(Table::Goal)?;
    let goal = lines.goal()?;
    lines.gap()?;
    Ok(goal)
}

/// The second table, and the empty line that ends it.
pub(crate) fn task_table(lines: &mut NumberedLines<'_>, entries: &mut Entries) -> Result<(), Fault>
    requires number { lines.old.number ≡ 4 }
    requires none { entries.old ≡ [] }
    ensures { Meets result (task_table (names entries.old) (left lines.old)) (λ _. (entries.new ≡ entries.old ++ map entry_of (up_to_empty (drop 1 (left lines.old)))) × Stands (6 + length entries.new) (past_empty (drop 1 (left lines.old))) lines.new) }
{
    lines.heading(Table::Tasks)?;
    // A loop, and no `for`: a text that ends among the tasks is refused at the missing line.
    loop {
        let line = lines.wanted()?;
        if line.is_gap() {
            return line.must(!entries.is_empty(), Reason::Count);
        }
        let served = entry_in(line, &entries.above())?;
        entries.push(served);
    }
}

/// The third table, to the text's end.
pub(crate) fn edge_table(
    lines: &mut NumberedLines<'_>,
    entries: &Entries,
    edges: &mut Reserved<Edge, MOST_EDGES>,
) -> Result<(), Fault>
    requires number { lines.old.number ≡ 6 + length entries.now }
    requires none { edges.old ≡ [] }
    ensures { Meets result (edge_table (names entries.now) (length edges.old) (left lines.old)) (λ _. edges.new ≡ edges.old ++ map (edge_of (names entries.now)) (drop 1 (left lines.old))) }
{
    let above = entries.above();
    lines.heading(Table::Edges)?;
    for line in lines {
        let edge = edge_in(line, &above, edges.len())?;
        edges.push(edge);
    }
    Ok(())
}
