ghost use Rattle.std.specs.Prelude.{◌≡◌};
ghost use Rattle.lexer.specs.Text.{end};
ghost use Rattle.cells.specs.Bytes.{field};
ghost use Rattle.cells.specs.Checks.{Meets};
ghost use Rattle.cells.specs.Values.{value};
ghost use Rattle.headings.specs.Tables.{heading};
ghost use Rattle.sheets.specs.Checks.{exact_checks, goal_line_checks};

use crate::line::Line;
use faults::fault::Fault;
use faults::reason::Reason;
use graph::parts::LONGEST_GOAL;
use headings::table::{Table, is_heading};

/// A line that has to be this table's heading.
pub fn heading_in(line: Line<'_>, table: Table) -> Result<(), Fault>
    ensures { Meets result (exact_checks (heading table) line.entry.number line.entry.text.now) (λ _. Unit {0}) }
{
    // Only a line in order is compared, so that a foreign byte is told at once.
    line.must_be_whole()?;
    line.must(is_heading(line.text, table), Reason::Heading)
}

/// A line that has to be empty.
pub fn gap_in(line: Line<'_>) -> Result<(), Fault>
    ensures { Meets result (exact_checks end line.entry.number line.entry.text.now) (λ _. Unit {0}) }
{
    line.must_be_given(line.is_gap())
}

/// The goal in a line.
pub fn goal_in(line: Line<'_>) -> Result<u64, Fault>
    ensures { Meets result (goal_line_checks line.entry.number line.entry.text.now) (λ n. n ≡ value (field 0 line.entry.text.now)) }
{
    line.must_be_whole()?;
    line.must(!line.is_gap(), Reason::Heading)?;
    line.values(1)?.number(1, LONGEST_GOAL)
}
