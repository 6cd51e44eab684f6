ghost use Rattle.std.specs.Prelude.{◌≡◌, slice_index_or};
ghost use Rattle.std.specs.Iterator.{item_count};
ghost use Rattle.lexer.specs.Text.{lines, end};
ghost use Rattle.cells.specs.Bytes.{field};
ghost use Rattle.cells.specs.Checks.{Meets};
ghost use Rattle.cells.specs.Values.{value};
ghost use Rattle.headings.specs.Tables.{heading};
ghost use Rattle.sheets.specs.Checks.{exact_checks, goal_line_checks};
ghost use Rattle.reader.specs.Numbered.{left, next_line, Next, Wanted, Passed, Stands};

use faults::fault::{Fault, LineNumber};
use faults::layer::Layer;
use faults::reason::Reason;
use headings::table::Table;
use lexer::lines::Lines;
use sheet_lines::line::Line;
use sheet_lines::lines::{gap_in, goal_in, heading_in};

/// The lines that are left of a text; the next has this number.
#[derive(Drop)]
pub(crate) struct NumberedLines<'a> {
    lines: Lines<'a>,
    number: LineNumber,
}

impl<'a> NumberedLines<'a> {
    pub(crate) fn new(text: &'a [u8]) -> NumberedLines<'a>
        ensures { Stands 1 (lines text.now) result }
    {
        NumberedLines {
            lines: Lines::new(text),
            number: 1,
        }
    }

    /// The next line, which has to be there.
    pub(crate) fn wanted(&mut self) -> Result<Line<'a>, Fault>
        ensures { Wanted self.old result self.new }
    {
        let missing = Layer::Reader.refuses(Reason::Heading, self.number, 0);
        self.next().ok_or(missing)
    }

    /// The next line has to be this table's heading.
    pub(crate) fn heading(&mut self, table: Table) -> Result<(), Fault>
        ensures { Meets result (exact_checks (heading table) self.old.number (next_line self.old)) (λ _. Passed self.old self.new) }
    {
        let line = self.wanted()?;
        heading_in(line, table)
    }

    /// The next line has to be empty.
    pub(crate) fn gap(&mut self) -> Result<(), Fault>
        ensures { Meets result (exact_checks end self.old.number (next_line self.old)) (λ _. Passed self.old self.new) }
    {
        let line = self.wanted()?;
        gap_in(line)
    }

    /// The goal in the next line.
    pub(crate) fn goal(&mut self) -> Result<u64, Fault>
        ensures { Meets result (goal_line_checks self.old.number (next_line self.old)) (λ n. (n ≡ value (field 0 (next_line self.old))) × Passed self.old self.new) }
    {
        let line = self.wanted()?;
        goal_in(line)
    }
}

impl<'a> Iterator for NumberedLines<'a> {
    type Item = Line<'a>;

    ghost next_gives = { Next };

    ghost remaining = { item_count left };

    fn next(&mut self) -> Option<Line<'a>> {
        let text = self.lines.next()?;
        // The number is kept here, and not by a zip: a line that is missing is refused at its number too.
        let number = self.number;
        self.number = number.saturating_add(1);
        Some(Line { text, number })
    }
}
