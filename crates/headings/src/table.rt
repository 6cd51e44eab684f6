ghost use Rattle.std.specs.Prelude.{◌≡◌, ◌↔◌, map, IsTrue};
ghost use Rattle.cells.specs.Bytes.{well};
ghost use Rattle.lexer.specs.Text.{fields};
ghost use Rattle.headings.specs.Columns.{column_word};
ghost use Rattle.headings.specs.Tables.{table_columns, heading};

use crate::column::Column;
use lexer::parts::Parts;

/// The tables of a sheet, in their order.
#[derive(Clone, Copy, PartialEq, Eq, Debug)]
pub enum Table {
    Goal,
    Tasks,
    Edges,
}

impl Table {
    /// The columns of its heading, from left to right.
    pub fn columns(self) -> &'static [Column]
        ensures { result.now ≡ table_columns self }
    {
        match self {
            Table::Goal => &[Column::Goal],
            Table::Tasks => &[
                Column::Task,
                Column::Time,
                Column::Kind,
                Column::Period,
                Column::Slice,
                Column::Phase,
                Column::Inner,
                Column::Inslice,
                Column::Inphase,
                Column::Inlet,
            ],
            Table::Edges => &[Column::From, Column::To, Column::Tokens],
        }
    }
}

// Whether the fields of a line name these columns, in order.
// By count and pairs, no plainer by an `eq` of the columns that they name: where two of those differ, the proof wants the words again.
fn names_columns(line: &[u8], columns: &[Column]) -> bool
    ensures { IsTrue result ↔ (fields line.now ≡ map column_word columns.now) }
{
    // Nothing behind the first field that differs is looked at, and of more fields than columns only one.
    Parts::new(line)
        .zip(columns)
        .all(|(part, column)| Column::try_from(part) == Ok(*column))
        && Parts::new(line).take(columns.len() + 1).count() == columns.len()
}

/// Whether a line in order is the heading of this table.
pub fn is_heading(line: &[u8], table: Table) -> bool
    ensures { IsTrue (well line.now) → (IsTrue result ↔ (line.now ≡ heading table)) }
{
    names_columns(line, table.columns())
}
