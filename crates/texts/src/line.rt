ghost use Rattle.std.specs.Prelude.{◌∷◌, map};
ghost use Rattle.lexer.specs.Text.{line_of};
ghost use Rattle.texts.specs.Puts.{Puts};
ghost use Rattle.texts.specs.Cells.{cell_text};

use crate::{put, put_each, put_number, put_signed};
use std::alloc::AllocError;

/// What stands in one field of a line.
#[derive(Clone, Copy, PartialEq, Eq, Debug)]
pub enum Cell<'a> {
    Word(&'a [u8]),
    Number(u64),
    Signed(i64),
}

fn put_cell(out: &mut Vec<u8>, cell: &Cell<'_>) -> Result<(), AllocError>
    ensures { Puts out.old (cell_text cell.now) result out.new }
{
    match cell {
        Cell::Word(word) => put(out, word),
        Cell::Number(number) => put_number(out, *number),
        Cell::Signed(number) => put_signed(out, *number),
    }
}

/// A field that does not open its line: behind a space.
pub fn put_next(out: &mut Vec<u8>, cell: &Cell<'_>) -> Result<(), AllocError>
    ensures { Puts out.old (32 ∷ cell_text cell.now) result out.new }
{
    put(out, b" ")?;
    put_cell(out, cell)
}

/// Appends a line: its fields with one space between them, and the line end.
pub fn put_line(out: &mut Vec<u8>, cells: &[Cell<'_>]) -> Result<(), AllocError>
    ensures { Puts out.old (line_of (map cell_text cells.now)) result out.new }
{
    let Some((first, rest)) = cells.split_first() else {
        return put(out, b"\n");
    };
    put_cell(out, first)?;
    put_each(out, rest, put_next)?;
    put(out, b"\n")
}
