ghost use Rattle.sheets.specs.Pages.{write};
ghost use Rattle.sheets.specs.Reads.{page};
ghost use Rattle.texts.specs.Puts.{Puts};

use crate::lines::{put_edge, put_entry};
use sheets::sheet::Sheet;
use std::alloc::AllocError;
use texts::line::{Cell, put_line};
use texts::{put, put_each};

/// The three tables, with an empty line in front of the second and the third.
// The headings are written out, as a reader of the code sees them in a sheet; the contract holds them to the columns.
pub(crate) fn put_sheet(out: &mut Vec<u8>, sheet: &Sheet) -> Result<(), AllocError>
    ensures { Puts out.old (write (page sheet.now)) result out.new }
{
    let tasks = sheet.tasks.as_slice();
    put(out, b"goal\n")?;
    put_line(out, &[Cell::Number(sheet.graph.goal)])?;
    put(
        out,
        b"\ntask time kind period slice phase inner inslice inphase inlet\n",
    )?;
    put_each(out, tasks, put_entry)?;
    put(out, b"\nfrom to tokens\n")?;
    put_each(
        out,
        &sheet.graph.edges,
        |out, edge| put_edge(out, tasks, edge),
    )
}
