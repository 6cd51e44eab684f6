ghost use Rattle.std.specs.Prelude.{ℕ, ◌<◌, length, slice_index, vec_len};
ghost use Rattle.std.specs.List.{flat_map, range_with_len};
ghost use Rattle.texts.specs.Puts.{Puts};
ghost use Rattle.sheets.specs.Reads.{page, Planned};
ghost use Rattle.report.specs.Plans.{FiguresOf};
ghost use Rattle.report.specs.Texts.{task_line, ring_line, report_text};

use crate::lines::{put_goal, put_ring_task, put_task};
use figures::figures::Figures;
use sheets::sheet::Sheet;
use std::alloc::AllocError;
use texts::put;

// The lines of all tasks. No `put_each`: it asks for a closure that takes any item, and a task's line is told at a place of the sheet.
fn put_tasks(out: &mut Vec<u8>, sheet: &Sheet, figures: &Figures) -> Result<(), AllocError>
    requires { Planned sheet.now }
    ensures { Puts out.old (flat_map (task_line (page sheet.now) figures.now) (range_with_len 0 (vec_len sheet.now.tasks))) result out.new }
{
    for place in 0..sheet.tasks.len() {
        put_task(out, sheet, figures, place)?;
    }
    Ok(())
}

// The names of the tasks at these places.
fn put_ring(out: &mut Vec<u8>, sheet: &Sheet, places: &[usize]) -> Result<(), AllocError>
    requires { (k : ℕ) → k < length places.now → slice_index places.now k < vec_len sheet.now.tasks }
    ensures { Puts out.old (flat_map (ring_line (page sheet.now)) places.now) result out.new }
{
    for place in places {
        put_ring_task(out, sheet, *place)?;
    }
    Ok(())
}

/// The three tables, with an empty line in front of the second and the third.
// The headings are written out, as a reader of the code sees them in a report.
pub(crate) fn put_report(
    out: &mut Vec<u8>,
    sheet: &Sheet,
    figures: &Figures,
) -> Result<(), AllocError>
    requires planned { Planned sheet.now }
    requires figures { FiguresOf (page sheet.now) figures.now }
    ensures { Puts out.old (report_text (page sheet.now) figures.now) result out.new }
{
    put(out, b"goal cycle parts margin verdict\n")?;
    put_goal(out, sheet.graph.goal, figures)?;
    put(out, b"\ntask lead pace alone start load\n")?;
    put_tasks(out, sheet, figures)?;
    put(out, b"\ncritical\n")?;
    put_ring(out, sheet, figures.critical.as_slice())
}
