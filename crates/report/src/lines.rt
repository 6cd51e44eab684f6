ghost use Rattle.std.specs.Prelude.{◌<◌, vec_len};
ghost use Rattle.texts.specs.Puts.{Puts};
ghost use Rattle.sheets.specs.Reads.{page, Planned};
ghost use Rattle.report.specs.Texts.{goal_line, task_line, ring_line};

use figures::figures::Figures;
use graph::figures::figures_at;
use sheets::sheet::Sheet;
use std::alloc::AllocError;
use texts::line::{Cell, put_line};

/// The line of the goal.
pub(crate) fn put_goal(out: &mut Vec<u8>, goal: u64, figures: &Figures) -> Result<(), AllocError>
    ensures { Puts out.old (goal_line goal figures.now) result out.new }
{
    let cells = [
        Cell::Number(goal),
        Cell::Number(figures.ratio.cycle),
        Cell::Number(figures.ratio.parts),
        Cell::Signed(figures.margin),
        Cell::Word(figures.verdict.word().as_bytes()),
    ];
    put_line(out, &cells)
}

/// The line of the task at a place.
pub(crate) fn put_task(
    out: &mut Vec<u8>,
    sheet: &Sheet,
    figures: &Figures,
    place: usize,
) -> Result<(), AllocError>
    requires planned { Planned sheet.now }
    requires there { place < vec_len sheet.now.tasks }
    ensures { Puts out.old (task_line (page sheet.now) figures.now place) result out.new }
{
    let task = &sheet.tasks[place];
    let told = figures_at(&sheet.rack, place, task.time).unwrap();
    let cells = [
        Cell::Word(task.name.as_bytes()),
        Cell::Number(told.lead),
        Cell::Number(told.pace),
        Cell::Number(told.alone),
        Cell::Number(figures.starts[place]),
        Cell::Number(figures.loads[place]),
    ];
    put_line(out, &cells)
}

/// The line of a task of the critical ring.
pub(crate) fn put_ring_task(
    out: &mut Vec<u8>,
    sheet: &Sheet,
    place: usize,
) -> Result<(), AllocError>
    requires { place < vec_len sheet.now.tasks }
    ensures { Puts out.old (ring_line (page sheet.now) place) result out.new }
{
    let task = &sheet.tasks[place];
    put_line(out, &[Cell::Word(task.name.as_bytes())])
}
