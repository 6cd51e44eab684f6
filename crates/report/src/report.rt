ghost use Rattle.std.specs.Prelude.{List, ℕ};
ghost use Rattle.texts.specs.Puts.{Puts};
ghost use Rattle.report.specs.Reports.{Reports, Reported, OneReport};

use crate::tables::put_report;
use figures::figures::figures_of;
use reader::read::read;
use reader::room::Room;
use std::alloc::AllocError;
use texts::all_or_nothing;
use texts::fault::put_fault;

/// Appends what is printed of a sheet's text. Where the buffer's room does not suffice and no memory is to be had, the buffer is left as it was.
pub fn report(out: &mut Vec<u8>, text: &[u8], room: Room) -> Result<(), AllocError>
    ensures reported { Reported text.now out.old result out.new }
    ensures one { OneReport text.now }
{
    let put_answer = |out: &mut Vec<u8>| -> Result<(), AllocError>
        ensures puts { (bs : List ℕ) × Reports text.entry.now bs × Puts out.old bs result out.new }
        ensures one { OneReport text.entry.now }
    {
        match read(text, room) {
            Ok(sheet) => {
                // Never refused: the rack of a sheet that was read fits its graph.
                let figures = figures_of(&sheet.graph, &sheet.rack).unwrap();
                put_report(out, &sheet, &figures)
            }
            Err(fault) => put_fault(out, fault),
        }
    };
    all_or_nothing(out, put_answer)
}
