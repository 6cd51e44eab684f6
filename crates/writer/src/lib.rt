#![tactic(auto)]

ghost use Rattle.sheets.specs.Pages.{write as written};
ghost use Rattle.std.specs.Prelude.{Result};
ghost use Rattle.faults.specs.declared.fault.Fault.{Fault};
ghost use Rattle.sheets.specs.declared.sheet.Sheet.{Sheet};
ghost use Rattle.sheets.specs.Legal.{Legal};
ghost use Rattle.sheets.specs.Reads.{page, Says, Gives};
ghost use Rattle.texts.specs.Puts.{Appends};

mod lines;
mod tables;

use sheets::sheet::Sheet;
use std::alloc::AllocError;
use tables::put_sheet;
use texts::all_or_nothing;

/// Appends the sheet's written form. Where the buffer's room does not suffice and no memory is to be had, the buffer is left as it was.
pub fn write(out: &mut Vec<u8>, sheet: &Sheet) -> Result<(), AllocError>
    ensures appends { Appends out.old (written (page sheet.now)) result out.new }
    ensures reads_back { (r : Result Sheet Fault) → Legal (page sheet.now) → Says (written (page sheet.now)) r → Gives (page sheet.now) r }
{
    all_or_nothing(out, |out| put_sheet(out, sheet))
}
