ghost use Rattle.std.specs.Prelude.{◌≡◌, []};
ghost use Rattle.belt.specs.Belts.{contents};

use crate::work::Work;
use belt::belt::Belt;
use finish::ledger::Ledger;
use runner::record::Record;
use runner::runner::Runner;
use sheets::sheet::SheetTask;

/// The tasks of a sheet, driven by lines of calls. Each call's records are taken off the belt before the next.
#[derive(Drop)]
pub struct Player<'b, R> {
    pub(crate) tasks: Vec<SheetTask>,
    pub(crate) runner: Runner<R>,
    pub(crate) ledger: Ledger,
    pub(crate) records: Belt<'b, Record>,
    pub(crate) work: Work,
    ghost clear: { contents records ≡ [] },
}
