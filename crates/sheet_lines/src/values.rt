ghost use Rattle.std.specs.Prelude.{◌≡◌, ◌++◌};
ghost use Rattle.cells.specs.Checks.{number_checks, name_checks, kind_checks, Meets};
ghost use Rattle.cells.specs.Values.{value, kind_of};
ghost use Rattle.names.specs.Names.{name_bytes};
ghost use Rattle.sheets.specs.Checks.{task_checks, index_of};
ghost use Rattle.sheet_lines.specs.Values.{part, here, Reads, Passed, settings_from};

use crate::above::Above;
use cells::cell::{kind_in, name_in, number_in};
use faults::fault::Fault;
use kinds::kind::Kind;
use lexer::fields::Fields;
use lexer::token::Token;
use names::name::Name;
use servers::settings::{LONGEST_PERIOD, Settings};

/// The values that are left of a line.
#[derive(Drop)]
pub(crate) struct Values<'a> {
    pub(crate) fields: Fields<'a>,
}

impl<'a> Values<'a> {
    fn next(&mut self) -> Token<'a>
        ensures { Reads self.old.fields result self.new.fields }
    {
        self.fields.next()
    }

    pub(crate) fn number(&mut self, low: u64, high: u64) -> Result<u64, Fault>
        ensures { Meets result (here (number_checks low high) 0 self.old.fields) (λ n. (n ≡ value (part 0 self.old.fields)) × Passed 1 self.old.fields self.new.fields) }
    {
        number_in(self.next(), low, high)
    }

    pub(crate) fn name(&mut self) -> Result<Name, Fault>
        ensures { Meets result (here name_checks 0 self.old.fields) (λ n. (name_bytes n ≡ part 0 self.old.fields) × Passed 1 self.old.fields self.new.fields) }
    {
        let name = name_in(self.next())?;
        Ok(Name::try_from(name).unwrap())
    }

    pub(crate) fn kind(&mut self) -> Result<Kind, Fault>
        ensures { Meets result (here kind_checks 0 self.old.fields) (λ k. (k ≡ kind_of (part 0 self.old.fields)) × Passed 1 self.old.fields self.new.fields) }
    {
        kind_in(self.next())
    }

    /// The place of the task that is named.
    pub(crate) fn place(&mut self, above: &Above<'_>) -> Result<usize, Fault>
        ensures { Meets result (here (task_checks above.now) 0 self.old.fields) (λ v. (v ≡ index_of above.now (part 0 self.old.fields)) × Passed 1 self.old.fields self.new.fields) }
    {
        above.place_of(self.next())
    }

    /// A server's period and slice from `low` on, and its phase.
    pub(crate) fn settings(&mut self, low: u64) -> Result<Settings, Fault>
        ensures { Meets result (here (number_checks low 65535) 0 self.old.fields ++ (here (number_checks low 65535) 1 self.old.fields ++ here (number_checks 0 65534) 2 self.old.fields)) (λ s. (s ≡ settings_from self.old.fields) × Passed 3 self.old.fields self.new.fields) }
    {
        let period = self.number(low, LONGEST_PERIOD)?;
        let slice = self.number(low, LONGEST_PERIOD)?;
        let phase = self.number(0, LONGEST_PERIOD - 1)?;
        Ok(Settings {
            period,
            slice,
            phase,
        })
    }
}
