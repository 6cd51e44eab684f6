ghost use Rattle.std.specs.Prelude.{◌≡◌, true, not, [], ◌∷◌, ◌++◌};
ghost use Rattle.faults.specs.Faults.{refusal};
ghost use Rattle.faults.specs.declared.layer.Layer.TheVariants.{Reader as AtReader};
ghost use Rattle.cells.specs.Bytes.{well, parted};
ghost use Rattle.cells.specs.Checks.{bad, Meets};
ghost use Rattle.sheets.specs.Checks.{empty, whole_checks};
ghost use Rattle.sheet_lines.specs.Values.{Begins};

use crate::values::Values;
use cells::line::{is_parted, is_well};
use faults::fault::{Fault, LineNumber};
use faults::layer::Layer;
use faults::reason::Reason;
use lexer::fields::Fields;

/// A line of a sheet with its end, and its number.
#[derive(Clone, Copy, PartialEq, Eq, Debug)]
pub struct Line<'a> {
    pub text: &'a [u8],
    pub number: LineNumber,
}

impl<'a> Line<'a> {
    /// Refuses the line as a whole, unless what has to hold of it does.
    pub fn must(self, holds: bool, reason: Reason) -> Result<(), Fault>
        ensures { Meets result (record { broken = not holds; told = refusal reason AtReader self.entry.number 0 } ∷ []) (λ _. holds ≡ true) }
    {
        if holds {
            Ok(())
        } else {
            Err(Layer::Reader.refuses(reason, self.number, 0))
        }
    }

    /// Whether nothing stands before the line's end, as between two tables.
    pub fn is_gap(self) -> bool
        ensures { result ≡ empty self.entry.text.now }
    {
        self.text == b"\n".as_slice()
    }

    /// Refuses a line that is not there, or has other bytes than those of the format and an end.
    // A line of no bytes is tested for too, though a reader of a text never meets one: the clauses of the calls that use this speak of any line.
    pub(crate) fn must_be_whole(self) -> Result<(), Fault>
        ensures { Meets result (whole_checks self.entry.number self.entry.text.now) (λ _. well self.entry.text.now ≡ true) }
    {
        self.must(!self.text.is_empty(), Reason::Heading)?;
        self.must(is_well(self.text), Reason::ForeignByte)
    }

    /// Refuses a line that is not whole, or is not the one that has to stand here.
    pub(crate) fn must_be_given(self, is_given: bool) -> Result<(), Fault>
        ensures { Meets result (whole_checks self.entry.number self.entry.text.now ++ (bad (not is_given) 3 self.entry.number 0 ∷ [])) (λ _. Unit {0}) }
    {
        self.must_be_whole()?;
        self.must(is_given, Reason::Heading)
    }

    /// The values of a line that has `n` fields.
    pub(crate) fn values(self, n: usize) -> Result<Values<'a>, Fault>
        ensures { Meets result (bad (not (parted n self.entry.text.now)) 4 self.entry.number 0 ∷ []) (λ v. Begins n self.entry.text.now self.entry.number v.fields) }
    {
        self.must(is_parted(self.text, n), Reason::FieldCount)?;
        Ok(Values {
            fields: Fields::new(self.text, self.number),
        })
    }
}
