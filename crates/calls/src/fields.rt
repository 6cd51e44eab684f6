ghost use Rattle.std.specs.Prelude.{◌≡◌, not, [], ◌∷◌};
ghost use Rattle.cells.specs.Bytes.{parted};
ghost use Rattle.cells.specs.Checks.{bad, Meets};
ghost use Rattle.calls.specs.Fields.{Split};

use cells::line::is_parted;
use faults::fault::Fault;
use faults::reason::Reason;
use lexer::fields::Fields;
use lexer::token::Token;
use sheet_lines::line::Line;

/// The fields of a call's line.
#[derive(Clone, Copy)]
pub(crate) struct CallFields<'a> {
    pub(crate) word: Token<'a>,
    pub(crate) whom: Token<'a>,
    pub(crate) value: Token<'a>,
}

impl<'a> CallFields<'a> {
    /// The fields of a line that has three.
    pub(crate) fn new(line: Line<'a>) -> Result<CallFields<'a>, Fault>
        ensures { Meets result (bad (not (parted 3 line.entry.text.now)) 4 line.entry.number 0 ∷ []) (Split line.entry.number line.entry.text.now) }
    {
        line.must(is_parted(line.text, 3), Reason::FieldCount)?;
        let mut fields = Fields::new(line.text, line.number);
        Ok(CallFields {
            word: fields.next(),
            whom: fields.next(),
            value: fields.next(),
        })
    }
}
