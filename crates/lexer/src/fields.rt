ghost use Rattle.std.specs.Prelude.{◌≡◌};
ghost use Rattle.lexer.specs.Text.{fields};
ghost use Rattle.lexer.specs.Left.{fields_left, Next};

use crate::parts::Parts;
use crate::token::{Shape, Token};
use faults::fault::LineNumber;

/// The fields that are left of a line, each as a token with its place; `field` were read.
/// No Iterator, since the line's end is a token too, given again and again.
#[derive(Drop)]
pub struct Fields<'a> {
    parts: Parts<'a>,
    line: LineNumber,
    field: u32,
}

impl<'a> Fields<'a> {
    /// The fields of a line that has this number.
    pub fn new(text: &'a [u8], line: LineNumber) -> Fields<'a>
        ensures left { fields_left result ≡ fields text.now }
        ensures line { result.line ≡ line }
        ensures field { result.field ≡ 0 }
    {
        Fields {
            parts: Parts::new(text),
            line,
            field: 0,
        }
    }

    /// The next field, or the line's end where none is left.
    #[tactic(auto, using(crate::proofs::Cuts::no_fields))]
    pub fn next(&mut self) -> Token<'a>
        ensures { Next self.old result self.new }
    {
        let Some(part) = self.parts.next() else {
            return Token {
                shape: Shape::LineEnd,
                part: self.parts.rest(),
                line: self.line,
                field: 0,
            };
        };
        // Counted here: behind the last number the count stays, where a range would overflow.
        self.field = self.field.saturating_add(1);
        Token {
            shape: Shape::from(part),
            part,
            line: self.line,
            field: self.field,
        }
    }
}
