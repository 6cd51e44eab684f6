ghost use Rattle.std.specs.Prelude.{◌≡◌};
ghost use Rattle.faults.specs.Faults.{refusal};
ghost use Rattle.faults.specs.declared.layer.Layer.TheVariants.{Reader as AtReader};
ghost use Rattle.lexer.specs.Shapes.{shape_of};

use faults::fault::{Fault, LineNumber};
use faults::layer::Layer;
use faults::reason::Reason;

/// What a token is: a number text begins with a digit, a word with another byte or not at all.
// LineEnd stays: a rule of the project, the line's end is a token with its place.
#[derive(Clone, Copy, PartialEq, Eq, Debug)]
pub enum Shape {
    Word,
    Number,
    LineEnd,
}

/// A field that begins with a digit is a number text, any other a word.
impl From<&[u8]> for Shape {
    ghost from_gives = { λ part s. s ≡ shape_of part.now };

    fn from(part: &[u8]) -> Shape {
        match part {
            [b'0'..=b'9', ..] => Shape::Number,
            _ => Shape::Word,
        }
    }
}

/// A token of a text: a part of it, with its place. Lines and fields are counted from 1.
// The shape beside the part and not around it: who reads a field asks for the part, whatever its shape.
#[derive(Clone, Copy, PartialEq, Eq, Debug)]
pub struct Token<'a> {
    pub shape: Shape,
    pub part: &'a [u8],
    pub line: LineNumber,
    pub field: u32,
}

impl Token<'_> {
    /// The reader's refusal of this token, at its place.
    pub fn refused(&self, reason: Reason) -> Fault
        ensures { result ≡ refusal reason AtReader self.now.line self.now.field }
    {
        Layer::Reader.refuses(reason, self.line, self.field)
    }
}
