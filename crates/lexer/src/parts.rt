ghost use Rattle.std.specs.Prelude.{◌≡◌};
ghost use Rattle.std.specs.Iterator.{YieldsFirstRef, item_count};
ghost use Rattle.lexer.specs.Text.{fields};

use std::marker::Model;

/// The fields of a line as plain bytes: what stands before each space and before the line end.
#[derive(Drop)]
pub struct Parts<'a> {
    rest: &'a [u8],
}

impl<'a> Model for Parts<'a> {
    ghost use Rattle.std.specs.Prelude.{ℕ, List};
    ghost use Rattle.lexer.specs.Text.{fields};

    ghost Value = { List (List ℕ) };

    ghost view = { λ p. fields p.rest.now };
}

impl<'a> Parts<'a> {
    /// The fields of this line.
    pub fn new(line: &'a [u8]) -> Parts<'a>
        ensures { result ≡ fields line.now }
    {
        Parts { rest: line }
    }

    /// The text that is left, of which the fields that are left are the parts.
    pub(crate) fn rest(&self) -> &'a [u8]
        ensures { fields result.now ≡ self.now }
    {
        self.rest
    }
}

impl<'a> Iterator for Parts<'a> {
    type Item = &'a [u8];

    ghost next_gives = { YieldsFirstRef (λ p. p) };

    ghost remaining = { item_count (λ p. p) };

    fn next(&mut self) -> Option<&'a [u8]> {
        if self.rest.is_empty() {
            return None;
        }
        let part = self.rest.split(|b| *b == b'\n' || *b == b' ').next()?;
        self.rest = self
            .rest
            .get(part.len() + 1..)
            .unwrap_or(&self.rest[self.rest.len()..]);
        Some(part)
    }
}
