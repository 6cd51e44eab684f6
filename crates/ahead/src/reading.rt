ghost use Rattle.std.specs.Prelude.{◌≡◌, ◌<◌, ◌≤◌, ◌+◌, ℕ, false, true, List, [], ◌∷◌, ◌++◌, length, IfOk, OnOk, OnErr, MatchResult, vec_items, vec_len, vec_capacity};
ghost use Rattle.belt.specs.Belts.{contents, room};
ghost use Rattle.ahead.specs.Givens.{Gives};
ghost use Rattle.ahead.specs.Steps.{Carried, Stops, TooLong};
ghost use Rattle.cells.specs.Checks.{Meets};
ghost use Rattle.ahead.specs.Texts.{one_line, ended, end_checks, Reads, Whole};
ghost use Rattle.ahead.specs.declared.given.Given.{Given as AGiven};
ghost use Rattle.ahead.specs.declared.given.Given.TheVariants.{Fault as AFault};

use crate::ahead::Ahead;
use crate::given::{Given, given_by};
use belt::belt::Belt;
use faults::fault::Fault;
use faults::layer::Layer;
use faults::reason::Reason;
use lexer::lines::Lines;
use sheet_lines::line::Line;
use std::alloc::AllocError;

// Whether bytes of one line have its end.
fn is_ended(part: &[u8]) -> bool
    requires { one_line part.now ≡ true }
    ensures { result ≡ ended part.now }
{
    match part {
        [.., b'\n'] => true,
        _ => false,
    }
}

impl Ahead {
    /// Reads bytes that come next, and puts what each line that ends in them gives on the belt. Answers how many of them were read: all, or those up to the line after which the belt is full, or those up to the first line that is refused.
    /// Memory is wanted only for a line that is longer than there is room for; then the lines above it were read, and put on the belt.
    pub fn take(&mut self, bytes: &[u8], belt: &mut Belt<'_, Given>) -> Result<usize, AllocError>
        ensures carried { MatchResult result (λ n. Carried self.old belt.old bytes.now n self.new belt.new) (λ _. (n : ℕ) × Carried self.old belt.old bytes.now n self.new belt.new × TooLong self.old bytes.now n self.new) }
        ensures stops { IfOk result (λ n. Stops bytes.now n self.new belt.new) }
    {
        let mut taken = 0;
        for part in Lines::new(bytes) {
            if self.is_over || belt.free() == 0 {
                return Ok(taken);
            }
            self.take_part(part, belt)?;
            taken += part.len();
        }
        Ok(taken)
    }

    /// The text has ended: bytes that are held are a line without an end, and a text of no line lacks its heading.
    pub fn end(&self) -> Result<(), Fault>
        ensures value { Meets result (end_checks self.now) (λ _. Unit {0}) }
        ensures whole { (t : List ℕ) (gs : List AGiven) → Reads t gs self.now → MatchResult result (λ _. Whole t gs) (λ f. Whole t (gs ++ AFault f ∷ [])) }
    {
        if self.is_over {
            return Ok(());
        }
        match (self.held.is_empty(), self.number) {
            (true, 1) => Err(Layer::Reader.refuses(Reason::Heading, 1, 0)),
            (true, _) => Ok(()),
            (false, number) => Err(Layer::Reader.refuses(Reason::ForeignByte, number, 0)),
        }
    }

    // The bytes of one line come next; the belt has a slot for what it gives.
    fn take_part(&mut self, part: &[u8], belt: &mut Belt<'_, Given>) -> Result<(), AllocError>
        requires part { one_line part.now ≡ true }
        requires some { 0 < length part.now }
        requires going { self.old.is_over ≡ false }
        requires free { length (contents belt.old) < room belt.old }
        ensures ok { OnOk result (Carried self.old belt.old part.now (length part.now) self.new belt.new) }
        ensures err { OnErr result (Carried self.old belt.old part.now 0 self.new belt.new) }
        ensures long { OnErr result (vec_capacity self.old.held < vec_len self.new.held + length part.now) }
    {
        if !is_ended(part) {
            return self.held.extend_from_slice(part);
        }
        let given = self.end_line(part)?;
        self.number = self.number.saturating_add(1);
        if let Some(given) = given {
            self.is_over = given.is_fault();
            let _ = belt.put(given);
        }
        Ok(())
    }

    // What the line gives that ends in these bytes. It is copied only where it began in other bytes.
    fn end_line(&mut self, part: &[u8]) -> Result<Option<Given>, AllocError>
        ensures ok { IfOk result (λ o. Gives self.old.number (vec_items self.old.held ++ part.now) o × (vec_items self.new.held ≡ [])) }
        ensures err { OnErr result (vec_items self.new.held ≡ vec_items self.old.held) }
        ensures long { OnErr result (vec_capacity self.old.held < vec_len self.new.held + length part.now) }
        ensures same { (self.new.number ≡ self.old.number) × (self.new.is_over ≡ self.old.is_over) }
        ensures capacity { vec_capacity self.old.held ≤ vec_capacity self.new.held }
    {
        let number = self.number;
        if self.held.is_empty() {
            return Ok(given_by(Line { text: part, number }));
        }
        self.held.extend_from_slice(part)?;
        let text = self.held.as_slice();
        let given = given_by(Line { text, number });
        self.held.clear();
        Ok(given)
    }
}
