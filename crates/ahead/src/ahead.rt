ghost use Rattle.std.specs.Prelude.{◌≡◌, ◌≤◌, ℕ, List, [], ◌++◌, IfOk, IsTrue, vec_capacity};
ghost use Rattle.ahead.specs.declared.given.Given.{Given as AGiven};

use faults::fault::LineNumber;
use std::alloc::{AllocError, Global};

/// How far a text of calls was read: the bytes of a line that has not ended yet, and its number.
#[derive(Drop)]
pub struct Ahead {
    pub(crate) held: Vec<u8>,
    pub(crate) number: LineNumber,
    pub(crate) is_over: bool,
}

// Room for a line that is held; a call's has at most 30 bytes.
const ROOM: usize = 64;

impl Ahead {
    ghost use Rattle.ahead.specs.Texts.{Reads, Whole, OneGiven};

    /// Nothing was read yet. Lines of up to 64 bytes will never want memory. What a text gives does not hang on how it is cut (`one`).
    pub fn new(heap: Global) -> Result<Ahead, AllocError>
        ensures reads { IfOk result (λ a. Reads [] [] a) }
        ensures capacity { IfOk result (λ a. 64 ≤ vec_capacity a.held) }
        ensures one { OneGiven }
    {
        Ok(Ahead {
            held: Vec::with_capacity(heap, ROOM)?,
            number: 1,
            is_over: false,
        })
    }

    /// Whether a line was refused. Below it nothing is read, so that what was given is what the text gives, whatever comes behind.
    pub fn is_over(&self) -> bool
        ensures value { result ≡ self.now.is_over }
        ensures whole { IsTrue result → (t more : List ℕ) (gs : List AGiven) → Reads t gs self.now → Whole (t ++ more) gs }
    {
        self.is_over
    }
}
