ghost use Rattle.std.specs.Prelude.{◌≡◌, Some, codes};
ghost use Rattle.calls.specs.Words.{word_of, Names};

use std::error::Error;
use std::fmt;

/// The words of calls.
#[derive(Clone, Copy, PartialEq, Eq, Debug)]
pub enum CallWord {
    Arrive,
    Need,
    Quiet,
    Busy,
}

/// A word that names no call.
#[derive(Clone, Copy, PartialEq, Eq, Debug)]
pub struct UnknownCall;

impl fmt::Display for UnknownCall {
    ghost output = { λ _. Some (codes "no call") };

    fn fmt<W: fmt::Write>(&self, f: &mut fmt::Formatter<W>) -> fmt::Result {
        write!(f, "no call")
    }
}

impl Error for UnknownCall {}

impl CallWord {
    /// The word as a line of calls has it.
    pub fn word(self) -> &'static str
        ensures { result.now ≡ word_of self }
    {
        match self {
            CallWord::Arrive => "arrive",
            CallWord::Need => "need",
            CallWord::Quiet => "quiet",
            CallWord::Busy => "busy",
        }
    }
}

/// The call that a word names.
impl TryFrom<&[u8]> for CallWord {
    type Error = UnknownCall;

    ghost try_from_gives = { λ word r. Names word.now r };

    fn try_from(word: &[u8]) -> Result<CallWord, UnknownCall> {
        match word {
            b"arrive" => Ok(CallWord::Arrive),
            b"need" => Ok(CallWord::Need),
            b"quiet" => Ok(CallWord::Quiet),
            b"busy" => Ok(CallWord::Busy),
            _ => Err(UnknownCall),
        }
    }
}
