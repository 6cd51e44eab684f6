ghost use Rattle.std.specs.Prelude.{◌≡◌, Some};
ghost use Rattle.kinds.specs.Words.{kind_word, unknown_kind, Names};

use std::error::Error;
use std::fmt;

/// The kinds of server that a sheet can name.
#[derive(Clone, Copy, PartialEq, Eq, Debug)]
pub enum Kind {
    Own,
    Fixed,
    Float,
}

/// A word that names no kind.
#[derive(Clone, Copy, PartialEq, Eq, Debug)]
pub struct UnknownKind;

impl fmt::Display for UnknownKind {
    ghost output = { λ _. Some unknown_kind };

    fn fmt<W: fmt::Write>(&self, f: &mut fmt::Formatter<W>) -> fmt::Result {
        write!(f, "no kind of server")
    }
}

impl Error for UnknownKind {}

impl Kind {
    /// The word by which a sheet names it; no Display, since a writer puts its bytes.
    pub fn word(self) -> &'static str
        ensures { result.now ≡ kind_word self }
    {
        match self {
            Kind::Own => "own",
            Kind::Fixed => "fixed",
            Kind::Float => "float",
        }
    }
}

/// The kind that a word names.
impl TryFrom<&[u8]> for Kind {
    type Error = UnknownKind;

    ghost try_from_gives = { λ word r. Names word.now r };

    fn try_from(word: &[u8]) -> Result<Kind, UnknownKind> {
        match word {
            b"own" => Ok(Kind::Own),
            b"fixed" => Ok(Kind::Fixed),
            b"float" => Ok(Kind::Float),
            _ => Err(UnknownKind),
        }
    }
}
