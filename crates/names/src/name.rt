ghost use Rattle.std.specs.Prelude.{◌≡◌, ◌≤◌, ◌<◌, Some, length, MatchOption, MatchResult, codes};

use std::error::Error;
use std::fmt;

/// The most bytes of a name.
pub const LONGEST: usize = 12;

/// The name of a task: up to 12 bytes, kept in place, so that a sheet does not hold on to the text that it was read from.
// No Model: a task with its name is copied, and a Copy struct that holds a value with a model is not copied where it is passed by value.
// The length stands beside the bytes: reading never allocates, a name is copied with its task, as no ArrayVec is, and holds any bytes, as no ArrayString does.
#[derive(Clone, Copy, Debug)]
pub struct Name {
    pub(crate) bytes: [u8; LONGEST],
    pub(crate) len: usize,
    ghost short: { len ≤ 12 },
}

/// More bytes than a name can have.
#[derive(Clone, Copy, PartialEq, Eq, Debug)]
pub struct TooLong;

impl fmt::Display for TooLong {
    ghost output = { λ _. Some (codes "a name has at most 12 bytes") };

    fn fmt<W: fmt::Write>(&self, f: &mut fmt::Formatter<W>) -> fmt::Result {
        write!(f, "a name has at most 12 bytes")
    }
}

impl Error for TooLong {}

/// The name that has these bytes.
impl TryFrom<&[u8]> for Name {
    type Error = TooLong;

    ghost use Rattle.names.specs.Names.{name_bytes};

    ghost try_from_gives = { λ text r. MatchResult r (λ n. name_bytes n ≡ text.now) (λ _. 12 < length text.now) };

    fn try_from(text: &[u8]) -> Result<Name, TooLong> {
        let len = text.len();
        if len > LONGEST {
            return Err(TooLong);
        }
        let mut bytes = [0; LONGEST];
        bytes[..len].copy_from_slice(text);
        Ok(Name { bytes, len })
    }
}

impl Name {
    ghost use Rattle.names.specs.Names.{name_bytes};

    /// The name that has these bytes; none where they are more than 12.
    // For callers who only ask whether the bytes fit.
    pub fn new(text: &[u8]) -> Option<Name>
        ensures { MatchOption result (12 < length text.now) (λ n. name_bytes n ≡ text.now) }
    {
        Name::try_from(text).ok()
    }

    /// The bytes of the name.
    // No plainer form: it answers the part of the array that is the name.
    pub fn as_bytes(&self) -> &[u8]
        ensures { result.now ≡ name_bytes self.now }
    {
        &self.bytes[..self.len]
    }
}

/// Two names are equal where their bytes are.
// By hand: a derive would compare the bytes behind the length too.
impl PartialEq for Name {
    ghost use Rattle.std.proofs.Common.{rules};
    ghost use Rattle.std.specs.Cmp.Rules.{comparing};
    ghost use Rattle.std.specs.Ordering.{on};
    ghost use Rattle.std.specs.Str.{bytes_eq};
    ghost use Rattle.names.specs.Names.{name_bytes};

    ghost eq = { on name_bytes bytes_eq };

    ghost laws = { Prim.search (comparing, rules) };

    fn eq(&self, other: &Name) -> bool {
        self.as_bytes() == other.as_bytes()
    }
}

impl Eq for Name {
    ghost use Rattle.std.proofs.Common.{rules};
    ghost use Rattle.std.specs.Cmp.Rules.{comparing};

    ghost laws = { Prim.search (comparing, rules) };
}
