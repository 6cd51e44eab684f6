ghost use Rattle.std.specs.Prelude.{◌≡◌, Some};
ghost use Rattle.ratios.specs.Words.{word_of};

use std::fmt;

/// Whether the rows keep up with the goal.
#[derive(Clone, Copy, PartialEq, Eq, Debug)]
pub enum Verdict {
    Keeps,
    Late,
}

impl Verdict {
    /// The word that is printed.
    pub fn word(self) -> &'static str
        ensures { result.now ≡ word_of self }
    {
        match self {
            Verdict::Keeps => "keeps",
            Verdict::Late => "late",
        }
    }
}

impl fmt::Display for Verdict {
    ghost output = { λ verdict. Some (word_of verdict) };

    fn fmt<W: fmt::Write>(&self, f: &mut fmt::Formatter<W>) -> fmt::Result {
        f.write_str(self.word())
    }
}
