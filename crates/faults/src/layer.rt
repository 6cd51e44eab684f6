ghost use Rattle.std.specs.Prelude.{◌≡◌, Some};
ghost use Rattle.faults.specs.Faults.{refusal};
ghost use Rattle.faults.specs.Words.{word_of};

use crate::fault::{Fault, LineNumber};
use crate::reason::Reason;
use std::fmt;

/// Which part of the product refuses.
#[derive(Clone, Copy, PartialEq, Eq, Debug)]
pub enum Layer {
    Reader,
    Server,
    Graph,
    Runner,
    Belt,
    Table,
}

impl Layer {
    /// The word that is printed.
    pub fn word(self) -> &'static str
        ensures { result.now ≡ word_of self }
    {
        match self {
            Layer::Reader => "reader",
            Layer::Server => "server",
            Layer::Graph => "graph",
            Layer::Runner => "runner",
            Layer::Belt => "belt",
            Layer::Table => "table",
        }
    }

    /// A refusal by this part; `field` is 0 where it is of none.
    pub fn refuses(self, reason: Reason, line: LineNumber, field: u32) -> Fault
        ensures { result ≡ refusal reason self line field }
    {
        Fault {
            reason,
            layer: self,
            line,
            field,
        }
    }
}

impl fmt::Display for Layer {
    ghost output = { λ layer. Some (word_of layer) };

    fn fmt<W: fmt::Write>(&self, f: &mut fmt::Formatter<W>) -> fmt::Result {
        f.write_str(self.word())
    }
}
