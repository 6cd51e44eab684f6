ghost use Rattle.std.specs.Prelude.{Some, codes};
ghost use Rattle.headings.specs.Columns.{Heads};

use std::error::Error;
use std::fmt;

/// The columns of a sheet's tables.
#[derive(Clone, Copy, PartialEq, Eq, Debug)]
pub enum Column {
    Goal,
    Task,
    Time,
    Kind,
    Period,
    Slice,
    Phase,
    Inner,
    Inslice,
    Inphase,
    Inlet,
    From,
    To,
    Tokens,
}

/// A word that names no column.
#[derive(Clone, Copy, PartialEq, Eq, Debug)]
pub struct UnknownColumn;

impl fmt::Display for UnknownColumn {
    ghost output = { λ _. Some (codes "no column of a sheet has this name") };

    fn fmt<W: fmt::Write>(&self, f: &mut fmt::Formatter<W>) -> fmt::Result {
        write!(f, "no column of a sheet has this name")
    }
}

impl Error for UnknownColumn {}

/// The column that a word of a heading names.
impl TryFrom<&[u8]> for Column {
    type Error = UnknownColumn;

    ghost try_from_gives = { λ word r. Heads word.now r };

    fn try_from(word: &[u8]) -> Result<Column, UnknownColumn> {
        match word {
            b"goal" => Ok(Column::Goal),
            b"task" => Ok(Column::Task),
            b"time" => Ok(Column::Time),
            b"kind" => Ok(Column::Kind),
            b"period" => Ok(Column::Period),
            b"slice" => Ok(Column::Slice),
            b"phase" => Ok(Column::Phase),
            b"inner" => Ok(Column::Inner),
            b"inslice" => Ok(Column::Inslice),
            b"inphase" => Ok(Column::Inphase),
            b"inlet" => Ok(Column::Inlet),
            b"from" => Ok(Column::From),
            b"to" => Ok(Column::To),
            b"tokens" => Ok(Column::Tokens),
            _ => Err(UnknownColumn),
        }
    }
}
