ghost use Rattle.walks.specs.Arcs.{Sound};

use crate::legal::{legal_bases, legal_ends, legal_lags};
use graph::parts::MOST_TASKS;

/// The largest base of a task, and the largest lag of an arc: 2 to the power of 52.
pub const LARGEST: i64 = 4_503_599_627_370_496;

/// An arc from a task to a task, which adds its lag to a value.
#[derive(Clone, Copy, PartialEq, Eq, Debug)]
pub struct Arc {
    pub from: usize,
    pub to: usize,
    pub lag: i64,
}

/// Arcs between tasks, 16 at most, each of which has a base.
#[derive(Clone, Copy)]
pub struct Arcs<'a> {
    pub(crate) list: &'a [Arc],
    pub(crate) bases: &'a [i64],
    ghost sound: { Sound list.now bases.now },
}

impl<'a> Arcs<'a> {
    ghost use Rattle.std.specs.Prelude.{◌≡◌, MatchOption};

    /// None where there are more than 16 tasks, an end is no task, or a base or a lag is out of range.
    pub fn new(list: &'a [Arc], bases: &'a [i64]) -> Option<Arcs<'a>>
        ensures { MatchOption result (Sound list.now bases.now → ⊥) (λ all. (all.list.now ≡ list.now) × (all.bases.now ≡ bases.now)) }
    {
        if bases.len() <= MOST_TASKS
            && legal_ends(list, bases.len())
            && legal_bases(bases)
            && legal_lags(list)
        {
            Some(Arcs { list, bases })
        } else {
            None
        }
    }
}
