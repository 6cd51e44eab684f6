ghost use Rattle.std.specs.Prelude.{◌↔◌, IsTrue};
ghost use Rattle.walks.specs.Arcs.{Ends, Bases, Lags};

use crate::arcs::{Arc, LARGEST};

/// Each arc runs between two of the tasks.
pub(crate) fn legal_ends(arcs: &[Arc], tasks: usize) -> bool
    ensures { IsTrue result ↔ Ends arcs.now tasks }
{
    arcs.iter().all(|arc| arc.from < tasks && arc.to < tasks)
}

/// Each base is within its range.
pub(crate) fn legal_bases(bases: &[i64]) -> bool
    ensures { IsTrue result ↔ Bases bases.now }
{
    bases.iter().all(|base| (0..=LARGEST).contains(base))
}

/// Each lag is within its range.
pub(crate) fn legal_lags(arcs: &[Arc]) -> bool
    ensures { IsTrue result ↔ Lags arcs.now }
{
    arcs.iter().all(|arc| arc.lag <= LARGEST)
}
