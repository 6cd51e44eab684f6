ghost use Rattle.std.specs.Prelude.{◌≡◌};

use faults::fault::Fault;

/// An item that found no slot, with the refusal.
// The fault stands beside the item, though it is always the same: a refusal tells its own number and layer, whoever reads it.
#[derive(PartialEq, Eq, Debug, Drop)]
pub struct Returned<T> {
    pub fault: Fault,
    pub item: T,
}

impl<T: Drop> From<Returned<T>> for Fault {
    ghost from_gives = { λ r f. f ≡ r.fault };

    fn from(returned: Returned<T>) -> Fault {
        returned.fault
    }
}
