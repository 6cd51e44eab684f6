ghost use Rattle.std.specs.Prelude.{◌≡◌, []};

use crate::entries::Entries;
use crate::reserved::Reserved;
use graph::parts::{Edge, MOST_EDGES};
use std::alloc::{AllocError, Global};

/// Room for the largest sheet, so that reading one never wants memory.
#[derive(Drop)]
pub struct Room {
    pub(crate) entries: Entries,
    pub(crate) edges: Reserved<Edge, MOST_EDGES>,
    ghost no_entries: { entries ≡ [] },
    ghost no_edges: { edges ≡ [] },
}

impl Room {
    /// All the memory that reading a sheet wants.
    pub fn new(heap: Global) -> Result<Room, AllocError> {
        let entries = Entries::new(heap)?;
        let edges = Reserved::new(heap)?;
        Ok(Room { entries, edges })
    }
}
