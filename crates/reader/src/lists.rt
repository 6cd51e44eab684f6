use crate::entries::Entries;
use crate::reserved::Reserved;
use graph::parts::{Edge, MOST_EDGES};

/// What the lines of a sheet say.
// Not one with `Room`, no plainer: that says of its lists that they are empty, and has no goal.
#[derive(Drop)]
pub(crate) struct Lists {
    pub(crate) goal: u64,
    pub(crate) entries: Entries,
    pub(crate) edges: Reserved<Edge, MOST_EDGES>,
}
