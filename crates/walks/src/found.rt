use graph::parts::MOST_TASKS;

/// So many arcs, one after the other.
#[derive(Clone, Copy, PartialEq, Eq, Debug)]
pub struct Walk {
    pub count: usize,
    pub arcs: [usize; MOST_TASKS],
}

/// What a search finds: the least value of each task, or a ring of arcs.
#[derive(Clone, Copy, PartialEq, Eq, Debug)]
pub enum Found {
    Still([i64; MOST_TASKS]),
    Ring(Walk),
}
