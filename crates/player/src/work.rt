/// A call that a line makes: an arrival at a task, a need, or a tick in which all others claim, or none.
#[derive(Clone, Copy, PartialEq, Eq, Debug)]
pub enum Ask {
    Arrive(usize),
    Need(usize, u64),
    Tick(bool),
}

/// What is left of the line under way: its call, and how many times it is still made.
#[derive(Clone, Copy, PartialEq, Eq, Debug)]
pub struct Work {
    pub ask: Ask,
    pub left: u64,
}
