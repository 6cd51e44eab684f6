/// The most tasks that a graph has.
pub const MOST_TASKS: usize = 16;

/// The most edges that a graph has.
pub const MOST_EDGES: usize = 48;

/// The most tokens that an edge holds at the start.
pub const MOST_TOKENS: u64 = 255;

/// The longest time of a firing, in ticks.
pub const LONGEST_TIME: u64 = 65_535;

/// The longest goal, in ticks for each firing.
pub const LONGEST_GOAL: u64 = 999_999_999;

/// A task of a graph: the ticks that a firing takes at most, and whether it has an inlet, where arrivals come from outside.
#[derive(Clone, Copy, PartialEq, Eq, Debug)]
pub struct Task {
    pub time: u64,
    pub inlet: bool,
}

/// An edge from a task to a task, which holds some tokens at the start.
#[derive(Clone, Copy, PartialEq, Eq, Debug)]
pub struct Edge {
    pub from: usize,
    pub to: usize,
    pub tokens: u64,
}
