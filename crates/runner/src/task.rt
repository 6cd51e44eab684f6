/// What a task is at: no firing is under way, or one that wants so many granted ticks after its next one.
// Counted from the next one on: a firing under way then always has a tick to go.
#[derive(Clone, Copy)]
pub(crate) enum Stage {
    Idle,
    UnderWay(u64),
}

/// What the runner keeps of a task: the arrivals that wait at its inlet, what its next firing needs, and how many firings ended.
#[derive(Clone, Copy)]
pub(crate) struct TaskRecord {
    pub(crate) stage: Stage,
    pub(crate) waiting: u64,
    pub(crate) need: u64,
    pub(crate) fired: u64,
}
