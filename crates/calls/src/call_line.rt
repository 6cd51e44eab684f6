use names::name::Name;

/// A call as its line has it; a task by its name, which no task may have.
#[derive(Clone, Copy, PartialEq, Eq, Debug)]
pub enum CallLine {
    Arrive { task: Name, times: u64 },
    Need { task: Name, ticks: u64 },
    Quiet { ticks: u64 },
    Busy { ticks: u64 },
}
