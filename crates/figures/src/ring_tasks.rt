ghost use Rattle.std.specs.Prelude.{◌≤◌};

use graph::parts::MOST_TASKS;

/// The tasks of a ring, from its first task in the sheet, along its hops.
#[derive(Clone, Copy, PartialEq, Eq, Debug)]
pub struct RingTasks {
    pub(crate) tasks: [usize; MOST_TASKS],
    pub(crate) count: usize,
    ghost few: { count ≤ 16 },
}

impl RingTasks {
    ghost use Rattle.std.specs.Prelude.{◌≡◌};
    ghost use Rattle.figures.specs.Critical.{ring_tasks};

    /// One after the other.
    pub fn as_slice(&self) -> &[usize]
        ensures { result.now ≡ ring_tasks self.now }
    {
        &self.tasks[..self.count]
    }
}
