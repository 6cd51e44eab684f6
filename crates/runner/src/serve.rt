ghost use Rattle.std.specs.Prelude.{◌≡◌, ◌≤◌};
ghost use Rattle.runner.specs.Serves.{Served, stage_with};

use crate::task::{Stage, TaskRecord};

// What a firing is at that still needs so many granted ticks.
fn stage_of(left: u64) -> Stage
    ensures { result ≡ stage_with left }
{
    if left == 0 {
        Stage::Idle
    } else {
        Stage::UnderWay(left - 1)
    }
}

impl TaskRecord {
    /// One tick of the task, which was ready before it, or not, and is granted it, or not. The answer: whether a firing starts, and whether one ends.
    pub(crate) fn serve(&mut self, ready: bool, granted: bool) -> (bool, bool)
        requires few { self.old.fired ≤ 1000000000 }
        requires some { 1 ≤ self.old.need }
        ensures { Served self.old ready granted result self.new }
    {
        let (starts, left) = match (self.stage, ready, granted) {
            (Stage::UnderWay(after), _, true) => (false, after),
            (Stage::Idle, true, true) => (true, self.need - 1),
            _ => return (false, false),
        };
        let ends = left == 0;
        self.stage = stage_of(left);
        if starts {
            // A task without an inlet has none waiting.
            self.waiting = self.waiting.saturating_sub(1);
        }
        if ends {
            self.fired += 1;
        }
        (starts, ends)
    }
}
