ghost use Rattle.std.specs.Prelude.{◌≡◌, ◌+◌, ◌≤◌, ◌++◌, length};
ghost use Rattle.belt.specs.Belts.{contents, room};
ghost use Rattle.runner.specs.Boards.{shown};
ghost use Rattle.runner.specs.Records.{lying, ended};
ghost use Rattle.runner.specs.Serves.{marked};

use crate::board::{Board, Marks};
use crate::record::Record;
use belt::belt::Belt;

/// Puts on the belt, in the tasks' order, a record for each of the first n tasks where a firing ended at the last tick.
pub(crate) fn put_records(belt: &mut Belt<'_, Record>, board: &Board, ends: &Marks, n: usize)
    requires { n ≤ 16 }
    ensures put { length (contents belt.old) + n ≤ room belt.old → lying (contents belt.new) ≡ lying (contents belt.old) ++ ended (shown board.now) (marked ends.now) n }
    ensures room { room belt.new ≡ room belt.old }
{
    for v in 0..n {
        if ends[v] {
            let (task, firing, clock) = board.finish(v);
            let _ = belt.put(Record {
                task,
                firing,
                clock,
            });
        }
    }
}
