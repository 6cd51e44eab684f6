ghost use Rattle.std.specs.Prelude.{◌≤◌, length};
ghost use Rattle.runs.specs.Runs.{Sweep};
ghost use Rattle.runner.specs.Serves.{marked};

use crate::board::Marks;
use graph::parts::MOST_TASKS;
use racks::rack::Rack;

/// Ticks a place for each claim, in order. The answer: which ticks were granted. A place that the rack lacks is granted nothing.
pub(crate) fn sweep<R: Rack>(rack: &mut R, claims: &[bool]) -> Marks
    requires { length claims.now ≤ 16 }
    ensures { length claims.now ≤ R.Rack.places rack.old → Sweep R.Rack.steps claims.now (marked result) rack.old (length claims.now) rack.new }
{
    let mut grants = [false; MOST_TASKS];
    for (v, claim) in claims.iter().enumerate() {
        match rack.tick(v, *claim) {
            Ok(granted) => grants[v] = granted,
            Err(_) => {}
        }
    }
    grants
}
