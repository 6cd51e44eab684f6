ghost use Rattle.graph.specs.Figured.{FiguresTold};

use faults::fault::Fault;
use racks::rack::Rack;
use servers::figures::told;

/// What is told of a task on its server: the lead, the pace for the task's time, and the worst wait for it, which is the task's alone.
#[derive(Clone, Copy, PartialEq, Eq, Debug)]
pub struct Figures {
    pub lead: u64,
    pub pace: u64,
    pub alone: u64,
}

/// The figures of a task of this time on the server at this place, told where none of them, nor lead and pace together, is above the ceiling.
pub fn figures_at<R: Rack>(rack: &R, place: usize, time: u64) -> Result<Figures, Fault>
    ensures { FiguresTold (R.Rack.places rack.now) (R.Rack.service rack.now) place time result }
{
    let lead = rack.lead(place)?;
    let pace = rack.pace(place, time)?;
    let alone = rack.worst(place, time)?;
    told(lead + pace)?;
    Ok(Figures { lead, pace, alone })
}
