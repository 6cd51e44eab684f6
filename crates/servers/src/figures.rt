ghost use Rattle.servers.specs.Figures.{Tells};

use faults::fault::Fault;
use faults::layer::Layer;
use faults::reason::Reason;

/// The largest figure that is told, in ticks.
pub const CEILING: u64 = 1_000_000_000_000;

/// A server's figure, or the refusal of one above the ceiling.
pub fn told(figure: u64) -> Result<u64, Fault>
    ensures { Tells figure result }
{
    if figure > CEILING {
        return Err(Layer::Server.refuses(Reason::Ceiling, 0, 0));
    }
    Ok(figure)
}
