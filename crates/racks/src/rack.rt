ghost use Rattle.std.specs.Prelude.{◌≡◌, ℕ, ◌<◌, Bool, ◌≢◌};
ghost use Rattle.servers.specs.Service.{Service, Laws, Ticks};
ghost use Rattle.racks.specs.Places.{Ticked, Asked, missing_place};

use faults::fault::Fault;
use faults::layer::Layer;
use faults::reason::Reason;

/// Servers by place: a fixed number of places from 0, each with a server's meaning, which take a server's calls.
pub trait Rack {
    ghost places: { Self → ℕ };

    // The service that each place offers.
    ghost service: { Self → ℕ → Service };

    // Which ticks there are: from a state, at a place, whether others claim the tick, whether it is granted, to a state.
    ghost steps: { Self → ℕ → Bool → Bool → Self → Type 0 };

    /// How many places there are.
    fn places(&self) -> usize
        ensures { result ≡ places self.now };

    /// One tick of the server at a place; the answer says whether it is granted.
    fn tick(&mut self, place: usize, claimed: bool) -> Result<bool, Fault>
        ensures { Ticked places steps self.old place claimed result self.new };

    /// The worst wait for n grants there.
    fn worst(&self, place: usize, n: u64) -> Result<u64, Fault>
        ensures { Asked (places self.now) place ((service self.now place).worst n) result };

    /// The latency there.
    fn lead(&self, place: usize) -> Result<u64, Fault>
        ensures { Asked (places self.now) place (service self.now place).lead result };

    /// The ticks that n grants take there at the server's rate.
    fn pace(&self, place: usize, n: u64) -> Result<u64, Fault>
        ensures { Asked (places self.now) place ((service self.now place).pace n) result };

    ghost keeps: { (s : Self) (k : ℕ) → k < places s → Laws (service s k) };

    ghost moves: { (a b : Self) (k : ℕ) (claimed granted : Bool) → steps a k claimed granted b → Ticks (service a k) granted (service b k) };

    // The other places are as they were.
    ghost others: { (a b : Self) (k : ℕ) (claimed granted : Bool) → steps a k claimed granted b → (j : ℕ) → j < places a → (j ≢ k) → service b j ≡ service a j };

    ghost stays: { (a b : Self) (k : ℕ) (claimed granted : Bool) → steps a k claimed granted b → places b ≡ places a };
}

/// The refusal of a place that a rack lacks.
pub fn no_place() -> Fault
    ensures { result ≡ missing_place }
{
    Layer::Runner.refuses(Reason::Missing, 0, 0)
}
