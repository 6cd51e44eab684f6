ghost use Rattle.std.specs.Prelude.{Bool};
ghost use Rattle.servers.specs.Service.{Service, Laws, Ticks};
ghost use Rattle.servers.specs.Figures.{Tells};

use faults::fault::Fault;

/// What offers one task some of the ticks, by the laws of a service and nothing more.
pub trait Server {
    // The service that a state offers.
    ghost service: { Self → Service };

    // Which ticks there are: from a state, whether others claim the tick, whether it is granted, to a state.
    ghost steps: { Self → Bool → Bool → Self → Type 0 };

    /// One tick; the answer says whether it is granted.
    fn tick(&mut self, claimed: bool) -> bool
        ensures { steps self.old claimed result self.new };

    /// The worst wait for n grants, from any state.
    fn worst(&self, n: u64) -> Result<u64, Fault>
        ensures { Tells ((service self.now).worst n) result };

    /// The lead: the latency, what the server may keep a task waiting at first.
    fn lead(&self) -> Result<u64, Fault>
        ensures { Tells (service self.now).lead result };

    /// The pace: the ticks that n grants take at the server's rate.
    fn pace(&self, n: u64) -> Result<u64, Fault>
        ensures { Tells ((service self.now).pace n) result };

    ghost keeps: { (s : Self) → Laws (service s) };

    ghost moves: { (a b : Self) (claimed granted : Bool) → steps a claimed granted b → Ticks (service a) granted (service b) };
}
