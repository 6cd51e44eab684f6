#![tactic(auto)]

ghost use Rattle.std.specs.Prelude.{◌≤◌};
ghost use Rattle.servers.specs.Figures.{ceiling};
ghost use Rattle.servers.specs.Runs.{InTime};
ghost use Rattle.serving.specs.Served.{Serves, Waited};

use faults::fault::Fault;
use servers::server::Server;

// Ticks until a tick is granted, and says how many were not.
fn wait_for_grant<S: Server>(server: &mut S, claimed: bool) -> u64
    requires { (S.Server.service server.old).wait 1 ≤ ceiling }
    ensures { Waited S.Server.service S.Server.steps server.old claimed result server.new }
{
    // Each call changes the server, which a chain's closure would hide from the proof: so a loop counts.
    let mut missed = 0;
    while !server.tick(claimed) {
        missed += 1;
    }
    missed
}

/// Serves a job that needs as many ticks as there are slots, others claiming every tick or none, and writes into each slot the tick at which it was granted, counted from 1.
/// Refused where the worst wait is above the ceiling, with nothing changed.
pub fn serve<S: Server>(server: &mut S, claimed: bool, times: &mut [u64]) -> Result<(), Fault>
    ensures served { Serves S.Server.service S.Server.steps server.old claimed times.old result server.new times.new }
    ensures in_time { InTime S.Server.service S.Server.steps }
{
    server.worst(times.len() as u64)?;
    let mut clock = 0;
    for time in times.iter_mut() {
        clock += wait_for_grant(server, claimed) + 1;
        *time = clock;
    }
    Ok(())
}
