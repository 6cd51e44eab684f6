use crate::kind::Kind;
use faults::fault::{Fault, LineNumber};
use servers::fixed::Fixed;
use servers::float::Float;
use servers::own::Own;
use servers::server::Server;
use servers::settings::Settings;

/// A server of any of the kinds.
#[derive(Clone, Copy, PartialEq, Eq, Debug)]
pub enum AnyKind {
    Own(Own),
    Fixed(Fixed),
    Float(Float),
}

impl AnyKind {
    ghost use Rattle.kinds.specs.AnyKinds.{MakesAny};

    /// A server of this kind, where the kind takes the settings.
    pub fn new(kind: Kind, settings: Settings, line: LineNumber) -> Result<AnyKind, Fault>
        ensures { MakesAny kind settings line result }
    {
        // A match: the three makers answer three types.
        match kind {
            Kind::Own => Own::new(settings, line).map(AnyKind::Own),
            Kind::Fixed => Fixed::new(settings, line).map(AnyKind::Fixed),
            Kind::Float => Float::new(settings, line).map(AnyKind::Float),
        }
    }
}

// The same call on the server of whichever kind is there.
macro_rules! for_any {
    ($any:expr, $server:ident => $result:expr) => {
        match $any {
            AnyKind::Own($server) => $result,
            AnyKind::Fixed($server) => $result,
            AnyKind::Float($server) => $result,
        }
    };
}

impl Server for AnyKind {
    ghost use Rattle.kinds.specs.AnyKinds.{any_service, AnySteps};
    ghost use Rattle.kinds.specs.AnyKindLaws.{any_laws, any_moves};

    ghost service = { any_service };

    ghost steps = { AnySteps };

    ghost keeps = { any_laws };

    ghost moves = { any_moves };

    fn tick(&mut self, claimed: bool) -> bool {
        for_any!(self, server => server.tick(claimed))
    }

    fn worst(&self, n: u64) -> Result<u64, Fault> {
        for_any!(self, server => server.worst(n))
    }

    fn lead(&self) -> Result<u64, Fault> {
        for_any!(self, server => server.lead())
    }

    fn pace(&self, n: u64) -> Result<u64, Fault> {
        for_any!(self, server => server.pace(n))
    }
}
