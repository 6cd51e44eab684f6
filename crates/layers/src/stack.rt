use crate::inner::Inner;
use faults::fault::{Fault, LineNumber};
use servers::server::Server;
use servers::settings::Settings;

/// A server as it is, or with an inner layer over it.
#[derive(Clone, Copy, PartialEq, Eq, Debug)]
pub enum Stack<S> {
    Bare(S),
    Layered(Inner<S>),
}

impl<S: Drop> Stack<S> {
    ghost use Rattle.layers.specs.Stacks.{MakesStack};

    /// `Settings::NONE` means no layer. No `Option`: a planner writes three numbers for a layer, and a `Some` of 0 0 0 would have to be refused.
    pub fn new(below: S, layer: Settings, line: LineNumber) -> Result<Stack<S>, Fault>
        ensures { MakesStack below layer line result }
    {
        if layer == Settings::NONE {
            return Ok(Stack::Bare(below));
        }
        Inner::new(below, layer, line).map(Stack::Layered)
    }
}

// The same call on what stands there.
macro_rules! for_either {
    ($stack:expr, $server:ident => $result:expr) => {
        match $stack {
            Stack::Bare($server) => $result,
            Stack::Layered($server) => $result,
        }
    };
}

impl<S: Server> Server for Stack<S> {
    ghost use Rattle.layers.specs.Stacks.{stack_service, StackSteps};
    ghost use Rattle.layers.specs.StackLaws.{stack_laws, stack_moves};

    ghost service = { stack_service S.Server.service };

    ghost steps = { StackSteps S.Server.steps };

    ghost keeps = { stack_laws S.Server.keeps };

    ghost moves = { stack_moves S.Server.keeps S.Server.moves };

    fn tick(&mut self, claimed: bool) -> bool {
        for_either!(self, server => server.tick(claimed))
    }

    fn worst(&self, n: u64) -> Result<u64, Fault> {
        for_either!(self, server => server.worst(n))
    }

    fn lead(&self) -> Result<u64, Fault> {
        for_either!(self, server => server.lead())
    }

    fn pace(&self, n: u64) -> Result<u64, Fault> {
        for_either!(self, server => server.pace(n))
    }
}
