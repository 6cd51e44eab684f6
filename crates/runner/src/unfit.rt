use faults::fault::Fault;
use graph::graph::Graph;

/// A graph and a rack that do not fit each other, as they were, with the refusal.
#[derive(Drop)]
pub struct Unfit<R> {
    pub fault: Fault,
    pub graph: Graph,
    pub rack: R,
}
