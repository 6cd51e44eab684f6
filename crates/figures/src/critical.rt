ghost use Rattle.std.specs.Prelude.{◌≡◌, ℕ, ◌<◌, ◌≤◌, [], ◌∷◌, length, map, take, slice_index};
ghost use Rattle.servers.specs.Service.{Service};
ghost use Rattle.flow.specs.Nets.{net_of};
ghost use Rattle.flow.specs.Rings.{edge, out_of, Ring};
ghost use Rattle.walks.specs.Arcs.{arcs_of};
ghost use Rattle.rings.specs.Cycles.{OnEdges, Short, Reaches, hops_of};
ghost use Rattle.figures.specs.Critical.{CriticalOf, ring_tasks};

use crate::ring_tasks::RingTasks;
use graph::graph::Graph;
use graph::parts::MOST_TASKS;
use rings::cycle::Critical;
use walks::found::Walk;

/// The task that each edge of a walk leaves.
fn sources(graph: &Graph, walk: &Walk) -> [usize; MOST_TASKS]
    requires few { walk.now.count ≤ 16 }
    requires edges { OnEdges graph.now walk.now }
    ensures { take walk.now.count result ≡ map (out_of (net_of graph.now)) (map edge (arcs_of walk.now)) }
{
    let mut tasks = [0; MOST_TASKS];
    for i in 0..walk.count {
        tasks[i] = graph.edges[walk.arcs[i]].from;
    }
    tasks
}

/// The place of the least of them.
fn place_of_least(tasks: &[usize]) -> usize
    requires { 0 < length tasks.now }
    ensures place { result < length tasks.now }
    ensures least { (k : ℕ) → k < length tasks.now → slice_index tasks.now result ≤ slice_index tasks.now k }
{
    let mut least = 0;
    for (i, task) in tasks.iter().enumerate() {
        if *task < tasks[least] {
            least = i;
        }
    }
    least
}

/// The tasks that the edges of a ring leave, told from the first of them in the sheet.
fn from_first(graph: &Graph, walk: &Walk) -> RingTasks
    requires few { walk.now.count ≤ 16 }
    requires ring { Ring (net_of graph.now) (map edge (arcs_of walk.now)) }
    ensures { (service : ℕ → Service) (cycle parts : ℕ) → Reaches (net_of graph.now) service cycle parts (map edge (arcs_of walk.now)) → CriticalOf (net_of graph.now) service cycle parts (ring_tasks result) }
{
    let mut tasks = sources(graph, walk);
    let first = place_of_least(&tasks[..walk.count]);
    tasks[..walk.count].rotate_left(first);
    RingTasks {
        tasks,
        count: walk.count,
    }
}

/// A task by itself.
fn alone(task: usize) -> RingTasks
    ensures { ring_tasks result ≡ task ∷ [] }
{
    let mut tasks = [0; MOST_TASKS];
    tasks[0] = task;
    RingTasks { tasks, count: 1 }
}

/// The tasks of a ring, told from the first of them in the sheet.
pub(crate) fn critical(graph: &Graph, ring: &Critical) -> RingTasks
    requires short { Short ring.now }
    requires ring { Ring (net_of graph.now) (hops_of ring.now) }
    ensures { (service : ℕ → Service) (cycle parts : ℕ) → Reaches (net_of graph.now) service cycle parts (hops_of ring.now) → CriticalOf (net_of graph.now) service cycle parts (ring_tasks result) }
{
    match ring {
        Critical::Link(task) => alone(*task),
        Critical::Edges(walk) => from_first(graph, walk),
    }
}
