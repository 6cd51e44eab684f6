ghost use Rattle.std.specs.Prelude.{◌↔◌, IsTrue};
ghost use Rattle.graph.specs.Edges.{Ends};
ghost use Rattle.graph.specs.Legal.{Times, Tokens, Counts, Ranges};

use crate::parts::{Edge, LONGEST_GOAL, LONGEST_TIME, MOST_EDGES, MOST_TASKS, MOST_TOKENS, Task};

/// 1 to 16 tasks and 0 to 48 edges.
pub(crate) fn legal_counts(tasks: &[Task], edges: &[Edge]) -> bool
    ensures { IsTrue result ↔ Counts tasks.now edges.now }
{
    (1..=MOST_TASKS).contains(&tasks.len()) && edges.len() <= MOST_EDGES
}

fn legal_times(tasks: &[Task]) -> bool
    ensures { IsTrue result ↔ Times tasks.now }
{
    tasks
        .iter()
        .all(|task| (1..=LONGEST_TIME).contains(&task.time))
}

fn legal_tokens(edges: &[Edge]) -> bool
    ensures { IsTrue result ↔ Tokens edges.now }
{
    edges.iter().all(|edge| edge.tokens <= MOST_TOKENS)
}

/// Goal, times and tokens within their ranges.
pub(crate) fn legal_ranges(goal: u64, tasks: &[Task], edges: &[Edge]) -> bool
    ensures { IsTrue result ↔ Ranges goal tasks.now edges.now }
{
    (1..=LONGEST_GOAL).contains(&goal) && legal_times(tasks) && legal_tokens(edges)
}

/// Every edge runs between two of the tasks.
pub(crate) fn legal_ends(edges: &[Edge], tasks: usize) -> bool
    ensures { IsTrue result ↔ Ends edges.now tasks }
{
    edges
        .iter()
        .all(|edge| edge.from < tasks && edge.to < tasks)
}
