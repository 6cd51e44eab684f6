ghost use Rattle.std.specs.Prelude.{◌≡◌, ℕ, ◌*◌, ◌<◌, ◌≤◌, pos, slice_index, slice_index_or, unsigned_abs, vec_len, length};
ghost use Rattle.graph.specs.Edges.{edge_at};
ghost use Rattle.walks.specs.Arcs.{arc_at};
ghost use Rattle.rings.specs.Spans.{Told, arc_of};

use graph::graph::Graph;
use graph::parts::{Edge, MOST_EDGES, MOST_TASKS};
use ratios::ratio::Ratio;
use walks::arcs::Arc;

/// An edge as the search has it: its lag gains parts for each tick of its weight, and loses cycle for each token.
fn arc(edge: Edge, spans: &[u64; MOST_TASKS], ratio: Ratio) -> Arc
    requires to { edge.to < 16 }
    requires tokens { edge.tokens ≤ 255 }
    requires span { slice_index spans.now edge.to ≤ 1000000000000 }
    ensures { result ≡ arc_of spans.now ratio.cycle ratio.parts edge }
{
    Arc {
        from: edge.from,
        to: edge.to,
        lag: (ratio.parts * spans[edge.to]) as i64 - (ratio.cycle * edge.tokens) as i64,
    }
}

/// The arc of each edge.
pub(crate) fn arcs(graph: &Graph, spans: &[u64; MOST_TASKS], ratio: Ratio) -> [Arc; MOST_EDGES]
    requires { Told graph.now spans.now }
    ensures long { length result ≡ 48 }
    ensures arcs { (e : ℕ) → e < vec_len graph.now.edges → arc_at result e ≡ arc_of spans.now ratio.cycle ratio.parts (edge_at graph.now.edges.items e) }
{
    let mut arcs = [Arc {
        from: 0,
        to: 0,
        lag: 0,
    }; MOST_EDGES];
    for (e, edge) in graph.edges.iter().enumerate() {
        arcs[e] = arc(*edge, spans, ratio);
    }
    arcs
}

/// The base of each task: parts for each tick of its span.
pub(crate) fn bases(graph: &Graph, spans: &[u64; MOST_TASKS], ratio: Ratio) -> [i64; MOST_TASKS]
    requires { Told graph.now spans.now }
    ensures long { length result ≡ 16 }
    ensures bases { (v : ℕ) → v < vec_len graph.now.tasks → slice_index_or result v (pos 0) ≡ pos (ratio.parts * slice_index spans.now v) }
{
    let mut bases = [0; MOST_TASKS];
    for v in 0..graph.tasks.len() {
        bases[v] = (ratio.parts * spans[v]) as i64;
    }
    bases
}

/// The values without their signs.
pub(crate) fn whole(values: &[i64; MOST_TASKS]) -> [u64; MOST_TASKS]
    ensures { (v : ℕ) → v < 16 → slice_index result v ≡ unsigned_abs (slice_index_or values.now v (pos 0)) }
{
    let mut numbers = [0; MOST_TASKS];
    for v in 0..MOST_TASKS {
        numbers[v] = values[v].unsigned_abs();
    }
    numbers
}
