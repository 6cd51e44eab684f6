ghost use Rattle.std.specs.Prelude.{◌≡◌, ℕ, ◌*◌, ◌<◌, ◌≤◌, slice_index, vec_len, map};
ghost use Rattle.servers.specs.Service.{Service};
ghost use Rattle.flow.specs.Nets.{net_of};
ghost use Rattle.flow.specs.Rings.{edge};
ghost use Rattle.flow.specs.Rings as rings;
ghost use Rattle.walks.specs.Arcs.{arcs_of};
ghost use Rattle.rings.specs.Spans.{Told, Spans, Paced};
ghost use Rattle.rings.specs.Cycles.{OnEdges, Kept, Tells, Figures, AnswersFigures};

use crate::at_ratio::{AtRatio, search};
use crate::weights::{Weights, weights_on};
use faults::fault::Fault;
use graph::graph::Graph;
use graph::parts::MOST_TASKS;
use racks::rack::Rack;
use ratios::ratio::{MOST_RING_TOKENS, MOST_WEIGHT, Ratio};
use walks::found::Walk;

/// A ring that reaches cycle over parts: a task's link to itself, or edges.
#[derive(Clone, Copy, PartialEq, Eq, Debug)]
pub enum Critical {
    Link(usize),
    Edges(Walk),
}

/// Cycle over parts, a ring that reaches it, and the start figure of each task.
#[derive(Clone, Copy, PartialEq, Eq, Debug)]
pub struct RingFigures {
    pub ratio: Ratio,
    pub starts: [u64; MOST_TASKS],
    pub ring: Critical,
}

/// The best ring so far, and the ratio that it reaches.
#[derive(Clone, Copy)]
struct Best {
    ratio: Ratio,
    ring: Critical,
}

/// What a try at a ratio tells: start figures, or a ring above it.
#[derive(Clone, Copy)]
enum Tried {
    Starts([u64; MOST_TASKS]),
    Slower(Best),
}

/// Nearly every search ends within so many tries.
const USUAL_TRIES: u64 = 16;

/// So many halvings of at most `MOST_WEIGHT` leave no more than 1.
const HALVINGS: u64 = 44;

/// The task of the greatest pace.
fn slowest(graph: &Graph, paces: &[u64; MOST_TASKS]) -> usize
    ensures task { result < vec_len graph.now.tasks }
    ensures most { (v : ℕ) → v < vec_len graph.now.tasks → slice_index paces.now v ≤ slice_index paces.now result }
{
    let mut best = 0;
    for v in 1..graph.tasks.len() {
        if paces[v] > paces[best] {
            best = v;
        }
    }
    best
}

/// What the edges of a walk weigh.
fn weight(graph: &Graph, spans: &[u64; MOST_TASKS], walk: &Walk) -> u64
    requires told { Told graph.now spans.now }
    requires few { walk.now.count ≤ 16 }
    requires edges { OnEdges graph.now walk.now }
    ensures value { (service : ℕ → Service) → Spans graph.now service spans.now → result ≡ rings.weight (net_of graph.now) service (map edge (arcs_of walk.now)) }
    ensures bound { result ≤ 1000000000000 * walk.now.count }
{
    let mut sum = 0;
    for i in 0..walk.count {
        sum += spans[graph.edges[walk.arcs[i]].to];
    }
    sum
}

/// What the edges of a walk hold.
fn tokens(graph: &Graph, walk: &Walk) -> u64
    requires few { walk.now.count ≤ 16 }
    requires edges { OnEdges graph.now walk.now }
    ensures value { result ≡ rings.tokens_on (net_of graph.now) (map edge (arcs_of walk.now)) }
    ensures bound { result ≤ 255 * walk.now.count }
{
    let mut sum = 0;
    for i in 0..walk.count {
        sum += graph.edges[walk.arcs[i]].tokens;
    }
    sum
}

/// One search at a ratio: the start figures there, or a ring above it with its own ratio.
fn try_at(graph: &Graph, weights: &Weights, ratio: Ratio) -> Tried
    requires told { Told graph.now weights.now.spans }
    ensures { (service : ℕ → Service) → Spans graph.now service weights.now.spans → Tells (net_of graph.now) service ratio.cycle ratio.parts result }
{
    match search(graph, &weights.spans, ratio) {
        AtRatio::Starts(starts) => Tried::Starts(starts),
        AtRatio::Slower(walk) => Tried::Slower(Best {
            ratio: Ratio::new(weight(graph, &weights.spans, &walk), tokens(graph, &walk)).unwrap(),
            ring: Critical::Edges(walk),
        }),
    }
}

/// Halves what lies between the best ratio and `most` over `parts`, until no more than one of the parts is left: a ring above the middle is the best one then, and start figures there show that none is above.
fn halve(graph: &Graph, weights: &Weights, from: Best, parts: u64, most: u64) -> Best
    requires told { Told graph.now weights.now.spans }
    requires some { 1 ≤ parts }
    requires few { parts ≤ 4080 }
    requires most { most ≤ 16000000000000 }
    requires kept { Kept graph.now weights.now from }
    ensures { Kept graph.now weights.now result }
{
    let mut best = from;
    let mut high = most;
    for _ in 0..HALVINGS {
        let low = best.ratio.cycle * parts / best.ratio.parts;
        if low + 1 >= high {
            break;
        }
        let middle = low + (high - low) / 2;
        let probe = Ratio::new(middle, parts).unwrap();
        match try_at(graph, weights, probe) {
            Tried::Starts(_) => high = middle,
            Tried::Slower(above) => best = above,
        }
    }
    best
}

/// Brings the best ring so near to the largest ratio that few are left between them: within a tick, then within a tick over about as many parts as a ring of such a ratio may have tokens, which weighs at most `MOST_WEIGHT`.
fn narrow(graph: &Graph, weights: &Weights, from: Best) -> Best
    requires told { Told graph.now weights.now.spans }
    requires kept { Kept graph.now weights.now from }
    ensures { Kept graph.now weights.now result }
{
    let best = halve(graph, weights, from, 1, MOST_WEIGHT);
    let most = best.ratio.cycle / best.ratio.parts + 1;
    let parts = (MOST_WEIGHT / most).clamp(1, MOST_RING_TOKENS);
    halve(graph, weights, best, parts, MOST_WEIGHT.min(most * parts))
}

/// From ring to ring, each above the last one, until start figures end it.
fn climb(graph: &Graph, weights: &Weights, from: Best) -> RingFigures
    requires told { Told graph.now weights.now.spans }
    requires kept { Kept graph.now weights.now from }
    ensures { Figures graph.now weights.now result }
{
    let mut best = from;
    'tries: loop {
        match try_at(graph, weights, best.ratio) {
            Tried::Starts(starts) => {
                return RingFigures {
                    ratio: best.ratio,
                    starts,
                    ring: best.ring,
                };
            }
            Tried::Slower(ring) => best = ring,
        }
    }
}

/// The figures by spans and paces: from the slowest link on, each ring above the last ratio gives the next one, and start figures end the search. Where the usual tries have not ended it, it goes on near the largest ratio, so that the tries are bounded.
fn work_out(graph: &Graph, weights: &Weights) -> RingFigures
    requires told { Told graph.now weights.now.spans }
    requires paced { Paced graph.now weights.now.paces }
    ensures { Figures graph.now weights.now result }
{
    let first = slowest(graph, &weights.paces);
    let mut best = Best {
        ratio: Ratio::new(weights.paces[first], 1).unwrap(),
        ring: Critical::Link(first),
    };
    for _ in 0..USUAL_TRIES {
        match try_at(graph, weights, best.ratio) {
            Tried::Starts(starts) => {
                return RingFigures {
                    ratio: best.ratio,
                    starts,
                    ring: best.ring,
                };
            }
            Tried::Slower(ring) => best = ring,
        }
    }
    climb(graph, weights, narrow(graph, weights, best))
}

/// Cycle over parts, a ring that reaches it and the start figures of a graph on a rack; refused where the rack is.
pub fn ring_figures<R: Rack>(graph: &Graph, rack: &R) -> Result<RingFigures, Fault>
    ensures { AnswersFigures graph.now (R.Rack.places rack.now) (R.Rack.service rack.now) result }
{
    let weights = weights_on(graph, rack)?;
    Ok(work_out(graph, &weights))
}
