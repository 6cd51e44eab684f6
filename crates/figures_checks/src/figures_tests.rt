use faults::error::Error;
use faults::fault::Fault;
use faults::layer::Layer;
use faults::reason::Reason;
use figures::figures::{Figures, figures_of};
use graph::graph::Graph;
use graph::origin::Origin;
use graph::parts::{Edge, Task};
use racks::one::One;
use racks::side_by_side::SideBySide;
use ratios::verdict::Verdict;
use rows::Row;
use servers::fixed::Fixed;
use servers::own::Own;
use servers::settings::Settings;
use std::alloc::Global;
use std::test::Fail;

// A graph of a goal, of tasks with these times and no inlet, and of edges from, to and with tokens.
fn graph_of(
    heap: Global,
    goal: u64,
    times: &[u64],
    edges: &[(usize, usize, u64)],
) -> Result<Graph, Error> {
    let tasks = times
        .iter()
        .copied()
        .map(|time| Task { time, inlet: false })
        .collect(heap)?;
    let edges = edges
        .iter()
        .copied()
        .map(|(from, to, tokens)| Edge { from, to, tokens })
        .collect(heap)?;
    Ok(Graph::new(goal, tasks, edges, Origin::Sheet)?)
}

// The slice 4 of 10, which begins in its gap.
fn slice() -> Result<Fixed, Fault> {
    let settings = Settings {
        period: 10,
        slice: 4,
        phase: 4,
    };
    Fixed::new(settings, 0)
}

#[test]
fn split_and_punch(rt: HostRuntime) -> Result<(), Fail> {
    for (goal, margin, verdict) in [
        (32, 2, Verdict::Keeps),
        (30, 0, Verdict::Keeps),
        (29, -1, Verdict::Late),
    ] {
        let graph = graph_of(rt.alloc(), goal, &[6, 9], &[(0, 1, 0), (1, 0, 1)])?;
        let rack = SideBySide {
            first: One { server: slice()? },
            second: One { server: Own },
        };
        let found = figures_of(&graph, &rack)?;
        assert_eq!(rt; (found.ratio.cycle, found.ratio.parts), (30, 1));
        assert_eq!(rt; (found.margin, found.verdict), (margin, verdict));
        assert_eq!(rt; &found.starts[..3], [21, 30, 0].as_slice());
        assert_eq!(rt; &found.loads[..3], [500, 300, 0].as_slice());
        assert_eq!(rt; found.critical.as_slice(), [0, 1].as_slice());
    }
    Ok(())
}

// The edges stand so that the search walks the ring from its second task.
#[test]
fn punch_before_split(rt: HostRuntime) -> Result<(), Fail> {
    let graph = graph_of(rt.alloc(), 32, &[9, 6], &[(1, 0, 0), (0, 1, 1)])?;
    let rack = SideBySide {
        first: One { server: Own },
        second: One { server: slice()? },
    };
    let found = figures_of(&graph, &rack)?;
    assert_eq!(rt; (found.ratio.cycle, found.ratio.parts), (30, 1));
    assert_eq!(rt; &found.starts[..2], [30, 21].as_slice());
    assert_eq!(rt; &found.loads[..2], [300, 500].as_slice());
    assert_eq!(rt; found.critical.as_slice(), [0, 1].as_slice());
    Ok(())
}

// The figures where each task has a processor of its own.
fn on_own(
    heap: Global,
    goal: u64,
    times: &[u64],
    edges: &[(usize, usize, u64)],
) -> Result<Figures, Error> {
    let graph = graph_of(heap, goal, times, edges)?;
    let rack = Row {
        servers: vec![in heap; Own; times.len()]?,
    };
    Ok(figures_of(&graph, &rack)?)
}

// Tasks a, b1, b2, c1, c2 and d: the ring of b1 and b2 takes the most ticks per token.
#[test]
fn six_tasks(rt: HostRuntime) -> Result<(), Fail> {
    let edges = [
        (0, 1, 0),
        (0, 2, 0),
        (0, 3, 0),
        (0, 4, 0),
        (1, 2, 0),
        (2, 1, 1),
        (1, 5, 0),
        (2, 5, 0),
        (3, 5, 0),
        (4, 5, 0),
        (5, 0, 2),
    ];
    let found = on_own(rt.alloc(), 32, &[2, 4, 4, 6, 6, 2], &edges)?;
    assert_eq!(rt; (found.ratio.cycle, found.ratio.parts), (8, 1));
    assert_eq!(rt; &found.starts[..6], [2, 6, 10, 8, 8, 12].as_slice());
    assert_eq!(rt;
        &found.loads[..6],
        [250, 500, 500, 750, 750, 250].as_slice()
    );
    assert_eq!(rt; found.critical.as_slice(), [1, 2].as_slice());
    Ok(())
}

// So many rings are found one above the other that the search narrows the ratio.
#[test]
fn a_long_search(rt: HostRuntime) -> Result<(), Fail> {
    let times = [65_535, 5_412, 65_535, 65_535, 58_074, 1, 100, 50_969];
    let edges = [
        (0, 2, 0),
        (3, 5, 0),
        (3, 2, 1),
        (1, 3, 0),
        (7, 3, 1),
        (2, 3, 1),
        (7, 1, 1),
        (4, 7, 0),
        (5, 2, 1),
        (6, 2, 1),
        (5, 6, 0),
        (2, 4, 0),
        (4, 1, 1),
        (3, 0, 2),
        (3, 6, 0),
        (6, 7, 0),
    ];
    let found = on_own(rt.alloc(), 122_812, &times, &edges)?;
    assert_eq!(rt; (found.ratio.cycle, found.ratio.parts), (122_813, 1));
    assert_eq!(rt; (found.margin, found.verdict), (-1, Verdict::Late));
    assert_eq!(rt;
        &found.starts[..8],
        [
            65_535, 122_712, 131_070, 188_247, 189_144, 188_248, 188_348, 240_113
        ]
        .as_slice()
    );
    assert_eq!(rt;
        &found.loads[..8],
        [534, 44, 534, 534, 473, 0, 1, 415].as_slice()
    );
    assert_eq!(rt; found.critical.as_slice(), [1, 3, 5, 6, 2, 4, 7].as_slice());
    Ok(())
}

// The edges stand so that the search walks the ring from its last task down.
#[test]
fn told_along_the_edges(rt: HostRuntime) -> Result<(), Fail> {
    let edges = [(2, 1, 0), (1, 0, 0), (0, 2, 1)];
    let found = on_own(rt.alloc(), 12, &[3, 4, 5], &edges)?;
    assert_eq!(rt; (found.ratio.cycle, found.ratio.parts), (12, 1));
    assert_eq!(rt; &found.starts[..3], [12, 9, 5].as_slice());
    assert_eq!(rt; &found.loads[..3], [250, 333, 417].as_slice());
    assert_eq!(rt; found.critical.as_slice(), [0, 2, 1].as_slice());
    Ok(())
}

#[test]
fn two_tokens_in_a_ring(rt: HostRuntime) -> Result<(), Fail> {
    let edges = [(0, 1, 0), (1, 2, 1), (2, 0, 1)];
    for (goal, margin, verdict) in [(4, -1, Verdict::Late), (5, 1, Verdict::Keeps)] {
        let found = on_own(rt.alloc(), goal, &[3, 3, 3], &edges)?;
        assert_eq!(rt; (found.ratio.cycle, found.ratio.parts), (9, 2));
        assert_eq!(rt; (found.margin, found.verdict), (margin, verdict));
        assert_eq!(rt; &found.starts[..3], [6, 12, 9].as_slice());
        assert_eq!(rt; &found.loads[..3], [667, 667, 667].as_slice());
        assert_eq!(rt; found.critical.as_slice(), [0, 1, 2].as_slice());
    }
    Ok(())
}

// The slowest task by itself: where the edges' ring has more tokens, and where there is none.
#[test]
fn a_link_alone(rt: HostRuntime) -> Result<(), Fail> {
    for (times, edges, cycle, starts, loads) in [
        (
            &[2, 5][..],
            &[(0, 1, 0), (1, 0, 3)][..],
            5,
            [2, 7],
            [400, 1000],
        ),
        (&[1, 16][..], &[][..], 16, [1, 16], [63, 1000]),
    ] {
        let found = on_own(rt.alloc(), 32, times, edges)?;
        assert_eq!(rt; (found.ratio.cycle, found.ratio.parts), (cycle, 1));
        assert_eq!(rt; &found.starts[..2], starts.as_slice());
        assert_eq!(rt; &found.loads[..2], loads.as_slice());
        assert_eq!(rt; found.critical.as_slice(), [1].as_slice());
    }
    Ok(())
}

#[test]
fn refused(rt: HostRuntime) -> Result<(), Fail> {
    let graph = graph_of(rt.alloc(), 32, &[6, 9], &[(0, 1, 0), (1, 0, 1)])?;
    let rack = One { server: slice()? };
    let missing = Layer::Runner.refuses(Reason::Missing, 0, 0);
    assert_eq!(rt; figures_of(&graph, &rack).err(), Some(missing));
    Ok(())
}
