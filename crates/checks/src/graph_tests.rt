use faults::layer::Layer;
use faults::reason::Reason;
use graph::graph::Graph;
use graph::origin::Origin;
use graph::parts::{Edge, Task};
use racks::one::One;
use servers::fixed::Fixed;
use servers::settings::Settings;
use std::alloc::{AllocError, Global};
use std::test::Fail;

// So many tasks of one time, and edges from, to and with tokens.
fn parts(
    heap: Global,
    tasks: usize,
    time: u64,
    edges: &[(usize, usize, u64)],
) -> Result<(Vec<Task>, Vec<Edge>), AllocError> {
    let task = Task { time, inlet: false };
    let all = vec![in heap; task; tasks]?;
    let list = edges
        .iter()
        .copied()
        .map(|(from, to, tokens)| Edge { from, to, tokens })
        .collect(heap)?;
    Ok((all, list))
}

// A refusal's number, layer, line and field.
type Told = (u8, Layer, u32, u32);

// By what the graph of a sheet is refused, none where it is accepted.
fn refusal(
    heap: Global,
    goal: u64,
    tasks: usize,
    time: u64,
    edges: &[(usize, usize, u64)],
) -> Result<Option<Told>, AllocError> {
    let (tasks, edges) = parts(heap, tasks, time, edges)?;
    let refused = Graph::new(goal, tasks, edges, Origin::Sheet).err();
    Ok(refused.map(|fault| (fault.reason.number(), fault.layer, fault.line, fault.field)))
}

// What a graph is refused by.
fn by(number: u8, line: u32) -> Option<Told> {
    Some((number, Layer::Graph, line, 0))
}

#[test]
fn counts_ranges_ends(rt: HostRuntime) -> Result<(), Fail> {
    let most: &[(usize, usize, u64)] = &[(0, 1, 1); 48];
    let over: &[(usize, usize, u64)] = &[(0, 1, 1); 49];
    for (goal, tasks, time, edges, expected) in [
        (32, 0, 6, &[][..], by(9, 0)),
        (32, 16, 6, &[][..], None),
        (32, 17, 6, &[][..], by(9, 0)),
        (32, 2, 6, most, None),
        (32, 2, 6, over, by(9, 0)),
        (0, 2, 6, &[][..], by(5, 0)),
        (1_000_000_000, 2, 6, &[][..], by(5, 0)),
        (32, 2, 65_536, &[][..], by(5, 0)),
        (32, 2, 0, &[][..], by(5, 0)),
        (32, 2, 6, &[(0, 1, 256)][..], by(5, 0)),
        (32, 2, 6, &[(0, 2, 1)][..], by(8, 0)),
    ] {
        assert_eq!(rt;
            refusal(rt.alloc(), goal, tasks, time, edges)?,
            expected,
            "{tasks} tasks of {time}, goal {goal}"
        );
    }
    Ok(())
}

#[test]
fn topmost_on_a_ring(rt: HostRuntime) -> Result<(), Fail> {
    for (tasks, edges, expected) in [
        (2, &[(0, 1, 0), (1, 0, 1)][..], None),
        (2, &[(0, 1, 0), (1, 0, 0)][..], by(11, 5)),
        (
            4,
            &[(0, 1, 0), (1, 3, 0), (3, 2, 0), (2, 1, 0)][..],
            by(11, 6),
        ),
        (3, &[(0, 1, 0), (2, 2, 0)][..], by(11, 7)),
        (4, &[(3, 2, 0), (2, 1, 0), (1, 0, 0), (3, 0, 0)][..], None),
    ] {
        assert_eq!(rt;
            refusal(rt.alloc(), 32, tasks, 6, edges)?,
            expected,
            "{tasks} tasks"
        );
    }
    Ok(())
}

#[test]
fn against_a_rack(rt: HostRuntime) -> Result<(), Fail> {
    let slow = Settings {
        period: 65_535,
        slice: 1,
        phase: 0,
    };
    let one = One {
        server: Fixed::new(slow, 0)?,
    };
    let (tasks, edges) = parts(rt.alloc(), 1, 65_535, &[])?;
    let alone = Graph::new(32, tasks, edges, Origin::Built)?;
    assert_eq!(rt; alone.check_rack(&one), Ok(()));
    let (tasks, edges) = parts(rt.alloc(), 2, 6, &[])?;
    let two = Graph::new(32, tasks, edges, Origin::Built)?;
    let misfit = Layer::Runner.refuses(Reason::Missing, 0, 0);
    assert_eq!(rt; two.check_rack(&one), Err(misfit));
    Ok(())
}
