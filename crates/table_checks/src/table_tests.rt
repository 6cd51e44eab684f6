use faults::error::Error;
use faults::fault::Fault;
use faults::layer::Layer;
use faults::reason::Reason;
use finish::table::finish_table;
use graph::graph::Graph;
use graph::origin::Origin;
use graph::parts::{Edge, Task};
use racks::one::One;
use racks::side_by_side::SideBySide;
use rows::Row;
use servers::fixed::Fixed;
use servers::own::Own;
use servers::server::Server;
use servers::settings::Settings;
use std::alloc::Global;
use std::test::Fail;

// A graph of tasks with times, some with an inlet, and edges from, to and with tokens.
pub(crate) fn graph_of(
    heap: Global,
    tasks: &[(u64, bool)],
    edges: &[(usize, usize, u64)],
) -> Result<Graph, Error> {
    let tasks = tasks
        .iter()
        .copied()
        .map(|(time, inlet)| Task { time, inlet })
        .collect(heap)?;
    let edges = edges
        .iter()
        .copied()
        .map(|(from, to, tokens)| Edge { from, to, tokens })
        .collect(heap)?;
    Ok(Graph::new(32, tasks, edges, Origin::Built)?)
}

// A fixed slice of so many ticks of each period.
pub(crate) fn slice_of(slice: u64, period: u64, phase: u64) -> Result<Fixed, Fault> {
    let settings = Settings {
        period,
        slice,
        phase,
    };
    Fixed::new(settings, 0)
}

#[test]
fn one_task_alone(rt: HostRuntime) -> Result<(), Fail> {
    for (period, slice, phase, time, times, expected) in [
        (10, 4, 4, 6, &[0, 5, 40][..], &[18, 30, 58][..]),
        (
            100,
            10,
            10,
            4,
            &[0, 0, 0, 0, 0, 0][..],
            &[94, 98, 192, 196, 200, 294][..],
        ),
        (
            100,
            10,
            10,
            15,
            &[0, 0, 0, 0, 0, 0][..],
            &[195, 300, 495, 600, 795, 900][..],
        ),
        (10, 3, 3, 5, &[0, 0, 0, 0, 0][..], &[19, 38, 50, 69, 88][..]),
        (
            10,
            5,
            5,
            7,
            &[0, 11, 22, 33, 44, 55][..],
            &[17, 29, 46, 58, 70, 87][..],
        ),
    ] {
        let graph = graph_of(rt.alloc(), &[(time, true)], &[])?;
        let rack = One {
            server: slice_of(slice, period, phase)?,
        };
        let mut table = vec![in rt.alloc(); 7; times.len()]?;
        let told = finish_table(&graph, &rack, times.len(), times, &mut table);
        assert_eq!(rt; told, Ok(()));
        assert_eq!(rt;
            table.as_slice(),
            expected,
            "{slice} of {period}, time {time}"
        );
    }
    Ok(())
}

// By lead and pace a firing ends its pace after the one before it, or lead and pace after its arrival.
#[test]
fn one_task_by_lead_and_pace(rt: HostRuntime) -> Result<(), Fail> {
    for (period, slice, time, times, expected) in [
        (10, 4, 6, &[0, 5, 40][..], &[21, 36, 61][..]),
        (
            100,
            10,
            4,
            &[0, 0, 0, 0, 0, 0][..],
            &[130, 170, 210, 250, 290, 330][..],
        ),
        (
            100,
            10,
            15,
            &[0, 0, 0, 0, 0, 0][..],
            &[240, 390, 540, 690, 840, 990][..],
        ),
    ] {
        let server = slice_of(slice, period, 0)?;
        let (lead, pace) = (server.lead()?, server.pace(time)?);
        let mut end = 0_u64;
        for (arrival, expected) in times.iter().zip(expected) {
            end = end.max(lead.saturating_add(*arrival)).saturating_add(pace);
            assert_eq!(rt; end, *expected, "{slice} of {period}, time {time}");
        }
    }
    Ok(())
}

#[test]
fn split_and_punch(rt: HostRuntime) -> Result<(), Fail> {
    let graph = graph_of(
        rt.alloc(),
        &[(6, true), (9, false)],
        &[(0, 1, 0), (1, 0, 1)],
    )?;
    let rack = SideBySide {
        first: One {
            server: slice_of(4, 10, 4)?,
        },
        second: One { server: Own },
    };
    let mut table = [7; 2];
    assert_eq!(rt; finish_table(&graph, &rack, 1, &[0], &mut table), Ok(()));
    assert_eq!(rt; table, [18, 27]);
    Ok(())
}

// Tasks a, b1, b2, c1, c2 and d, each on a processor of its own.
#[test]
fn six_tasks_in_a_ring(rt: HostRuntime) -> Result<(), Fail> {
    let tasks = [
        (2, false),
        (4, false),
        (4, false),
        (6, false),
        (6, false),
        (2, false),
    ];
    let edges = [
        (0, 1, 0),
        (0, 2, 0),
        (0, 3, 0),
        (0, 4, 0),
        (1, 2, 0),
        (2, 1, 1),
        (1, 5, 0),
        (2, 5, 0),
        (3, 5, 0),
        (4, 5, 0),
        (5, 0, 2),
    ];
    let graph = graph_of(rt.alloc(), &tasks, &edges)?;
    let rack = Row {
        servers: vec![in rt.alloc(); Own; 6]?,
    };
    let mut table = [7; 24];
    assert_eq!(rt; finish_table(&graph, &rack, 4, &[], &mut table), Ok(()));
    assert_eq!(rt; &table[0..4], [2, 4, 14, 22].as_slice());
    assert_eq!(rt; &table[8..12], [10, 18, 26, 34].as_slice());
    assert_eq!(rt; &table[20..24], [12, 20, 28, 36].as_slice());
    Ok(())
}

#[test]
fn refusals(rt: HostRuntime) -> Result<(), Fail> {
    let graph = graph_of(rt.alloc(), &[(6, true)], &[])?;
    let rack = One {
        server: slice_of(4, 10, 4)?,
    };
    let length = Layer::Table.refuses(Reason::Length, 0, 0);
    let order = Layer::Table.refuses(Reason::Times, 0, 0);
    let above = Layer::Table.refuses(Reason::Ceiling, 0, 0);
    for (n, times, expected, left) in [
        (0, &[0, 5][..], Err(length), [7, 7]),
        (257, &[0, 5][..], Err(length), [7, 7]),
        (2, &[0][..], Err(length), [7, 7]),
        (1, &[0][..], Err(length), [7, 7]),
        (2, &[5, 0][..], Err(order), [7, 7]),
        (2, &[0, 1_000_000_000_001][..], Err(order), [7, 7]),
        (2, &[0, 1_000_000_000_000][..], Err(above), [0, 0]),
        (2, &[5, 5][..], Ok(()), [23, 35]),
    ] {
        let mut table = [7; 2];
        assert_eq!(rt;
            finish_table(&graph, &rack, n, times, &mut table),
            expected,
            "{n} firings"
        );
        assert_eq!(rt; table, left, "{n} firings");
    }
    let pair = SideBySide {
        first: rack,
        second: One { server: Own },
    };
    let mut table = [7; 2];
    let misfit = Layer::Runner.refuses(Reason::Missing, 0, 0);
    assert_eq!(rt;
        finish_table(&graph, &pair, 0, &[], &mut table),
        Err(misfit)
    );
    assert_eq!(rt; table, [7, 7]);
    Ok(())
}
