use crate::table_tests::{graph_of, slice_of};
use faults::layer::Layer;
use faults::reason::Reason;
use finish::ledger::Ledger;
use racks::one::One;
use racks::side_by_side::SideBySide;
use servers::own::Own;
use std::test::Fail;

#[test]
fn told_step_by_step(rt: HostRuntime) -> Result<(), Fail> {
    let graph = graph_of(rt.alloc(), &[(6, true)], &[])?;
    let rack = One {
        server: slice_of(4, 10, 4)?,
    };
    let mut ledger = Ledger::new(&graph, &rack)?;
    ledger.arrive(0, 0);
    ledger.arrive(0, 5);
    assert_eq!(rt; ledger.bound(&graph, 0), 18);
    assert_eq!(rt; ledger.bound(&graph, 0), 30);
    ledger.arrive(0, 40);
    assert_eq!(rt; ledger.bound(&graph, 0), 58);
    Ok(())
}

#[test]
fn split_then_punch(rt: HostRuntime) -> Result<(), Fail> {
    let graph = graph_of(
        rt.alloc(),
        &[(6, true), (9, false)],
        &[(0, 1, 0), (1, 0, 1)],
    )?;
    let rack = SideBySide {
        first: One {
            server: slice_of(4, 10, 4)?,
        },
        second: One { server: Own },
    };
    let mut ledger = Ledger::new(&graph, &rack)?;
    ledger.arrive(0, 0);
    assert_eq!(rt; ledger.bound(&graph, 0), 18);
    assert_eq!(rt; ledger.bound(&graph, 1), 27);
    Ok(())
}

// A task that takes nothing, with time 1 on a processor of its own: firing i has the bound i + 1.
#[test]
fn from_firing_256_on(rt: HostRuntime) -> Result<(), Fail> {
    let graph = graph_of(rt.alloc(), &[(1, false)], &[])?;
    let mut ledger = Ledger::new(&graph, &One { server: Own })?;
    for i in 0..260 {
        let expected = if i < 256 { i + 1 } else { 0 };
        assert_eq!(rt; ledger.bound(&graph, 0), expected, "firing {i}");
    }
    Ok(())
}

#[test]
fn above_the_ceiling_and_missing(rt: HostRuntime) -> Result<(), Fail> {
    let graph = graph_of(rt.alloc(), &[(6, true)], &[])?;
    let rack = One {
        server: slice_of(4, 10, 4)?,
    };
    let mut ledger = Ledger::new(&graph, &rack)?;
    ledger.arrive(16, 0);
    ledger.arrive(0, 999_999_999_982);
    ledger.arrive(0, 999_999_999_983);
    ledger.arrive(0, 18_446_744_073_709_551_615);
    assert_eq!(rt; ledger.bound(&graph, 1), 0);
    assert_eq!(rt; ledger.bound(&graph, 0), 1_000_000_000_000);
    assert_eq!(rt; ledger.bound(&graph, 0), 0);
    assert_eq!(rt; ledger.bound(&graph, 0), 0);
    let pair = SideBySide {
        first: rack,
        second: One { server: Own },
    };
    let misfit = Layer::Runner.refuses(Reason::Missing, 0, 0);
    assert_eq!(rt; Ledger::new(&graph, &pair).err(), Some(misfit));
    Ok(())
}
