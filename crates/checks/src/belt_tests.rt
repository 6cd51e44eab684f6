use belt::belt::Belt;
use belt::returned::Returned;
use faults::fault::Fault;
use faults::layer::Layer;
use faults::reason::Reason;
use std::process::Abort;

// Keeps the belt full while 1, 2, 3, .. 9 pass through it, and then empties it.
fn passes_through(rt: &impl Abort, slots: &mut [Option<u32>]) {
    let room = slots.len();
    let mut belt = Belt::new(slots);
    let mut oldest = 1..10u32;
    for item in 1..10u32 {
        if belt.free() == 0 {
            assert_eq!(rt; belt.take(), oldest.next());
        }
        assert!(rt; belt.put(item).is_ok());
    }
    assert_eq!(rt; belt.len(), room);
    for item in oldest {
        assert_eq!(rt; belt.take(), Some(item));
    }
    assert!(rt; belt.is_empty() && belt.free() == room);
}

#[test]
fn wraps_around(rt: HostRuntime) {
    passes_through(&rt, &mut [Some(7)]);
    passes_through(&rt, &mut [None, Some(8)]);
    passes_through(&rt, &mut [Some(7), None, Some(9)]);
}

#[derive(Clone, Copy, PartialEq, Debug)]
struct Sample {
    task: usize,
    clock: u64,
}

fn at(clock: u64) -> Sample {
    Sample { task: 3, clock }
}

#[test]
fn full_gives_the_item_back(rt: HostRuntime) {
    let mut slots = [None; 1];
    let mut belt = Belt::new(&mut slots);
    assert_eq!(rt; belt.put(at(5)), Ok(()));
    let fault = Layer::Belt.refuses(Reason::SlotsTaken, 0, 0);
    let item = at(6);
    assert_eq!(rt; belt.put(item), Err(Returned { fault, item }));
    assert_eq!(rt; belt.len(), 1);
    for expected in [Some(at(5)), None, None] {
        assert_eq!(rt; belt.take(), expected);
    }
}

// The fault alone rises.
fn put_one(belt: &mut Belt<'_, u32>) -> Result<(), Fault> {
    belt.put(1)?;
    Ok(())
}

#[test]
fn no_slots(rt: HostRuntime) {
    let mut slots: [Option<u32>; 0] = [];
    let mut belt = Belt::new(&mut slots);
    assert!(rt; belt.is_empty() && belt.len() == 0 && belt.free() == 0);
    assert_eq!(rt; belt.take(), None);
    assert_eq!(rt;
        put_one(&mut belt),
        Err(Layer::Belt.refuses(Reason::SlotsTaken, 0, 0))
    );
}
