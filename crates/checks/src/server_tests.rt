use faults::fault::{Fault, LineNumber};
use faults::layer::Layer;
use faults::reason::Reason;
use kinds::any_kind::AnyKind;
use kinds::kind::Kind;
use layers::inner::Inner;
use layers::stack::Stack;
use racks::one::One;
use racks::rack::Rack;
use racks::side_by_side::SideBySide;
use rows::Row;
use servers::fixed::Fixed;
use servers::float::Float;
use servers::own::Own;
use servers::server::Server;
use servers::settings::Settings;
use std::process::Abort;
use std::test::Fail;

// Of one tick each: 'x' is claimed by others.
const QUIET: &[u8; 20] = b"....................";

const BUSY: &[u8; 20] = b"xxxxxxxxxxxxxxxxxxxx";

const MIXED: &[u8; 20] = b"x.xx..x.xxxxxxxx.xxx";

fn settings(period: u64, slice: u64, phase: u64) -> Settings {
    Settings {
        period,
        slice,
        phase,
    }
}

// The pairs are n and the worst wait for n, and n and its pace.
fn tells<S: Server>(
    rt: &impl Abort,
    server: &S,
    worst: &[(u64, u64)],
    lead: u64,
    pace: &[(u64, u64)],
) {
    for &(n, figure) in worst {
        assert_eq!(rt; server.worst(n), Ok(figure));
    }
    assert_eq!(rt; server.lead(), Ok(lead));
    for &(n, figure) in pace {
        assert_eq!(rt; server.pace(n), Ok(figure));
    }
}

#[test]
fn worked_figures(rt: HostRuntime) -> Result<(), Fail> {
    let fixed = Fixed::new(settings(10, 4, 4), 0)?;
    tells(
        &rt,
        &fixed,
        &[(0, 0), (1, 7), (4, 10), (5, 17), (12, 30)],
        6,
        &[(5, 13), (6, 15)],
    );
    let float = Float::new(settings(10, 4, 0), 0)?;
    tells(
        &rt,
        &float,
        &[(0, 0), (1, 13), (4, 16), (5, 23)],
        12,
        &[(5, 13)],
    );
    let inner = Inner::new(fixed, settings(3, 1, 0), 0)?;
    tells(&rt, &inner, &[(1, 9), (2, 18)], 11, &[(1, 8)]);
    let own = Own::new(settings(1, 1, 0), 0)?;
    tells(
        &rt,
        &own,
        &[(0, 0), (1_000_000_000_000, 1_000_000_000_000)],
        0,
        &[(7, 7)],
    );
    Ok(())
}

#[test]
fn above_the_ceiling(rt: HostRuntime) -> Result<(), Fail> {
    let above = Layer::Server.refuses(Reason::Ceiling, 0, 0);
    let long = Fixed::new(settings(65_535, 1, 0), 0)?;
    assert_eq!(rt; long.worst(15_259_021), Ok(999_999_941_235));
    assert_eq!(rt; long.worst(15_259_022), Err(above));
    assert_eq!(rt; long.pace(u64::MAX), Err(above));
    assert_eq!(rt; Own.worst(1_000_000_000_001), Err(above));
    let pile = Inner::new(long, settings(65_535, 1, 0), 0)?;
    assert_eq!(rt; pile.lead(), Ok(4_294_836_224));
    assert_eq!(rt; pile.worst(232), Ok(996_402_004_200));
    assert_eq!(rt; pile.worst(233), Err(above));
    Ok(())
}

// What refuses settings on a line that are not taken.
fn refusal(taken: bool, line: LineNumber) -> Option<Fault> {
    (!taken).then_some(Layer::Server.refuses(Reason::Settings, line, 0))
}

// Whether each kind takes the settings, as own, fixed and float in turn; a layer takes those that a fixed slice takes.
fn takes(rt: &impl Abort, s: Settings, own: bool, fixed: bool, float: bool) {
    for (kind, taken) in [(Kind::Own, own), (Kind::Fixed, fixed), (Kind::Float, float)] {
        assert_eq!(rt; AnyKind::new(kind, s, 7).err(), refusal(taken, 7));
    }
    assert_eq!(rt; Inner::new(Own, s, 9).err(), refusal(fixed, 9));
}

#[test]
fn settings_refused(rt: HostRuntime) {
    takes(&rt, settings(1, 1, 0), true, true, true);
    takes(&rt, settings(10, 4, 0), false, true, true);
    takes(&rt, settings(10, 4, 9), false, true, false);
    takes(&rt, settings(10, 4, 10), false, false, false);
    takes(&rt, settings(65_535, 65_535, 0), false, true, true);
    takes(&rt, settings(65_536, 1, 0), false, false, false);
    takes(&rt, settings(4, 5, 0), false, false, false);
    takes(&rt, settings(4, 0, 0), false, false, false);
    takes(&rt, settings(0, 0, 0), false, false, false);
}

// In the marks '#' is granted.
fn grants<S: Server + Drop>(rt: &impl Abort, mut server: S, claims: &[u8; 20], marks: &[u8; 20]) {
    let granted = claims.map(|claim| if server.tick(claim == b'x') {
        b'#'
    } else {
        b'.'
    });
    assert_eq!(rt; granted, *marks);
}

#[test]
fn grants_over_two_periods(rt: HostRuntime) -> Result<(), Fail> {
    grants(&rt, Own, BUSY, b"####################");
    grants(
        &rt,
        Fixed::new(settings(10, 4, 7), 0)?,
        BUSY,
        b"...####......####...",
    );
    grants(
        &rt,
        Fixed::new(settings(10, 4, 7), 0)?,
        QUIET,
        b"...####......####...",
    );
    let float = Float::new(settings(10, 4, 0), 0)?;
    grants(&rt, float, QUIET, b"####......####......");
    grants(&rt, float, BUSY, b"......####......####");
    grants(&rt, float, MIXED, b".#..##.#........####");
    Ok(())
}

#[test]
fn grants_of_piles(rt: HostRuntime) -> Result<(), Fail> {
    let below = Fixed::new(settings(10, 4, 7), 0)?;
    grants(
        &rt,
        Inner::new(below, settings(3, 1, 0), 0)?,
        BUSY,
        b"...#..#........#....",
    );
    let float = Float::new(settings(10, 4, 0), 0)?;
    grants(
        &rt,
        Inner::new(float, settings(3, 2, 1), 0)?,
        MIXED,
        b".#...#.#.........##.",
    );
    let middle = Inner::new(float, settings(3, 2, 0), 0)?;
    grants(
        &rt,
        Inner::new(middle, settings(2, 1, 0), 0)?,
        MIXED,
        b".#.....#..........#.",
    );
    Ok(())
}

#[test]
fn printed_line(rt: HostRuntime) -> Result<(), Fail> {
    let fault = Layer::Graph.refuses(Reason::TokenFreeRing, 5, 0);
    let line = fault.to_string(rt.alloc())?;
    assert_eq!(rt; line.as_str(), "refused graph 11 5 0");
    Ok(())
}

// A sheet's task: a server of a kind with or without a layer.
fn stack(kind: Kind, base: Settings, layer: Settings) -> Result<Stack<AnyKind>, Fault> {
    Stack::new(AnyKind::new(kind, base, 1)?, layer, 1)
}

#[test]
fn rack_by_place(rt: HostRuntime) -> Result<(), Fail> {
    let mut servers = Vec::new(rt.alloc());
    servers.push(stack(Kind::Fixed, settings(10, 4, 3), settings(3, 1, 0))?)?;
    servers.push(stack(Kind::Float, settings(10, 4, 0), settings(0, 0, 0))?)?;
    let mut rack = SideBySide {
        first: One { server: Own },
        second: Row { servers },
    };
    assert_eq!(rt; rack.places(), 3);
    let no_place = Layer::Runner.refuses(Reason::Missing, 0, 0);
    let figures = [
        rack.worst(1, 1),
        rack.lead(2),
        rack.pace(0, 5),
        rack.worst(3, 1),
    ];
    assert_eq!(rt; figures, [Ok(9), Ok(12), Ok(5), Err(no_place)]);
    let asked = [(3, false), (1, false), (1, false), (2, true), (0, true)];
    let ticks = asked.map(|(place, claimed)| rack.tick(place, claimed));
    let told = [Err(no_place), Ok(true), Ok(false), Ok(false), Ok(true)];
    assert_eq!(rt; ticks, told);
    Ok(())
}
