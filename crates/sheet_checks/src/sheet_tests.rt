use graph::parts::Edge;
use kinds::kind::Kind;
use names::name::Name;
use reader::read::read;
use reader::room::Room;
use servers::settings::Settings;
use sheets::sheet::SheetTask;
use std::alloc::AllocError;
use std::test::Fail;
use texts::line::{Cell, put_line};
use texts::{all_or_nothing, put, put_each, put_number};
use writer::write;

const SAMPLE: &[u8] =
    b"goal\n32\n\ntask time kind period slice phase inner inslice inphase inlet\nsplit 6 fixed 10 4 4 0 0 0 1\npunch 9 own 1 1 0 3 1 2 0\n\nfrom to tokens\nsplit punch 0\npunch split 255\n";

fn settings(period: u64, slice: u64, phase: u64) -> Settings {
    Settings {
        period,
        slice,
        phase,
    }
}

fn edge(from: usize, to: usize, tokens: u64) -> Edge {
    Edge { from, to, tokens }
}

#[test]
fn sheet_as_types(rt: HostRuntime) -> Result<(), Fail> {
    let sheet = read(SAMPLE, Room::new(rt.alloc())?)?;
    let split = SheetTask {
        name: Name::try_from(b"split".as_slice())?,
        time: 6,
        kind: Kind::Fixed,
        slice: settings(10, 4, 4),
        layer: settings(0, 0, 0),
        inlet: true,
    };
    let punch = SheetTask {
        name: Name::try_from(b"punch".as_slice())?,
        time: 9,
        kind: Kind::Own,
        slice: settings(1, 1, 0),
        layer: settings(3, 1, 2),
        inlet: false,
    };
    assert_eq!(rt; sheet.tasks.as_slice(), [split, punch].as_slice());
    assert_eq!(rt; sheet.tasks[1].name.as_bytes(), b"punch".as_slice());
    assert_eq!(rt; sheet.graph.goal, 32);
    let edges = [edge(0, 1, 0), edge(1, 0, 255)];
    assert_eq!(rt; sheet.graph.edges.as_slice(), edges.as_slice());
    assert_eq!(rt; sheet.rack.servers.len(), 2);
    Ok(())
}

#[test]
fn written_back(rt: HostRuntime) -> Result<(), Fail> {
    let sheet = read(SAMPLE, Room::new(rt.alloc())?)?;
    let mut out = Vec::new(rt.alloc());
    write(&mut out, &sheet)?;
    assert_eq!(rt; out.as_slice(), SAMPLE);
    Ok(())
}

#[test]
fn names_of_12_bytes(rt: HostRuntime) -> Result<(), Fail> {
    let name = Name::new(b"abcdefghijkl").ok_or("12 bytes are a name")?;
    assert_eq!(rt; name.as_bytes(), b"abcdefghijkl".as_slice());
    assert!(rt; Name::new(b"abcdefghijklm").is_none());
    Ok(())
}

#[test]
fn put_as_lines(rt: HostRuntime) -> Result<(), Fail> {
    let mut out = Vec::new(rt.alloc());
    put_line(&mut out, &[Cell::Word(b"most"), Cell::Number(u64::MAX)])?;
    put_line(&mut out, &[])?;
    put_each(&mut out, &[1, 20, 300], |out, n| put_number(out, *n))?;
    assert_eq!(rt;
        out.as_slice(),
        b"most 18446744073709551615\n\n120300".as_slice()
    );
    Ok(())
}

#[test]
fn all_put_or_taken_back(rt: HostRuntime) -> Result<(), Fail> {
    let mut out = Vec::new(rt.alloc());
    all_or_nothing(&mut out, |out| put(out, b"kept"))?;
    let done = all_or_nothing(&mut out, |out| put(out, b" lost").and(Err(AllocError)));
    assert_eq!(rt; done, Err(AllocError));
    assert_eq!(rt; out.as_slice(), b"kept".as_slice());
    Ok(())
}
