#![tactic(auto)]

use ahead::ahead::Ahead;
use graph::parts::MOST_TASKS;
use lexer::lines::Lines;
use reader::room::Room;
use session::opening::{SheetRack, open};
use session::session::Session;
use std::alloc::{AllocError, Global};
use std::io;
use std::io::{Read, Write};

// So many bytes of a case's calls are read at once, and so many lines lie on the belt: few, so that lines are cut and the belt fills.
const CHUNK: usize = 7;

const LINES: usize = 2;

// A case stands in one line, the sheet and then the calls, with `|` between them and `/` for their line ends.
fn text_of(heap: Global, part: &[u8]) -> Result<Vec<u8>, AllocError> {
    part.iter()
        .filter(|byte| **byte != b'\n')
        .map(|byte| if *byte == b'/' { b'\n' } else { *byte })
        .collect(heap)
}

// What stands before and behind the bar of a case.
fn parts_of(case: &[u8]) -> (&[u8], &[u8]) {
    let bar = case
        .iter()
        .position(|byte| *byte == b'|')
        .unwrap_or(case.len());
    let sheet = case.get(..bar).unwrap_or_default();
    let calls = case.get(bar + 1..).unwrap_or_default();
    (sheet, calls)
}

// Works off what was read, and moves what it prints to `all`.
fn work_off(
    session: &mut Session<'_, '_, SheetRack>,
    out: &mut Vec<u8>,
    all: &mut Vec<u8>,
) -> Result<(), AllocError> {
    for _ in 0..u64::MAX {
        if !session.is_busy() {
            break;
        }
        session.go(out)?;
        all.extend_from_slice(out)?;
        out.clear();
    }
    Ok(())
}

// Reads the calls in small pieces, and works each off.
fn play(
    session: &mut Session<'_, '_, SheetRack>,
    calls: &[u8],
    out: &mut Vec<u8>,
    all: &mut Vec<u8>,
) -> Result<(), AllocError> {
    let mut rest = calls;
    for _ in 0..u64::MAX {
        if rest.is_empty() || session.is_done() {
            break;
        }
        let piece = rest.get(..CHUNK).unwrap_or(rest);
        let taken = session.take(piece);
        work_off(session, out, all)?;
        rest = rest.get(taken?..).unwrap_or_default();
    }
    session.end(out)?;
    all.extend_from_slice(out)?;
    out.clear();
    Ok(())
}

// Appends what is printed of a case.
fn play_case(heap: Global, case: &[u8], all: &mut Vec<u8>) -> Result<(), AllocError> {
    let (sheet, calls) = parts_of(case);
    let sheet = text_of(heap, sheet)?;
    let calls = text_of(heap, calls)?;
    let mut records = [None; MOST_TASKS];
    let mut given = [None; LINES];
    let mut out = Vec::new(heap);
    let room = Room::new(heap)?;
    let ahead = Ahead::new(heap)?;
    let opened = open(&sheet, room, ahead, &mut records, &mut given, &mut out)?;
    all.extend_from_slice(&out)?;
    out.clear();
    match opened {
        Some(mut session) => play(&mut session, &calls, &mut out, all),
        None => Ok(()),
    }
}

// Reads cases from standard input, and writes what is printed of each.
fn main(rt: HostRuntime) -> io::Result<()> {
    let heap = rt.alloc();
    let mut cases = Vec::new(heap);
    rt.stdin().read_to_end(&mut cases)?;
    let mut all = Vec::new(heap);
    for case in Lines::new(&cases) {
        play_case(heap, case, &mut all)?;
    }
    rt.stdout().write_all(&all)
}
