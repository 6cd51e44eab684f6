#![tactic(auto)]

use ahead::ahead::Ahead;
use graph::parts::MOST_TASKS;
use reader::room::Room;
use session::opening::{SheetRack, open};
use session::session::Session;
use std::alloc::{AllocError, Global};
use std::fs::File;
use std::io;
use std::io::{ErrorKind, Read, Write};

// A sheet has at most 8,192 bytes, so that of a longer file no more need be read.
const MOST_READ: u64 = 8193;

// Of calls, as many bytes and lines as are read at once.
const CHUNK: usize = 4096;

const LINES: usize = 64;

// The sheet's text; none where the file is missing or cannot be read.
fn sheet_text(rt: &HostRuntime, heap: Global) -> Result<Vec<u8>, AllocError> {
    let mut text = Vec::with_capacity(heap, 2 * CHUNK + 64)?;
    if let Ok(file) = File::open(rt, "sheet") {
        if file.take(MOST_READ).read_to_end(&mut text).is_err() {
            text.clear();
        }
    }
    Ok(text)
}

// Writes what is in the buffer, and empties it.
fn write_out(rt: &HostRuntime, out: &mut Vec<u8>) -> io::Result<()> {
    if !out.is_empty() {
        rt.stdout().write_all(out)?;
        out.clear();
    }
    Ok(())
}

// Works off all that was read, and writes what it prints.
fn work_off(
    rt: &HostRuntime,
    session: &mut Session<'_, '_, SheetRack>,
    out: &mut Vec<u8>,
) -> io::Result<()> {
    for _ in 0..u64::MAX {
        if !session.is_busy() {
            break;
        }
        session.go(out)?;
        write_out(rt, out)?;
    }
    Ok(())
}

// Reads these bytes of the calls, and works them off.
fn read_on(
    rt: &HostRuntime,
    session: &mut Session<'_, '_, SheetRack>,
    bytes: &[u8],
    out: &mut Vec<u8>,
) -> io::Result<()> {
    let mut rest = bytes;
    for _ in 0..u64::MAX {
        if rest.is_empty() || session.is_done() {
            break;
        }
        let taken = session.take(rest);
        // Where memory lacks for a line, those above it were read, and are still printed.
        work_off(rt, session, out)?;
        rest = rest.get(taken?..).unwrap_or_default();
    }
    Ok(())
}

// Reads the calls to their end, or to the line that is refused.
fn play(
    rt: &HostRuntime,
    session: &mut Session<'_, '_, SheetRack>,
    out: &mut Vec<u8>,
) -> io::Result<()> {
    let mut chunk = [0; CHUNK];
    for _ in 0..u64::MAX {
        if session.is_done() {
            break;
        }
        let n = match rt.stdin().read(&mut chunk) {
            Ok(n) => n,
            Err(error) if error.kind() == ErrorKind::Interrupted => continue,
            Err(error) => return Err(error),
        };
        if n == 0 {
            session.end(out)?;
            return write_out(rt, out);
        }
        read_on(rt, session, &chunk[..n], out)?;
    }
    Ok(())
}

// Drives the tasks of the sheet in the file `sheet` by the calls that standard input has.
fn main(rt: HostRuntime) -> io::Result<()> {
    let heap = rt.alloc();
    let text = sheet_text(&rt, heap)?;
    let mut records = [None; MOST_TASKS];
    let mut given = [None; LINES];
    let mut out = Vec::with_capacity(heap, 2 * CHUNK)?;
    let room = Room::new(heap)?;
    let ahead = Ahead::new(heap)?;
    let opened = open(&text, room, ahead, &mut records, &mut given, &mut out)?;
    write_out(&rt, &mut out)?;
    match opened {
        Some(mut session) => play(&rt, &mut session, &mut out),
        None => Ok(()),
    }
}
