#![tactic(auto)]

use reader::room::Room;
use report::report::report;
use std::io;
use std::io::{Read, Write};

// No report is longer: its rows are at most 16 of a name and five numbers, and 16 of a name.
const MOST_BYTES: usize = 2048;

// Reads a sheet from standard input and writes its report.
fn main(rt: HostRuntime) -> io::Result<()> {
    let heap = rt.alloc();
    let mut text = Vec::new(heap);
    rt.stdin().read_to_end(&mut text)?;
    let mut out = Vec::with_capacity(heap, MOST_BYTES)?;
    report(&mut out, &text, Room::new(heap)?)?;
    rt.stdout().write_all(&out)
}
