#![tactic(auto)]

use lexer::lines::Lines;
use reader::room::Room;
use report::report::report;
use std::alloc::{AllocError, Global};
use std::io;
use std::io::{Read, Write};

// A case stands in one line, with `/` for the sheet's line ends.
fn sheet_of(heap: Global, case: &[u8]) -> Result<Vec<u8>, AllocError> {
    case.iter()
        .filter(|byte| **byte != b'\n')
        .map(|byte| if *byte == b'/' { b'\n' } else { *byte })
        .collect(heap)
}

// Reads cases from standard input, and writes the report of each.
fn main(rt: HostRuntime) -> io::Result<()> {
    let heap = rt.alloc();
    let mut cases = Vec::new(heap);
    rt.stdin().read_to_end(&mut cases)?;
    let mut out = Vec::new(heap);
    for case in Lines::new(&cases) {
        let text = sheet_of(heap, case)?;
        report(&mut out, &text, Room::new(heap)?)?;
    }
    rt.stdout().write_all(&out)
}
