#![tactic(auto)]

use finish::table::{MOST_FIRINGS, finish_table};
use reader::read::read;
use reader::room::Room;
use sheets::sheet::Sheet;
use std::alloc::{AllocError, Global};
use std::io;
use std::io::{Read, Write};

// How many tables are filled.
const TABLES: u64 = 400;

// In table j arrival k comes at every inlet at goal × k + j.
fn arrivals(heap: Global, sheet: &Sheet, j: u64) -> Result<Vec<u64>, AllocError> {
    let inlets = sheet.graph.tasks.iter().filter(|task| task.inlet).count();
    let goal = sheet.graph.goal;
    (0..inlets * MOST_FIRINGS)
        .map(|at| ((at % MOST_FIRINGS) as u64)
            .saturating_mul(goal)
            .saturating_add(j))
        .collect(heap)
}

// Each entry goes into the sum behind those before it.
fn checksum(before: u64, table: &[u64]) -> u64 {
    table.iter().fold(before, |sum, entry| {
        sum.wrapping_mul(31).wrapping_add(*entry) % 1_000_000_007
    })
}

// Reads a sheet from standard input, fills its finish table 400 times, and writes a checksum of all entries.
fn main(rt: HostRuntime) -> io::Result<()> {
    let heap = rt.alloc();
    let mut text = Vec::new(heap);
    rt.stdin().read_to_end(&mut text)?;
    let Ok(sheet) = read(&text, Room::new(heap)?) else {
        return writeln!(rt.stdout(), "no sheet");
    };
    let mut table = Vec::new(heap);
    table.resize(sheet.tasks.len() * MOST_FIRINGS, 0)?;
    let mut sum = 0;
    for j in 0..TABLES {
        let times = arrivals(heap, &sheet, j)?;
        if let Err(fault) = finish_table(
            &sheet.graph,
            &sheet.rack,
            MOST_FIRINGS,
            &times,
            &mut table,
        ) {
            return writeln!(rt.stdout(), "{fault}");
        }
        sum = checksum(sum, &table);
    }
    writeln!(rt.stdout(), "tables {TABLES} checksum {sum}")
}
