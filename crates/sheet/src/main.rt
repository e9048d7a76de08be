// Reads a graph file from standard input and prints the sheet of its plan, or the line of the denial.
#![tactic(auto)]

use sectors::sheet_of;
use std::io;
use std::io::{Read, Write};

// No file that is longer can be accepted.
const MOST: u64 = 65536;

fn main(rt: HostRuntime) -> io::Result<()> {
    let heap = rt.alloc();
    let mut file = Vec::new(heap);
    let _ = rt.stdin().take(MOST).read_to_end(&mut file)?;
    let output = sheet_of(heap, &file)?;
    rt.stdout().write_all(&output)
}
