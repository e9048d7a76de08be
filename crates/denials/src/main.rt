// Damages the hillside's file in one place after another, and prints what the sheet's program would print of each.
#![tactic(auto)]

use sectors::sheet_of;
use std::io;
use std::io::Write;

// The hillside: five tasks and six edges.
const HILLSIDE: [u8; 62] =
    *b"\x01\x05\x06\x06ground\x04\x1e\x05rocks\x03\x14\x05grass\x05\x14\x05paths\x02\x0a\x05light\x04\x0a\x00\x01\x02\x00\x02\x01\x00\x03\x01\x01\x04\x01\x02\x04\x02\x03\x04\x01";

fn show(rt: &HostRuntime, what: &str, file: &[u8]) -> io::Result<()> {
    let output = sheet_of(rt.alloc(), file)?;
    print!(rt; "{what}: ")?;
    rt.stdout().write_all(&output)
}

// The hillside with some bytes changed, each given by its offset and its new value.
fn changed(bytes: &[(usize, u8)]) -> [u8; 62] {
    let mut file = HILLSIDE;
    for (at, byte) in bytes {
        if let Some(place) = file.get_mut(*at) {
            *place = *byte;
        }
    }
    file
}

fn show_cuts(rt: &HostRuntime) -> io::Result<()> {
    show(rt, "nothing", &HILLSIDE[0..0])?;
    show(rt, "1 byte", &HILLSIDE[0..1])?;
    show(rt, "10 bytes", &HILLSIDE[0..10])?;
    show(rt, "30 bytes", &HILLSIDE[0..30])?;
    show(rt, "61 bytes", &HILLSIDE[0..61])?;
    let mut longer = HILLSIDE.to_vec(rt.alloc())?;
    longer.push(0)?;
    show(rt, "one byte more", &longer)
}

fn show_records(rt: &HostRuntime) -> io::Result<()> {
    show(rt, "another kind", &changed(&[(0, 2)]))?;
    show(
        rt,
        "a task count that ends in 0",
        &changed(&[(1, 133), (2, 0)]),
    )?;
    show(rt, "a name of 0 bytes", &changed(&[(3, 0)]))?;
    show(rt, "a name of 32 bytes", &changed(&[(3, 32)]))?;
    show(rt, "a time of 0", &changed(&[(10, 0)]))?;
    show(rt, "a space in a name", &changed(&[(14, 32)]))?;
    show(rt, "an edge to no task", &changed(&[(60, 5)]))?;
    show(rt, "an edge to its own task", &changed(&[(60, 3)]))
}

fn show_graphs(rt: &HostRuntime) -> io::Result<()> {
    show(rt, "a repeated edge", &changed(&[(59, 0), (60, 1)]))?;
    show(rt, "a cycle", &changed(&[(59, 4), (60, 1)]))?;
    show(rt, "a task larger than the memory", &changed(&[(27, 101)]))?;
    show(rt, "no room for rocks", &changed(&[(19, 90), (27, 90)]))
}

fn main(rt: HostRuntime) -> io::Result<()> {
    show_cuts(&rt)?;
    show_records(&rt)?;
    show_graphs(&rt)
}
