ghost use Rattle.std.specs.Prelude.{◌≡◌, ◌<◌, length, take, drop, IfOk, Ok};
ghost use Rattle.graphs.specs.Files.{graph_of};
ghost use Rattle.graphs.specs.Names.{name_in, name_of, part_seen, Named};
ghost use Rattle.graphs.specs.Parts.{Parts};

use crate::fault::{GraphFault, NameFault};
use crate::graph::Graph;
use records::fault::with_record;
use records::read::{Records, read_head};
use records::types::Record;
use std::alloc::Global;

// The name of a task of a file that is accepted, and its offset.
fn find_name<'a>(file: &'a [u8], task: usize) -> Result<(&'a [u8], usize), GraphFault>
    requires { (p : Parts) × (graph_of file.now ≡ Ok p) × (task < length p.tasks) }
    ensures { (p : Parts) → graph_of file.now ≡ Ok p → part_seen result ≡ Ok (name_in p task) }
{
    let head = with_record(read_head(file), 0)?;
    let mut records = Records::new(file, head);
    for _ in 0..task {
        records.read_next()?;
    }
    let Record::Task { name, place, .. } = records.read_next()? else {
        unreachable()
    };
    Ok((name, place))
}

// The name of a task as a part of the file, and its offset there. The whole file is read first.
pub fn name_of<'a>(
    heap: Global,
    file: &'a [u8],
    task: usize,
) -> Result<(&'a [u8], usize), NameFault>
    ensures is { Named (name_of file.now task) result }
    ensures stands { IfOk result (λ p. take (length p.0.now) (drop p.1 file.now) ≡ p.0.now) }
{
    let mut graph = Graph::new(heap);
    graph.read(heap, file)?;
    if task >= graph.tasks().len() {
        return Err(NameFault::NoTask { task });
    }
    Ok(find_name(file, task)?)
}
