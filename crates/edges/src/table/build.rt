ghost use Rattle.std.specs.Prelude.{◌≡◌, ℕ, ◌<◌, [], length, vec_items as items, Decides};
ghost use Rattle.edges.specs.Edges.{Within};
ghost use Rattle.edges.specs.Tables.{Tabled};
ghost use Rattle.edges.specs.declared.table.build.TableFault.TheVariants.{Memory};

use crate::edge::{Edge, Side};
use crate::sort::Sorted;
use crate::table::EdgeTable;
use std::alloc::{AllocError, Global};

// Why no table was made: memory is short, or an edge has an end that is no task.
#[derive(Clone, Copy, PartialEq, Eq, Debug)]
pub enum TableFault {
    Memory,
    NoTask,
}

impl From<AllocError> for TableFault {
    ghost from_gives = { λ _ r. r ≡ Memory };

    fn from(_e: AllocError) -> TableFault {
        TableFault::Memory
    }
}

fn are_within(edges: &[Edge], tasks: usize) -> bool
    ensures { Decides result (Within edges.now tasks) }
{
    edges.iter().all(|e| e.from < tasks && e.to < tasks)
}

impl EdgeTable {
    // No task and no edge.
    pub fn empty(heap: Global) -> EdgeTable
        ensures { (result.tasks ≡ 0) × (items result.edges ≡ []) }
    {
        EdgeTable {
            tasks: 0,
            edges: Vec::new(heap),
            target: Sorted::empty(heap, Side::To),
            source: Sorted::empty(heap, Side::From),
        }
    }

    // The table of these edges; refused where an end is no task, or for want of memory.
    pub fn new(heap: Global, tasks: usize, edges: Vec<Edge>) -> Result<EdgeTable, TableFault>
        ensures { Tabled tasks (items edges) result }
    {
        if !are_within(&edges, tasks) {
            return Err(TableFault::NoTask);
        }
        let target = Sorted::new(heap, &edges, Side::To, tasks)?;
        let source = Sorted::new(heap, &edges, Side::From, tasks)?;
        Ok(EdgeTable {
            tasks,
            edges,
            target,
            source,
        })
    }
}
