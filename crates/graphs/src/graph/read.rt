ghost use Rattle.std.specs.Prelude.{◌≡◌, ℕ, ◌<◌, ◌≤◌, map, length, Ok, Err, vec_items as items, MatchResult, slice_index_or};
ghost use Rattle.edges.specs.Tables.{listed};
ghost use Rattle.orders.specs.Orders.{Ordered};
ghost use Rattle.graphs.specs.declared.fault.GraphFault.TheVariants.{Repeated, Cycle};
ghost use Rattle.graphs.specs.Drafts.{drafted};
ghost use Rattle.graphs.specs.Files.{uncycled, graph_of, Denies, Read, Lawful, RepeatedIn, CycleIn};
ghost use Rattle.graphs.specs.Graphs.{spelled, parts_of};
ghost use Rattle.graphs.specs.Parts.{parts_over, no_parts, Limited};

use crate::draft::Draft;
use crate::fault::GraphFault;
use crate::graph::Graph;
use crate::types::{Name, Task};
use edges::{EdgeTable, TableFault};
use orders::{Order, order_tasks};
use records::fault::with_record;
use records::read::read_head;
use std::alloc::Global;

// The graph of these parts, whose tasks are in order.
fn assemble(tasks: Vec<Task>, names: Vec<Name>, table: EdgeTable, found: Order) -> Graph
    requires limited { Limited (parts_over (items tasks) (map spelled (items names)) (listed table)) }
    requires joined { table.tasks ≡ length (items tasks) }
    requires ordered { Ordered (listed table) (length (items tasks)) (items found.rank) (items found.order) }
    ensures { parts_of result ≡ parts_over (items tasks) (map spelled (items names)) (listed table) }
{
    let Order { order, rank } = found;
    Graph {
        tasks,
        names,
        table,
        order,
        rank,
    }
}

// The graph of parts within their limits; refused where they have a cycle.
fn build(heap: Global, draft: Draft) -> Result<Graph, GraphFault>
    requires { Limited (drafted draft) }
    ensures { MatchResult result (λ g. uncycled (drafted draft) ≡ Ok (parts_of g)) (Denies (uncycled (drafted draft))) }
{
    let Draft {
        tasks,
        names,
        edges,
        pairs: _,
    } = draft;
    // no `From`: only this call knows that no end can be missing
    let table = match EdgeTable::new(heap, tasks.len(), edges) {
        Ok(table) => table,
        Err(TableFault::Memory) => return Err(GraphFault::Memory),
        Err(TableFault::NoTask) => unreachable(),
    };
    let found = order_tasks(heap, &table)?;
    Ok(assemble(tasks, names, table, found))
}

fn read_graph(heap: Global, file: &[u8]) -> Result<Graph, GraphFault>
    ensures { MatchResult result (λ g. graph_of file.now ≡ Ok (parts_of g)) (Denies (graph_of file.now)) }
{
    let head = with_record(read_head(file), 0)?;
    let draft = Draft::read(heap, file, head)?;
    build(heap, draft)
}

impl Graph {
    // No task and no edge.
    pub fn new(heap: Global) -> Graph
        ensures { parts_of result ≡ no_parts }
    {
        Graph {
            tasks: Vec::new(heap),
            names: Vec::new(heap),
            table: EdgeTable::empty(heap),
            order: Vec::new(heap),
            rank: Vec::new(heap),
        }
    }

    // The file's graph in place of what was there; a refusal leaves no task.
    pub fn read(&mut self, heap: Global, file: &[u8]) -> Result<(), GraphFault>
        ensures is { Read (graph_of file.now) result (parts_of self.new) }
        ensures law { Lawful file.now result (parts_of self.new) }
        ensures repeated { (place : ℕ) → result ≡ Err (Repeated place) → RepeatedIn file.now place }
        ensures cycle { (t : ℕ) → result ≡ Err (Cycle t) → CycleIn file.now t }
    {
        *self = Graph::new(heap);
        *self = read_graph(heap, file)?;
        Ok(())
    }
}
