ghost use Rattle.std.specs.Prelude.{vec_items as items};
ghost use Rattle.std.proofs.Props.{props};
ghost use Rattle.edges.specs.Edges.{Within};
ghost use Rattle.edges.specs.Sorts.{SortedBy};
ghost use Rattle.edges.specs.declared.edge.Side.TheVariants.{From, To};

use crate::edge::Edge;
use crate::sort::Sorted;

pub mod build;
pub mod view;

// The edges between the tasks below `tasks`: in the order of the file, sorted by target, and sorted by source.
#[derive(Drop)]
pub struct EdgeTable {
    tasks: usize,
    edges: Vec<Edge>,
    target: Sorted,
    source: Sorted,
    ghost within: { Within (items edges) tasks },
    ghost target_sorted: { SortedBy To (items edges) tasks target } by { Prim.hlevel props },
    ghost source_sorted: { SortedBy From (items edges) tasks source } by { Prim.hlevel props },
}
