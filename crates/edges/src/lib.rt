// The edges between the tasks of a graph, with the edges into and out of each task as slices.
#![tactic(auto)]

mod edge;
mod sort;
pub mod table;

pub use edge::{Edge, Side};
pub use table::EdgeTable;
pub use table::build::TableFault;
