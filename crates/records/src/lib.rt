// The records of a graph file: its head, and then tasks whose names are parts of the file, edges, and the end.
#![tactic(auto)]

pub mod fault;
pub mod field;
pub mod read;
pub mod types;
