// Plan files: a plan of a graph's tasks, written as bytes and read back.
#![tactic(auto)]

mod head;
pub mod read;
pub mod write;

pub use read::read_plan;
pub use write::write_plan;
