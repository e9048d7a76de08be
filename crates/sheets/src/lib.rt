// The sheet of a plan: one line for each task, by start and then by worker. And the line that tells a denial.
#![tactic(auto)]

pub mod denial;
mod lines;
mod text;
pub mod write;

pub use denial::put_denial;
pub use write::sheet;
