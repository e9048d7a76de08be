// Placing a task: the four steps over what is placed so far.
#![tactic(auto)]

pub mod desk;

pub use desk::Desk;

// A graph has at most so many tasks.
pub const TASKS: usize = 512;

// There are at most so many workers.
pub const WORKERS: usize = 16;
