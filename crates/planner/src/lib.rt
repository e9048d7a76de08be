// The planner: which worker runs which task from which tick.
#![tactic(auto)]

mod queue;
mod schedule;
pub mod types;
mod whole;

pub use types::Planner;
