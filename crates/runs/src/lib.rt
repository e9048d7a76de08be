// Runs: a loader plays a plan, task by task, and reports how long each took.
#![tactic(auto)]

pub mod types;

pub use types::{Call, Line, OpenFault, RunFault, Span};
