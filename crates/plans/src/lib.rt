// Plans: a row for each task, and the five rules that a plan keeps.
#![tactic(auto)]

pub mod check;
pub mod fault;
pub mod row_scans;
pub mod rows;
mod rules;
pub mod types;

pub use fault::PlanFault;
pub use types::{Limits, Plan, Row};
