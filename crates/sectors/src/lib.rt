// The library under one name: graph files in, plans and their sheets out.
#![tactic(auto)]

mod fault;
mod output;

pub use faults::{Fault, Refusal};
pub use graphs::{Edge, Graph, Name, Task};
pub use heaps::{Line, Ready};
pub use links::{AnyLink, Link, Matrix, Packing, Rate, Slot};
pub use output::sheet_of;
pub use planner::Planner;
pub use plans::{Limits, Plan, PlanFault, Row};
