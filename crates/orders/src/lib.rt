// An order of the tasks in which each edge goes forward, and a set of the pairs that edges join.
#![tactic(auto)]

pub mod order;
pub mod pairs;
mod search;

pub use order::{Order, OrderFault, order_tasks};
pub use pairs::PairSet;
