ghost use Rattle.std.specs.Prelude.{◌≡◌, ℕ, ◌^◌, ◌≤◌, is_some, length};
ghost use Rattle.graphs.specs.Graphs.{model_of};
ghost use Rattle.steps.specs.Lanes.{lane_at, free_in, used_in};
ghost use Rattle.steps.specs.Seats.{end_of, open_test as opened, free as free_tick, in_use};

use crate::{TASKS, WORKERS};
use graphs::Graph;
use plans::Row;

pub mod ask;
pub mod choose;
pub mod put;

// An open worker: its free tick and the memory in use.
#[derive(Clone, Copy, PartialEq, Eq, Debug)]
struct Lane {
    free: u64,
    used: u64,
}

// The tasks of a graph that are placed so far, and the lane of each worker that is open.
#[derive(Drop)]
pub struct Desk<'a> {
    graph: &'a Graph,
    seats: [Option<Row>; TASKS],
    lanes: [Option<Lane>; WORKERS],
    ghost sized: { length seats ≡ 512 },
    ghost wide: { length lanes ≡ 16 },
    ghost early: { (t : ℕ) → end_of (model_of graph.now) seats t ≤ 2 ^ 40 },
    ghost opens: { (w : ℕ) → is_some (lane_at lanes w) ≡ opened (model_of graph.now) seats w },
    ghost frees: { (w : ℕ) → free_in (lane_at lanes w) ≡ free_tick (model_of graph.now) seats w },
    ghost uses: { (w : ℕ) → used_in (lane_at lanes w) ≡ in_use (model_of graph.now) seats w },
}

impl<'a> Desk<'a> {
    // The lane of w, if it has a task.
    fn lane(&self, w: usize) -> Option<Lane>
        ensures { result ≡ lane_at self.now.lanes w }
    {
        self.lanes.get(w).copied().flatten()
    }
}
