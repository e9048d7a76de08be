ghost use Rattle.std.specs.Prelude.{◌≡◌, ℕ, ◌^◌, ◌<◌, ◌≤◌, length, vec_items as items, slice_index, slice_index_or};
ghost use Rattle.edges.specs.Edges.{no_edge};
ghost use Rattle.orders.specs.PairSets.{Repeats};
ghost use Rattle.graphs.specs.Model.{no_task};

use crate::types::{Name, Task};
use edges::EdgeTable;

pub mod read;
pub mod view;

// A task graph within its limits: no pair of tasks is joined twice, and each edge goes forward in `order`.
// `rank` has the place of each task in `order`. No code reads it: it stands as the proof that no way along the edges leads back.
// The names stand beside the tasks and not in them: all readers but the sheet's want plain numbers, and a slice of these is lent.
#[derive(Drop)]
pub struct Graph {
    tasks: Vec<Task>,
    names: Vec<Name>,
    table: EdgeTable,
    order: Vec<usize>,
    rank: Vec<usize>,
    ghost few: { (length (items tasks) ≤ 512) × (length (items table.edges) ≤ 4096) },
    ghost joined: { table.tasks ≡ length (items tasks) },
    ghost named: { length (items names) ≡ length (items tasks) },
    ghost times: { (t : ℕ) → t < length (items tasks) → (1 ≤ (slice_index_or (items tasks) t no_task).time) × ((slice_index_or (items tasks) t no_task).time ≤ 2 ^ 20) },
    ghost sizes: { (t : ℕ) → t < length (items tasks) → (slice_index_or (items tasks) t no_task).size ≤ 2 ^ 24 },
    ghost amounts: { (k : ℕ) → k < length (items table.edges) → (slice_index_or (items table.edges) k no_edge).amount ≤ 2 ^ 20 },
    ghost single: { (j k : ℕ) → Repeats (items table.edges) j k → ⊥ },
    ghost placed: { (length (items order) ≡ length (items tasks)) × (length (items rank) ≡ length (items tasks)) },
    ghost ranked: { (t : ℕ) → t < length (items tasks) → (slice_index (items rank) t < length (items tasks)) × (slice_index (items order) (slice_index (items rank) t) ≡ t) },
    ghost listed: { (j : ℕ) → j < length (items tasks) → (slice_index (items order) j < length (items tasks)) × (slice_index (items rank) (slice_index (items order) j) ≡ j) },
    ghost forward: { (k : ℕ) → k < length (items table.edges) → slice_index (items rank) (slice_index_or (items table.edges) k no_edge).from < slice_index (items rank) (slice_index_or (items table.edges) k no_edge).to },
}
