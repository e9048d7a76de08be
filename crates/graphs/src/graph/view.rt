ghost use Rattle.std.specs.Prelude.{◌≡◌, ℕ, ◌^◌, ◌<◌, ◌≤◌, length, vec_items as items, slice_index_or};
ghost use Rattle.edges.specs.Edges.{no_edge, into, out_of};
ghost use Rattle.graphs.specs.Model.{no_task, Sound};
ghost use Rattle.graphs.specs.Graphs.{tasks_of, names_of, edges_of, model_of};

use crate::graph::Graph;
use crate::types::{Name, Task};
use edges::Edge;

impl Graph {
    // The task t, or one of no time and no size.
    fn task(&self, t: usize) -> Task
        ensures { result ≡ slice_index_or (tasks_of self.now) t no_task }
    {
        self.tasks.get(t).copied().unwrap_or_default()
    }

    // The tasks, in the order of the file. What holds of every graph holds of this one.
    pub fn tasks(&self) -> &[Task]
        ensures is { result.now ≡ tasks_of self.now }
        ensures sound { Sound (model_of self.now) }
    {
        self.tasks.as_slice()
    }

    // The time of t; 0 where there is no such task.
    pub fn time(&self, t: usize) -> u32
        ensures is { result ≡ (model_of self.now).time t }
        ensures low { result ≤ 2 ^ 20 }
    {
        self.task(t).time
    }

    // The size of t; 0 where there is no such task.
    pub fn size(&self, t: usize) -> u32
        ensures is { result ≡ (model_of self.now).size t }
        ensures low { result ≤ 2 ^ 24 }
    {
        self.task(t).size
    }

    // The names of the tasks, one for each.
    pub fn names(&self) -> &[Name]
        ensures is { result.now ≡ names_of self.now }
        ensures each { length result.now ≡ length (tasks_of self.now) }
    {
        self.names.as_slice()
    }

    // The edges, in the order of the file.
    pub fn edges(&self) -> &[Edge]
        ensures { result.now ≡ edges_of self.now }
    {
        self.table.edges()
    }

    // The edges into t, in the order of the file; none where there is no such task.
    pub fn inputs(&self, t: usize) -> &[Edge]
        ensures is { result.now ≡ into (edges_of self.now) t }
        ensures within { (k : ℕ) → k < length result.now → ((slice_index_or result.now k no_edge).from < length (tasks_of self.now)) × ((slice_index_or result.now k no_edge).to ≡ t) }
    {
        self.table.inputs(t)
    }

    // The edges out of t, in the order of the file; none where there is no such task.
    pub fn outputs(&self, t: usize) -> &[Edge]
        ensures is { result.now ≡ out_of (edges_of self.now) t }
        ensures within { (k : ℕ) → k < length result.now → ((slice_index_or result.now k no_edge).from ≡ t) × ((slice_index_or result.now k no_edge).to < length (tasks_of self.now)) }
    {
        self.table.outputs(t)
    }

    // The tasks in an order in which each edge goes forward.
    pub fn order(&self) -> &[usize]
        ensures { result.now ≡ items self.now.order }
    {
        self.order.as_slice()
    }
}
