// The level of each task of a graph: the longest way on from it.
#![tactic(auto)]

ghost use Rattle.std.specs.Prelude.{◌≡◌, ℕ, ◌+◌, ◌^◌, ◌<◌, ◌≤◌, max, OnErr, OnOk, is_ok, length, nat_le, slice_index};
ghost use Rattle.std.specs.List.{All, fold};
ghost use Rattle.graphs.specs.Graphs.{tasks_of, model_of};
ghost use Rattle.levels.specs.Levels.{level_of_task, level_at, Levels, Longest, LevelsAreUnique};

use graphs::{Edge, Graph};
use links::Link;

// The table has fewer rows than the graph has tasks.
#[derive(Clone, Copy, PartialEq, Eq, Debug)]
pub struct TooFewRows;

// The longest way on along the edges: the nominal cost of an edge, and the level of the task that it leads to.
fn longest_way<L: Link>(link: &L, levels: &[u64], edges: &[Edge]) -> u64
    requires rows { All (λ e. e.to < length levels.now) edges.now }
    requires low { (k : ℕ) → slice_index levels.now k < 2 ^ 62 }
    ensures { result ≡ fold (λ n e. max n (L.arrives link.now 0 0 1 e.amount + slice_index levels.now e.to)) 0 edges.now }
{
    edges.iter().fold(0, |longest, e| {
        longest.max(link.arrival(0, 0, 1, e.amount) + levels[e.to])
    })
}

// The level of t, by the levels of its successors.
fn level_of<L: Link>(graph: &Graph, link: &L, levels: &[u64], t: usize) -> u64
    requires rows { length (tasks_of graph.now) ≤ length levels.now }
    requires low { (k : ℕ) → slice_index levels.now k < 2 ^ 62 }
    ensures { result ≡ level_of_task (L.arrives link.now) (model_of graph.now) (λ k. slice_index levels.now k) t }
{
    u64::from(graph.time(t)) + longest_way(link, levels, graph.outputs(t))
}

// Visits each task once, after all its successors. Graph, link and levels are lent one by one, and a struct of them would live no longer than this call.
fn visit<L: Link>(graph: &Graph, link: &L, levels: &mut [u64])
    requires rows { length (tasks_of graph.now) ≤ length levels.old }
    requires zero { (k : ℕ) → slice_index levels.old k ≡ 0 }
    ensures { (k : ℕ) → slice_index levels.new k ≡ level_at (L.arrives link.now) (model_of graph.now) k }
{
    for &t in graph.order().iter().rev() {
        levels[t] = level_of(graph, link, levels, t);
    }
}

// Writes the level of each task, and 0 past the tasks, over the whole table. A table with fewer rows than tasks is refused and left as it is.
pub fn fill_levels<L: Link>(graph: &Graph, link: &L, levels: &mut [u64]) -> Result<(), TooFewRows>
    ensures answers { is_ok result ≡ nat_le (length (tasks_of graph.now)) (length levels.old) }
    ensures kept { OnErr result (levels.new ≡ levels.old) }
    ensures each { OnOk result ((k : ℕ) → slice_index levels.new k ≡ level_at (L.arrives link.now) (model_of graph.now) k) }
    ensures low { OnOk result ((k : ℕ) → slice_index levels.new k < 2 ^ 62) }
    ensures relation { OnOk result (Levels (L.arrives link.now) (model_of graph.now) (λ k. slice_index levels.new k)) }
    ensures longest { OnOk result ((t : ℕ) → t < length (tasks_of graph.now) → Longest (L.arrives link.now) (model_of graph.now) (λ k. slice_index levels.new k) t) }
    ensures unique { LevelsAreUnique }
{
    if levels.len() < graph.tasks().len() {
        return Err(TooFewRows);
    }
    levels.fill(0);
    visit(graph, link, levels);
    Ok(())
}
