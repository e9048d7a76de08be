// The ready tasks wait in a heap.
ghost use Rattle.std.specs.Prelude.{◌≡◌, ℕ, ◌^◌, ◌<◌, ◌≤◌, false, not, ◌&&◌, length, slice_index_or};
ghost use Rattle.graphs.specs.Graphs.{model_of};
ghost use Rattle.planner.specs.Turns.{ready as ready_test, rank as rank_of};
ghost use Rattle.planner.specs.Queues.{Levelled, Waiting};

use crate::types::Planner;
use heaps::{Heap, Ready};
use links::Link;
use steps::Desk;

// Whether t is not placed, and all its inputs are.
fn is_ready(desk: &Desk, t: usize) -> bool
    ensures { result ≡ ready_test (model_of desk.now.graph.now) desk.now.seats t }
{
    let inputs = desk.graph().inputs(t);
    !desk.is_placed(t) && inputs.iter().all(|e| desk.is_placed(e.from))
}

// The rank of t by the policy.
fn rank<L: Link>(planner: &Planner<L>, desk: &Desk, levels: &[u64], t: usize) -> u64
    requires levels { Levelled (L.arrives planner.now.link.now) (model_of desk.now.graph.now) levels.now }
    requires task { t < (model_of desk.now.graph.now).tasks }
    ensures { result ≡ rank_of planner.now.policy (L.arrives planner.now.link.now) (model_of desk.now.graph.now) desk.now.seats t }
{
    if planner.policy == 1 {
        desk.t_level(planner.link, t) + levels[t]
    } else {
        levels[t]
    }
}

// Puts the marked tasks that are ready into the heap, which holds the ready ones that are not marked.
pub(crate) fn admit<L: Link>(
    planner: &Planner<L>,
    desk: &Desk,
    levels: &[u64],
    marks: &[bool; 512],
    queue: &mut Heap<Ready>,
)
    requires levels { Levelled (L.arrives planner.now.link.now) (model_of desk.now.graph.now) levels.now }
    requires waiting { Waiting (λ v. ready_test (model_of desk.now.graph.now) desk.now.seats v && not (slice_index_or marks.now v false)) (rank_of planner.now.policy (L.arrives planner.now.link.now) (model_of desk.now.graph.now) desk.now.seats) (model_of desk.now.graph.now).tasks queue.old }
    ensures { Waiting (ready_test (model_of desk.now.graph.now) desk.now.seats) (rank_of planner.now.policy (L.arrives planner.now.link.now) (model_of desk.now.graph.now) desk.now.seats) (model_of desk.now.graph.now).tasks queue.new }
{
    let tasks = desk.graph().tasks().len();
    // u numbers a task, and `marks` is only one of what it asks
    for u in 0..tasks {
        if marks[u] && is_ready(desk, u) {
            let rank = rank(planner, desk, levels, u);
            let _ = queue.push(Ready { rank, task: u });
        }
    }
}
