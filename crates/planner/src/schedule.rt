// Placing the tasks, the best ready one first.
ghost use Rattle.std.specs.Prelude.{◌≡◌, ℕ, ◌^◌, ◌<◌, ◌≤◌, [], length, Ok, Err, MatchResult};
ghost use Rattle.graphs.specs.Graphs.{model_of};
ghost use Rattle.heaps.specs.Heaps.{room, queue as queue_of};
ghost use Rattle.steps.specs.Seats.{nobody};
ghost use Rattle.planner.specs.Turns.{ready as ready_test, rank as rank_of, turn as turn_of, after as after_turns};
ghost use Rattle.planner.specs.Queues.{Levelled, Waiting};
ghost use Rattle.planner.specs.States.{Going};

use crate::queue::admit;
use crate::types::Planner;
use heaps::{Heap, Ready};
use links::Link;
use plans::PlanFault;
use steps::Desk;
use steps::desk::ask::successors;

// Places the first of the heap, if there is one. Planner, desk, levels and heap go from function to function one by one: in one struct that keeps
// the fact of the levels, the borrow checker covered neither its making, of references that live differently long, nor its methods.
fn advance<L: Link>(
    planner: &Planner<L>,
    desk: &mut Desk,
    levels: &[u64],
    queue: &mut Heap<Ready>,
) -> Result<(), PlanFault>
    requires levels { Levelled (L.arrives planner.now.link.now) (model_of desk.old.graph.now) levels.now }
    requires going { Going planner.now.limits planner.now.policy (L.arrives planner.now.link.now) (model_of desk.old.graph.now) desk.old.seats queue.old }
    ensures graph { desk.new.graph.now ≡ desk.old.graph.now }
    ensures turn { MatchResult result
        (λ _. (turn_of planner.now.limits planner.now.policy (L.arrives planner.now.link.now) (model_of desk.old.graph.now) desk.old.seats ≡ Ok desk.new.seats)
        × Going planner.now.limits planner.now.policy (L.arrives planner.now.link.now) (model_of desk.old.graph.now) desk.new.seats queue.new)
        (λ e. turn_of planner.now.limits planner.now.policy (L.arrives planner.now.link.now) (model_of desk.old.graph.now) desk.old.seats ≡ Err e) }
{
    let Some(first) = queue.pop() else {
        return Ok(());
    };
    let row = desk.seat(planner.limits, planner.link, first.task)?;
    let _ = desk.place(first.task, row);
    let marks = successors(desk.graph(), first.task);
    admit(planner, desk, levels, &marks, queue);
    Ok(())
}

// Places each task: the seats after as many turns as there are tasks, or the first denial.
pub(crate) fn schedule<L: Link>(
    planner: &Planner<L>,
    desk: &mut Desk,
    levels: &[u64],
    queue: &mut Heap<Ready>,
) -> Result<(), PlanFault>
    requires levels { Levelled (L.arrives planner.now.link.now) (model_of desk.old.graph.now) levels.now }
    requires limits { planner.now.limits.workers ≤ 16 }
    requires small { (t : ℕ) → t < (model_of desk.old.graph.now).tasks → (model_of desk.old.graph.now).size t ≤ planner.now.limits.memory }
    requires fresh { desk.old.seats ≡ nobody }
    requires queue { (queue_of queue.old ≡ []) × (512 ≤ room queue.old) }
    ensures graph { desk.new.graph.now ≡ desk.old.graph.now }
    ensures after { MatchResult result
        (λ _. after_turns planner.now.limits planner.now.policy (L.arrives planner.now.link.now) (model_of desk.old.graph.now) (model_of desk.old.graph.now).tasks ≡ Ok desk.new.seats)
        (λ e. after_turns planner.now.limits planner.now.policy (L.arrives planner.now.link.now) (model_of desk.old.graph.now) (model_of desk.old.graph.now).tasks ≡ Err e) }
{
    let everyone = [true; 512];
    admit(planner, desk, levels, &everyone, queue);
    let tasks = desk.graph().tasks().len();
    for turn in 0..tasks {
        advance(planner, desk, levels, queue)?;
    }
    Ok(())
}
