// The whole plan: the tests before planning, the levels, the placements, and the rows.
ghost use Rattle.std.specs.Prelude.{◌≡◌, ℕ, ◌<◌, ◌≤◌, true, false, length, None, Ok, Err, slice_index_or};
ghost use Rattle.scans.specs.Scans.{largest};
ghost use Rattle.graphs.specs.Graphs.{model_of};
ghost use Rattle.plans.specs.declared.fault.PlanFault.TheVariants.{ShortTable};
ghost use Rattle.plans.specs.Jobs.{job, no_row};
ghost use Rattle.plans.specs.Rules.{Rules};
ghost use Rattle.steps.specs.Seats.{at, end_of};
ghost use Rattle.planner.specs.Plans.{row_of, enough as enough_rows, bad_parameter, too_large_task, planning, Outcome, Made};
ghost use Rattle.planner.specs.Laws.{PlanLaws};

use crate::schedule::schedule;
use crate::types::Planner;
use graphs::Graph;
use heaps::{Heap, Ready};
use levels::fill_levels;
use links::Link;
use plans::{PlanFault, Row};
use steps::Desk;

// Each table that is lent has 512 rows at least.
const ROWS: usize = 512;

// Writes the row of each task, and 0 where none is placed.
fn write_rows(desk: &Desk, rows: &mut [Row])
    ensures { (k : ℕ) → k < length rows.new → slice_index_or rows.new k no_row ≡ row_of (at desk.now.seats k) }
{
    for (k, row) in rows.iter_mut().enumerate() {
        *row = desk.row(k).unwrap_or_default();
    }
}

// The latest end of a placed task.
fn latest(desk: &Desk) -> u64
    ensures { result ≡ largest (end_of (model_of desk.now.graph.now) desk.now.seats) (model_of desk.now.graph.now).tasks }
{
    let tasks = desk.graph().tasks().len();
    (0..tasks).fold(0, |last: u64, t| desk.end(t).max(last))
}

fn are_enough(rows: usize, levels: usize, queue: usize) -> bool
    ensures { result ≡ enough_rows rows levels queue }
{
    rows >= ROWS && levels >= ROWS && queue >= ROWS
}

impl<'a, L: Link> Planner<'a, L> {
    // The position of the lowest parameter outside its limits.
    fn outside(&self) -> Option<usize>
        ensures { result ≡ bad_parameter self.now.limits self.now.policy }
    {
        let policy = if (1..=2).contains(&self.policy) {
            None
        } else {
            Some(3)
        };
        self.limits.outside().or(policy)
    }

    // The lowest task that alone exceeds the memory.
    fn too_large(&self, graph: &Graph) -> Option<usize>
        ensures { result ≡ too_large_task self.now.limits (model_of graph.now) }
    {
        let memory = self.limits.memory;
        (0..graph.tasks().len()).find(|t| u64::from(graph.size(*t)) > memory)
    }

    // Places the tasks, once no parameter and no task is refused, and writes the rows and the levels of a plan. The tables go on one by one, as by a rule
    // of the project each is lent.
    fn place_all(
        &self,
        graph: &Graph,
        rows: &mut [Row],
        levels: &mut [u64],
        queue: &mut [Ready],
    ) -> Result<u64, PlanFault>
        requires { (512 ≤ length rows.old) × (512 ≤ length levels.old) × (512 ≤ length queue.old) }
        ensures { Made self.now.limits self.now.policy (L.arrives self.now.link.now) (model_of graph.now) result rows.new levels.new }
    {
        if let Some(position) = self.outside() {
            return Err(PlanFault::Parameter { position });
        }
        if let Some(task) = self.too_large(graph) {
            return Err(PlanFault::TooLarge { task });
        }
        let _ = fill_levels(graph, self.link, levels);
        let mut desk = Desk::new(graph);
        let mut ready = Heap::over(queue);
        schedule(self, &mut desk, levels, &mut ready)?;
        write_rows(&desk, rows);
        Ok(latest(&desk))
    }

    // The same, and every row and level is 0 where the plan is denied.
    fn fill(
        &self,
        graph: &Graph,
        rows: &mut [Row],
        levels: &mut [u64],
        queue: &mut [Ready],
    ) -> Result<u64, PlanFault>
        requires { (512 ≤ length rows.old) × (512 ≤ length levels.old) × (512 ≤ length queue.old) }
        ensures { Outcome self.now.limits self.now.policy (L.arrives self.now.link.now) (model_of graph.now) result rows.new levels.new }
    {
        let answer = self.place_all(graph, rows, levels, queue);
        // `?` would leave before the tables are cleared
        if answer.is_err() {
            rows.fill(Row::default());
            levels.fill(0);
        }
        answer
    }

    // Plans the graph: `rows` gets the plan and `levels` the b-levels, and the answer is the plan's length. The ready tasks wait in
    // `queue`, whose content is free afterwards.
    pub fn plan(
        &self,
        graph: &Graph,
        rows: &mut [Row],
        levels: &mut [u64],
        queue: &mut [Ready],
    ) -> Result<u64, PlanFault>
        ensures is { result ≡ planning (enough_rows (length rows.old) (length levels.old) (length queue.old)) self.now.limits self.now.policy (L.arrives self.now.link.now) (model_of graph.now) }
        ensures outcome { enough_rows (length rows.old) (length levels.old) (length queue.old) ≡ true → Outcome self.now.limits self.now.policy (L.arrives self.now.link.now) (model_of graph.now) result rows.new levels.new }
        ensures short { enough_rows (length rows.old) (length levels.old) (length queue.old) ≡ false → (rows.new ≡ rows.old) × (levels.new ≡ levels.old) × (queue.new ≡ queue.old) }
        ensures rules { (n : ℕ) → result ≡ Ok n → Rules (job (model_of graph.now) rows.new self.now.limits (L.arrives self.now.link.now)) }
        ensures laws { PlanLaws }
    {
        if !are_enough(rows.len(), levels.len(), queue.len()) {
            return Err(PlanFault::ShortTable);
        }
        self.fill(graph, rows, levels, queue)
    }
}
