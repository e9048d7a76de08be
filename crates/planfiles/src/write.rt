ghost use Rattle.std.specs.Prelude.{◌≡◌, ◌≤◌, length, take, IfOk, Ok};
ghost use Rattle.numbers.specs.Texts.{Puts};
ghost use Rattle.graphs.specs.Graphs.{model_of};
ghost use Rattle.planfiles.specs.Plans.{plan_bytes, plan_of, plan_file};
ghost use Rattle.planfiles.specs.Reading.{plan_at};
ghost use Rattle.planfiles.specs.Writing.{Wrote, written, leaves};

use crate::head::{KIND, MOST_WORKERS};
use graphs::Graph;
use numbers::Writer;
use plans::{Plan, PlanFault, Row};
use records::types::MOST_TASKS;

// Writes the bytes of a plan, as far as `out` goes, and answers how many they are.
fn put_plan(out: &mut [u8], workers: usize, ticks: u64, rows: &[Row]) -> usize
    ensures { Puts out.old 0 (plan_bytes (record { workers = workers; ticks = ticks; rows = rows.now })) out.new result }
{
    let mut writer = Writer::new(out);
    writer.put_number(KIND);
    writer.put_number(rows.len() as u64);
    writer.put_number(workers as u64);
    writer.put_number(ticks);
    for row in rows {
        writer.put_number(row.worker as u64);
        writer.put_number(row.start);
    }
    writer.at()
}

// Writes the file of the plan that the first rows are, and answers how many bytes it has: the later bytes stay.
// A refused call alters nothing. What is written is read as that plan.
pub fn write_plan(
    graph: &Graph,
    rows: &[Row],
    workers: usize,
    out: &mut [u8],
) -> Result<usize, PlanFault>
    ensures is { result ≡ written (model_of graph.now) rows.now workers (length out.old) }
    ensures leaves { out.new ≡ leaves (plan_file (model_of graph.now) rows.now workers) out.old result }
    ensures told { Wrote (model_of graph.now) rows.now workers out.old out.new result }
    ensures back { IfOk result (λ n. plan_at (model_of graph.now) (take n out.new) ≡ Ok (plan_of (model_of graph.now) rows.now workers)) }
{
    lay_plan(graph, rows, workers, out)
}

// The answer; the further clauses of the public call follow from it.
fn lay_plan(graph: &Graph, rows: &[Row], workers: usize, out: &mut [u8]) -> Result<usize, PlanFault>
    ensures told { Wrote (model_of graph.now) rows.now workers out.old out.new result }
    ensures few { (model_of graph.now).tasks ≤ 512 }
{
    let tasks = graph.tasks().len();
    if rows.len() < MOST_TASKS {
        return Err(PlanFault::ShortTable);
    }
    if !(1..=MOST_WORKERS).contains(&workers) {
        return Err(PlanFault::Parameter { position: 1 });
    }
    let plan = Plan { graph, rows };
    if let Some(task) = plan.unplaced(workers) {
        return Err(PlanFault::NoWorker { task });
    }
    if let Some(task) = plan.above_ceiling() {
        return Err(PlanFault::AboveCeiling { task });
    }
    let ticks = plan.latest_end();
    let placed = &rows[..tasks];
    let needed = put_plan(&mut [], workers, ticks, placed);
    if needed > out.len() {
        return Err(PlanFault::ShortBuffer { needed });
    }
    Ok(put_plan(out, workers, ticks, placed))
}
