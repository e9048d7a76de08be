ghost use Rattle.std.specs.Prelude.{◌≡◌, ℕ, ◌^◌, ◌<◌, ◌≤◌, length, replicate, IfOk, OnOk, slice_index_or};
ghost use Rattle.graphs.specs.Graphs.{model_of};
ghost use Rattle.plans.specs.Jobs.{no_row};
ghost use Rattle.planfiles.specs.Plans.{Few, plan_file};
ghost use Rattle.planfiles.specs.Reading.{row_at, rows_at, head_at, plan_at, answered, filled, Filled, Loaded, Accepts};

use crate::head::{Head, KIND, MOST_WORKERS};
use graphs::Graph;
use links::CEILING;
use plans::{Plan, PlanFault, Row};
use records::fault::{Counted, RecordFault, with_record};
use records::field::read_field;
use records::types::MOST_TASKS;

fn read_row(file: &[u8], at: usize, workers: usize) -> Result<(Row, usize), RecordFault>
    requires { Few workers }
    ensures is { result ≡ row_at file.now workers at }
    ensures early { IfOk result (λ p. p.0.start ≤ 2 ^ 40) }
{
    let (worker, next) = read_field(file, at, 0, workers as u64 - 1)?;
    let (start, next) = read_field(file, next, 0, CEILING)?;
    Ok((
        Row {
            worker: worker as usize,
            start,
        },
        next,
    ))
}

fn read_head(file: &[u8], tasks: usize) -> Result<Head, PlanFault>
    ensures is { result ≡ head_at file.now tasks }
    ensures few { IfOk result (λ h. Few h.workers) }
{
    let (_, counted) = with_record(read_field(file, 0, KIND, KIND), 0)?;
    let (count, next) = with_record(read_field(file, counted, 0, MOST_TASKS as u64), 0)?;
    if count != tasks as u64 {
        return Err(PlanFault::NotOfGraph { place: counted });
    }
    let (workers, place) = with_record(read_field(file, next, 1, MOST_WORKERS as u64), 0)?;
    let (ticks, next) = with_record(read_field(file, place, 0, CEILING), 0)?;
    Ok(Head {
        workers: workers as usize,
        ticks,
        place,
        next,
    })
}

// Fills the first `tasks` rows of a table of zeros, and answers the offset after them.
fn read_rows(file: &[u8], head: Head, tasks: usize, rows: &mut [Row]) -> Result<usize, PlanFault>
    requires few { Few head.workers × (tasks ≤ length rows.old) }
    requires zero { rows.old ≡ replicate (length rows.old) no_row }
    ensures filled { Filled (length rows.old) (rows_at tasks file.now head.workers 0 head.next) result rows.new }
    ensures early { OnOk result ((k : ℕ) → k < tasks → (slice_index_or rows.new k no_row).start ≤ 2 ^ 40) }
{
    let mut at = head.next;
    for (k, row) in rows[..tasks].iter_mut().enumerate() {
        let (read, next) = with_record(read_row(file, at, head.workers), k)?;
        *row = read;
        at = next;
    }
    Ok(at)
}

// Reads a plan of the graph's tasks into a table of zeros.
fn read_into(file: &[u8], graph: &Graph, rows: &mut [Row]) -> Result<(usize, u64), PlanFault>
    requires long { 512 ≤ length rows.old }
    requires zero { rows.old ≡ replicate (length rows.old) no_row }
    ensures { Loaded (length rows.old) (plan_at (model_of graph.now) file.now) result rows.new }
{
    let tasks = graph.tasks().len();
    let head = read_head(file, tasks)?;
    let end = read_rows(file, head, tasks, rows)?;
    if end < file.len() {
        return Err(PlanFault::InRecord(Counted {
            fault: RecordFault::Trailing { place: end },
            record: tasks,
        }));
    }
    if head.ticks != (Plan { graph, rows }).latest_end() {
        return Err(PlanFault::NotOfGraph { place: head.place });
    }
    Ok((head.workers, head.ticks))
}

// Reads a plan of the graph's tasks into the first rows, and answers its workers and its length.
// The rows past the tasks are then 0, and where the file is refused all rows are; a table that is too short stays.
// What was read is written as that file.
pub fn read_plan(file: &[u8], graph: &Graph, rows: &mut [Row]) -> Result<(usize, u64), PlanFault>
    ensures is { result ≡ answered (length rows.old) (model_of graph.now) file.now }
    ensures rows { rows.new ≡ filled rows.old (model_of graph.now) file.now }
    ensures accepts { Accepts (model_of graph.now) file.now rows.old rows.new result }
    ensures back { IfOk result (λ a. plan_file (model_of graph.now) rows.new a.0 ≡ file.now) }
{
    load_plan(file, graph, rows)
}

// The answer; the further clauses of the public call follow from it.
fn load_plan(file: &[u8], graph: &Graph, rows: &mut [Row]) -> Result<(usize, u64), PlanFault>
    ensures is { result ≡ answered (length rows.old) (model_of graph.now) file.now }
    ensures rows { rows.new ≡ filled rows.old (model_of graph.now) file.now }
{
    if rows.len() < MOST_TASKS {
        return Err(PlanFault::ShortTable);
    }
    rows.fill(Row::default());
    let answer = read_into(file, graph, rows);
    // `?` would leave before the rows are cleared
    if answer.is_err() {
        rows.fill(Row::default());
    }
    answer
}
