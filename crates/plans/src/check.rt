ghost use Rattle.std.specs.Prelude.{◌≡◌, length};
ghost use Rattle.graphs.specs.Graphs.{model_of};
ghost use Rattle.plans.specs.Jobs.{job};
ghost use Rattle.plans.specs.Checked.{checked, Told, Accepts};

use crate::fault::PlanFault;
use crate::types::{Limits, Plan, Row};
use graphs::Graph;
use links::Link;

// The length of a plan, or the first test that it fails.
pub fn check<L: Link>(
    graph: &Graph,
    rows: &[Row],
    limits: Limits,
    link: &L,
) -> Result<u64, PlanFault>
    ensures is { result ≡ checked (length rows.now) (job (model_of graph.now) rows.now limits (L.arrives link.now)) }
    ensures told { Told (length rows.now) (job (model_of graph.now) rows.now limits (L.arrives link.now)) result }
    ensures accepts { Accepts (length rows.now) (job (model_of graph.now) rows.now limits (L.arrives link.now)) result }
{
    tell(graph, rows, limits, link)
}

// The answer; the further clauses of the public call follow from it.
fn tell<L: Link>(graph: &Graph, rows: &[Row], limits: Limits, link: &L) -> Result<u64, PlanFault>
    ensures { Told (length rows.now) (job (model_of graph.now) rows.now limits (L.arrives link.now)) result }
{
    if rows.len() < 512 {
        return Err(PlanFault::ShortTable);
    }
    if let Some(position) = limits.outside() {
        return Err(PlanFault::Parameter { position });
    }
    let plan = Plan { graph, rows };
    if let Some(task) = plan.unplaced(limits.workers) {
        return Err(PlanFault::NoWorker { task });
    }
    if let Some(task) = plan.above_ceiling() {
        return Err(PlanFault::AboveCeiling { task });
    }
    if let Some(task) = plan.overlapping() {
        return Err(PlanFault::Overlap { task });
    }
    if let Some(worker) = plan.overfull(limits) {
        return Err(PlanFault::Overfull { worker });
    }
    if let Some(edge) = plan.late_input(link) {
        return Err(PlanFault::LateInput { edge });
    }
    Ok(plan.latest_end())
}
