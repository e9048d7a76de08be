ghost use Rattle.std.specs.Prelude.{◌≡◌, length};
ghost use Rattle.graphs.specs.Graphs.{model_of, names_of};
ghost use Rattle.plans.specs.Jobs.{job};
ghost use Rattle.sheets.specs.Sheets.{sheet_text};
ghost use Rattle.sheets.specs.Answers.{sheeted, leaves, Written, LinesStand, Lent};

use crate::text::{put_sheet, sheet_len};
use graphs::Graph;
use heaps::Line;
use links::Link;
use plans::check::check;
use plans::{Limits, Plan, PlanFault, Row};
use records::types::MOST_TASKS;

// Writes the sheet of a plan that passes the check, and answers how many bytes it has. The lines wait in a heap over
// `lines`, which then has any content. Where it is denied, nothing is altered, `lines` neither.
pub fn sheet<L: Link>(
    graph: &Graph,
    rows: &[Row],
    limits: Limits,
    link: &L,
    lines: &mut [Line],
    out: &mut [u8],
) -> Result<usize, PlanFault>
    ensures is { result ≡ sheeted (length rows.now) (length lines.old) (length out.old) (job (model_of graph.now) rows.now limits (L.arrives link.now)) (names_of graph.now) }
    ensures bytes { out.new ≡ leaves (sheet_text (job (model_of graph.now) rows.now limits (L.arrives link.now)) (names_of graph.now)) out.old result }
    ensures table { Lent lines.old lines.new result }
    ensures written { Written (length rows.now) (length lines.old) (job (model_of graph.now) rows.now limits (L.arrives link.now)) (names_of graph.now) out.old out.new result }
    ensures stands { LinesStand (job (model_of graph.now) rows.now limits (L.arrives link.now)) (names_of graph.now) out.new result }
{
    write(graph, rows, limits, link, lines, out)
}

// The answer; the further clauses of the public call follow from it.
fn write<L: Link>(
    graph: &Graph,
    rows: &[Row],
    limits: Limits,
    link: &L,
    lines: &mut [Line],
    out: &mut [u8],
) -> Result<usize, PlanFault>
    ensures table { Lent lines.old lines.new result }
    ensures written { Written (length rows.now) (length lines.old) (job (model_of graph.now) rows.now limits (L.arrives link.now)) (names_of graph.now) out.old out.new result }
{
    if lines.len() < MOST_TASKS {
        return Err(PlanFault::ShortTable);
    }
    check(graph, rows, limits, link)?;
    let plan = Plan { graph, rows };
    let needed = sheet_len(&plan);
    if needed > out.len() {
        return Err(PlanFault::ShortBuffer { needed });
    }
    Ok(put_sheet(out, &plan, lines))
}
