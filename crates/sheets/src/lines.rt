ghost use Rattle.std.specs.Prelude.{◌<◌, ◌≤◌, length, decimal};
ghost use Rattle.numbers.specs.Writers.{Writes};
ghost use Rattle.graphs.specs.Graphs.{model_of, names_of};
ghost use Rattle.plans.specs.Jobs.{placing};
ghost use Rattle.plans.specs.Rules.{InTime};
ghost use Rattle.sheets.specs.Lines.{spaced};
ghost use Rattle.sheets.specs.Sheets.{task_text};

use numbers::Writer;
use plans::Plan;

// A number and a space.
pub(crate) fn put_spaced(writer: &mut Writer, value: u64)
    ensures writes { Writes writer.old (spaced value) writer.new }
    ensures short { length (decimal value) ≤ 20 }
{
    writer.put_decimal(value);
    writer.put(b' ');
}

// The line of task t.
pub(crate) fn put_task(writer: &mut Writer, plan: &Plan, t: usize)
    requires task { t < (model_of plan.now.graph.now).tasks }
    requires ends { InTime (placing plan.now) t }
    ensures writes { Writes writer.old (task_text (placing plan.now) (names_of plan.now.graph.now) t) writer.new }
    ensures short { length (task_text (placing plan.now) (names_of plan.now.graph.now) t) ≤ 95 }
{
    let row = plan.row(t);
    put_spaced(writer, row.start);
    put_spaced(writer, plan.end(t));
    put_spaced(writer, row.worker as u64);
    let name = &plan.graph.names()[t];
    writer.put_bytes(name.as_bytes());
    writer.put(b'\n');
}
