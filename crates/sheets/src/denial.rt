ghost use Rattle.std.specs.Prelude.{◌≤◌, length};
ghost use Rattle.numbers.specs.Writers.{Writes};
ghost use Rattle.sheets.specs.Lines.{denial_text};

use crate::lines::put_spaced;
use faults::Fault;
use numbers::Writer;

// Writes the line of a denial, as far as the writer's slice goes. The bytes are put one by one, since `write!` would answer a result that cannot fail.
pub fn put_denial(writer: &mut Writer, fault: Fault)
    ensures writes { Writes writer.old (denial_text fault) writer.new }
    ensures short { length (denial_text fault) ≤ 91 }
{
    writer.put_bytes(b"denied ");
    put_spaced(writer, fault.number as u64);
    put_spaced(writer, fault.layer as u64);
    put_spaced(writer, fault.place);
    writer.put_decimal(fault.record);
    writer.put(b'\n');
}
