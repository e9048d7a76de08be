// The refusal of a full heap.
ghost use Rattle.heaps.specs.Faults.{full_tells};

use faults::{Fault, Refusal};

// The heap's table, of so many rows, has no free one.
#[derive(Clone, Copy, PartialEq, Eq, Debug)]
pub struct HeapFull {
    pub rows: usize,
}

impl Refusal for HeapFull {
    ghost tells = { full_tells };

    fn fault(&self) -> Fault {
        Fault {
            number: 1,
            layer: 4,
            place: (self.rows as u64).saturating_add(1),
            record: 0,
        }
    }
}
