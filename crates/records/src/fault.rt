ghost use Rattle.std.specs.Prelude.{◌≡◌};
ghost use Rattle.records.specs.declared.fault.RecordFault.TheVariants.{InNumber};
ghost use Rattle.records.specs.Faults.{record_tells, counted_by};

use faults::{Fault, Refusal};
use numbers::fault::NumberFault;

// Why there is no record: a fault of one of its numbers, or
// the file ends before a name does, a number is outside its limits, a name has a byte outside 33 to 126,
// an edge names no task or joins a task to itself, or bytes follow the last record.
#[derive(Clone, Copy, PartialEq, Eq, Debug)]
pub enum RecordFault {
    InNumber { fault: NumberFault },
    NameCut { place: usize },
    Limit { place: usize },
    NameByte { place: usize },
    NoTask { place: usize },
    Trailing { place: usize },
}

impl From<NumberFault> for RecordFault {
    ghost from_gives = { λ e r. r ≡ InNumber e };

    fn from(fault: NumberFault) -> RecordFault {
        RecordFault::InNumber { fault }
    }
}

impl RecordFault {
    // The fault's four numbers, where `record` records were read before it.
    pub fn counted(&self, record: u64) -> Fault
        ensures { result ≡ record_tells self.now «record» }
    {
        let (number, layer, place) = match *self {
            RecordFault::InNumber { fault } => return fault.counted(record),
            RecordFault::NameCut { place } => (2, 1, place),
            RecordFault::Limit { place } => (4, 2, place),
            RecordFault::NameByte { place } => (5, 2, place),
            RecordFault::NoTask { place } => (6, 2, place),
            RecordFault::Trailing { place } => (8, 2, place),
        };
        Fault {
            number,
            layer,
            place: place as u64,
            record,
        }
    }
}

impl Refusal for RecordFault {
    ghost tells = { λ e. record_tells e 0 };

    fn fault(&self) -> Fault {
        self.counted(0)
    }
}

// A fault, and how many records were read before it.
#[derive(Clone, Copy, PartialEq, Eq, Debug)]
pub struct Counted {
    pub fault: RecordFault,
    pub record: usize,
}

impl Refusal for Counted {
    ghost tells = { λ e. record_tells e.fault e.«record» };

    fn fault(&self) -> Fault {
        self.fault.counted(self.record as u64)
    }
}

// The same result, with the number of records read before at its fault.
pub fn with_record<T>(r: Result<T, RecordFault>, record: usize) -> Result<T, Counted>
    ensures { result ≡ counted_by «record» r }
{
    r.map_err(|fault| Counted { fault, record })
}
