ghost use Rattle.std.specs.Prelude.{◌≡◌};
ghost use Rattle.numbers.specs.Faults.{number_tells};

use faults::{Fault, Refusal};

// Why there is no number: the file ends before it does, or its bytes are not those of a number.
#[derive(Clone, Copy, PartialEq, Eq, Debug)]
pub enum NumberFault {
    Truncated { place: usize },
    Malformed { place: usize },
}

impl NumberFault {
    // The fault's four numbers, where `record` records were read before it.
    pub fn counted(&self, record: u64) -> Fault
        ensures { result ≡ number_tells self.now «record» }
    {
        let (number, place) = match *self {
            NumberFault::Truncated { place } => (2, place),
            NumberFault::Malformed { place } => (3, place),
        };
        Fault {
            number,
            layer: 1,
            place: place as u64,
            record,
        }
    }
}

impl Refusal for NumberFault {
    ghost tells = { λ e. number_tells e 0 };

    fn fault(&self) -> Fault {
        self.counted(0)
    }
}
