// What a refusal tells, whichever layer refuses.
#![tactic(auto)]

ghost use Rattle.std.specs.Prelude.{◌≡◌, Some};
ghost use Rattle.faults.specs.declared.Fault.{Fault};
ghost use Rattle.faults.specs.Texts.{numbers_of};

use std::fmt;

// The four numbers of a refusal: which one it is, the layer that found it, where, and how many records were read before.
// They are numbers by a rule of the project: they are what a refusal tells, and each crate that refuses has an enum for its own.
#[derive(Clone, Copy, PartialEq, Eq, Debug)]
pub struct Fault {
    pub number: u8,
    pub layer: u8,
    pub place: u64,
    pub record: u64,
}

// The four numbers, with single spaces between them.
impl fmt::Display for Fault {
    ghost output = { λ f. Some (numbers_of f) };

    fn fmt<W: fmt::Write>(&self, f: &mut fmt::Formatter<W>) -> fmt::Result {
        let number = self.number;
        let layer = self.layer;
        let place = self.place;
        let record = self.record;
        write!(f, "{number} {layer} {place} {record}")
    }
}

// A layer's own refusals: `tells` gives the four numbers of each case, and is the one place that does.
pub trait Refusal {
    ghost tells: { Self → Fault };

    fn fault(&self) -> Fault
        ensures { result ≡ tells self.now };
}
