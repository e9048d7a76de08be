ghost use Rattle.std.specs.Prelude.{◌≡◌};
ghost use Rattle.plans.specs.declared.fault.PlanFault.TheVariants.{InRecord};
ghost use Rattle.plans.specs.Faults.{plan_tells};

use faults::{Fault, Refusal};
use records::fault::Counted;

// Why there is no plan, or why a plan is refused.
#[derive(Clone, Copy, PartialEq, Eq, Debug)]
pub enum PlanFault {
    // a table has fewer than 512 rows
    ShortTable,
    // a fault of a plan file's record
    InRecord(Counted),
    // a plan file's task count or length is not that of the graph and its rows
    NotOfGraph { place: usize },
    // a parameter is outside its limits; by a rule of the project its position is what the refusal tells
    Parameter { position: usize },
    // a task alone exceeds the memory
    TooLarge { task: usize },
    // all workers are open, and none has room
    NoneFits { task: usize },
    // a task would end above the ceiling
    TooLate { task: usize },
    // what is written exceeds the buffer
    ShortBuffer { needed: usize },
    // the five rules, in their order
    NoWorker { task: usize },
    AboveCeiling { task: usize },
    Overlap { task: usize },
    Overfull { worker: usize },
    LateInput { edge: usize },
}

impl From<Counted> for PlanFault {
    ghost from_gives = { λ e r. r ≡ InRecord e };

    fn from(e: Counted) -> PlanFault {
        PlanFault::InRecord(e)
    }
}

impl Refusal for PlanFault {
    ghost tells = { plan_tells };

    fn fault(&self) -> Fault {
        let (number, place) = match *self {
            PlanFault::InRecord(counted) => return counted.fault(),
            PlanFault::ShortTable => (1, 512),
            PlanFault::NotOfGraph { place } => (10, place as u64),
            PlanFault::Parameter { position } => (11, position as u64),
            PlanFault::TooLarge { task } => (12, task as u64),
            PlanFault::NoneFits { task } => (13, task as u64),
            PlanFault::TooLate { task } => (14, task as u64),
            PlanFault::ShortBuffer { needed } => (15, needed as u64),
            PlanFault::NoWorker { task } => (16, task as u64),
            PlanFault::AboveCeiling { task } => (17, task as u64),
            PlanFault::Overlap { task } => (18, task as u64),
            PlanFault::Overfull { worker } => (19, worker as u64),
            PlanFault::LateInput { edge } => (20, edge as u64),
        };
        Fault {
            number,
            layer: 4,
            place,
            record: 0,
        }
    }
}
