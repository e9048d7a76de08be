ghost use Rattle.std.specs.Prelude.{◌≡◌};
ghost use Rattle.runs.specs.declared.types.OpenFault.TheVariants.{Refused, Memory};
ghost use Rattle.runs.specs.Faults.{run_tells, open_tells};

use faults::{Fault, Refusal};
use plans::PlanFault;
use std::alloc::AllocError;

// When a done task began and ended.
#[derive(Clone, Copy, PartialEq, Eq, Debug)]
pub struct Span {
    pub begin: u64,
    pub end: u64,
}

// Why a run refuses a call.
#[derive(Clone, Copy, PartialEq, Eq, Debug)]
pub enum RunFault {
    // there is no such worker
    NoWorker { worker: usize },
    // all tasks of the lane are done
    NoTaskLeft { worker: usize },
    // this input of the head is not done, and no lower one
    InputMissing { task: usize },
    // the head used more ticks than declared
    Overrun { task: usize },
}

impl Refusal for RunFault {
    ghost tells = { run_tells };

    fn fault(&self) -> Fault {
        let (number, place) = match *self {
            RunFault::NoWorker { worker } => (21, worker as u64),
            RunFault::NoTaskLeft { worker } => (22, worker as u64),
            RunFault::InputMissing { task } => (23, task as u64),
            RunFault::Overrun { task } => (24, task as u64),
        };
        Fault {
            number,
            layer: 5,
            place,
            record: 0,
        }
    }
}

// Why a run was not opened: the check refuses the plan, or memory is short.
#[derive(Clone, Copy, PartialEq, Eq, Debug)]
pub enum OpenFault {
    Refused(PlanFault),
    Memory,
}

impl From<PlanFault> for OpenFault {
    ghost from_gives = { λ e r. r ≡ Refused e };

    fn from(fault: PlanFault) -> OpenFault {
        OpenFault::Refused(fault)
    }
}

impl From<AllocError> for OpenFault {
    ghost from_gives = { λ _ r. r ≡ Memory };

    fn from(_e: AllocError) -> OpenFault {
        OpenFault::Memory
    }
}

impl Refusal for OpenFault {
    ghost tells = { open_tells };

    fn fault(&self) -> Fault {
        match *self {
            OpenFault::Refused(fault) => fault.fault(),
            OpenFault::Memory => Fault {
                number: 0,
                layer: 5,
                place: 0,
                record: 0,
            },
        }
    }
}

// A call that a loader makes of an opened run.
#[derive(Clone, Copy, PartialEq, Eq, Debug)]
pub enum Call {
    // which task does the worker begin, and when?
    Next { worker: usize },
    // the worker's task is done, and used so many ticks
    Done { worker: usize, used: u64 },
}

// A line of a loader's log: a call with its answer.
#[derive(Clone, Copy, PartialEq, Eq, Debug)]
pub enum Line {
    Opened,
    Asked {
        worker: usize,
        answer: Result<(usize, u64), RunFault>,
    },
    Reported {
        worker: usize,
        used: u64,
        answer: Result<u64, RunFault>,
    },
}
