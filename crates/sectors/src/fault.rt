// Why there is no sheet.
use faults::{Fault, Refusal};
use graphs::GraphFault;
use plans::PlanFault;
use std::alloc::AllocError;

// The graph or its plan is denied, or memory is short.
pub(crate) enum SheetFault {
    Denied(Fault),
    Memory,
}

impl From<GraphFault> for SheetFault {
    fn from(e: GraphFault) -> SheetFault {
        match e {
            GraphFault::Memory => SheetFault::Memory,
            other => SheetFault::Denied(other.fault()),
        }
    }
}

impl From<PlanFault> for SheetFault {
    fn from(e: PlanFault) -> SheetFault {
        SheetFault::Denied(e.fault())
    }
}

impl From<AllocError> for SheetFault {
    fn from(_e: AllocError) -> SheetFault {
        SheetFault::Memory
    }
}
