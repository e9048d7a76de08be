ghost use Rattle.std.specs.Prelude.{◌≡◌};
ghost use Rattle.graphs.specs.declared.fault.GraphFault.TheVariants.{InRecord, Memory};
ghost use Rattle.graphs.specs.declared.fault.NameFault.TheVariants.{InGraph};
ghost use Rattle.graphs.specs.Faults.{graph_tells, name_tells, of_order};

use faults::{Fault, Refusal};
use orders::OrderFault;
use records::fault::Counted;
use std::alloc::{AllocError, AllocFailed};

// Why there is no graph.
#[derive(Clone, Copy, PartialEq, Eq, Debug)]
pub enum GraphFault {
    // a fault of a record
    InRecord(Counted),
    // an edge joins the pair that an earlier edge joins
    Repeated { place: usize },
    // a task lies on a cycle of edges or after one
    Cycle { task: usize },
    Memory,
}

impl From<Counted> for GraphFault {
    ghost from_gives = { λ e r. r ≡ InRecord e };

    fn from(e: Counted) -> GraphFault {
        GraphFault::InRecord(e)
    }
}

impl From<OrderFault> for GraphFault {
    ghost from_gives = { λ e r. r ≡ of_order e };

    fn from(e: OrderFault) -> GraphFault {
        match e {
            OrderFault::Memory => GraphFault::Memory,
            OrderFault::Cycle { task } => GraphFault::Cycle { task },
        }
    }
}

impl From<AllocError> for GraphFault {
    ghost from_gives = { λ _ r. r ≡ Memory };

    fn from(_e: AllocError) -> GraphFault {
        GraphFault::Memory
    }
}

impl<T: Drop> From<AllocFailed<T>> for GraphFault {
    ghost from_gives = { λ _ r. r ≡ Memory };

    fn from(_e: AllocFailed<T>) -> GraphFault {
        GraphFault::Memory
    }
}

impl Refusal for GraphFault {
    ghost tells = { graph_tells };

    fn fault(&self) -> Fault {
        let (number, place) = match *self {
            GraphFault::InRecord(counted) => return counted.fault(),
            GraphFault::Repeated { place } => (7, place),
            GraphFault::Cycle { task } => (9, task),
            GraphFault::Memory => (0, 0),
        };
        Fault {
            number,
            layer: 3,
            place: place as u64,
            record: 0,
        }
    }
}

// Why a file has no name for a task: a fault of its graph, or there is no such task.
#[derive(Clone, Copy, PartialEq, Eq, Debug)]
pub enum NameFault {
    InGraph(GraphFault),
    NoTask { task: usize },
}

impl From<GraphFault> for NameFault {
    ghost from_gives = { λ e r. r ≡ InGraph e };

    fn from(fault: GraphFault) -> NameFault {
        NameFault::InGraph(fault)
    }
}

impl Refusal for NameFault {
    ghost tells = { name_tells };

    fn fault(&self) -> Fault {
        match *self {
            NameFault::InGraph(fault) => fault.fault(),
            NameFault::NoTask { task } => Fault {
                number: 21,
                layer: 5,
                place: task as u64,
                record: 0,
            },
        }
    }
}
