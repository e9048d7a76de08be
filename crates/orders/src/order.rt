ghost use Rattle.std.specs.Prelude.{◌≡◌};
ghost use Rattle.edges.specs.Tables.{listed};
ghost use Rattle.orders.specs.Answers.{Answered};
ghost use Rattle.orders.specs.Cycles.{StuckLaw, CycleLaw};
ghost use Rattle.orders.specs.declared.order.OrderFault.TheVariants.{Memory};

use crate::search::Search;
use edges::EdgeTable;
use std::alloc::{AllocError, Global};

// The tasks one after another, and the place of each among them. Two lists: the order is lent as it is, and the
// places stand as the proof that each edge goes forward.
#[derive(Drop)]
pub struct Order {
    pub order: Vec<usize>,
    pub rank: Vec<usize>,
}

// Why there is no order: memory is short, or a task lies on a cycle of edges or after one.
#[derive(Clone, Copy, PartialEq, Eq, Debug)]
pub enum OrderFault {
    Memory,
    Cycle { task: usize },
}

impl From<AllocError> for OrderFault {
    ghost from_gives = { λ _ r. r ≡ Memory };

    fn from(_e: AllocError) -> OrderFault {
        OrderFault::Memory
    }
}

// An order in which each edge goes forward, or the lowest task that lies on a cycle or after one.
// The time grows with tasks plus edges.
pub fn order_tasks(heap: Global, table: &EdgeTable) -> Result<Order, OrderFault>
    ensures answered { Answered (listed table.now) table.now.tasks result }
    ensures stuck { StuckLaw (listed table.now) table.now.tasks }
    ensures cycles { CycleLaw (listed table.now) result }
{
    let search = Search::run(heap, table)?;
    match search.first_waiting() {
        Some(task) => Err(OrderFault::Cycle { task }),
        None => Ok(Order {
            order: search.order,
            rank: search.rank,
        }),
    }
}
