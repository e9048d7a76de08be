// The two kinds of entry that wait in a heap, each with its order.
ghost use Rattle.heaps.specs.Entries.{sooner, above};
ghost use Rattle.heaps.specs.Keys as keys;

use crate::order::Ordered;

// A task that is ready: the higher rank first, then the lower number. Both orders are written out; a derive would take them from the order of the fields.
#[derive(Clone, Copy, PartialEq, Eq, Debug, Default)]
pub struct Ready {
    pub rank: u64,
    pub task: usize,
}

impl Ordered for Ready {
    ghost before = { sooner };

    ghost total = { keys.sooner_total };

    fn precedes(&self, other: &Ready) -> bool {
        self.rank > other.rank || (self.rank == other.rank && self.task < other.task)
    }
}

// A line of the sheet: by start, then by worker. No two tasks of a plan that passes its check share both, so the task
// number decides between no two of its lines; it makes the order total.
#[derive(Clone, Copy, PartialEq, Eq, Debug, Default)]
pub struct Line {
    pub start: u64,
    pub worker: usize,
    pub task: usize,
}

impl Ordered for Line {
    ghost before = { above };

    ghost total = { keys.above_total };

    fn precedes(&self, other: &Line) -> bool {
        self.start < other.start
            || (self.start == other.start
                && (self.worker < other.worker
                    || (self.worker == other.worker && self.task < other.task)))
    }
}
