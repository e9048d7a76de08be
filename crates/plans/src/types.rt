ghost use Rattle.std.specs.Prelude.{◌≡◌};
ghost use Rattle.plans.specs.Checked.{bad_limit};

use graphs::Graph;

// The worker of a task, and the tick that it starts at. Any numbers may stand here: the check judges them.
#[derive(Clone, Copy, PartialEq, Eq, Debug, Default)]
pub struct Row {
    pub worker: usize,
    pub start: u64,
}

// A graph and the rows of its tasks, one for each: a plan, whatever the rows are.
#[derive(Clone, Copy)]
pub struct Plan<'a> {
    pub graph: &'a Graph,
    pub rows: &'a [Row],
}

// How many workers there are, and the memory of each. The link stands apart: it is lent and of any type, and half of the calls need only one of both.
#[derive(Clone, Copy, PartialEq, Eq, Debug)]
pub struct Limits {
    pub workers: usize,
    pub memory: u64,
}

impl Limits {
    // The lowest position that is outside its own limits: 1 is the number of workers, 2 the memory. Like every search it answers what it found; the
    // caller says which refusal that is.
    pub fn outside(&self) -> Option<usize>
        ensures { result ≡ bad_limit self.now.workers self.now.memory }
    {
        if self.workers < 1 || self.workers > 16 {
            return Some(1);
        }
        if self.memory < 1 || self.memory > 1 << 30 {
            return Some(2);
        }
        None
    }
}
