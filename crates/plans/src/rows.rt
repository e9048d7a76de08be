// What a plan says of one task.
ghost use Rattle.std.specs.Prelude.{◌≡◌, ℕ, ◌-◌, ◌^◌, min, slice_index_or};
ghost use Rattle.plans.specs.Jobs.{no_row, placing};
ghost use Rattle.plans.specs.Rules.{end};

use crate::types::{Plan, Row};

impl<'a> Plan<'a> {
    // The row of task t. Past the end of the table, worker 0 and start 0.
    pub fn row(&self, t: usize) -> Row
        ensures { result ≡ slice_index_or self.now.rows.now t no_row }
    {
        self.rows.get(t).copied().unwrap_or_default()
    }

    // The end of task t, or the largest u64 where the end is above that.
    pub fn end(&self, t: usize) -> u64
        ensures { result ≡ min (end (placing self.now) t) (2 ^ 64 - 1) }
    {
        let time = u64::from(self.graph.time(t));
        self.row(t).start.saturating_add(time)
    }
}
