// The rules of one task at a time, and the length.
ghost use Rattle.std.specs.Prelude.{◌≡◌, ℕ, ◌-◌, ◌^◌, min};
ghost use Rattle.graphs.specs.Graphs.{model_of};
ghost use Rattle.plans.specs.Jobs.{unlinked, placing};
ghost use Rattle.plans.specs.Rules.{Placed, Early, InTime, Each, Found, latest};
ghost use Rattle.plans.specs.Checked.{failing, placed_test, in_time_test};

use crate::types::Plan;
use links::CEILING;

impl<'a> Plan<'a> {
    // Rule 1: the lowest task whose worker number is not below the number of workers.
    pub fn unplaced(&self, workers: usize) -> Option<usize>
        ensures is { result ≡ failing (placed_test (unlinked (model_of self.now.graph.now) self.now.rows.now workers 0)) (model_of self.now.graph.now).tasks }
        ensures found { Found (Placed (unlinked (model_of self.now.graph.now) self.now.rows.now workers 0)) (model_of self.now.graph.now).tasks result }
    {
        (0..self.graph.tasks().len()).find(|t| self.row(*t).worker >= workers)
    }

    // Rule 2: the lowest task that ends above the ceiling.
    pub fn above_ceiling(&self) -> Option<usize>
        ensures is { result ≡ failing (in_time_test (placing self.now)) (model_of self.now.graph.now).tasks }
        ensures found { Found (InTime (placing self.now)) (model_of self.now.graph.now).tasks result }
    {
        (0..self.graph.tasks().len()).find(|t| self.end(*t) > CEILING)
    }

    // The latest end, or the largest u64 where that is above it: exact where no start is above the ceiling.
    pub fn latest_end(&self) -> u64
        ensures is { result ≡ min (latest (placing self.now)) (2 ^ 64 - 1) }
        ensures exact { Each (Early (placing self.now)) (model_of self.now.graph.now).tasks → result ≡ latest (placing self.now) }
    {
        (0..self.graph.tasks().len()).fold(0, |all: u64, t| all.max(self.end(t)))
    }
}
