// Placing tasks, one by one.
ghost use Rattle.std.specs.Prelude.{◌≡◌, ◌<◌, if◌then◌else◌, Decides};
ghost use Rattle.steps.specs.Desks.{graph_of};
ghost use Rattle.steps.specs.Seats.{nobody, placeable, put as put_at};
ghost use Rattle.steps.specs.Laws.{Placeable};

use crate::desk::{Desk, Lane};
use crate::{TASKS, WORKERS};
use graphs::Graph;
use links::CEILING;
use plans::Row;

impl<'a> Desk<'a> {
    // No task is placed.
    pub fn new(graph: &'a Graph) -> Desk<'a>
        ensures seats { result.seats ≡ nobody }
        ensures graph { result.graph.now ≡ graph.now }
    {
        Desk {
            graph,
            seats: [None; TASKS],
            lanes: [None; WORKERS],
        }
    }

    // Whether t may be placed at the row.
    #[tactic(auto, unfolding(crate::specs::Seats::placeable))]
    fn may_place(&self, t: usize, row: Row) -> bool
        ensures { result ≡ placeable (graph_of self.now) self.now.seats t row }
    {
        t < self.graph.tasks().len()
            && !self.is_placed(t)
            && row.worker < WORKERS
            && row.start <= CEILING - u64::from(self.graph.time(t))
    }

    fn put(&mut self, t: usize, row: Row)
        requires table { t < 512 }
        requires may { Placeable (graph_of self.old) self.old.seats t row }
        ensures seats { self.new.seats ≡ put_at self.old.seats t row }
        ensures graph { self.new.graph.now ≡ self.old.graph.now }
    {
        let w = row.worker;
        let end = row.start + u64::from(self.graph.time(t));
        let lane = Lane {
            free: self.free(w).max(end),
            used: self.used(w) + u64::from(self.graph.size(t)),
        };
        self.seats[t] = Some(row);
        self.lanes[w] = Some(lane);
    }

    // Places t at the row, and answers true, where t is a task that is not placed, the worker is below 16, and the
    // end is not above the ceiling. Else it answers false and places nothing.
    // The bool answers as the `insert` of a set does: whether there is one more.
    pub fn place(&mut self, t: usize, row: Row) -> bool
        ensures is { result ≡ placeable (graph_of self.old) self.old.seats t row }
        ensures words { Decides result (Placeable (graph_of self.old) self.old.seats t row) }
        ensures seats { self.new.seats ≡ (if result then put_at self.old.seats t row else self.old.seats) }
        ensures graph { self.new.graph.now ≡ self.old.graph.now }
    {
        if !self.may_place(t, row) {
            return false;
        }
        self.put(t, row);
        true
    }
}
