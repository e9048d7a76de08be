// What the steps ask of the tasks placed so far.
ghost use Rattle.std.specs.Prelude.{◌≡◌, ℕ, ◌*◌, ◌^◌, ◌<◌, ◌≤◌, false, ◌||◌, slice_index_or};
ghost use Rattle.graphs.specs.Graphs.{model_of};
ghost use Rattle.steps.specs.Desks.{graph_of};
ghost use Rattle.steps.specs.Seats.{at, sits as sits_at, host as host_of, placed as is_placed, end_of, open_test, free as free_tick, in_use, fits as fits_on, holds as holds_input, closed as is_closed, Marks, t_level_of, reach as reach_of, start_on_worker};

use crate::TASKS;
use crate::desk::Desk;
use graphs::{Edge, Graph};
use links::Link;
use plans::Row;

// Which tasks are successors of t.
pub fn successors(graph: &Graph, t: usize) -> [bool; TASKS]
    ensures { Marks (model_of graph.now) t result }
{
    let mut marks = [false; TASKS];
    let outs = graph.outputs(t);
    for e in outs {
        marks[e.to] = true;
    }
    marks
}

impl<'a> Desk<'a> {
    // The graph whose tasks are placed.
    pub fn graph(&self) -> &'a Graph
        ensures { result.now ≡ self.now.graph.now }
    {
        self.graph
    }

    // The row of t, if it is placed.
    pub fn row(&self, t: usize) -> Option<Row>
        ensures { result ≡ at self.now.seats t }
    {
        self.seats.get(t).copied().flatten()
    }

    pub fn is_placed(&self, t: usize) -> bool
        ensures { result ≡ is_placed self.now.seats t }
    {
        self.row(t).is_some()
    }

    // Whether t sits on w.
    pub fn sits(&self, t: usize, w: usize) -> bool
        ensures { result ≡ sits_at (at self.now.seats t) w }
    {
        self.row(t).is_some_and(|row| row.worker == w)
    }

    // The worker of t, or 0 where it is not placed.
    fn host(&self, t: usize) -> usize
        ensures { result ≡ host_of (at self.now.seats t) }
    {
        self.row(t).map_or(0, |row| row.worker)
    }

    // The end of t, or 0 where it is not placed.
    pub fn end(&self, t: usize) -> u64
        ensures is { result ≡ end_of (graph_of self.now) self.now.seats t }
        ensures low { result ≤ 2 ^ 40 }
    {
        self.row(t)
            .map_or(0, |row| row.start + u64::from(self.graph.time(t)))
    }

    // Whether w has a task.
    pub(crate) fn is_open(&self, w: usize) -> bool
        ensures { result ≡ open_test (graph_of self.now) self.now.seats w }
    {
        self.lane(w).is_some()
    }

    // The free tick of w: the end of its last task, or 0.
    pub(crate) fn free(&self, w: usize) -> u64
        ensures { result ≡ free_tick (graph_of self.now) self.now.seats w }
    {
        self.lane(w).map_or(0, |lane| lane.free)
    }

    // The memory in use on w.
    pub(crate) fn used(&self, w: usize) -> u64
        ensures is { result ≡ in_use (graph_of self.now) self.now.seats w }
        ensures low { result ≤ 512 * 2 ^ 24 }
    {
        self.lane(w).map_or(0, |lane| lane.used)
    }

    // The t-level of t.
    pub fn t_level<L: Link>(&self, link: &L, t: usize) -> u64
        ensures is { result ≡ t_level_of (L.arrives link.now) (graph_of self.now) self.now.seats t }
        ensures low { result ≤ 2 ^ 41 }
    {
        self.graph.inputs(t).iter().fold(0, |level, e| {
            level.max(self.end(e.from) + link.arrival(0, 0, 1, e.amount))
        })
    }

    // Whether w holds an input of t.
    pub(crate) fn holds(&self, t: usize, w: usize) -> bool
        ensures { result ≡ holds_input (graph_of self.now) self.now.seats t w }
    {
        self.graph.inputs(t).iter().any(|e| self.sits(e.from, w))
    }

    // Whether t fits on w.
    pub(crate) fn fits(&self, memory: u64, t: usize, w: usize) -> bool
        ensures { result ≡ fits_on memory (graph_of self.now) self.now.seats t w }
    {
        self.used(w) + u64::from(self.graph.size(t)) <= memory
    }

    // When what e brings is on w.
    fn reach<L: Link>(&self, link: &L, e: Edge, w: usize) -> u64
        ensures { result ≡ reach_of (L.arrives link.now) (graph_of self.now) self.now.seats w e.from e.amount }
    {
        let end = self.end(e.from);
        if self.sits(e.from, w) {
            end
        } else {
            link.arrival(end, self.host(e.from), w, e.amount)
        }
    }

    // The start of t on w.
    pub(crate) fn start_on<L: Link>(&self, link: &L, t: usize, w: usize) -> u64
        ensures { result ≡ start_on_worker (L.arrives link.now) (graph_of self.now) self.now.seats t w }
    {
        let inputs = self.graph.inputs(t);
        inputs.iter().fold(self.free(w), |start, e| start.max(self.reach(link, *e, w)))
    }

    // Whether v is placed or marked.
    fn is_settled(&self, marks: &[bool; TASKS], v: usize) -> bool
        requires { v < 512 }
        ensures { result ≡ (is_placed self.now.seats v || slice_index_or marks.now v false) }
    {
        self.is_placed(v) || marks[v]
    }

    // Whether every successor of every task on w is placed or marked. A rule of the project wants a search that is left by a label.
    pub(crate) fn closed(&self, marks: &[bool; TASKS], w: usize) -> bool
        ensures { (t : ℕ) → Marks (graph_of self.now) t marks.now → result ≡ is_closed (graph_of self.now) self.now.seats t w }
    {
        let mut shut = true;
        'search: for u in 0..self.graph.tasks().len() {
            if !self.sits(u, w) {
                continue;
            }
            let outs = self.graph.outputs(u);
            for e in outs {
                if !self.is_settled(marks, e.to) {
                    shut = false;
                    break 'search;
                }
            }
        }
        shut
    }
}
