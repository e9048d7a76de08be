// The rules of more than one task. That each task ends in time stands in their contracts and in no type: only some plans meet it, and the check
// learns it between two of its tests.
ghost use Rattle.std.specs.Prelude.{◌≡◌, ℕ, ◌^◌, ◌<◌, ◌≤◌, Decides};
ghost use Rattle.edges.specs.declared.edge.Edge.{Edge};
ghost use Rattle.graphs.specs.Graphs.{model_of};
ghost use Rattle.plans.specs.Jobs.{job, no_limits, unlinked, placing};
ghost use Rattle.plans.specs.Rules.{InTime, Apart, Alone, AloneAhead, Roomy, Fed, Each, Found, used, brings};

use crate::types::{Limits, Plan};
use graphs::Edge;
use links::Link;

impl<'a> Plan<'a> {
    // Whether two tasks share no worker, or no tick on it.
    fn is_apart(&self, t: usize, u: usize) -> bool
        requires { Each (InTime (placing self.now)) (model_of self.now.graph.now).tasks }
        ensures { t < (model_of self.now.graph.now).tasks → u < (model_of self.now.graph.now).tasks → Decides result (Apart (placing self.now) t u) }
    {
        let row = self.row(t);
        let other = self.row(u);
        row.worker != other.worker || self.end(t) <= other.start || self.end(u) <= row.start
    }

    // Whether no task after t shares the worker of t, and a tick with it.
    fn is_alone_ahead(&self, t: usize) -> bool
        requires { (t < (model_of self.now.graph.now).tasks) × Each (InTime (placing self.now)) (model_of self.now.graph.now).tasks }
        ensures { Decides result (AloneAhead (placing self.now) t) }
    {
        (t + 1..self.graph.tasks().len()).all(|u| self.is_apart(t, u))
    }

    // Rule 3: the lowest task that shares a tick with another on its worker, which comes after it, since it is the lowest.
    pub(crate) fn overlapping(&self) -> Option<usize>
        requires { Each (InTime (placing self.now)) (model_of self.now.graph.now).tasks }
        ensures { Found (Alone (placing self.now)) (model_of self.now.graph.now).tasks result }
    {
        (0..self.graph.tasks().len()).find(|t| !self.is_alone_ahead(*t))
    }

    // The memory in use on a worker.
    fn memory_used(&self, worker: usize) -> u64
        ensures { result ≡ used (placing self.now) worker }
    {
        // a loop, since its invariant is what bounds the sum
        let mut sum: u64 = 0;
        for (t, task) in self.graph.tasks().iter().enumerate() {
            if self.row(t).worker == worker {
                sum += u64::from(task.size);
            }
        }
        sum
    }

    // Rule 4: the lowest worker whose tasks exceed the memory.
    pub(crate) fn overfull(&self, limits: Limits) -> Option<usize>
        ensures { Found (Roomy (unlinked (model_of self.now.graph.now) self.now.rows.now limits.workers limits.memory)) limits.workers result }
    {
        (0..limits.workers).find(|w| self.memory_used(*w) > limits.memory)
    }

    // When what an edge brings is on the worker of its target.
    fn reach<L: Link>(&self, link: &L, edge: Edge) -> u64
        requires { Each (InTime (placing self.now)) (model_of self.now.graph.now).tasks }
        ensures { edge.from < (model_of self.now.graph.now).tasks → result ≡ brings (job (model_of self.now.graph.now) self.now.rows.now no_limits (L.arrives link.now)) edge.from edge.to edge.amount }
    {
        let end = self.end(edge.from);
        let from = self.row(edge.from).worker;
        let to = self.row(edge.to).worker;
        if from == to {
            end
        } else {
            link.arrival(end, from, to, edge.amount)
        }
    }

    // Rule 5: the first edge whose input comes after the start of its target.
    pub(crate) fn late_input<L: Link>(&self, link: &L) -> Option<usize>
        requires { Each (InTime (placing self.now)) (model_of self.now.graph.now).tasks }
        ensures { Found (Fed (job (model_of self.now.graph.now) self.now.rows.now no_limits (L.arrives link.now))) (model_of self.now.graph.now).edges result }
    {
        self.graph
            .edges()
            .iter()
            .position(|e| self.reach(link, *e) > self.row(e.to).start)
    }
}
