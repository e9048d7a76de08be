// A search in time that grows with tasks plus edges. The order is also the list of the tasks that have yet to be taken up:
// a task goes to its end once no edge leads to it from a task that was not taken up.
ghost use Rattle.std.specs.Prelude.{◌≡◌, ℕ, ◌+◌, ◌<◌, length, IfOk, vec_items as items, slice_index};
ghost use Rattle.std.proofs.Props.{props};
ghost use Rattle.edges.specs.Edges.{Under};
ghost use Rattle.edges.specs.declared.edge.Side.TheVariants.{To};
ghost use Rattle.orders.specs.Searches.{count_to, Shape};

use edges::{Edge, EdgeTable};
use std::alloc::{AllocError, Global};

// The first `tail` places of the order count. A push could fail with each task that is placed, so the tables are made whole at once.
// How many things each task waits for, the rank of each that waits for nothing, and those tasks in order.
#[derive(Drop)]
pub(crate) struct Search {
    waits: Vec<usize>,
    pub(crate) rank: Vec<usize>,
    pub(crate) order: Vec<usize>,
    tail: usize,
    ghost shape: { Shape (items waits) (items rank) (items order) tail } by { Prim.hlevel props },
}

// A task waits for each edge that leads to it, and for one thing more: its own turn.
fn count_inputs(heap: Global, edges: &[Edge], tasks: usize) -> Result<Vec<usize>, AllocError>
    requires { Under To edges.now tasks }
    ensures long { IfOk result (λ w. length (items w) ≡ tasks) }
    ensures waits { IfOk result (λ w. (t : ℕ) → t < tasks → slice_index (items w) t ≡ count_to edges.now t + 1) }
{
    let mut waits = vec![in heap; 1usize; tasks]?;
    for e in edges {
        waits[e.to] += 1;
    }
    Ok(waits)
}

impl Search {
    ghost use Rattle.std.specs.Prelude.{◌-◌, ◌≤◌, slice_set, position, nat_lt};
    ghost use Rattle.edges.specs.Tables.{listed};
    ghost use Rattle.orders.specs.Turns.{Kept, Fresh, Going, Finished};

    // No task is placed yet.
    fn new(heap: Global, table: &EdgeTable) -> Result<Search, AllocError>
        ensures { IfOk result (Fresh (listed table.now) table.now.tasks) }
    {
        let tasks = table.tasks();
        Ok(Search {
            waits: count_inputs(heap, table.edges(), tasks)?,
            rank: vec![in heap; tasks; tasks]?,
            order: vec![in heap; 0usize; tasks]?,
            tail: 0,
        })
    }

    // Task t waits for one thing less; where it waits for nothing more, it goes to the end of the order.
    fn settle(&mut self, t: usize)
        requires task { t < length (items self.old.waits) }
        requires waiting { 0 < slice_index (items self.old.waits) t }
        ensures waits { items self.new.waits ≡ slice_set (items self.old.waits) t (slice_index (items self.old.waits) t - 1) }
        ensures kept { Kept self.old self.new }
    {
        self.waits[t] -= 1;
        if self.waits[t] > 0 {
            return;
        }
        self.rank[t] = self.tail;
        self.order[self.tail] = t;
        self.tail += 1;
    }

    // The target of each of these edges waits for one thing less.
    fn release(&mut self, outs: &[Edge])
        requires under { Under To outs.now (length (items self.old.waits)) }
        requires due { (t : ℕ) → t < length (items self.old.waits) → count_to outs.now t ≤ slice_index (items self.old.waits) t }
        ensures waits { (t : ℕ) → t < length (items self.old.waits) → slice_index (items self.new.waits) t + count_to outs.now t ≡ slice_index (items self.old.waits) t }
        ensures kept { Kept self.old self.new }
    {
        for e in outs {
            self.settle(e.to);
        }
    }

    // Takes each task's own turn off: those that no edge leads to begin the order.
    fn seed(&mut self)
        requires { (t : ℕ) → t < length (items self.old.waits) → 0 < slice_index (items self.old.waits) t }
        ensures long { length (items self.new.waits) ≡ length (items self.old.waits) }
        ensures waits { (t : ℕ) → t < length (items self.old.waits) → slice_index (items self.new.waits) t + 1 ≡ slice_index (items self.old.waits) t }
    {
        // t numbers a task: settling it alters the whole struct, so nothing of it can be lent to an iterator
        for t in 0..self.waits.len() {
            self.settle(t);
        }
    }

    // Takes up each task of the order in turn.
    fn take_turns(&mut self, table: &EdgeTable)
        requires { Going (listed table.now) table.now.tasks self.old 0 }
        ensures { Finished (listed table.now) table.now.tasks self.new }
    {
        let mut head = 0;
        // `while let` with `get` is no plainer: the order grows while it is read, and only its first `tail` places count.
        while head < self.tail {
            let outs = table.outputs(self.order[head]);
            self.release(outs);
            head += 1;
        }
    }

    // A search to its end: each task of the order is taken up.
    pub(crate) fn run(heap: Global, table: &EdgeTable) -> Result<Search, AllocError>
        ensures { IfOk result (Finished (listed table.now) table.now.tasks) }
    {
        let mut search = Search::new(heap, table)?;
        search.seed();
        search.take_turns(table);
        Ok(search)
    }

    // The lowest task that waits, if one does.
    pub(crate) fn first_waiting(&self) -> Option<usize>
        ensures { result ≡ position (λ w. nat_lt 0 w) (items self.now.waits) }
    {
        self.waits.iter().position(|w| *w > 0)
    }
}
