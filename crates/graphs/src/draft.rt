// The parts of a graph while its file is read.
ghost use Rattle.std.specs.Prelude.{◌≡◌, ℕ, ◌<◌, ◌≤◌, length, vec_items as items, IfOk, Ok, MatchResult};
ghost use Rattle.orders.specs.PairSets.{held};
ghost use Rattle.records.specs.Heads.{Few};
ghost use Rattle.records.specs.Records.{seen, edge as edge_item};
ghost use Rattle.graphs.specs.declared.fault.GraphFault.TheVariants.{Memory};
ghost use Rattle.graphs.specs.Files.{joined_in, with_task, added, all_parts, Denies};
ghost use Rattle.graphs.specs.Parts.{no_parts};

use crate::fault::GraphFault;
use crate::types::{Name, Task};
use edges::Edge;
use orders::PairSet;
use records::read::Records;
use records::types::{Head, Record};
use std::alloc::{AllocError, Global};

// The tasks, names and edges so far, and the pairs that the edges join.
#[derive(Drop)]
pub(crate) struct Draft {
    pub(crate) tasks: Vec<Task>,
    pub(crate) names: Vec<Name>,
    pub(crate) edges: Vec<Edge>,
    pub(crate) pairs: PairSet,
    ghost paired: { (p q : ℕ) → p < 512 → q < 512 → held pairs p q ≡ joined_in (items edges) p q },
}

impl Draft {
    ghost use Rattle.graphs.specs.Drafts.{drafted, Ready, Adds};

    fn new(heap: Global) -> Result<Draft, AllocError>
        ensures { IfOk result (λ d. drafted d ≡ no_parts) }
    {
        let pairs = PairSet::new(heap)?;
        Ok(Draft {
            tasks: Vec::new(heap),
            names: Vec::new(heap),
            edges: Vec::new(heap),
            pairs,
        })
    }

    fn add_task(&mut self, name: &[u8], task: Task) -> Result<(), GraphFault>
        requires { (1 ≤ length name.now) × (length name.now ≤ 31) }
        ensures { MatchResult result (λ _. drafted self.new ≡ with_task (drafted self.old) task name.now) (λ e. e ≡ Memory) }
    {
        self.tasks.push(task)?;
        self.names.push(Name::new(name))?;
        Ok(())
    }

    // Adds an edge that stands at `at`; refused where an earlier one joins the same pair.
    fn add_edge(&mut self, edge: Edge, at: usize) -> Result<(), GraphFault>
        requires { (edge.from < 512) × (edge.to < 512) }
        ensures { Adds (added (edge_item edge.from edge.to edge.amount) at (drafted self.old)) result self.new }
    {
        // a repeated pair is told before want of memory, and the pair goes in after its edge, so that the pairs are those of the edges
        if self.pairs.has(edge.from, edge.to) {
            return Err(GraphFault::Repeated { place: at });
        }
        self.edges.push(edge)?;
        let _ = self.pairs.insert(edge.from, edge.to);
        Ok(())
    }

    // Adds the record that stands at `at`.
    fn add(&mut self, record: Record, at: usize) -> Result<(), GraphFault>
        requires { Ready (seen «record») }
        ensures { Adds (added (seen «record».entry) at (drafted self.old)) result self.new }
    {
        match record {
            Record::Task {
                name,
                time,
                size,
                ..
            } => { self.add_task(name, Task { time, size }) }
            Record::Edge { from, to, amount } => self.add_edge(Edge { from, to, amount }, at),
            Record::End => Ok(()),
        }
    }

    // The records after the head, one after another, and then the end of the file.
    pub(crate) fn read(heap: Global, file: &[u8], head: Head) -> Result<Draft, GraphFault>
        requires { Few head }
        ensures { MatchResult result (λ d. all_parts file.now head ≡ Ok (drafted d)) (Denies (all_parts file.now head)) }
    {
        let mut draft = Draft::new(heap)?;
        let mut records = Records::new(file, head);
        for _ in 0..head.tasks + head.edges {
            let at = records.at();
            let record = records.read_next()?;
            draft.add(record, at)?;
        }
        records.read_next()?;
        Ok(draft)
    }
}
