ghost use Rattle.std.specs.Prelude.{◌≡◌, ℕ, ◌<◌, length, vec_items as items, slice_index_or};
ghost use Rattle.edges.specs.Edges.{no_edge, into, out_of, Within};

use crate::edge::Edge;
use crate::table::EdgeTable;

impl EdgeTable {
    // How many tasks there are.
    pub fn tasks(&self) -> usize
        ensures { result ≡ self.now.tasks }
    {
        self.tasks
    }

    // The edges, in the order of the file.
    pub fn edges(&self) -> &[Edge]
        ensures is { result.now ≡ items self.now.edges }
        ensures within { Within (items self.now.edges) self.now.tasks }
    {
        self.edges.as_slice()
    }

    // The edges into t, in the order of the file; none where there is no such task.
    pub fn inputs(&self, t: usize) -> &[Edge]
        ensures is { result.now ≡ into (items self.now.edges) t }
        ensures within { (k : ℕ) → k < length result.now → ((slice_index_or result.now k no_edge).from < self.now.tasks) × ((slice_index_or result.now k no_edge).to ≡ t) }
    {
        self.target.share(t)
    }

    // The edges out of t, in the order of the file; none where there is no such task.
    pub fn outputs(&self, t: usize) -> &[Edge]
        ensures is { result.now ≡ out_of (items self.now.edges) t }
        ensures within { (k : ℕ) → k < length result.now → ((slice_index_or result.now k no_edge).from ≡ t) × ((slice_index_or result.now k no_edge).to < self.now.tasks) }
    {
        self.source.share(t)
    }
}
