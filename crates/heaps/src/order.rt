// The order of the entries.
ghost use Rattle.std.specs.Prelude.{◌≡◌, Bool};
ghost use Rattle.heaps.specs.Orders.{TotalOrder};

// Entries with a total order: `before` says which of two comes first. It is no `Ord`, whose laws let entries tie that are not the same:
// which list comes out of a heap rests on entries that tie being the same.
pub trait Ordered: Copy {
    ghost before: { Self → Self → Bool };

    fn precedes(&self, other: &Self) -> bool
        ensures { result ≡ before self.now other.now };

    ghost total: { TotalOrder before };
}
