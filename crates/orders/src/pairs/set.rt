ghost use Rattle.std.specs.Prelude.{◌≡◌, ℕ, ◌<◌, false, ◌&&◌, ◌||◌, IfOk, ◌==◌};
ghost use Rattle.orders.specs.Inputs.{FewInputs};
ghost use Rattle.orders.specs.PairSets.{held, Reads};

use crate::pairs::PairSet;
use crate::pairs::marks::{is_marked, mark};
use std::alloc::{AllocError, Global};

impl PairSet {
    // No pair.
    pub fn new(heap: Global) -> Result<PairSet, AllocError>
        ensures { IfOk result (λ s. (p q : ℕ) → held s p q ≡ false) }
    {
        let words = vec![in heap; 0u64; 4096]?;
        Ok(PairSet { words })
    }

    // Whether a pair is in. A pair with a number of 512 or more is never in.
    pub fn has(&self, from: usize, to: usize) -> bool
        ensures { result ≡ held self.now from to }
    {
        from < 512 && to < 512 && is_marked(&self.words, from * 512 + to)
    }

    // Puts a pair in, and answers whether it was in. A pair with a number of 512 or more is never in.
    pub fn insert(&mut self, from: usize, to: usize) -> bool
        ensures was { result ≡ held self.old from to }
        ensures puts { (p q : ℕ) → p < 512 → q < 512 → held self.new p q ≡ ((p == from && q == to) || held self.old p q) }
        ensures reads { Reads (held self.old) from to result (held self.new) }
        ensures few { FewInputs }
    {
        if from >= 512 || to >= 512 {
            return false;
        }
        mark(&mut self.words, from * 512 + to)
    }
}
