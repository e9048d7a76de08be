ghost use Rattle.std.specs.Prelude.{◌≡◌, ℕ, ◌<◌, ◌||◌, length, ◌==◌};
ghost use Rattle.orders.specs.Marks.{marked};

// Whether bit p is marked.
pub(crate) fn is_marked(words: &[u64], p: usize) -> bool
    requires long { length words.now ≡ 4096 }
    requires place { p < 262144 }
    ensures { result ≡ marked words.now p }
{
    (words[p / 64] >> (p % 64)) % 2 == 1
}

// Marks bit p, and answers whether it was marked.
pub(crate) fn mark(words: &mut [u64], p: usize) -> bool
    requires long { length words.old ≡ 4096 }
    requires place { p < 262144 }
    ensures was { result ≡ marked words.old p }
    ensures marks { (q : ℕ) → marked words.new q ≡ (q == p || marked words.old q) }
{
    let word = words[p / 64];
    words[p / 64] = word | (1u64 << (p % 64));
    (word >> (p % 64)) % 2 == 1
}
