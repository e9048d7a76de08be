ghost use Rattle.std.specs.Prelude.{◌≡◌, length, vec_items as items};

mod marks;
pub mod set;

// Which pairs of tasks below 512 are joined: a bit for each pair.
#[derive(Drop)]
pub struct PairSet {
    words: Vec<u64>,
    ghost long: { length (items words) ≡ 4096 },
}
