// The first number of a plan file.
pub(crate) const KIND: u64 = 2;

// The most workers of a plan file.
pub(crate) const MOST_WORKERS: usize = 16;

// What stands before the rows of a plan file: the workers and the length in ticks,
// with the offset of the length and the offset of the first row.
#[derive(Clone, Copy, PartialEq, Eq, Debug)]
pub(crate) struct Head {
    pub workers: usize,
    pub ticks: u64,
    pub place: usize,
    pub next: usize,
}
