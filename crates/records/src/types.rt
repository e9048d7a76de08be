// The most tasks that a graph has.
pub const MOST_TASKS: usize = 512;

// A record of a graph file. A task's name is a part of the file, `place` its offset.
#[derive(Clone, Copy, PartialEq, Eq, Debug)]
pub enum Record<'a> {
    Task {
        name: &'a [u8],
        place: usize,
        time: u32,
        size: u32,
    },
    Edge {
        from: usize,
        to: usize,
        amount: u32,
    },
    End,
}

// How many tasks and edges a graph file has, and the offset of its first record.
#[derive(Clone, Copy, PartialEq, Eq, Debug)]
pub struct Head {
    pub tasks: usize,
    pub edges: usize,
    pub next: usize,
}
