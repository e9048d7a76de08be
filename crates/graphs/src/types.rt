ghost use Rattle.std.specs.Prelude.{◌≡◌, ◌≤◌, length};

mod names;

// The ticks that a task takes and the memory that its data takes.
#[derive(Clone, Copy, PartialEq, Eq, Debug, Default)]
pub struct Task {
    pub time: u32,
    pub size: u32,
}

// A task's name: the first `len` bytes. They stand in the name itself, so that it can be copied and needs no memory of its own.
#[derive(Copy)]
pub struct Name {
    pub bytes: [u8; 31],
    pub len: usize,
    ghost room: { length bytes ≡ 31 },
    ghost short: { (1 ≤ len) × (len ≤ 31) },
}
