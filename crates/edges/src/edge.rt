ghost use Rattle.std.specs.Prelude.{◌≡◌};
ghost use Rattle.edges.specs.Edges.{end_on};

// An amount of data that goes from a task to a successor.
#[derive(Clone, Copy, PartialEq, Eq, Debug)]
pub struct Edge {
    pub from: usize,
    pub to: usize,
    pub amount: u32,
}

// Which end. An enum and no closure, since the definitions name the two.
#[derive(Clone, Copy, PartialEq, Eq, Debug)]
pub enum Side {
    From,
    To,
}

impl Edge {
    pub fn end(self, side: Side) -> usize
        ensures { result ≡ end_on side self }
    {
        match side {
            Side::From => self.from,
            Side::To => self.to,
        }
    }
}
