// Links: when does an amount that leaves one worker at a tick reach another worker?
#![tactic(auto)]

ghost use Rattle.std.specs.Prelude.{◌≡◌, ◌+◌, ◌^◌, ◌<◌};
ghost use Rattle.links.specs.Links.{Arrives, Lawful, capped};

mod any;
mod fault;
mod matrix;
mod packing;
mod rate;
mod slot;

pub use any::{AnyLink, PileFault};
pub use fault::LinkFault;
pub use matrix::Matrix;
pub use packing::{Handling, Packing};
pub use rate::Rate;
pub use slot::{Period, Slot};

// A tick above the ceiling, asked or answered, counts as the ceiling.
pub const CEILING: u64 = 1 << 40;

// The longest wait of a rate's base, and of packing and unpacking.
pub(crate) const LONGEST_WAIT: u64 = 1 << 20;

// The tick that is a wait after another: a tick above the ceiling, given or answered, counts as the ceiling.
pub(crate) fn later(tick: u64, wait: u64) -> u64
    requires { wait < 2 ^ 62 }
    ensures { result ≡ capped (capped tick + wait) }
{
    (tick.min(CEILING) + wait).min(CEILING)
}

// A link answers every question by its meaning, `arrives`, which keeps the laws of links; asking changes nothing.
pub trait Link {
    ghost arrives: { Self → Arrives };

    fn arrival(&self, departure: u64, from: usize, to: usize, amount: u32) -> u64
        ensures { result ≡ arrives self.now departure from to amount };

    ghost lawful: { (l : Self) → Lawful (arrives l) };
}

#[cfg(test)]
mod tests {
    use super::*;
    use std::test::Fail;

    // Amount 2 from departure 4, 5 or 6, in slots of 5 ticks on a rate of 1 and 1.
    fn slotted(departure: u64) -> u64
        ensures { (departure ≡ 4 → result ≡ 8) × (departure ≡ 5 → result ≡ 8) × (departure ≡ 6 → result ≡ 13) }
    {
        let Ok(below) = Rate::new(1, 1) else {
            unreachable()
        };
        let Ok(link) = Slot::new(5, below) else {
            unreachable()
        };
        link.arrival(departure, 0, 1, 2)
    }

    #[test]
    fn arrivals(rt: HostRuntime) -> Result<(), Fail> {
        let link = Rate::new(1, 1)?;
        let over = Slot::new(5, Packing::new(3, 2, link)?)?;
        let under = Packing::new(3, 2, Slot::new(5, link)?)?;
        assert!(rt; slotted(4) == 8 && slotted(5) == 8 && slotted(6) == 13);
        assert!(rt; over.arrival(4, 0, 1, 2) == 13 && over.arrival(u64::MAX, 0, 1, 2) == CEILING);
        assert!(rt; under.arrival(4, 0, 1, 2) == 15 && under.arrival(CEILING, 0, 1, 2) == CEILING);
        Ok(())
    }
}
