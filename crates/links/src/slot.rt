// A link whose departures wait for the next multiple of a period.
ghost use Rattle.std.specs.Prelude.{◌≡◌, ◌^◌, ◌<◌, ◌≤◌};
ghost use Rattle.links.specs.Limits.{Made, SlotOutside};
ghost use Rattle.links.specs.Links.{FirstMultiple, capped, raised, slot};
ghost use Rattle.links.specs.Laws.{slot_lawful};

use crate::fault::{LinkFault, refuse_unless};
use crate::{CEILING, Link};

// How many ticks lie between two departures, 1 up to the ceiling.
#[derive(Clone, Copy)]
pub struct Period {
    ticks: u64,
    ghost limits: { (0 < ticks) × (ticks ≤ 2 ^ 40) },
}

impl Period {
    pub fn new(ticks: u64) -> Result<Period, LinkFault>
        ensures { Made (SlotOutside ticks) (λ l. l.ticks ≡ ticks) result }
    {
        refuse_unless(0 < ticks && ticks <= CEILING, 1)?;
        Ok(Period { ticks })
    }

    // The first multiple of the period that is not before the tick.
    pub fn raise(&self, tick: u64) -> u64
        ensures is { result ≡ raised self.now.ticks (capped tick) }
        ensures first { FirstMultiple self.now.ticks (capped tick) result }
    {
        (tick.min(CEILING) + (self.ticks - 1)) / self.ticks * self.ticks
    }
}

#[derive(Clone, Copy, Drop)]
pub struct Slot<L> {
    pub period: Period,
    pub below: L,
}

impl<L: Drop> Slot<L> {
    pub fn new(period: u64, below: L) -> Result<Slot<L>, LinkFault>
        ensures { Made (SlotOutside period) (λ l. (l.period.ticks ≡ period) × (l.below ≡ below)) result }
    {
        let period = Period::new(period)?;
        Ok(Slot { period, below })
    }
}

impl<L: Link> Link for Slot<L> {
    ghost arrives = { λ l. slot l.period.ticks (L.Link.arrives l.below) };

    ghost lawful = { λ l. slot_lawful l.period.ticks (L.Link.arrives l.below) l.period.limits.0 (L.Link.lawful l.below) };

    fn arrival(&self, departure: u64, from: usize, to: usize, amount: u32) -> u64 {
        let start = self.period.raise(departure).min(CEILING);
        self.below.arrival(start, from, to, amount)
    }
}
