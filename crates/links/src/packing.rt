// A link that waits before it asks the link below, and after the arrival there.
ghost use Rattle.std.specs.Prelude.{◌≡◌, ◌^◌, ◌≤◌};
ghost use Rattle.links.specs.Limits.{Made, PackingOutside};
ghost use Rattle.links.specs.Links.{packing};
ghost use Rattle.links.specs.Laws.{packing_lawful};

use crate::fault::{LinkFault, refuse_unless};
use crate::{LONGEST_WAIT, Link, later};

// How many ticks packing and unpacking take.
#[derive(Clone, Copy)]
pub struct Handling {
    pack: u64,
    unpack: u64,
    ghost limits: { (pack ≤ 2 ^ 20) × (unpack ≤ 2 ^ 20) },
}

impl Handling {
    pub fn new(pack: u64, unpack: u64) -> Result<Handling, LinkFault>
        ensures { Made (PackingOutside pack unpack) (λ l. (l.pack ≡ pack) × (l.unpack ≡ unpack)) result }
    {
        refuse_unless(pack <= LONGEST_WAIT, 1)?;
        refuse_unless(unpack <= LONGEST_WAIT, 2)?;
        Ok(Handling { pack, unpack })
    }
}

#[derive(Clone, Copy, Drop)]
pub struct Packing<L> {
    pub handling: Handling,
    pub below: L,
}

impl<L: Drop> Packing<L> {
    pub fn new(pack: u64, unpack: u64, below: L) -> Result<Packing<L>, LinkFault>
        ensures { Made (PackingOutside pack unpack) (λ l. (l.handling.pack ≡ pack) × (l.handling.unpack ≡ unpack) × (l.below ≡ below)) result }
    {
        let handling = Handling::new(pack, unpack)?;
        Ok(Packing { handling, below })
    }
}

impl<L: Link> Link for Packing<L> {
    ghost arrives = { λ l. packing l.handling.pack l.handling.unpack (L.Link.arrives l.below) };

    ghost lawful = { λ l. packing_lawful l.handling.pack l.handling.unpack (L.Link.arrives l.below) (L.Link.lawful l.below) };

    fn arrival(&self, departure: u64, from: usize, to: usize, amount: u32) -> u64 {
        let packed = later(departure, self.handling.pack);
        let there = self.below.arrival(packed, from, to, amount);
        later(there, self.handling.unpack)
    }
}
