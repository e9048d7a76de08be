// A link with a fixed wait and a wait for each unit of the amount.
ghost use Rattle.std.specs.Prelude.{◌≡◌, ◌^◌, ◌≤◌};
ghost use Rattle.links.specs.Limits.{Made, RateOutside};
ghost use Rattle.links.specs.Links.{rate};
ghost use Rattle.links.specs.Laws.{rate_lawful};

use crate::fault::{LinkFault, refuse_unless};
use crate::{LONGEST_WAIT, Link, later};

// No unit of an amount waits longer.
const LONGEST_UNIT_WAIT: u64 = 1 << 10;

#[derive(Clone, Copy)]
pub struct Rate {
    base: u64,
    each: u64,
    ghost limits: { (base ≤ 2 ^ 20) × (each ≤ 2 ^ 10) },
}

impl Rate {
    pub fn new(base: u64, each: u64) -> Result<Rate, LinkFault>
        ensures { Made (RateOutside base each) (λ l. (l.base ≡ base) × (l.each ≡ each)) result }
    {
        refuse_unless(base <= LONGEST_WAIT, 1)?;
        refuse_unless(each <= LONGEST_UNIT_WAIT, 2)?;
        Ok(Rate { base, each })
    }
}

impl Link for Rate {
    ghost arrives = { λ l. rate l.base l.each };

    ghost lawful = { λ l. rate_lawful l.base l.each };

    fn arrival(&self, departure: u64, _from: usize, _to: usize, amount: u32) -> u64 {
        later(departure, self.base + self.each * u64::from(amount))
    }
}
