// A link that is chosen at run time: any pile of slots and packings on a rate or a matrix.
ghost use Rattle.std.specs.Prelude.{◌≡◌, IfOk};
ghost use Rattle.links.specs.Chosen.{Piled, chosen};
ghost use Rattle.links.specs.Limits.{Made, MatrixOutside, PackingOutside, RateOutside, SlotOutside};
ghost use Rattle.links.specs.Links.{matrix, packing, rate, slot};
ghost use Rattle.links.specs.declared.any.PileFault.TheVariants.{Limit, Memory};
ghost use Rattle.links.specs.Piles.{chosen_lawful};

use crate::Link;
use crate::fault::LinkFault;
use crate::matrix::Matrix;
use crate::packing::Packing;
use crate::rate::Rate;
use crate::slot::Slot;
use std::alloc::{AllocError, AllocFailed, Global};

// Layers keep their limits in their types, so every value is a lawful link.
#[derive(Drop)]
pub enum AnyLink {
    Rated(Rate),
    Table(Box<Matrix>),
    Slotted(Box<Slot<AnyLink>>),
    Packed(Box<Packing<AnyLink>>),
}

// Why a pile is not made: a parameter is outside its limits, or there is no memory for it.
#[derive(Clone, Copy, PartialEq, Eq, Debug)]
pub enum PileFault {
    Limit(LinkFault),
    Memory,
}

impl From<LinkFault> for PileFault {
    ghost from_gives = { λ e r. r ≡ Limit e };

    fn from(e: LinkFault) -> PileFault {
        PileFault::Limit(e)
    }
}

impl<T: Drop> From<AllocFailed<T>> for PileFault {
    ghost from_gives = { λ _ r. r ≡ Memory };

    fn from(_e: AllocFailed<T>) -> PileFault {
        PileFault::Memory
    }
}

impl AnyLink {
    pub fn rate(base: u64, each: u64) -> Result<AnyLink, LinkFault>
        ensures { Made (RateOutside base each) (λ l. chosen l ≡ rate base each) result }
    {
        Ok(AnyLink::Rated(Rate::new(base, each)?))
    }

    pub fn matrix(heap: Global, entries: [u64; 256]) -> Result<AnyLink, PileFault>
        ensures { Piled (MatrixOutside entries) (λ l. chosen l ≡ matrix entries) result }
    {
        let link = Matrix::new(entries)?;
        Ok(AnyLink::Table(Box::new(heap, link)?))
    }

    pub fn slot(heap: Global, period: u64, below: AnyLink) -> Result<AnyLink, PileFault>
        ensures { Piled (SlotOutside period) (λ l. chosen l ≡ slot period (chosen below)) result }
    {
        let link = Slot::new(period, below)?;
        Ok(AnyLink::Slotted(Box::new(heap, link)?))
    }

    pub fn packing(
        heap: Global,
        pack: u64,
        unpack: u64,
        below: AnyLink,
    ) -> Result<AnyLink, PileFault>
        ensures { Piled (PackingOutside pack unpack) (λ l. chosen l ≡ packing pack unpack (chosen below)) result }
    {
        let link = Packing::new(pack, unpack, below)?;
        Ok(AnyLink::Packed(Box::new(heap, link)?))
    }
}

impl Link for AnyLink {
    ghost arrives = { chosen };

    ghost lawful = { λ l. chosen_lawful l };

    fn arrival(&self, departure: u64, from: usize, to: usize, amount: u32) -> u64 {
        match self {
            AnyLink::Rated(link) => link.arrival(departure, from, to, amount),
            AnyLink::Table(link) => link.arrival(departure, from, to, amount),
            AnyLink::Slotted(link) => link.arrival(departure, from, to, amount),
            AnyLink::Packed(link) => link.arrival(departure, from, to, amount),
        }
    }
}

// The value in a box of the same allocator.
fn boxed_with<T: Drop>(other: &Box<T>, value: T) -> Result<Box<T>, AllocError>
    ensures { IfOk result (λ b. b.value ≡ value) }
{
    Ok(Box::new(*Box::allocator(other), value)?)
}

// A clone has the same meaning. It is written out, since a derived clone of a type that leads back to itself promises nothing.
// So are its layers, since a layer's own clone leads back here, and the prover does not cover a call of it.
impl Clone for AnyLink {
    ghost is_clone = { λ l r. chosen r ≡ chosen l };

    fn clone(&self) -> Result<AnyLink, AllocError> {
        Ok(match self {
            AnyLink::Rated(link) => AnyLink::Rated(*link),
            AnyLink::Table(link) => AnyLink::Table(link.clone()?),
            AnyLink::Slotted(link) => {
                let copy = Slot {
                    period: link.period,
                    below: link.below.clone()?,
                };
                AnyLink::Slotted(boxed_with(link, copy)?)
            }
            AnyLink::Packed(link) => {
                let copy = Packing {
                    handling: link.handling,
                    below: link.below.clone()?,
                };
                AnyLink::Packed(boxed_with(link, copy)?)
            }
        })
    }
}
