// Why a link is not made.
ghost use Rattle.std.specs.Prelude.{◌≡◌, true, false, MatchResult};
ghost use Rattle.links.specs.Limits.{link_tells};

use faults::{Fault, Refusal};

// A parameter is outside its limits: its position from 1, or a matrix entry's count from 0, as a rule of the project counts them.
#[derive(Clone, Copy, PartialEq, Eq, Debug)]
pub struct LinkFault {
    pub position: u64,
}

// Refuses the parameter at the position, unless it is within its limits.
pub(crate) fn refuse_unless(within: bool, position: u64) -> Result<(), LinkFault>
    ensures { MatchResult result (λ _. within ≡ true) (λ e. (within ≡ false) × (e.position ≡ position)) }
{
    if within {
        Ok(())
    } else {
        Err(LinkFault { position })
    }
}

impl Refusal for LinkFault {
    ghost tells = { link_tells };

    fn fault(&self) -> Fault {
        Fault {
            number: 11,
            layer: 4,
            place: self.position,
            record: 0,
        }
    }
}
