// A link with a wait of its own for each pair of workers.
ghost use Rattle.std.specs.Prelude.{◌≡◌, ℕ, ◌^◌, ◌<◌, ◌≤◌, slice_index};
ghost use Rattle.links.specs.Limits.{Made, MatrixOutside};
ghost use Rattle.links.specs.Links.{matrix};
ghost use Rattle.links.specs.Laws.{matrix_lawful};

use crate::fault::LinkFault;
use crate::{CEILING, Link, later};

// 16 rows of 16 waits, row by row: the row is the sending worker, the column the receiving one. One array by a rule of the project, which counts the entries through.
#[derive(Clone, Copy)]
pub struct Matrix {
    entries: [u64; 256],
    ghost limits: { (k : ℕ) → k < 256 → slice_index entries k ≤ 2 ^ 40 },
}

impl Matrix {
    pub fn new(entries: [u64; 256]) -> Result<Matrix, LinkFault>
        ensures { Made (MatrixOutside entries) (λ l. l.entries ≡ entries) result }
    {
        match entries.iter().position(|wait| *wait > CEILING) {
            Some(i) => Err(LinkFault { position: i as u64 }),
            None => Ok(Matrix { entries }),
        }
    }
}

impl Link for Matrix {
    ghost arrives = { λ l. matrix l.entries };

    ghost lawful = { λ l. matrix_lawful l.entries };

    fn arrival(&self, departure: u64, from: usize, to: usize, _amount: u32) -> u64 {
        let wait = if from < 16 && to < 16 {
            self.entries[16 * from + to]
        } else {
            CEILING
        };
        later(departure, wait)
    }
}
