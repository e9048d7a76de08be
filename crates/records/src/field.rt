ghost use Rattle.std.specs.Prelude.{◌≡◌, ◌-◌, ◌<◌, ◌≤◌, length, take, drop, IfOk};
ghost use Rattle.numbers.specs.Numbers.{coded};
ghost use Rattle.records.specs.Fields.{field_at};

use crate::fault::RecordFault;
use numbers::number::read_number;

// The number at the offset `at`, which is to be from `low` to `high`, and the offset after it.
#[tactic(auto, unfolding(crate::specs::Fields::field_at))]
pub fn read_field(file: &[u8], at: usize, low: u64, high: u64) -> Result<(u64, usize), RecordFault>
    ensures is { result ≡ field_at file.now at low high }
    ensures limits { IfOk result (λ p. (low ≤ p.0) × (p.0 ≤ high)) }
    ensures within { IfOk result (λ p. (at < p.1) × (p.1 ≤ length file.now)) }
    ensures back { IfOk result (λ p. take (p.1 - at) (drop at file.now) ≡ coded p.0) }
{
    let (value, next) = read_number(file, at)?;
    if !(low..=high).contains(&value) {
        return Err(RecordFault::Limit { place: at });
    }
    Ok((value, next))
}
