ghost use Rattle.std.specs.Prelude.{◌≡◌, ◌-◌, ◌^◌, ◌<◌, ◌≤◌, ◌==◌, length, take, drop, IfOk};
ghost use Rattle.numbers.specs.Numbers.{groups_at, number_at, coded};
ghost use Rattle.numbers.specs.Spelling.{Told};

use crate::fault::NumberFault;

// The most groups that a number in a file has.
const GROUPS: u8 = 6;

// The number at the offset `at`, and the offset after it: by a rule of the project a reader of numbers answers the two as a pair.
pub fn read_number(file: &[u8], at: usize) -> Result<(u64, usize), NumberFault>
    ensures is { result ≡ number_at file.now at }
    ensures law { Told file.now at result }
    ensures within { IfOk result (λ p. (at < p.1) × (p.1 ≤ length file.now)) }
    ensures back { IfOk result (λ p. take (p.1 - at) (drop at file.now) ≡ coded p.0) }
{
    read_groups(file, at, at, GROUPS)
}

// The number that begins at `start`, from its group at `at` on: at most `left` groups.
fn read_groups(file: &[u8], start: usize, at: usize, left: u8) -> Result<(u64, usize), NumberFault>
    requires few { left ≤ 6 }
    requires on { start ≤ at }
    ensures is { result ≡ groups_at file.now start at left (at == start) }
    ensures small { IfOk result (λ p. p.0 < 128 ^ left) }
    ensures within { IfOk result (λ p. (at < p.1) × (p.1 ≤ length file.now)) }
{
    if left == 0 {
        return Err(NumberFault::Malformed { place: start });
    }
    let Some(&byte) = file.get(at) else {
        return Err(NumberFault::Truncated { place: file.len() });
    };
    if byte < 128 {
        if byte == 0 && at > start {
            return Err(NumberFault::Malformed { place: start });
        }
        return Ok((byte as u64, at + 1));
    }
    let (rest, next) = read_groups(file, start, at + 1, left - 1)?;
    Ok(((byte - 128) as u64 + 128 * rest, next))
}
