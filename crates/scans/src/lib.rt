// The best of several bids, one at a time.
#![tactic(auto)]

ghost use Rattle.std.specs.Prelude.{◌≡◌, ℕ};
ghost use Rattle.scans.specs.Bids.{beats, outbids, BestIsChosen};

// Which key wins. An enum and no closure, since the definitions name the two.
#[derive(Clone, Copy, PartialEq, Eq, Debug)]
pub enum Aim {
    Smallest,
    Largest,
}

// A number that bids with its key.
#[derive(Clone, Copy, PartialEq, Eq, Debug)]
pub struct Bid {
    pub by: usize,
    pub key: u64,
}

fn wins(aim: Aim, key: u64, leader: u64) -> bool
    ensures { result ≡ beats aim key leader }
{
    match aim {
        Aim::Smallest => key < leader,
        Aim::Largest => key > leader,
    }
}

// The answer; the further clauses of the public call follow from it.
fn better(aim: Aim, best: Option<Bid>, by: usize, bid: Option<u64>) -> Option<Bid>
    ensures { result ≡ outbids aim best by bid }
{
    let Some(key) = bid else {
        return best;
    };
    match best {
        Some(leader) if !wins(aim, key, leader.key) => best,
        _ => Some(Bid { by, key }),
    }
}

// The best bid so far, after one more number bids or does not. An equal key does not win, so the earlier number stays.
pub fn outbid(aim: Aim, best: Option<Bid>, by: usize, bid: Option<u64>) -> Option<Bid>
    ensures is { result ≡ outbids aim best by bid }
    ensures chosen { BestIsChosen }
{
    better(aim, best, by, bid)
}
