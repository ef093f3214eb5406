// The ports that a jack can get, with what each comes to: those before the one that it gets are passed over.
ghost use Rattle.std.specs.Prelude.{◌≡◌, cond, ◌-◌, ◌≤◌, ◌<◌};
ghost use Rattle.listing.specs.Limits.{most_ports, largest64};
ghost use Rattle.listing_dictionary.specs.Number.{worth, chosen, within};
ghost use Rattle.listing_dictionary.proofs.Walk.{total};
ghost use Rattle.dictionary_walk.specs.Free.{frees};

use words::limits::LONGEST;

// What a free port comes to at a jack: one whose own jack is filled, and one whose own jack is still to come.
#[derive(Clone, Copy)]
pub struct Shares {
    pub early: u64,
    pub late: u64,
}

// The port in whose share a number falls, and the number within that share.
#[derive(Clone, Copy)]
pub struct Choice {
    pub port: u8,
    pub within: u64,
}

// What a port comes to at a jack: nothing if it is taken or the jack's own.
fn share_of(shares: Shares, jack: u8, port: u8, taken: bool) -> u64
    ensures { result ≡ cond taken 0 (worth shares.early shares.late jack port) }
{
    let Shares { early, late } = shares;
    if taken || port == jack {
        return 0;
    }
    if jack < port { late } else { early }
}

// What the free ports before a port come to, together.
pub fn pass_over(taken: &[bool; LONGEST], shares: Shares, jack: u8, port: u8) -> u64
    requires { (port ≤ most_ports) × (total (worth shares.early shares.late jack) (frees taken.now 0 (port - 1)) ≤ largest64) }
    ensures { result ≡ total (worth shares.early shares.late jack) (frees taken.now 0 (port - 1)) }
{
    let mut sum: u64 = 0;
    for y in 1..port {
        sum += share_of(shares, jack, y, taken[(y - 1) as usize]);
    }
    sum
}

// The free port of n in whose share a number falls.
pub fn choose(taken: &[bool; LONGEST], n: u8, shares: Shares, jack: u8, number: u64) -> Choice
    requires { (n ≤ most_ports) × (number < total (worth shares.early shares.late jack) (frees taken.now 0 n)) }
    ensures port { result.port ≡ chosen (worth shares.early shares.late jack) (frees taken.now 0 n) number }
    ensures within { result.within ≡ within (worth shares.early shares.late jack) (frees taken.now 0 n) number }
{
    let mut rest = number;
    for y in 1..n {
        let share = share_of(shares, jack, y, taken[(y - 1) as usize]);
        if rest < share {
            return Choice {
                port: y,
                within: rest,
            };
        }
        rest -= share;
    }
    Choice {
        port: n,
        within: rest,
    }
}
