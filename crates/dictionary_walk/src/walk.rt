// The walk through the jacks: what the free ports come to at each, the port that it gets, and what is left for the jacks after it.
ghost use Rattle.std.specs.Prelude.{◌≡◌, true, cond, suc, ◌-◌, ◌≤◌, ◌<◌, length, get_or};
ghost use Rattle.listing.specs.Numbers.{before};
ghost use Rattle.listing.specs.Count.{count};
ghost use Rattle.listing.specs.Pattern.{Derangement};
ghost use Rattle.listing.specs.Limits.{most_ports};
ghost use Rattle.listing_dictionary.specs.Free.{without, later};
ghost use Rattle.listing_dictionary.specs.Dictionary.{in_dictionary};
ghost use Rattle.listing_dictionary.specs.Number.{number};
ghost use Rattle.listing_dictionary.proofs.Lists.{Has};
ghost use Rattle.dictionary_walk.specs.Free.{frees};
ghost use Rattle.dictionary_walk.specs.Stand.{Stands};

use crate::ports::{Shares, choose, pass_over};
use crate::rows::{row_of, take_jack};
use words::limits::LONGEST;

// One less, if something is so. (What is so is data of the pattern.)
fn less_if(so: bool, k: u8) -> u8
    requires { so ≡ true → 1 ≤ k }
    ensures { result ≡ cond so (before k) k }
{
    if so { k - 1 } else { k }
}

// What a free port comes to, where `own` of the jacks after the next have their own port free.
fn shares_of(row: &[u64; LONGEST], own: u8) -> Shares
    requires { own < most_ports }
    ensures early { result.early ≡ get_or row.now own 0 }
    ensures late { result.late ≡ get_or row.now (before own) 0 }
{
    let below = less_if(0 < own, own);
    Shares {
        early: row[own as usize],
        late: row[below as usize],
    }
}

// The jack after the first `at` gets a free port, which is then taken; the answer is how many of the jacks left have their own port free.
fn leave(
    taken: &mut [bool; LONGEST],
    row: &mut [u64; LONGEST],
    own: u8,
    at: u8,
    port: u8,
    n: u8,
) -> u8
    requires { (at < n) × Stands n at (n - at) taken.old row.old × Has port (frees taken.old 0 n) × (own ≡ later (suc at) (frees taken.old 0 n)) }
    ensures stands { Stands n (suc at) (n - suc at) taken.new row.new }
    ensures free { frees taken.new 0 n ≡ without port (frees taken.old 0 n) }
    ensures own { result ≡ later (suc at) (frees taken.new 0 n) }
{
    taken[(port - 1) as usize] = true;
    take_jack(row, (n - at - 1) as usize);
    less_if(at + 1 < port, own)
}

// The dictionary number of a pattern: at each jack what the smaller free ports pass over.
pub fn number_of(p: &[u8]) -> u64
    requires { (1 ≤ length p.now) × (length p.now ≤ most_ports) × Derangement (length p.now) p.now }
    ensures { result ≡ number (length p.now) p.now }
{
    let n = p.len() as u8;
    let mut taken = [false; LONGEST];
    let mut row = row_of(n - 1);
    let mut own = n;
    let mut sum: u64 = 0;
    for at in 0..n {
        let port = p[at as usize];
        let here = less_if(!taken[at as usize], own);
        sum += pass_over(&taken, shares_of(&row, here), at + 1, port);
        own = leave(&mut taken, &mut row, here, at, port, n);
    }
    sum
}

// The pattern of a dictionary number fills the lent slice, which has a byte for each port: at each jack the port in whose share the number falls.
pub fn put_numbered(number: u64, out: &mut [u8])
    requires { (1 ≤ length out.old) × (length out.old ≤ most_ports) × (number < count (length out.old)) }
    ensures { out.new ≡ in_dictionary (length out.old) number }
{
    let n = out.len() as u8;
    let mut taken = [false; LONGEST];
    let mut row = row_of(n - 1);
    let mut own = n;
    let mut rest = number;
    for at in 0..n {
        let here = less_if(!taken[at as usize], own);
        let choice = choose(&taken, n, shares_of(&row, here), at + 1, rest);
        out[at as usize] = choice.port;
        rest = choice.within;
        own = leave(&mut taken, &mut row, here, at, choice.port, n);
    }
}
