// From a dictionary number to our rank and back: each by the pattern that both name.
ghost use Rattle.std.specs.Prelude.{◌≡◌};
ghost use Rattle.words.specs.Meaning.{numbered_told};
ghost use Rattle.listing.specs.Limits.{most_ports};
ghost use Rattle.dictionary_laws.specs.Calls.{number_to_rank_of, rank_to_number_of};

use dictionary_walk::walk::{number_of, put_numbered};
use pattern_course::unranking::put_pattern;
use patterns::ranking::{listed, rank};
use words::Refusal;
use words::limits::LONGEST;

// The rank of the pattern that has a dictionary number.
pub fn to_rank(ports: u8, number: u64) -> Result<u64, Refusal>
    ensures { numbered_told result ≡ number_to_rank_of most_ports ports number }
{
    let n = ports as usize;
    listed(n, number)?;
    let mut room = [0u8; LONGEST];
    let pattern = &mut room[..n];
    put_numbered(number, pattern);
    rank(pattern)
}

// The dictionary number of the pattern that has a rank.
pub fn to_number(ports: u8, rank: u64) -> Result<u64, Refusal>
    ensures { numbered_told result ≡ rank_to_number_of most_ports ports rank }
{
    let n = ports as usize;
    listed(n, rank)?;
    let mut room = [0u8; LONGEST];
    let pattern = &mut room[..n];
    put_pattern(rank, pattern);
    Ok(number_of(pattern))
}
