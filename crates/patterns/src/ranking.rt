// Rank from pattern and pattern from rank.
ghost use Rattle.std.specs.Prelude.{◌≡◌};
ghost use Rattle.words.specs.Meaning.{numbered_told, outcome_told};
ghost use Rattle.listing.specs.Limits.{most_ports};
ghost use Rattle.patterns.specs.Calls.{rank_of, listed_of, unrank_of, unrank_bytes};

use pattern_check::checking::{check_inverse, sized};
use pattern_course::unranking::put_pattern;
use pattern_ranks::ranking::rank_of;
use pattern_steps::counts::count_of;
use words::refusals::nowhere;
use words::{Reason, Refusal};

// The rank of a pattern, which the check takes in.
pub fn rank(p: &[u8]) -> Result<u64, Refusal>
    ensures { numbered_told result ≡ rank_of most_ports p.now }
{
    let mut taken = check_inverse(p)?;
    Ok(rank_of(&mut taken))
}

// Whether so many ports have a pattern of this rank, and so one with this number in any order that begins at 0.
pub fn listed(ports: usize, rank: u64) -> Result<(), Refusal>
    ensures { outcome_told result ≡ listed_of most_ports ports rank }
{
    sized(ports)?;
    if rank < count_of(ports as u8) {
        Ok(())
    } else {
        Err(nowhere(Reason::Rank))
    }
}

// The pattern of a rank, for as many ports as the lent slice has bytes. (`dictionary::numbering::numbered` says the same of the other order: what both share
// is `listed`.)
pub fn unrank(rank: u64, out: &mut [u8]) -> Result<(), Refusal>
    ensures answer { outcome_told result ≡ unrank_of most_ports rank out.old }
    ensures bytes { out.new ≡ unrank_bytes most_ports rank out.old }
{
    listed(out.len(), rank)?;
    put_pattern(rank, out);
    Ok(())
}
