// Dictionary number from pattern and pattern from number.
ghost use Rattle.std.specs.Prelude.{◌≡◌};
ghost use Rattle.words.specs.Meaning.{numbered_told, outcome_told};
ghost use Rattle.listing.specs.Limits.{most_ports};
ghost use Rattle.dictionary_laws.specs.Calls.{dictionary_number_of, dictionary_pattern_of, dictionary_pattern_bytes};

use dictionary_walk::walk::{number_of, put_numbered};
use pattern_check::checking::check;
use patterns::ranking::listed;
use words::Refusal;

// The dictionary number of a pattern.
pub fn number(p: &[u8]) -> Result<u64, Refusal>
    ensures { numbered_told result ≡ dictionary_number_of most_ports p.now }
{
    check(p)?;
    Ok(number_of(p))
}

// The pattern of a dictionary number, for as many ports as the lent slice has bytes.
pub fn numbered(number: u64, out: &mut [u8]) -> Result<(), Refusal>
    ensures answer { outcome_told result ≡ dictionary_pattern_of most_ports number out.old }
    ensures bytes { out.new ≡ dictionary_pattern_bytes most_ports number out.old }
{
    listed(out.len(), number)?;
    put_numbered(number, out);
    Ok(())
}
