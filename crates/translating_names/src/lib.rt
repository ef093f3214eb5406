// The names of a pattern, its rank, its dictionary number and its entries, written as one line.
#![tactic(auto)]

pub mod writing;

ghost use Rattle.std.specs.Prelude.{◌≡◌, ◌≤◌, length};
ghost use Rattle.line_format.specs.Calls.{over};
ghost use Rattle.line_writer.specs.Answers.{written_told};
ghost use Rattle.translating.specs.Names.{most_names};
ghost use Rattle.translating_names.specs.Pieces.{names_of, names_length, names_line};

use crate::writing::write_names;
use dictionary::numbering::number;
use patterns::ranking::rank;
use words::Refusal;

// No line of names is longer.
pub const NAMES_BYTES: usize = 109;

// The names of a pattern, as a line at the front of a buffer.
pub fn name_pattern(p: &[u8], out: &mut [u8]) -> Result<usize, Refusal>
    requires { most_names ≤ length out.old }
    ensures told { written_told result ≡ names_length (names_of p.now) }
    ensures bytes { out.new ≡ over (names_line (names_of p.now)) out.old }
{
    let r = rank(p)?;
    let k = number(p)?;
    Ok(write_names(r, k, p, out))
}
