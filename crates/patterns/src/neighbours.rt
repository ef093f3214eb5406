// Next and previous round the circuit: the lent pattern becomes the one beside it, and the answer is the move that was made.
ghost use Rattle.std.specs.Prelude.{◌≡◌, true, false};
ghost use Rattle.listing.specs.Limits.{most_ports};
ghost use Rattle.patterns.specs.Calls.{beside_of, beside_bytes};
ghost use Rattle.patterns.specs.Answers.{moved_told};

use pattern_carry::carry_move;
use pattern_check::checking::check_inverse;
use pattern_moves::neighbours::move_beside;
use words::{Move, Refusal};

// The lent pattern becomes the one beside it.
fn go(p: &mut [u8], back: bool) -> Result<Move, Refusal>
    ensures answer { moved_told result ≡ beside_of most_ports back p.old }
    ensures bytes { p.new ≡ beside_bytes most_ports back p.old }
{
    let mut taken = check_inverse(p)?;
    let m = move_beside(&mut taken, back);
    carry_move(m, p);
    Ok(m)
}

// The lent pattern becomes the next one round the circuit.
pub fn next(p: &mut [u8]) -> Result<Move, Refusal>
    ensures answer { moved_told result ≡ beside_of most_ports false p.old }
    ensures bytes { p.new ≡ beside_bytes most_ports false p.old }
{
    go(p, false)
}

// The lent pattern becomes the previous one round the circuit.
pub fn previous(p: &mut [u8]) -> Result<Move, Refusal>
    ensures answer { moved_told result ≡ beside_of most_ports true p.old }
    ensures bytes { p.new ≡ beside_bytes most_ports true p.old }
{
    go(p, true)
}
