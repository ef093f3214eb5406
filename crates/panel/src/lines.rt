// The lines of a campaign carried out on a lent panel.
ghost use Rattle.std.specs.Prelude.{◌≡◌};
ghost use Rattle.words.specs.Meaning.{outcome_told};
ghost use Rattle.listing.specs.Limits.{most_ports};
ghost use Rattle.panel.specs.Calls.{carry_of, carry_bytes};

use pattern_carry::carry_order;
use pattern_check::checking::check_panel;
use words::refusals::nowhere;
use words::shapes::{in_shape, one_of};
use words::{Line, Reason, Refusal};

// A line on the panel: an order is carried out; a seat, a mark and the end leave the panel as it is.
pub fn carry(panel: &mut [u8], line: Line) -> Result<(), Refusal>
    ensures answer { outcome_told result ≡ carry_of most_ports line panel.old }
    ensures bytes { panel.new ≡ carry_bytes most_ports line panel.old }
{
    check_panel(panel)?;
    let n = panel.len() as u8;
    match line {
        Line::Movement(o) => {
            if in_shape(n, o) {
                carry_order(o, panel);
                Ok(())
            } else {
                Err(nowhere(Reason::Shape))
            }
        }
        Line::Seat(jack) => {
            if one_of(n, jack.0) {
                Ok(())
            } else {
                Err(nowhere(Reason::Shape))
            }
        }
        Line::Mark(_, _) | Line::End(_) => Ok(()),
    }
}
