// Look-ups on a lent panel: the port at a jack, and the jack that holds a port.
ghost use Rattle.std.specs.Prelude.{◌≡◌};
ghost use Rattle.listing.specs.Limits.{most_ports};
ghost use Rattle.words.specs.Meaning.{outcome_told};
ghost use Rattle.panel.specs.Calls.{may_ask, port_of, jack_of};
ghost use Rattle.panel.specs.Answers.{looked_told, found_told};

use pattern_carry::panels::holder;
use pattern_check::checking::check_panel;
use words::refusals::nowhere;
use words::shapes::one_of;
use words::{Jack, Port, Reason, Refusal};

// Whether a panel may be asked for a number: the refusals of the panel, then 17 unless it is one of 1..n.
fn may_ask(panel: &[u8], x: u8) -> Result<(), Refusal>
    ensures { outcome_told result ≡ may_ask most_ports panel.now x }
{
    check_panel(panel)?;
    if one_of(panel.len() as u8, x) {
        Ok(())
    } else {
        Err(nowhere(Reason::Shape))
    }
}

// The port joined to a jack.
pub fn port_at(panel: &[u8], jack: Jack) -> Result<Port, Refusal>
    ensures { looked_told result ≡ port_of most_ports panel.now jack.0 }
{
    may_ask(panel, jack.0)?;
    Ok(Port(panel[(jack.0 - 1) as usize]))
}

// The jack that holds a port.
pub fn jack_of(panel: &[u8], port: Port) -> Result<Jack, Refusal>
    ensures { found_told result ≡ jack_of most_ports panel.now port.0 }
{
    may_ask(panel, port.0)?;
    Ok(holder(panel, port))
}
