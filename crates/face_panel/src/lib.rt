// The calls for C on a panel: look-ups, and lines carried out on it (include/jidrofex.h).
#![tactic(auto)]

ghost use Rattle.std.specs.Prelude.{◌≡◌};
ghost use Rattle.listing.specs.Limits.{most_ports};
ghost use Rattle.words.specs.Meaning.{numbered_told};
ghost use Rattle.panel.specs.Answers.{looked_told, found_told};
ghost use Rattle.panel.specs.Calls.{port_of, jack_of, carry_of, carry_bytes};
ghost use Rattle.face_values.specs.Answers.{number_told, words_told, nothing, one_number};
ghost use Rattle.face_values.specs.Lines.{line_in};

use face_values::answers::{ANSWER_WORDS, give_numbered, give_outcome};
use face_values::lines::{LINE_WORDS, line_in};
use panel::lines::carry;
use panel::lookups::{jack_of, port_at};
use words::{Jack, Port, Refusal};

// The number of the port that was looked up.
fn port_number(looked: Result<Port, Refusal>) -> Result<u64, Refusal>
    ensures { numbered_told result ≡ looked_told looked }
{
    looked.map(|port| port.0 as u64)
}

// The number of the jack that was found.
fn jack_number(found: Result<Jack, Refusal>) -> Result<u64, Refusal>
    ensures { numbered_told result ≡ found_told found }
{
    found.map(|jack| jack.0 as u64)
}

// The port at a jack. (It and the next differ in types that are not to be taken for one another.)
pub fn jidrofex_port_at(panel: &[u8], jack: u8, answer: &mut [u64; ANSWER_WORDS]) -> u8
    ensures number { result ≡ number_told (port_of most_ports panel.now jack) }
    ensures words { answer.new ≡ words_told one_number (port_of most_ports panel.now jack) }
{
    give_numbered(port_number(port_at(panel, Jack(jack))), answer)
}

// The jack that holds a port.
pub fn jidrofex_jack_of(panel: &[u8], port: u8, answer: &mut [u64; ANSWER_WORDS]) -> u8
    ensures number { result ≡ number_told (jack_of most_ports panel.now port) }
    ensures words { answer.new ≡ words_told one_number (jack_of most_ports panel.now port) }
{
    give_numbered(jack_number(jack_of(panel, Port(port))), answer)
}

// A line carried out on the panel.
pub fn jidrofex_carry(
    panel: &mut [u8],
    line: &[u64; LINE_WORDS],
    answer: &mut [u64; ANSWER_WORDS],
) -> u8
    ensures number { result ≡ number_told (carry_of most_ports (line_in line.now) panel.old) }
    ensures words { answer.new ≡ words_told nothing (carry_of most_ports (line_in line.now) panel.old) }
    ensures bytes { panel.new ≡ carry_bytes most_ports (line_in line.now) panel.old }
{
    give_outcome(carry(panel, line_in(line)), answer)
}
