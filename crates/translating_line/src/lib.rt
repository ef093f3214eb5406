// One line translated: the pattern that it names is found, and the line of its names is written.
#![tactic(auto)]

ghost use Rattle.std.specs.Prelude.{◌≡◌, ◌≤◌, length};
ghost use Rattle.listing.specs.Limits.{most_ports};
ghost use Rattle.line_format.specs.Calls.{over};
ghost use Rattle.translating.specs.Names.{most_names};
ghost use Rattle.translating.specs.Lines.{SoFar, ports_of, line_of};
ghost use Rattle.translating_line.specs.Pieces.{named_line_of};
ghost use Rattle.translating_line.specs.Answers.{line_told, went_told, text_in};

use text_keys::has_key;
use text_numbers::reading::read_number;
use translating_find::find_pattern;
use translating_names::name_pattern;
use words::limits::{FEWEST_PORTS, LONGEST, MOST_PORTS};
use words::refusals::nowhere;
use words::{Reason, Refusal};

// No good line is longer, its newline not counted.
pub const LINE_BYTES: usize = 58;

// The length of the key `ports=`.
const PORTS_KEY: usize = 6;

// The names that a line asks for, of a pattern of as many ports as the first slice has bytes, which it is put into.
fn name_in(t: &[u8], p: &mut [u8], out: &mut [u8]) -> Result<(u8, usize), Refusal>
    requires { (2 ≤ length p.old) × (length p.old ≤ most_ports) × (most_names ≤ length out.old) }
    ensures told { line_told result ≡ went_told (named_line_of (length p.old) t.now) }
    ensures bytes { out.new ≡ over (text_in (named_line_of (length p.old) t.now)) out.old }
{
    find_pattern(t, p)?;
    let len = name_pattern(p, out)?;
    Ok((p.len() as u8, len))
}

// The same with room for the pattern.
fn name_line(t: &[u8], ports: u8, out: &mut [u8]) -> Result<(u8, usize), Refusal>
    requires { (2 ≤ ports) × (ports ≤ most_ports) × (most_names ≤ length out.old) }
    ensures told { line_told result ≡ went_told (named_line_of ports t.now) }
    ensures bytes { out.new ≡ over (text_in (named_line_of ports t.now)) out.old }
{
    let n = ports as usize;
    let mut pattern = [0u8; LONGEST];
    name_in(t, &mut pattern[..n], out)
}

// The ports that a line says. It prints nothing.
fn ports_line(t: &[u8]) -> Result<(u8, usize), Refusal>
    ensures { line_told result ≡ went_told (ports_of t.now) }
{
    let n = read_number(t).ok_or(nowhere(Reason::Number))?;
    if n < FEWEST_PORTS as u64 || (MOST_PORTS as u64) < n {
        return Err(nowhere(Reason::Ports));
    }
    Ok((n as u8, 0))
}

// A line without its newline, with the ports so far: its text at the front of a buffer.
pub fn translate_line(t: &[u8], ports: u8, out: &mut [u8]) -> Result<(u8, usize), Refusal>
    requires { SoFar ports × (most_names ≤ length out.old) }
    ensures told { line_told result ≡ went_told (line_of ports t.now) }
    ensures bytes { out.new ≡ over (text_in (line_of ports t.now)) out.old }
{
    if LINE_BYTES < t.len() {
        return Err(nowhere(Reason::Number));
    }
    if has_key(t, b"ports=") {
        return ports_line(&t[PORTS_KEY..]);
    }
    if ports == 0 {
        return Err(nowhere(Reason::Key));
    }
    name_line(t, ports, out)
}
