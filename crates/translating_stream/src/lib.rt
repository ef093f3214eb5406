// A part of a text translated line by line, as far as it has whole lines and the buffer has room. What is left of it goes on with the next part, so that a text of any
// length is translated in bounded memory.
#![tactic(auto)]

ghost use Rattle.std.specs.Prelude.{◌≡◌, ◌+◌, ◌≤◌, length, take, drop};
ghost use Rattle.listing.specs.Limits.{largest64};
ghost use Rattle.line_format.specs.Calls.{over};
ghost use Rattle.translating.specs.Lines.{SoFar};
ghost use Rattle.translating_stream.specs.Parts.{StepIs, PartIs};
ghost use Rattle.translating_stream.specs.declared.Stop.TheVariants.{Refused};

use text_keys::find;
use translating_line::translate_line;
use translating_names::NAMES_BYTES;
use words::Refusal;

// Why a part goes no further: what is left has no newline yet, the buffer may have no room for another line, or a line was refused.
// (Three ways, so neither Option nor Result is plainer.)
#[derive(Clone, Copy)]
pub enum Stop {
    More,
    Full,
    Refused(Refusal),
}

// How far a part went: the ports so far, 0 for none, the number of the next line, how many bytes of the text are used, and how many of the buffer. Where a line was
// refused, the next line is that one.
#[derive(Clone, Copy)]
pub struct Part {
    pub ports: u8,
    pub line: u64,
    pub used: usize,
    pub len: usize,
    pub stop: Stop,
}

impl From<Refusal> for Stop {
    ghost from_gives = { λ f stop. stop ≡ Refused f };

    fn from(f: Refusal) -> Stop {
        Stop::Refused(f)
    }
}

// The line of a text from a place on, its text put into a buffer from a place on: the ports so far and the places after it, in the text and in the buffer; or why there
// was none.
fn line_at(
    text: &[u8],
    used: usize,
    ports: u8,
    out: &mut [u8],
    len: usize,
) -> Result<(u8, usize, usize), Stop>
    requires { SoFar ports × (used ≤ length text.now) × (len ≤ length out.old) }
    ensures { StepIs text.now used ports len out.old out.new result }
{
    let k = find(&text[used..], b'\n').ok_or(Stop::More)?;
    if out.len() - len < NAMES_BYTES {
        return Err(Stop::Full);
    }
    let to = used + k;
    let (n, many) = translate_line(&text[used..to], ports, &mut out[len..])?;
    Ok((n, to + 1, len + many))
}

// The whole lines of a part of a text, from a line on and with the ports so far: their texts at the front of a buffer.
pub fn translate_some(text: &[u8], ports: u8, line: u64, out: &mut [u8]) -> Part
    requires { SoFar ports × (line + length text.now ≤ largest64) }
    ensures { PartIs ports line text.now out.old out.new result }
{
    let mut n = ports;
    let mut row = line;
    let mut used: usize = 0;
    let mut len: usize = 0;
    // No `for`: the text has where the next line begins.
    loop {
        match line_at(text, used, n, out, len) {
            Ok((after, next, end)) => {
                n = after;
                row += 1;
                used = next;
                len = end;
            }
            Err(stop) => {
                return Part {
                    ports: n,
                    line: row,
                    used,
                    len,
                    stop,
                };
            }
        }
    }
}

// The bytes of a text from a place up to another, moved to its front.
fn keep(text: &mut [u8], from: usize, to: usize)
    requires { (from ≤ to) × (to ≤ length text.old) }
    ensures { text.new ≡ over (drop from (take to text.old)) text.old }
{
    text.copy_within(from..to, 0);
}

// The whole lines among the first n bytes of a buffer, and what is left of those bytes moved to its front, where the next part goes on.
pub fn translate_held(text: &mut [u8], n: usize, ports: u8, line: u64, out: &mut [u8]) -> Part
    requires { SoFar ports × (n ≤ length text.old) × (line + n ≤ largest64) }
    ensures part { PartIs ports line (take n text.old) out.old out.new result }
    ensures left { text.new ≡ over (drop result.used (take n text.old)) text.old }
{
    let part = translate_some(&text[..n], ports, line, out);
    keep(text, part.used, n);
    part
}
