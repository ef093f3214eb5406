// Order lines in bulk: as many whole lines as fit a lent buffer, every mark taken as run. A rehearsal of a plan, not a campaign: what goes on from buffer to
// buffer is no state of a campaign and carries no count.
#![tactic(auto)]

pub mod rehearsals;

ghost use Rattle.std.specs.Prelude.{◌≡◌, ◌++◌, ◌-◌, ◌≤◌, length, take, drop};
ghost use Rattle.words.specs.Meaning.{refusal_of};
ghost use Rattle.campaign.specs.Calls.{bytes_of, line_is};
ghost use Rattle.printing.specs.Printing.{as_run, sequel};
ghost use Rattle.printing.specs.Rehearsals.{state_of};
ghost use Rattle.printing.specs.Answers.{sequel_told, filled_told, stop_told, GivenIs, LinedIs, PrintedIs, RehearsedIs, fill_bytes};

use crate::rehearsals::{rehearsal_of, state_of};
use campaign::{Campaign, RAN};
use plan_rules::Plan;
use words::limits::LONGEST;
use words::{Line, Refusal};

// A rehearsal of a plan, every mark taken as run: the plan; the panel, 0 beyond the ports; the leg and step of the next mark, counted from 0; whether the end
// is shown. It has no counts: those are a campaign's.
#[derive(Clone, Copy)]
pub struct Rehearsal {
    pub plan: Plan,
    pub panel: [u8; LONGEST],
    pub leg: u8,
    pub step: u64,
    pub ended: bool,
}

// A text judged as a plan, and the rehearsal of it: at its first moment, or all zeros if it was refused, which `demands.Refusals.refused-zeros` speaks of.
#[derive(Clone, Copy)]
pub struct Rehearsed {
    pub judged: Result<(), Refusal>,
    pub rehearsal: Rehearsal,
}

// What was printed: so many bytes with more to come, so many with the end's line last, or not even one line. (Three ways, so no Result is plainer.)
#[derive(Clone, Copy)]
pub enum Filled {
    Lines(usize),
    Ended(usize),
    Refused(Refusal),
}

// What was printed, and the rehearsal that it leaves: a refusal leaves one too, so it stands beside what was printed.
#[derive(Clone, Copy)]
pub struct Printed {
    pub rehearsal: Rehearsal,
    pub filled: Filled,
}

// What was printed, and the campaign that it leaves.
#[derive(Clone, Copy)]
struct Lined {
    campaign: Campaign,
    filled: Filled,
}

// What follows a line: more lines, none after the end's, or a refusal in its place. (Three ways, so no Result is plainer.)
#[derive(Clone, Copy)]
enum Sequel {
    More,
    Ended,
    Refused(Refusal),
}

// What one request printed at a place: the place after its line, the campaign that it leaves, and what follows.
#[derive(Clone, Copy)]
struct Given {
    campaign: Campaign,
    at: usize,
    sequel: Sequel,
}

// What follows a line that was handed out: a mark is reported as run, and nothing follows the end.
fn go_on(campaign: Campaign, at: usize, line: Line) -> Given
    ensures told { sequel_told result.sequel ≡ sequel (line_is line) }
    ensures state { result.campaign.state ≡ as_run (line_is line) campaign.state }
    ensures place { result.at ≡ at }
{
    match line {
        Line::Movement(_) | Line::Seat(_) => Given {
            campaign,
            at,
            sequel: Sequel::More,
        },
        Line::Mark(_, _) => {
            let reported = campaign.report(RAN);
            Given {
                campaign: reported.campaign,
                at,
                sequel: Sequel::More,
            }
        }
        Line::End(_) => Given {
            campaign,
            at,
            sequel: Sequel::Ended,
        },
    }
}

// One request, its line at a place of the buffer; a mark is reported as run.
fn request_line(c: Campaign, buf: &mut [u8], at: usize) -> Given
    requires { at ≤ length buf.old }
    ensures told { GivenIs (length buf.old - at) at c.state result }
    ensures bytes { buf.new ≡ take at buf.old ++ bytes_of c.state (drop at buf.old) }
{
    let asked = c.request(&mut buf[at..]);
    let after = at + asked.written;
    match asked.answer {
        Ok(line) => go_on(asked.campaign, after, line),
        Err(f) => Given {
            campaign: asked.campaign,
            at: after,
            sequel: Sequel::Refused(f),
        },
    }
}

// A refusal after so many bytes: it is told where there are none.
fn stopped(n: usize, f: Refusal) -> Filled
    ensures { filled_told result ≡ stop_told n (refusal_of f) }
{
    if n == 0 {
        Filled::Refused(f)
    } else {
        Filled::Lines(n)
    }
}

// As many whole lines as fit the buffer, from the front; every mark is reported as run.
fn fill_lines(c: Campaign, buf: &mut [u8]) -> Lined
    ensures told { LinedIs (length buf.old) c.state result }
    ensures bytes { buf.new ≡ fill_bytes c.state buf.old }
{
    let mut campaign = c;
    let mut at: usize = 0;
    // No `for`: the answers of the campaign say when it ends.
    loop {
        let given = request_line(campaign, buf, at);
        match given.sequel {
            Sequel::More => {
                campaign = given.campaign;
                at = given.at;
            }
            Sequel::Ended => {
                return Lined {
                    campaign: given.campaign,
                    filled: Filled::Ended(given.at),
                };
            }
            Sequel::Refused(f) => {
                return Lined {
                    campaign: given.campaign,
                    filled: stopped(given.at, f),
                };
            }
        }
    }
}

// The rehearsal of the plan that a text is.
pub fn rehearse(text: &[u8]) -> Rehearsed
    ensures { RehearsedIs text.now result }
{
    let begun = Campaign::begin(text);
    Rehearsed {
        judged: begun.judged,
        rehearsal: rehearsal_of(begun.campaign.state),
    }
}

// As many whole lines as fit the buffer, from the front; every mark is taken as run.
pub fn fill(r: Rehearsal, buf: &mut [u8]) -> Printed
    ensures told { PrintedIs (length buf.old) r result }
    ensures bytes { buf.new ≡ fill_bytes (state_of r) buf.old }
{
    let lined = fill_lines(Campaign { state: state_of(r) }, buf);
    Printed {
        rehearsal: rehearsal_of(lined.campaign.state),
        filled: lined.filled,
    }
}
