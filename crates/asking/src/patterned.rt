// A pattern asked for: one line of entries, and the plan of one leg that starts there.
ghost use Rattle.std.specs.Prelude.{◌≡◌, cond, leb, pos};
ghost use Rattle.listing.specs.Limits.{most_legs};
ghost use Rattle.plan_rules.specs.Places.{placed};
ghost use Rattle.asking.specs.Questions.{of_pattern, entries_asked, pattern_asked};
ghost use Rattle.asking.specs.Answers.{QuestionIs};

use crate::Question;
use patterns::ranking::rank;
use plan_rules::Plan;
use plan_rules::ruled::RuledPlan;
use text_entries::{Entries, entries_in, one_line};
use words::limits::{FEWEST_PORTS, LEG_PLACES};
use words::refusals::nowhere;
use words::{Reason, Refusal};

// How far the leg from a pattern runs: 2 ports have one pattern only.
fn one_step(ports: u8) -> i64
    ensures { result ≡ pos (cond (leb ports 2) 0 1) }
{
    if ports <= FEWEST_PORTS { 0 } else { 1 }
}

// The plan of one leg that starts at a rank.
fn from_rank(ports: u8, rank: u64) -> Plan
    ensures { result ≡ placed most_legs (of_pattern ports rank).plan }
{
    let mut starts = [0u64; LEG_PLACES];
    let mut runs = [0i64; LEG_PLACES];
    starts[0] = rank;
    runs[0] = one_step(ports);
    Plan {
        ports,
        legs: 1,
        starts,
        runs,
    }
}

// The entries of a pattern.
fn ask_entries(t: &[u8]) -> Result<Question, Refusal>
    ensures { QuestionIs (entries_asked t.now) result }
{
    let Entries { len, bytes } = entries_in(t)?;
    let r = rank(&bytes[..len])?;
    let plan = from_rank(len as u8, r);
    Ok(Question::Mark(RuledPlan { plan }, 0))
}

// A line of entries, and nothing after it.
pub fn ask_pattern(t: &[u8]) -> Result<Question, Refusal>
    ensures { QuestionIs (pattern_asked t.now) result }
{
    let k = one_line(t).ok_or(nowhere(Reason::Ended))?;
    ask_entries(&t[..k])
}
