// What a plan names, for planners before the campaign starts (request 1): how many different ranks, each once, and the gaps, the longest arcs no leg names.
#![tactic(auto)]

ghost use Rattle.std.specs.Prelude.{◌≡◌};
ghost use Rattle.plan_rules.specs.Places.{planned_of};
ghost use Rattle.plan_named.specs.Calls.{fitted, fitted_numbers, named_of, named_numbers};
ghost use Rattle.plan_named.specs.Answers.{survey_told};

use plan_arcs::gaps::{Tally, count_named, put_gaps};
use plan_rules::ruled::RuledPlan;
use plans::reading::read_plan;
use words::refusals::nowhere;
use words::{Reason, Refusal};

// The tally of a plan, and its gaps at the front of a slice that has room for them.
fn fit_gaps(ruled: RuledPlan, gaps: &mut [u64]) -> Result<Tally, Refusal>
    ensures answer { survey_told result ≡ fitted (planned_of ruled.plan) gaps.old }
    ensures numbers { gaps.new ≡ fitted_numbers (planned_of ruled.plan) gaps.old }
{
    let tally = count_named(ruled);
    if (gaps.len() as u64) < 2 * tally.gaps {
        return Err(nowhere(Reason::Room));
    }
    put_gaps(ruled, gaps);
    Ok(tally)
}

// How many different ranks the plan that a text is names, and how many gaps it leaves; the gaps at the front of a slice, two numbers for each.
pub fn named(text: &[u8], gaps: &mut [u64]) -> Result<Tally, Refusal>
    ensures answer { survey_told result ≡ named_of text.now gaps.old }
    ensures numbers { gaps.new ≡ named_numbers text.now gaps.old }
{
    let read = read_plan(text);
    read.judged?;
    fit_gaps(RuledPlan { plan: read.plan }, gaps)
}
