// A plan asked for: one mark of it by its number, or all of it.
ghost use Rattle.asking.specs.Questions.{marked_asked, mark_asked, whole_asked};
ghost use Rattle.asking.specs.Answers.{QuestionIs};

use crate::Question;
use plan_lines::{Values, value_at};
use plan_rules::ruled::RuledPlan;
use plans::ReadPlan;
use plans::reading::read_plan;
use words::limits::LARGEST;
use words::refusals::nowhere;
use words::{Reason, Refusal};

// A mark of the plan that a text is.
fn ask_marked(text: &[u8], k: u64) -> Result<Question, Refusal>
    ensures { QuestionIs (marked_asked k text.now) result }
{
    let ReadPlan { judged, plan } = read_plan(text);
    judged?;
    let ruled = RuledPlan { plan };
    if k < ruled.marks_before(plan.legs) {
        Ok(Question::Mark(ruled, k))
    } else {
        Err(nowhere(Reason::Rank))
    }
}

// The line of a mark, and the plan after it.
pub fn ask_mark(text: &[u8]) -> Result<Question, Refusal>
    ensures { QuestionIs (mark_asked text.now) result }
{
    let any = Values {
        sign: false,
        low: 0,
        below: LARGEST,
        reason: Reason::Rank,
    };
    let (k, next) = value_at(text, 0, b"mark=", any, 0)?;
    ask_marked(&text[next..], k.magnitude)
}

// A whole plan.
pub fn ask_whole(text: &[u8]) -> Result<Question, Refusal>
    ensures { QuestionIs (whole_asked text.now) result }
{
    let ReadPlan { judged, plan } = read_plan(text);
    judged?;
    Ok(Question::Whole(RuledPlan { plan }))
}
