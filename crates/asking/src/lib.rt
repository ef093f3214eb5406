// A question of a technician read from text: a pattern, a mark of a plan, or a whole plan; or the refusal with its place. What a text asks stands in specs/.
#![tactic(auto)]

pub mod patterned;
pub mod planned;

ghost use Rattle.asking.specs.Questions.{question_of};
ghost use Rattle.asking.specs.Answers.{QuestionIs};

use crate::patterned::ask_pattern;
use crate::planned::{ask_mark, ask_whole};
use plan_rules::ruled::RuledPlan;
use text_keys::has_key;
use words::Refusal;

// The length of the key `pattern=`.
const PATTERN_KEY: usize = 8;

// What a text asks: all of a plan, or one mark of it, by its number. A pattern is the first mark of a plan that starts there.
#[derive(Clone, Copy)]
pub enum Question {
    Whole(RuledPlan),
    Mark(RuledPlan, u64),
}

// The question that a text asks: its first key says of which kind it is.
pub fn ask(text: &[u8]) -> Result<Question, Refusal>
    ensures { QuestionIs (question_of text.now) result }
{
    if has_key(text, b"pattern=") {
        return ask_pattern(&text[PATTERN_KEY..]);
    }
    if has_key(text, b"mark=") {
        return ask_mark(text);
    }
    ask_whole(text)
}
