// The call for C on a plan before its campaign starts (include/jidrofex.h).
#![tactic(auto)]

ghost use Rattle.std.specs.Prelude.{◌≡◌};
ghost use Rattle.plan_named.specs.Calls.{named_of, named_numbers};
ghost use Rattle.plan_named.specs.Answers.{survey_told};
ghost use Rattle.face_values.specs.Answers.{number_told, words_told};
ghost use Rattle.face_laws.specs.Values.{names_words};

use face_values::answers::{ANSWER_WORDS, give, refuse};
use plan_arcs::gaps::Tally;
use plan_named::named;
use words::Refusal;

// How many ranks are named, and how many gaps there are.
fn give_survey(survey: Result<Tally, Refusal>, answer: &mut [u64; ANSWER_WORDS]) -> u8
    ensures number { result ≡ number_told (survey_told survey) }
    ensures words { answer.new ≡ words_told names_words (survey_told survey) }
{
    match survey {
        Err(f) => refuse(f, answer),
        Ok(tally) => give(answer, tally.named, tally.gaps, 0, 0, 0),
    }
}

// The ranks that a plan names, each once, and its gaps at the front of the slice.
pub fn jidrofex_named(text: &[u8], gaps: &mut [u64], answer: &mut [u64; ANSWER_WORDS]) -> u8
    ensures number { result ≡ number_told (named_of text.now gaps.old) }
    ensures words { answer.new ≡ words_told names_words (named_of text.now gaps.old) }
    ensures left { gaps.new ≡ named_numbers text.now gaps.old }
{
    give_survey(named(text, gaps), answer)
}
