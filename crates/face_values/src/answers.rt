// The number and the words that a call answers.
ghost use Rattle.std.specs.Prelude.{◌≡◌, [], ◌∷◌};
ghost use Rattle.words.specs.Told.{spot_number, earlier_number};
ghost use Rattle.words.specs.Meaning.{number_of, spot_of, outcome_told, numbered_told};
ghost use Rattle.face_values.specs.Answers.{five, number_told, words_told, nothing, one_number};

use words::Refusal;
use words::refusals::{earlier_number, place_number, reason_number};

// JIDROFEX_ANSWER_WORDS
pub const ANSWER_WORDS: usize = 5;

// The words of an accepted call, whose number is 0.
pub fn give(answer: &mut [u64; ANSWER_WORDS], a: u64, b: u64, c: u64, d: u64, e: u64) -> u8
    ensures number { result ≡ 0 }
    ensures words { answer.new ≡ a ∷ b ∷ c ∷ d ∷ e ∷ [] }
{
    *answer = [a, b, c, d, e];
    0
}

// A refused call: its place and its second number in the answer, and its number.
pub fn refuse(f: Refusal, answer: &mut [u64; ANSWER_WORDS]) -> u8
    ensures number { result ≡ number_of f.reason }
    ensures words { answer.new ≡ five (spot_number (spot_of f.place) ∷ earlier_number (spot_of f.place) ∷ []) }
{
    let Refusal { reason, place } = f;
    give(
        answer,
        place_number(place) as u64,
        earlier_number(place) as u64,
        0,
        0,
        0,
    );
    reason_number(reason)
}

// The answer of a call that gives nothing.
pub fn give_outcome(outcome: Result<(), Refusal>, answer: &mut [u64; ANSWER_WORDS]) -> u8
    ensures number { result ≡ number_told (outcome_told outcome) }
    ensures words { answer.new ≡ words_told nothing (outcome_told outcome) }
{
    match outcome {
        Ok(()) => give(answer, 0, 0, 0, 0, 0),
        Err(f) => refuse(f, answer),
    }
}

// The answer of a call that gives one number.
pub fn give_numbered(numbered: Result<u64, Refusal>, answer: &mut [u64; ANSWER_WORDS]) -> u8
    ensures number { result ≡ number_told (numbered_told numbered) }
    ensures words { answer.new ≡ words_told one_number (numbered_told numbered) }
{
    match numbered {
        Ok(k) => give(answer, k, 0, 0, 0, 0),
        Err(f) => refuse(f, answer),
    }
}
