// The calls for C about the library itself: its version, the words of a refusal, and a refusal as a sentence (include/jidrofex.h).
#![tactic(auto)]

ghost use Rattle.std.specs.Prelude.{◌≡◌, get_or};
ghost use Rattle.line_refusal.specs.Words.{refusal_words_of, refusal_words_bytes};
ghost use Rattle.line_sentence.specs.Sentences.{refusal_sentence_of, refusal_sentence_bytes};
ghost use Rattle.face_values.specs.Answers.{number_told, words_told, version_told, one_number};

use face_values::answers::{ANSWER_WORDS, give, give_numbered};
use line_refusal::wording::refusal_words;
use line_sentence::refusal_sentence;
use line_writer::answers::bytes_number;

// JIDROFEX_VERSION
const VERSION: u64 = 5;

// The version of the library.
pub fn jidrofex_version(answer: &mut [u64; ANSWER_WORDS]) -> u8
    ensures number { result ≡ number_told version_told }
    ensures words { answer.new ≡ words_told one_number version_told }
{
    give(answer, VERSION, 0, 0, 0, 0)
}

// The words of a refusal, by its number, at the front of the buffer.
pub fn jidrofex_refusal_words(number: u8, buffer: &mut [u8], answer: &mut [u64; ANSWER_WORDS]) -> u8
    ensures number { result ≡ number_told (refusal_words_of number buffer.old) }
    ensures words { answer.new ≡ words_told one_number (refusal_words_of number buffer.old) }
    ensures bytes { buffer.new ≡ refusal_words_bytes number buffer.old }
{
    give_numbered(bytes_number(refusal_words(number, buffer)), answer)
}

// A refusal as a sentence, from its number and the first two words of its answer, at the front of the buffer.
pub fn jidrofex_refusal_sentence(
    number: u8,
    refused: &[u64; ANSWER_WORDS],
    buffer: &mut [u8],
    answer: &mut [u64; ANSWER_WORDS],
) -> u8
    ensures number { result ≡ number_told (refusal_sentence_of number (get_or refused.now 0 0) (get_or refused.now 1 0) buffer.old) }
    ensures words { answer.new ≡ words_told one_number (refusal_sentence_of number (get_or refused.now 0 0) (get_or refused.now 1 0) buffer.old) }
    ensures bytes { buffer.new ≡ refusal_sentence_bytes number (get_or refused.now 0 0) (get_or refused.now 1 0) buffer.old }
{
    let written = refusal_sentence(number, refused[0], refused[1], buffer);
    give_numbered(bytes_number(written), answer)
}
