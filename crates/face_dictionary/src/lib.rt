// The calls for C on dictionary numbers, as include/jidrofex.h has them.
#![tactic(auto)]

ghost use Rattle.std.specs.Prelude.{◌≡◌};
ghost use Rattle.listing.specs.Limits.{most_ports};
ghost use Rattle.dictionary_laws.specs.Calls.{dictionary_number_of, dictionary_pattern_of, dictionary_pattern_bytes, dictionary_next_of, dictionary_next_bytes};
ghost use Rattle.dictionary_laws.specs.Calls.{number_to_rank_of, rank_to_number_of};
ghost use Rattle.face_values.specs.Answers.{number_told, words_told, nothing, one_number};

use dictionary::numbering::{number, numbered};
use dictionary::onward::next;
use dictionary::translation::{to_number, to_rank};
use face_values::answers::{ANSWER_WORDS, give_numbered, give_outcome};

// The dictionary number of a pattern.
pub fn jidrofex_dictionary_number(pattern: &[u8], answer: &mut [u64; ANSWER_WORDS]) -> u8
    ensures number { result ≡ number_told (dictionary_number_of most_ports pattern.now) }
    ensures words { answer.new ≡ words_told one_number (dictionary_number_of most_ports pattern.now) }
{
    give_numbered(number(pattern), answer)
}

// The pattern of a dictionary number, written over the bytes of `pattern`.
pub fn jidrofex_dictionary_pattern(
    number: u64,
    pattern: &mut [u8],
    answer: &mut [u64; ANSWER_WORDS],
) -> u8
    ensures number { result ≡ number_told (dictionary_pattern_of most_ports number pattern.old) }
    ensures words { answer.new ≡ words_told nothing (dictionary_pattern_of most_ports number pattern.old) }
    ensures bytes { pattern.new ≡ dictionary_pattern_bytes most_ports number pattern.old }
{
    give_outcome(numbered(number, pattern), answer)
}

// The pattern becomes the next one in dictionary order.
pub fn jidrofex_dictionary_next(pattern: &mut [u8], answer: &mut [u64; ANSWER_WORDS]) -> u8
    ensures number { result ≡ number_told (dictionary_next_of most_ports pattern.old) }
    ensures words { answer.new ≡ words_told nothing (dictionary_next_of most_ports pattern.old) }
    ensures bytes { pattern.new ≡ dictionary_next_bytes most_ports pattern.old }
{
    give_outcome(next(pattern), answer)
}

// From a dictionary number to the rank of the same pattern.
pub fn jidrofex_number_to_rank(ports: u8, number: u64, answer: &mut [u64; ANSWER_WORDS]) -> u8
    ensures number { result ≡ number_told (number_to_rank_of most_ports ports number) }
    ensures words { answer.new ≡ words_told one_number (number_to_rank_of most_ports ports number) }
{
    give_numbered(to_rank(ports, number), answer)
}

// From a rank to the dictionary number of the same pattern.
pub fn jidrofex_rank_to_number(ports: u8, rank: u64, answer: &mut [u64; ANSWER_WORDS]) -> u8
    ensures number { result ≡ number_told (rank_to_number_of most_ports ports rank) }
    ensures words { answer.new ≡ words_told one_number (rank_to_number_of most_ports ports rank) }
{
    give_numbered(to_number(ports, rank), answer)
}
