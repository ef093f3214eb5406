// The calls for C on patterns, and the check of a panel, as include/jidrofex.h has them.
#![tactic(auto)]

ghost use Rattle.std.specs.Prelude.{◌≡◌, true, false};
ghost use Rattle.listing.specs.Limits.{most_ports};
ghost use Rattle.pattern_check.specs.Calls.{check_as};
ghost use Rattle.patterns.specs.Answers.{moved_told};
ghost use Rattle.patterns.specs.Calls.{count_of, rank_of, unrank_of, unrank_bytes, beside_of, beside_bytes, step_of};
ghost use Rattle.face_values.specs.Answers.{number_told, words_told, nothing, one_number};
ghost use Rattle.face_values.specs.Lines.{move_words};

use face_values::answers::{ANSWER_WORDS, give_numbered, give_outcome, refuse};
use face_values::lines::give_move;
use pattern_check::checking::{check, check_panel};
use patterns::counting::{count, step};
use patterns::neighbours::{next, previous};
use patterns::ranking::{rank, unrank};
use words::{Move, Refusal};

// The answer of a call that gives a move.
fn give_moved(moved: Result<Move, Refusal>, answer: &mut [u64; ANSWER_WORDS]) -> u8
    ensures number { result ≡ number_told (moved_told moved) }
    ensures words { answer.new ≡ words_told move_words (moved_told moved) }
{
    match moved {
        Err(f) => refuse(f, answer),
        Ok(m) => give_move(m, answer),
    }
}

// Whether it is a pattern.
pub fn jidrofex_check(pattern: &[u8], answer: &mut [u64; ANSWER_WORDS]) -> u8
    ensures number { result ≡ number_told (check_as true most_ports pattern.now) }
    ensures words { answer.new ≡ words_told nothing (check_as true most_ports pattern.now) }
{
    give_outcome(check(pattern), answer)
}

// Whether it is a panel.
pub fn jidrofex_check_panel(panel: &[u8], answer: &mut [u64; ANSWER_WORDS]) -> u8
    ensures number { result ≡ number_told (check_as false most_ports panel.now) }
    ensures words { answer.new ≡ words_told nothing (check_as false most_ports panel.now) }
{
    give_outcome(check_panel(panel), answer)
}

// How many patterns there are.
pub fn jidrofex_count(ports: u8, answer: &mut [u64; ANSWER_WORDS]) -> u8
    ensures number { result ≡ number_told (count_of most_ports ports) }
    ensures words { answer.new ≡ words_told one_number (count_of most_ports ports) }
{
    give_numbered(count(ports), answer)
}

// The rank of a pattern.
pub fn jidrofex_rank(pattern: &[u8], answer: &mut [u64; ANSWER_WORDS]) -> u8
    ensures number { result ≡ number_told (rank_of most_ports pattern.now) }
    ensures words { answer.new ≡ words_told one_number (rank_of most_ports pattern.now) }
{
    give_numbered(rank(pattern), answer)
}

// The pattern of a rank, written over the bytes of `pattern`.
pub fn jidrofex_unrank(rank: u64, pattern: &mut [u8], answer: &mut [u64; ANSWER_WORDS]) -> u8
    ensures number { result ≡ number_told (unrank_of most_ports rank pattern.old) }
    ensures words { answer.new ≡ words_told nothing (unrank_of most_ports rank pattern.old) }
    ensures bytes { pattern.new ≡ unrank_bytes most_ports rank pattern.old }
{
    give_outcome(unrank(rank, pattern), answer)
}

// The pattern becomes the next one round the circuit.
pub fn jidrofex_next(pattern: &mut [u8], answer: &mut [u64; ANSWER_WORDS]) -> u8
    ensures number { result ≡ number_told (beside_of most_ports false pattern.old) }
    ensures words { answer.new ≡ words_told move_words (beside_of most_ports false pattern.old) }
    ensures bytes { pattern.new ≡ beside_bytes most_ports false pattern.old }
{
    give_moved(next(pattern), answer)
}

// The pattern becomes the previous one round the circuit.
pub fn jidrofex_previous(pattern: &mut [u8], answer: &mut [u64; ANSWER_WORDS]) -> u8
    ensures number { result ≡ number_told (beside_of most_ports true pattern.old) }
    ensures words { answer.new ≡ words_told move_words (beside_of most_ports true pattern.old) }
    ensures bytes { pattern.new ≡ beside_bytes most_ports true pattern.old }
{
    give_moved(previous(pattern), answer)
}

// The rank k further round the circuit.
pub fn jidrofex_step(ports: u8, rank: u64, k: i64, answer: &mut [u64; ANSWER_WORDS]) -> u8
    ensures number { result ≡ number_told (step_of most_ports ports rank k) }
    ensures words { answer.new ≡ words_told one_number (step_of most_ports ports rank k) }
{
    give_numbered(step(ports, rank, k), answer)
}
