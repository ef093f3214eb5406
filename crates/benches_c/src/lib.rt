// The library for C, include/jidrofex_benches.h: each call under the name, the signature and the clauses of the function of `benches_face` that it calls, and nothing
// else. What a static library exports no Rattle crate can use.
#![tactic(auto)]

ghost use Rattle.std.specs.Prelude.{◌≡◌};
ghost use Rattle.face_values.specs.Answers.{number_told, one_number, words_told};
ghost use Rattle.benches_laws.specs.Calls.{share_of, sum_of};
ghost use Rattle.benches_face.specs.Values.{counts_words, share_words, version_told};

use face_values::answers::ANSWER_WORDS;

// ---- benches_face

// The version of the library.
#[unsafe(no_mangle)]
pub extern "C" fn jidrofex_benches_version(answer: &mut [u64; ANSWER_WORDS]) -> u8
    ensures number { result ≡ number_told version_told }
    ensures words { answer.new ≡ words_told one_number version_told }
{
    benches_face::jidrofex_benches_version(answer)
}

// The share of a bench.
#[unsafe(no_mangle)]
pub extern "C" fn jidrofex_benches_share(
    ports: u64,
    benches: u64,
    bench: u64,
    answer: &mut [u64; ANSWER_WORDS],
) -> u8
    ensures number { result ≡ number_told (share_of ports benches bench) }
    ensures words { answer.new ≡ words_told share_words (share_of ports benches bench) }
{
    benches_face::jidrofex_benches_share(ports, benches, bench, answer)
}

// The counts of all benches.
#[unsafe(no_mangle)]
pub extern "C" fn jidrofex_benches_sum(
    ports: u64,
    benches: u64,
    counts: &[u64],
    answer: &mut [u64; ANSWER_WORDS],
) -> u8
    ensures number { result ≡ number_told (sum_of ports benches counts.now) }
    ensures words { answer.new ≡ words_told counts_words (sum_of ports benches counts.now) }
{
    benches_face::jidrofex_benches_sum(ports, benches, counts, answer)
}
