// The calls for C on several benches, as include/jidrofex_benches.h has them.
#![tactic(auto)]

ghost use Rattle.std.specs.Prelude.{◌≡◌, [], ◌∷◌, ◌<◌};
ghost use Rattle.std.proofs.Math.Option.{some};
ghost use Rattle.listing.specs.Limits.{largest64};
ghost use Rattle.words.specs.Told.{accepted, spot_number, earlier_number};
ghost use Rattle.promise.specs.Plan.{Leg};
ghost use Rattle.face_values.specs.Answers.{five, number_told, words_told, one_number};
ghost use Rattle.benches_laws.specs.Calls.{share_of, sum_of};
ghost use Rattle.benches_calls.specs.Answers.{fault_number, fault_spot, share_told, sum_told};
ghost use Rattle.benches_face.specs.Values.{version_told, share_words, counts_words};

use benches_calls::adding::sum;
use benches_calls::faults::{fault_number, fault_place};
use benches_calls::sharing::share;
use benches_calls::{Counts, Fault};
use face_values::answers::{ANSWER_WORDS, give};

// JIDROFEX_BENCHES_VERSION
const VERSION: u64 = 1;

// A refused call: its place in the answer, and its number.
fn refuse(f: Fault, answer: &mut [u64; ANSWER_WORDS]) -> u8
    ensures number { result ≡ fault_number f }
    ensures words { answer.new ≡ five (spot_number (fault_spot f) ∷ earlier_number (fault_spot f) ∷ []) }
{
    give(answer, fault_place(f), 0, 0, 0, 0);
    fault_number(f)
}

// The marks of a bench's plan, its start and its run; zeros without a plan.
fn give_share(shared: Result<Option<words::Leg>, Fault>, answer: &mut [u64; ANSWER_WORDS]) -> u8
    requires { (l : Leg) → share_told shared ≡ accepted (some l) → l.run < largest64 }
    ensures number { result ≡ number_told (share_told shared) }
    ensures words { answer.new ≡ words_told share_words (share_told shared) }
{
    match shared {
        Err(f) => refuse(f, answer),
        Ok(plan) => match plan {
            None => give(answer, 0, 0, 0, 0, 0),
            Some(leg) => give(answer, leg.run + 1, leg.start, leg.run, 0, 0),
        },
    }
}

// The sums of the covered, of the open and of the errors.
fn give_sum(added: Result<Counts, Fault>, answer: &mut [u64; ANSWER_WORDS]) -> u8
    ensures number { result ≡ number_told (sum_told added) }
    ensures words { answer.new ≡ words_told counts_words (sum_told added) }
{
    match added {
        Err(f) => refuse(f, answer),
        Ok(counts) => give(answer, counts.covered, counts.opened, counts.errors, 0, 0),
    }
}

// The version of the library.
pub fn jidrofex_benches_version(answer: &mut [u64; ANSWER_WORDS]) -> u8
    ensures number { result ≡ number_told version_told }
    ensures words { answer.new ≡ words_told one_number version_told }
{
    give(answer, VERSION, 0, 0, 0, 0)
}

// The share of a bench. (A call for C is one line, and what it tells differs.)
pub fn jidrofex_benches_share(
    ports: u64,
    benches: u64,
    bench: u64,
    answer: &mut [u64; ANSWER_WORDS],
) -> u8
    ensures number { result ≡ number_told (share_of ports benches bench) }
    ensures words { answer.new ≡ words_told share_words (share_of ports benches bench) }
{
    give_share(share(ports, benches, bench), answer)
}

// The counts of all benches.
pub fn jidrofex_benches_sum(
    ports: u64,
    benches: u64,
    counts: &[u64],
    answer: &mut [u64; ANSWER_WORDS],
) -> u8
    ensures number { result ≡ number_told (sum_of ports benches counts.now) }
    ensures words { answer.new ≡ words_told counts_words (sum_of ports benches counts.now) }
{
    give_sum(sum(ports, benches, counts), answer)
}
