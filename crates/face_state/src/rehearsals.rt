// A rehearsal in words: the fields that a state has too at the same places, and then the end.
ghost use Rattle.std.specs.Prelude.{◌≡◌, ◌<◌, length};
ghost use Rattle.printing.specs.Rehearsals.{rehearsal_of, state_of};
ghost use Rattle.face_state.specs.States.{state_count, word};
ghost use Rattle.face_state.specs.Rehearsals.{rehearsal_count, rehearsal_words, widened, rehearsal_in, held_rehearsal_is};

use crate::places::{ENDED, REHEARSAL_ENDED, REHEARSAL_WORDS, STATE_WORDS};
use crate::{state_in, word_of};
use campaign_state::State;
use printing::Rehearsal;
use printing::rehearsals::{rehearsal_of, state_of};

// The word at a place of the state that has no counts and no seat.
fn wide_word(words: &[u64; REHEARSAL_WORDS], at: usize) -> u64
    requires { at < state_count }
    ensures { result ≡ word (widened words.now) at }
{
    if at < REHEARSAL_ENDED {
        return words[at];
    }
    if at != ENDED {
        return 0;
    }
    words[REHEARSAL_ENDED]
}

// The words of the state that has no counts and no seat.
fn wide(words: &[u64; REHEARSAL_WORDS]) -> [u64; STATE_WORDS]
    ensures { result ≡ widened words.now }
{
    let mut state = [0u64; STATE_WORDS];
    for at in 0..STATE_WORDS {
        state[at] = wide_word(words, at);
    }
    state
}

// The rehearsal that words are.
pub fn rehearsal_in(words: &[u64]) -> Option<Rehearsal>
    ensures { held_rehearsal_is result ≡ rehearsal_in words.now }
{
    let Ok(words) = <&[u64; REHEARSAL_WORDS]>::try_from(words) else {
        return None;
    };
    let s = state_in(&wide(words))?;
    Some(rehearsal_of(s))
}

// The word at a place of a rehearsal, by the state that it stands for.
fn word_in(s: State, at: usize) -> u64
    requires { at < rehearsal_count }
    ensures { result ≡ word (rehearsal_words (rehearsal_of s)) at }
{
    if at < REHEARSAL_ENDED {
        word_of(s, at)
    } else {
        s.ended as u64
    }
}

// A rehearsal put into the words that it takes.
pub fn rehearsal_out(r: Rehearsal, words: &mut [u64])
    requires { length words.old ≡ rehearsal_count }
    ensures { words.new ≡ rehearsal_words r }
{
    let s = state_of(r);
    for at in 0..REHEARSAL_WORDS {
        words[at] = word_in(s, at);
    }
}
