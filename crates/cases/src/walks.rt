// Whole circuits walked from the first pattern, forward and backward: every pattern comes once, and the walk ends where it began.
use crate::says;
use patterns::neighbours::{next, previous};
use patterns::ranking::unrank;
use words::limits::LARGEST;

// How many spots a walk remembers: more than there are.
const SPOTS: usize = 65536;

// The entry at a place of a pattern of up to 6 ports; 0 beyond it.
fn entry(p: &[u8], j: usize) -> usize {
    if j < p.len() { (p[j] % 8) as usize } else { 0 }
}

// A number below 32,768 that tells the permutations of up to 6 ports apart: by five entries, from which a sixth follows.
fn spot(p: &[u8]) -> usize {
    (entry(p, 0) % 8) * 4096
        + (entry(p, 1) % 8) * 512
        + (entry(p, 2) % 8) * 64
        + (entry(p, 3) % 8) * 8
        + entry(p, 4) % 8
}

// Whether a spot was not seen before; it is from now on. (Two returns: it is set where it was not.)
fn fresh(seen: &mut [u8], at: usize) -> bool {
    if at < seen.len() && seen[at] == 0 {
        seen[at] = 1;
        return true;
    }
    false
}

// One more where something is so.
fn added(n: u64, so: bool) -> u64 {
    if so && n < LARGEST { n + 1 } else { n }
}

// One step round the circuit. (Which way is data of the walk.)
fn step(p: &mut [u8], back: bool) {
    if back {
        let _ = previous(p);
    } else {
        let _ = next(p);
    }
}

// How many different patterns come in so many steps.
fn different(p: &mut [u8], back: bool, steps: u64, seen: &mut [u8]) -> u64 {
    let mut found: u64 = 0;
    for _ in 0..steps {
        let new = fresh(seen, spot(p));
        found = added(found, new);
        step(p, back);
    }
    found
}

fn walk(rt: &impl Print, what: &[u8], p: &mut [u8], first: &[u8], back: bool, patterns: u64) {
    let mut seen = [0u8; SPOTS];
    let found = different(p, back, patterns, &mut seen);
    let home = &*p == first;
    says::number(rt, first.len() as u64);
    says::text(rt, what);
    says::number(rt, found);
    says::text(rt, b" different patterns in ");
    says::number(rt, patterns);
    if home {
        says::text(rt, b" steps, then the first again");
    } else {
        says::text(rt, b" steps, then another than the first");
    }
    says::end(rt, home && found == patterns);
}

// Both ways, with two patterns of as many ports to work on.
pub fn circuit(rt: &impl Print, p: &mut [u8], first: &mut [u8], patterns: u64) {
    let _ = unrank(0, first);
    let _ = unrank(0, p);
    walk(rt, b" ports forward: ", p, first, false, patterns);
    walk(rt, b" ports backward: ", p, first, true, patterns);
}
