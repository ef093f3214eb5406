// The steps A(i) and B(i), and the step back from B, in the one buffer that holds the pattern: a pattern of n ports is its first n entries, jack 1 first.
ghost use Rattle.std.specs.Prelude.{◌≡◌, suc, ◌-◌, ◌≤◌, length, take};
ghost use Rattle.listing.specs.Numbers.{Among, raise, lower};
ghost use Rattle.listing.specs.Pattern.{entry, Derangement};
ghost use Rattle.listing.specs.Steps.{by_step_b, step_a, step_b, un_b};
ghost use Rattle.listing.specs.Limits.{most_ports};
ghost use Rattle.pattern_steps.specs.Steps.{LeftFit};

use crate::numbers::{lowered, raised};
use pattern_carry::panels::holder;
use words::Port;
use words::limits::LONGEST;

// A(i), from the pattern of m ports: m + 1 where it holds i, and i after it.
pub fn step_a(out: &mut [u8], m: u8, i: u8)
    requires { (suc m ≤ length out.old) × (suc m ≤ most_ports) × Derangement m (take m out.old) × Among m i }
    ensures { take (suc m) out.new ≡ step_a (suc m) i (take m out.old) }
{
    let last = m as usize;
    let jack = holder(&out[..last], Port(i));
    let at = (jack.0 - 1) as usize;
    out[at] = m + 1;
    out[last] = i;
}

// The port at jack j of the pattern that B(i) makes from the pattern of m ports in t: i at the last jack, the last port at jack i, and one more to entries of
// i or more, which stand one jack on from jack i.
fn port_by_b(t: &[u8], m: u8, i: u8, j: u8) -> u8
    requires { (suc (suc m) ≤ length t.now) × (suc (suc m) ≤ most_ports) × Among (suc m) i × Among (suc (suc m)) j × LeftFit m j t.now }
    ensures { result ≡ by_step_b (suc (suc m)) i t.now j }
{
    let n = m + 2;
    if j == n {
        i
    } else if j == i {
        n
    } else {
        raised(i, t[(lowered(i, j) - 1) as usize])
    }
}

// B(i), from the pattern of m ports, from the last jack down: no jack is written before its port has been taken.
pub fn step_b(out: &mut [u8], m: u8, i: u8)
    requires { (suc (suc m) ≤ length out.old) × (suc (suc m) ≤ most_ports) × Derangement m (take m out.old) × Among (suc m) i }
    ensures { take (suc (suc m)) out.new ≡ step_b (suc (suc m)) i (take m out.old) }
{
    for at in (0..m + 2).rev() {
        out[at as usize] = port_by_b(out, m, i, at + 1);
    }
}

// The port that jack j gets where jack i is taken out: one less above i.
fn port_back_b(p: &[u8; LONGEST], i: u8, j: u8) -> u8
    requires { Among most_ports (raise i j) × (j ≤ most_ports) }
    ensures { result ≡ lower i (entry p.now (raise i j)) }
{
    lowered(i, p[(raised(i, j) - 1) as usize])
}

// Back from B, of a pattern of n ports or of its inverse, from the first jack on: with i the entry at the last jack, jack i taken out and one less above i.
pub fn back_b(p: &mut [u8; LONGEST], n: u8)
    requires { (2 ≤ n) × (n ≤ most_ports) }
    ensures { take (n - 2) p.new ≡ un_b n (take n p.old) }
{
    let i = p[(n - 1) as usize];
    for at in 0..n - 2 {
        p[at as usize] = port_back_b(p, i, at + 1);
    }
}
