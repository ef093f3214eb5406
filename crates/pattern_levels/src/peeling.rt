// A pattern taken apart in place, with its inverse.
ghost use Rattle.std.specs.Prelude.{◌≤◌};
ghost use Rattle.pattern_levels.specs.Levels.{Peeled};

use crate::types::Came;
use pattern_inverse::types::Taken;
use pattern_steps::steps::back_b;

// One level taken off a pattern, and off its inverse. With i the entry at the last jack it came by B if jack i holds the last port, which the inverse tells at
// once; else by A, and then i goes to the jack that holds the last port.
pub fn peel(t: &mut Taken) -> Came
    requires { 2 ≤ t.old.ports }
    ensures { Peeled t.old result t.new }
{
    let last = (t.ports - 1) as usize;
    let i = t.copy[last];
    let holder = t.inverse[last];
    if holder == i {
        back_b(&mut t.copy, t.ports);
        back_b(&mut t.inverse, t.ports);
        t.ports -= 2;
        Came::ByB(i)
    } else {
        let jack = (holder - 1) as usize;
        let port = (i - 1) as usize;
        t.copy[jack] = i;
        t.inverse[port] = holder;
        t.ports -= 1;
        Came::ByA(i)
    }
}
