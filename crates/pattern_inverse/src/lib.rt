// A pattern accepted in one pass, which leaves a working copy of it and its inverse: at each port its jack, port 1 first.
#![tactic(auto)]

ghost use Rattle.std.specs.Prelude.{◌≤◌, length};
ghost use Rattle.listing.specs.Limits.{most_ports};
ghost use Rattle.pattern_inverse.specs.Judged.{Judged};

pub mod types;

use crate::types::Taken;
use words::limits::LONGEST;

// A pattern is taken in, and nothing that is none. A port that the inverse already has a jack for stands at two jacks.
pub fn invert(p: &[u8]) -> Option<Taken>
    requires { length p.now ≤ most_ports }
    ensures { Judged p.now result }
{
    let mut copy = [0u8; LONGEST];
    let mut inverse = [0u8; LONGEST];
    let n = p.len();
    for (at, x) in p.iter().enumerate() {
        let port = *x as usize;
        let jack = at + 1;
        if port < 1 || n < port || port == jack || inverse[port - 1] != 0 {
            return None;
        }
        copy[at] = *x;
        inverse[port - 1] = jack as u8;
    }
    Some(Taken {
        copy,
        inverse,
        ports: n as u8,
    })
}
