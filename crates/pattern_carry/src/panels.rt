// Panels of n jacks in arrays: the port at a jack and the jack that holds a port, the way from a lent slice, where two panels differ, a panel after an
// order, and the panel at home.
ghost use Rattle.std.specs.Prelude.{◌≡◌, ◌==◌, ◌++◌, suc, ◌≤◌, length, take, drop, position};
ghost use Rattle.listing.specs.Numbers.{Among, is};
ghost use Rattle.listing.specs.Pattern.{entry};
ghost use Rattle.listing.specs.Ends.{home};
ghost use Rattle.listing.specs.Limits.{most_ports};
ghost use Rattle.listing.specs.Orders.{carry, InShape};
ghost use Rattle.words.specs.Meaning.{order_of};
ghost use Rattle.words.specs.Padded.{padded};
ghost use Rattle.pattern_check.specs.Faults.{seek};
ghost use Rattle.pattern_carry.specs.Panels.{wrong_from};

use crate::carry_order;
use words::limits::LONGEST;
use words::{Jack, Order, Port};

// The port at jack j of a panel with n jacks.
pub fn port_at(p: [u8; LONGEST], n: u8, j: u8) -> u8
    requires { (n ≤ most_ports) × Among n j }
    ensures { result ≡ entry (take n p) j }
{
    p[(j - 1) as usize]
}

// The place of the first jack that holds the port, jack 1 at place 0.
fn place_of(panel: &[u8], port: Port) -> Option<usize>
    ensures { result ≡ position (λ x. x == port.0) panel.now }
{
    panel.iter().position(|held| *held == port.0)
}

// The first jack that holds the port, and jack 0 if none does.
pub fn holder(panel: &[u8], port: Port) -> Jack
    requires { length panel.now ≤ most_ports }
    ensures { result.0 ≡ seek panel.now port.0 1 (length panel.now) }
{
    match place_of(panel, port) {
        Some(at) => Jack((at + 1) as u8),
        None => Jack(0),
    }
}

// The lent ports at the front of an array, 0 beyond them.
pub fn load(p: &[u8]) -> [u8; LONGEST]
    requires { length p.now ≤ most_ports }
    ensures { result ≡ padded most_ports 0 p.now }
{
    let mut t = [0u8; LONGEST];
    t[..p.len()].copy_from_slice(p);
    t
}

// The first jack at which two panels differ; 0 if none does.
pub fn first_wrong(n: u8, p: [u8; LONGEST], q: [u8; LONGEST]) -> u8
    requires { n ≤ most_ports }
    ensures { result ≡ wrong_from n 1 (take n p) (take n q) }
{
    for at in 0..n as usize {
        if p[at] != q[at] {
            return (at + 1) as u8;
        }
    }
    0
}

// The panel after an order; the places beyond its jacks stay.
pub fn after_order(n: u8, p: [u8; LONGEST], o: Order) -> [u8; LONGEST]
    requires { (n ≤ most_ports) × InShape n (order_of o) }
    ensures { result ≡ carry (order_of o) (take n p) ++ drop n p }
{
    let mut after = p;
    carry_order(o, &mut after[..n as usize]);
    after
}

// The port at jack j of the home of n ports: (2, 3, .., n, 1).
fn home_port(n: u8, j: u8) -> u8
    requires { j ≤ most_ports }
    ensures { result ≡ is j n 1 (suc j) }
{
    if j == n { 1 } else { j + 1 }
}

// The panel at home, 0 beyond the ports.
pub fn home_panel(n: u8) -> [u8; LONGEST]
    requires { n ≤ most_ports }
    ensures { result ≡ padded most_ports 0 (home n) }
{
    let mut panel = [0u8; LONGEST];
    for j in 0..n {
        panel[j as usize] = home_port(n, j + 1);
    }
    panel
}
