// Orders and moves carried out on a lent panel, and panels in arrays.
#![tactic(auto)]

pub mod panels;

ghost use Rattle.std.specs.Prelude.{◌≡◌, length};
ghost use Rattle.listing.specs.Orders.{swap, carry, moved, InShape, InForm};
ghost use Rattle.words.specs.Meaning.{order_of, move_of};
ghost use Rattle.pattern_carry.specs.Panels.{Swappable};

use words::{Jack, Move, Order};

// The ports of two jacks exchanged.
fn swap_entries(p: &mut [u8], a: Jack, b: Jack)
    requires { Swappable p.old a.0 b.0 }
    ensures { p.new ≡ carry (swap a.0 b.0) p.old }
{
    p.swap((a.0 - 1) as usize, (b.0 - 1) as usize);
}

// Two swaps, one after the other.
fn swap_twice(p: &mut [u8], a: Jack, b: Jack, c: Jack, d: Jack)
    requires { Swappable p.old a.0 b.0 × Swappable p.old c.0 d.0 }
    ensures { p.new ≡ carry (swap c.0 d.0) (carry (swap a.0 b.0) p.old) }
{
    swap_entries(p, a, b);
    swap_entries(p, c, d);
}

// An order on the panel: a turn is the swap of its first two jacks and then of its last two.
pub fn carry_order(o: Order, p: &mut [u8])
    requires { InShape (length p.old) (order_of o) }
    ensures { p.new ≡ carry (order_of o) p.old }
{
    match o {
        Order::Swap(a, b) => swap_entries(p, a, b),
        Order::Turn(a, b, c) => swap_twice(p, a, b, b, c),
    }
}

// A move on the panel, order by order.
pub fn carry_move(m: Move, p: &mut [u8])
    requires { InForm (length p.old) (move_of m) }
    ensures { p.new ≡ moved (move_of m) p.old }
{
    match m {
        Move::Nothing => {}
        Move::One(o) => carry_order(o, p),
        Move::Two(a, b, c, d) => swap_twice(p, a, b, c, d),
    }
}
