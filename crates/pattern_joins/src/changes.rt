// A move turned round, and a move on the jacks of a longer pattern.
ghost use Rattle.std.specs.Prelude.{◌≡◌, ◌≤◌};
ghost use Rattle.listing.specs.Numbers.{raise};
ghost use Rattle.listing.specs.Orders.{InForm, InShape, inverse, raised, raised_order};
ghost use Rattle.listing.specs.Limits.{most_ports};
ghost use Rattle.words.specs.Meaning.{move_of, order_of};

use pattern_steps::numbers::raised;
use words::{Jack, Move, Order};

// The move that leads back.
pub fn inverse_of(m: Move) -> Move
    ensures { move_of result ≡ inverse (move_of m) }
{
    match m {
        Move::One(Order::Turn(a, b, c)) => Move::One(Order::Turn(a, c, b)),
        _ => m,
    }
}

// A jack of the shorter pattern on the longer one that B(i) makes.
fn raised_jack(i: u8, a: Jack) -> Jack
    requires { a.0 ≤ most_ports }
    ensures { result.0 ≡ raise i a.0 }
{
    Jack(raised(i, a.0))
}

// An order among the jacks without i.
fn raised_order(i: u8, o: Order) -> Order
    requires { InShape most_ports (order_of o) }
    ensures { order_of result ≡ raised_order i (order_of o) }
{
    match o {
        Order::Swap(a, b) => Order::Swap(raised_jack(i, a), raised_jack(i, b)),
        Order::Turn(a, b, c) => Order::Turn(
            raised_jack(i, a),
            raised_jack(i, b),
            raised_jack(i, c),
        ),
    }
}

// A move among the jacks without i.
pub fn raised_by(i: u8, m: Move) -> Move
    requires { InForm most_ports (move_of m) }
    ensures { move_of result ≡ raised i (move_of m) }
{
    match m {
        Move::Nothing => m,
        Move::One(o) => Move::One(raised_order(i, o)),
        Move::Two(a, b, c, d) => Move::Two(
            raised_jack(i, a),
            raised_jack(i, b),
            raised_jack(i, c),
            raised_jack(i, d),
        ),
    }
}
