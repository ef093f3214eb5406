// Whether a number is one of the panel's, and whether an order is in shape: refusal 17 is for what is not.
#![tactic(auto, unfolding(crate::specs::Shape::one_of, crate::specs::Shape::rising, crate::specs::Shape::shaped))]

ghost use Rattle.std.specs.Prelude.{◌≡◌};
ghost use Rattle.words.specs.Meaning.{order_of};
ghost use Rattle.words.specs.Shape.{one_of, rising, shaped};

use crate::{Jack, Order};

// Whether x is one of 1..n.
pub fn one_of(n: u8, x: u8) -> bool
    ensures { result ≡ one_of n x }
{
    1 <= x && x <= n
}

// Whether jack a comes before jack b among 1..n.
fn in_order(n: u8, a: Jack, b: Jack) -> bool
    ensures { result ≡ rising n a.0 b.0 }
{
    1 <= a.0 && a.0 < b.0 && b.0 <= n
}

// Whether an order is in shape on n jacks: of a swap the smaller jack first, of a turn the smallest, and its other two different.
pub fn in_shape(n: u8, o: Order) -> bool
    ensures { result ≡ shaped n (order_of o) }
{
    match o {
        Order::Swap(a, b) => in_order(n, a, b),
        Order::Turn(a, b, c) => b != c && in_order(n, a, b) && in_order(n, a, c),
    }
}
