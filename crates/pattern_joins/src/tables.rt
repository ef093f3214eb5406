// The tables of the moves between the parts of the list, by n and the block number i: relations (3), (5), (7), (8) and the closing step.
ghost use Rattle.std.specs.Prelude.{◌≡◌, ◌-◌, ◌≤◌};
ghost use Rattle.listing.specs.Numbers.{Among};
ghost use Rattle.listing.specs.Joins.{hop_a, hop_b, hop, join, closing};
ghost use Rattle.listing.specs.Limits.{most_ports};
ghost use Rattle.words.specs.Meaning.{move_of};

use pattern_steps::numbers::is_odd;
use words::limits::FEWEST_PORTS;
use words::{Jack, Move, Order};

// Relation (8) is for so many ports or more: relation (7) has the joins for 4.
const FEWEST_IN_EIGHT: u8 = 5;

// From A(i) to A(i+1) of the first pattern of n - 1: relation (5).
fn hop_a(n: u8, i: u8) -> Move
    requires { (4 ≤ n) × (n ≤ most_ports) × Among (n - 2) i }
    ensures { move_of result ≡ hop_a n i }
{
    match i {
        1 => Move::One(Order::Turn(Jack(1), Jack(n - 1), Jack(n))),
        _ => Move::One(Order::Turn(Jack(i - 1), Jack(n), Jack(i))),
    }
}

// From B(i) to B(i+1) of the first pattern of n - 2: relation (3).
fn hop_b(n: u8, i: u8) -> Move
    requires { (4 ≤ n) × (n ≤ most_ports) × Among (n - 2) i }
    ensures { move_of result ≡ hop_b n i }
{
    match i {
        1 => Move::Two(Jack(1), Jack(2), Jack(n - 1), Jack(n)),
        _ => Move::Two(Jack(i - 1), Jack(n), Jack(i), Jack(i + 1)),
    }
}

// From block i to block i + 1: after an odd block by B, after an even one by A.
pub fn hop(n: u8, i: u8) -> Move
    requires { (4 ≤ n) × (n ≤ most_ports) × Among (n - 2) i }
    ensures { move_of result ≡ hop n i }
{
    if is_odd(i) { hop_b(n, i) } else { hop_a(n, i) }
}

// Inside block i of the list for 4 ports: relation (7).
fn join_of_four(i: u8) -> Move
    requires { (1 ≤ i) × (i ≤ 3) }
    ensures { move_of result ≡ join 4 i }
{
    match i {
        1 => Move::One(Order::Swap(Jack(1), Jack(2))),
        2 => Move::One(Order::Swap(Jack(2), Jack(3))),
        _ => Move::One(Order::Swap(Jack(1), Jack(3))),
    }
}

// Inside the first block, 5 ports or more: the first row of relation (8).
fn first_join(n: u8) -> Move
    requires { (5 ≤ n) × (n ≤ most_ports) }
    ensures { move_of result ≡ join n 1 }
{
    if is_odd(n) {
        Move::One(Order::Turn(Jack(1), Jack(n - 3), Jack(n - 2)))
    } else {
        Move::One(Order::Turn(Jack(1), Jack(n - 2), Jack(n - 3)))
    }
}

// Inside the last block, 5 ports or more: the last row of relation (8).
fn last_join(n: u8) -> Move
    requires { (5 ≤ n) × (n ≤ most_ports) }
    ensures { move_of result ≡ join n (n - 1) }
{
    if is_odd(n) {
        Move::One(Order::Turn(Jack(n - 4), Jack(n - 1), Jack(n - 2)))
    } else {
        Move::Two(Jack(n - 4), Jack(n - 2), Jack(n - 3), Jack(n - 1))
    }
}

// Inside block i, from the last pattern by A to the last by B. The row i = n - 2 is the paper's, not the document's.
pub fn join(n: u8, i: u8) -> Move
    requires { (4 ≤ n) × (n ≤ most_ports) × Among (n - 1) i }
    ensures { move_of result ≡ join n i }
{
    if n < FEWEST_IN_EIGHT {
        return join_of_four(i);
    }
    match (i, n - i) {
        (1, _) => first_join(n),
        (_, 1) => last_join(n),
        (_, 2) => Move::One(Order::Turn(Jack(n - 4), Jack(n - 2), Jack(n - 1))),
        (_, 3) => Move::One(Order::Turn(Jack(n - 4), Jack(n - 2), Jack(n - 3))),
        _ => Move::Two(Jack(i - 1), Jack(i), Jack(n - 3), Jack(n - 2)),
    }
}

// From the last pattern to the first.
pub fn closing(n: u8) -> Move
    requires { (2 ≤ n) × (n ≤ most_ports) }
    ensures { move_of result ≡ closing n }
{
    if n == FEWEST_PORTS {
        Move::Nothing
    } else if is_odd(n) {
        Move::One(Order::Turn(Jack(n - 2), Jack(n), Jack(n - 1)))
    } else {
        Move::One(Order::Swap(Jack(n - 2), Jack(n)))
    }
}
