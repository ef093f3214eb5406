// The next order on the way to a mark, from the panel alone.
ghost use Rattle.std.specs.Prelude.{◌≡◌, cond, [], ◌≤◌, ◌<◌, take};
ghost use Rattle.std.proofs.Math.Option.{none, some};
ghost use Rattle.listing.specs.Pattern.{Permutation};
ghost use Rattle.listing.specs.Count.{count};
ghost use Rattle.listing.specs.Limits.{most_ports};
ghost use Rattle.listing.specs.Orders.{orders, InForm};
ghost use Rattle.words.specs.Meaning.{order_of, move_of};
ghost use Rattle.promise.specs.Tests.{same};
ghost use Rattle.promise.specs.Carriage.{carriage};
ghost use Rattle.promise.specs.Campaign.{rest, to_come};
ghost use Rattle.promise.specs.Derangements.{derangements};
ghost use Rattle.plan_rules.specs.Rules.{leg_is};
ghost use Rattle.campaign_way.specs.Coming.{next_of, or_next, coming_is};

use crate::ToCome;
use crate::along::rank_along;
use pattern_carry::panels::{after_order, first_wrong, holder, port_at};
use pattern_check::checking::check_panel;
use pattern_course::unranking::{put_pattern, put_with_course};
use pattern_moves::neighbours::move_along;
use words::limits::LONGEST;
use words::{Jack, Leg, Move, Order, Port};

// The next order of the carriage from p to t: at the first wrong jack, swap with the jack that holds the wanted port.
fn carriage_next(n: u8, p: [u8; LONGEST], t: [u8; LONGEST]) -> ToCome
    requires { (n ≤ most_ports) × Permutation n (take n p) × Permutation n (take n t) }
    ensures { coming_is result ≡ next_of (some (carriage (take n p) (take n t))) }
{
    let j = first_wrong(n, p, t);
    if j == 0 {
        return ToCome::Clear;
    }
    let end = n as usize;
    let held = holder(&p[..end], Port(port_at(t, n, j)));
    ToCome::Next(Order::Swap(Jack(j), held))
}

// Before a leg's first mark: the carriage from any permutation to the pattern of its rank.
fn before_first(n: u8, l: Leg, q: [u8; LONGEST]) -> ToCome
    requires { (2 ≤ n) × (n ≤ most_ports) × (l.start < count n) }
    ensures { coming_is result ≡ next_of (to_come (derangements n) (leg_is l) 0 (take n q)) }
{
    let end = n as usize;
    if check_panel(&q[..end]).is_err() {
        return ToCome::Astray;
    }
    let mut t = [0u8; LONGEST];
    put_pattern(l.start, &mut t[..end]);
    carriage_next(n, q, t)
}

// Nothing is to come from p where the panel is p.
fn arrived(n: u8, p: [u8; LONGEST], q: [u8; LONGEST]) -> ToCome
    requires { n ≤ most_ports }
    ensures { coming_is result ≡ next_of (rest (take n p) [] (take n q)) }
{
    if first_wrong(n, p, q) == 0 {
        ToCome::Clear
    } else {
        ToCome::Astray
    }
}

// What was found further on the way; else the order o where the panel is p.
fn or_next(found: ToCome, n: u8, p: [u8; LONGEST], o: Order, q: [u8; LONGEST]) -> ToCome
    requires { n ≤ most_ports }
    ensures { coming_is result ≡ or_next (coming_is found) (cond (same (take n p) (take n q)) (some (some (order_of o))) none) }
{
    match found {
        ToCome::Astray if first_wrong(n, p, q) == 0 => ToCome::Next(o),
        found => found,
    }
}

// On the way of a move from p.
fn on_the_way(n: u8, p: [u8; LONGEST], m: Move, q: [u8; LONGEST]) -> ToCome
    requires { (n ≤ most_ports) × InForm n (move_of m) }
    ensures { coming_is result ≡ next_of (rest (take n p) (orders (move_of m)) (take n q)) }
{
    match m {
        Move::Nothing => arrived(n, p, q),
        Move::One(o) => or_next(arrived(n, after_order(n, p, o), q), n, p, o, q),
        Move::Two(a, b, c, d) => {
            let first = Order::Swap(a, b);
            let second = Order::Swap(c, d);
            let between = after_order(n, p, first);
            let found = or_next(
                arrived(n, after_order(n, between, second), q),
                n,
                between,
                second,
                q,
            );
            or_next(found, n, p, first, q)
        }
    }
}

// What is to come before the mark at step k of a leg, when the panel is q.
pub fn coming(n: u8, l: Leg, k: u64, q: [u8; LONGEST]) -> ToCome
    requires { (2 ≤ n) × (n ≤ most_ports) × (l.start < count n) × (k < count n) }
    ensures { coming_is result ≡ next_of (to_come (derangements n) (leg_is l) k (take n q)) }
{
    if k == 0 {
        return before_first(n, l, q);
    }
    let r = rank_along(n, l.start, l.back, k - 1);
    let end = n as usize;
    let mut t = [0u8; LONGEST];
    let levels = put_with_course(r, &mut t[..end]);
    on_the_way(n, t, move_along(&levels, n, l.back), q)
}
