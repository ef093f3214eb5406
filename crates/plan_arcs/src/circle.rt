// Steps round a circuit of c ranks, with no sum that wraps.
ghost use Rattle.std.specs.Prelude.{◌≡◌, ◌≤◌, ◌<◌};
ghost use Rattle.promise_arcs.specs.Circle as circle;

// The rank i steps on from rank a.
pub fn onward(c: u64, a: u64, i: u64) -> u64
    requires { (a < c) × (i ≤ c) }
    ensures { result ≡ circle.onward c a i }
{
    if i < c - a { a + i } else { i - (c - a) }
}

// The rank i steps back from rank a. (`ahead` is like it by its arithmetic, and says another thing.)
pub fn backward(c: u64, a: u64, i: u64) -> u64
    requires { (a < c) × (i ≤ c) }
    ensures { result ≡ circle.backward c a i }
{
    if i <= a { a - i } else { c - (i - a) }
}

// How many steps on from rank a rank r is.
pub fn ahead(c: u64, a: u64, r: u64) -> u64
    requires { (a < c) × (r < c) }
    ensures { result ≡ circle.ahead c a r }
{
    if a <= r { r - a } else { c - (a - r) }
}
