// What every crate above shares: signs, magnitudes, ranges, divisibility, the greatest common divisor, and the places of a run.
// Each function takes any numbers.
#![tactic(auto)]

ghost use Rattle.std.specs.Prelude.{◌≡◌, nat_abs, length};
ghost use Rattle.integers.specs.Range.{is_zero, is_negative, within};
ghost use Rattle.integers.specs.Divisibility.{divides};
ghost use Rattle.integers.specs.Gcd.{gcd_ℕ};
ghost use Rattle.integers.specs.Below.{all_below};
ghost use Rattle.integers.specs.Run.{at};

// Whether x is 0.
pub fn is_zero(x: i64) -> bool
    ensures { result ≡ is_zero x }
{
    x == 0
}

// Whether x is below 0.
pub fn is_negative(x: i64) -> bool
    ensures { result ≡ is_negative x }
{
    x < 0
}

// The magnitude of x, which for the least number is 2^63.
pub fn magnitude(x: i64) -> u64
    ensures { result ≡ nat_abs x }
{
    x.unsigned_abs()
}

// Whether x lies in -bound..bound.
pub fn within(bound: u64, x: i64) -> bool
    ensures { result ≡ within bound x }
{
    magnitude(x) <= bound
}

// Whether d divides x; 0 divides only 0.
pub fn divides(d: i64, x: i64) -> bool
    ensures { result ≡ divides d x }
{
    magnitude(x).is_multiple_of(magnitude(d))
}

// The greatest common divisor, by Euclid's algorithm; of 0 and 0 it is 0.
pub fn gcd(a: u64, b: u64) -> u64
    ensures { result ≡ gcd_ℕ a b }
{
    let (mut x, mut y) = (a, b);
    while y != 0 {
        (x, y) = (y, x % y);
    }
    x
}

// What stands at a place of a run; 0 past its end.
pub fn at(run: &[i64], place: usize) -> i64
    ensures { result ≡ at run.now place }
{
    run.get(place).copied().unwrap_or(0)
}

// Whether each number of a run lies in -bound..bound.
pub fn all_within(bound: u64, run: &[i64]) -> bool
    ensures { result ≡ all_below (length run.now) (λ i. within bound (at run.now i)) }
{
    run.iter().all(|x| within(bound, *x))
}
