ghost use Rattle.std.specs.Int.{IsGcd};

/// The greatest common divisor.
pub(crate) fn gcd(a: u64, b: u64) -> u64
    ensures { IsGcd a b result }
{
    let mut x = a;
    let mut y = b;
    while y > 0 {
        (x, y) = (y, x % y);
    }
    x
}
