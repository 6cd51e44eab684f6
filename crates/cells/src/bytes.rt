ghost use Rattle.std.specs.Prelude.{◌≡◌, false, true, ◌||◌, ◌==◌, MatchOption};
ghost use Rattle.cells.specs.Bytes.{plain};
ghost use Rattle.cells.specs.Values.{value, numeral, named};

use names::name::LONGEST;

// The most digits of a number.
const MOST_DIGITS: usize = 9;

// A letter or a digit.
fn is_plain(b: &u8) -> bool
    ensures { result ≡ plain b.now }
{
    b.is_ascii_lowercase() || b.is_ascii_digit()
}

// A byte that may stand in a line before its end.
pub(crate) fn is_allowed(b: &u8) -> bool
    ensures { result ≡ (plain b.now || b.now == 32) }
{
    is_plain(b) || *b == b' '
}

// 1 to 9 digits without a leading zero.
fn is_numeral(part: &[u8]) -> bool
    ensures { result ≡ numeral part.now }
{
    match part {
        [b'0'] => true,
        [b'1'..=b'9', ..] => part.len() <= MOST_DIGITS && part.iter().all(u8::is_ascii_digit),
        _ => false,
    }
}

// The number that a numeral writes.
pub(crate) fn number_of(part: &[u8]) -> Option<u64>
    ensures { MatchOption result (numeral part.now ≡ false) (λ n. (numeral part.now ≡ true) × (n ≡ value part.now)) }
{
    if !is_numeral(part) {
        return None;
    }
    // The library's parse takes a text, and five times as long. Of so few digits nothing wraps.
    let number = part.iter().fold(0, |n: u64, digit: &u8| {
        n.wrapping_mul(10)
            .wrapping_add(u64::from(digit.wrapping_sub(b'0')))
    });
    Some(number)
}

// 1 to 12 letters and digits, a letter first.
pub(crate) fn is_named(part: &[u8]) -> bool
    ensures { result ≡ named part.now }
{
    part.first().is_some_and(u8::is_ascii_lowercase)
        && part.len() <= LONGEST
        && part.iter().all(is_plain)
}
