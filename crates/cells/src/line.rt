ghost use Rattle.std.specs.Prelude.{◌≡◌};
ghost use Rattle.cells.specs.Bytes.{well, parted};

use crate::bytes::is_allowed;
use lexer::parts::Parts;

/// Whether a line has bytes of the format and then its end.
pub fn is_well(line: &[u8]) -> bool
    ensures { result ≡ well line.now }
{
    match line {
        [bytes @ .., b'\n'] => bytes.iter().all(is_allowed),
        _ => false,
    }
}

/// Whether a line has `n` fields with one space between them.
pub fn is_parted(text: &[u8], n: usize) -> bool
    ensures { result ≡ parted n text.now }
{
    // A loop and no chain: one pass, which ends at the first field that is empty or one too many.
    let mut count = 0;
    for part in Parts::new(text) {
        if part.is_empty() || count >= n {
            return false;
        }
        count += 1;
    }
    count == n
}
