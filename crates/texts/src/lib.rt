#![tactic(auto)]

ghost use Rattle.std.specs.Prelude.{ℕ, List, decimal};
ghost use Rattle.std.specs.List.{flat_map};
ghost use Rattle.std.specs.Fmt.{signed_decimal};
ghost use Rattle.std.specs.Fn.{FnOnceReturnsAtMut};
ghost use Rattle.texts.specs.Puts.{Puts, PutsAs, Undone};

pub mod fault;
pub mod line;

use itoa::Buffer;
use std::alloc::AllocError;

/// Appends the bytes.
// The buffer is the caller's own Vec, with no type of ours round it: nothing else goes with it.
pub fn put(out: &mut Vec<u8>, bytes: &[u8]) -> Result<(), AllocError>
    ensures { Puts out.old bytes.now result out.new }
{
    out.extend_from_slice(bytes)
}

/// Appends n in decimal.
// By `itoa`, since a `write!` may fail for any reason, and this fails only where the buffer has no room.
pub fn put_number(out: &mut Vec<u8>, n: u64) -> Result<(), AllocError>
    ensures { Puts out.old (decimal n) result out.new }
{
    // One digit or two take less time without the buffer, which holds any number.
    match n {
        0..=9 => put(out, &[b'0' + n as u8]),
        10..=99 => put(out, &[b'0' + (n / 10) as u8, b'0' + (n % 10) as u8]),
        _ => put(out, Buffer::new().format(n).as_bytes()),
    }
}

/// Appends z in decimal, behind a minus sign where it is below 0.
pub fn put_signed(out: &mut Vec<u8>, z: i64) -> Result<(), AllocError>
    ensures { Puts out.old (signed_decimal z) result out.new }
{
    put(out, Buffer::new().format(z).as_bytes())
}

/// Appends the text of each item, in order, where `put_item` appends that of one.
// By a `for`: of what the closure of a `try_for_each` changed its contract says nothing.
pub fn put_each<T, F: Fn(&mut Vec<u8>, &T) -> Result<(), AllocError>>(
    out: &mut Vec<u8>,
    items: &[T],
    put_item: F,
) -> Result<(), AllocError>
    requires { F.IsAlwaysCallable put_item }
    ensures { (text : T → List ℕ) → PutsAs F.Fn put_item text → Puts out.old (flat_map text items.now) result out.new }
{
    for item in items {
        put_item(out, item)?;
    }
    Ok(())
}

/// Appends all that `append` does, or, where it fails, cuts the buffer back to as many bytes as it had, so that what was appended is gone.
pub fn all_or_nothing<F: FnOnce(&mut Vec<u8>) -> Result<(), AllocError>>(
    out: &mut Vec<u8>,
    append: F,
) -> Result<(), AllocError>
    requires { F.IsAlwaysCallable append }
    ensures { (w : _) × FnOnceReturnsAtMut F.FnOnce append out.old result w × Undone out.old w result out.new }
{
    let before = out.len();
    let done = append(out);
    if done.is_err() {
        out.truncate(before);
    }
    done
}
