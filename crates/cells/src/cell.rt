ghost use Rattle.std.specs.Prelude.{◌≡◌};
ghost use Rattle.cells.specs.Checks.{number_checks, name_checks, kind_checks, Meets};
ghost use Rattle.cells.specs.Values.{value, kind_of};

use crate::bytes::{is_named, number_of};
use faults::fault::Fault;
use faults::reason::Reason;
use kinds::kind::Kind;
use lexer::token::Token;

/// The number of a field, from `low` to `high`.
// Two bounds and no RangeInclusive: such a range can be used up, and the contract would have to ask that this one is not.
pub fn number_in(t: Token<'_>, low: u64, high: u64) -> Result<u64, Fault>
    ensures { Meets result (number_checks low high t.entry.line t.entry.field t.entry.part.now) (λ n. n ≡ value t.entry.part.now) }
{
    number_of(t.part)
        .filter(|n| (low..=high).contains(n))
        .ok_or(t.refused(Reason::NumberRange))
}

/// The name in a field.
pub fn name_in<'a>(t: Token<'a>) -> Result<&'a [u8], Fault>
    ensures { Meets result (name_checks t.entry.line t.entry.field t.entry.part.now) (λ n. n.now ≡ t.entry.part.now) }
{
    if is_named(t.part) {
        Ok(t.part)
    } else {
        Err(t.refused(Reason::Word))
    }
}

/// The kind that a field names.
pub fn kind_in(t: Token<'_>) -> Result<Kind, Fault>
    ensures { Meets result (kind_checks t.entry.line t.entry.field t.entry.part.now) (λ k. k ≡ kind_of t.entry.part.now) }
{
    let refused = t.refused(Reason::Word);
    Kind::try_from(t.part).map_err(|_| refused)
}
