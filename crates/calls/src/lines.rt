ghost use Rattle.std.specs.Prelude.{◌≡◌, ◌↔◌, IsTrue, [], ◌∷◌, ◌++◌, decimal};
ghost use Rattle.cells.specs.Checks.{name_checks, Meets};
ghost use Rattle.names.specs.Names.{name_bytes};
ghost use Rattle.sheets.specs.Checks.{exact_checks};
ghost use Rattle.calls.specs.Checks.{heading, word_checks, all_checks, whom_checks, value_checks, call_checks};
ghost use Rattle.calls.specs.Words.{word_of, all};
ghost use Rattle.calls.specs.Written.{fields_of, written};

use crate::call_line::CallLine;
use crate::call_word::CallWord;
use crate::fields::CallFields;
use cells::cell::{name_in, number_in};
use cells::line::is_well;
use faults::fault::Fault;
use faults::reason::Reason;
use lexer::token::Token;
use names::name::Name;
use sheet_lines::line::Line;

// The highest value of a call.
const MOST: u64 = 999_999_999;

// Whether a line is the heading of calls.
fn is_heading(text: &[u8]) -> bool
    ensures { IsTrue result ↔ (text.now ≡ heading) }
{
    match text {
        b"call task value\n" => true,
        _ => false,
    }
}

/// A line that has to be the heading of calls.
pub fn heading_in(line: Line<'_>) -> Result<(), Fault>
    ensures { Meets result (exact_checks heading line.entry.number line.entry.text.now) (λ _. Unit {0}) }
{
    line.must(!line.text.is_empty(), Reason::Heading)?;
    line.must(is_well(line.text), Reason::ForeignByte)?;
    line.must(is_heading(line.text), Reason::Heading)
}

// The call that a field names.
fn word_in(t: Token<'_>) -> Result<CallWord, Fault>
    ensures { Meets result (word_checks t.entry.line t.entry.field t.entry.part.now) (λ w. t.entry.part.now ≡ word_of w) }
{
    let refused = t.refused(Reason::Word);
    CallWord::try_from(t.part).map_err(|_| refused)
}

// The task that a field names.
fn task_in(t: Token<'_>) -> Result<Name, Fault>
    ensures { Meets result (name_checks t.entry.line t.entry.field t.entry.part.now) (λ n. t.entry.part.now ≡ name_bytes n) }
{
    let name = name_in(t)?;
    Ok(Name::try_from(name).unwrap())
}

// A field that has to be the word for all tasks.
fn all_in(t: Token<'_>) -> Result<(), Fault>
    ensures { Meets result (all_checks t.entry.line t.entry.field t.entry.part.now) (λ _. t.entry.part.now ≡ all) }
{
    match t.part {
        b"all" => Ok(()),
        _ => Err(t.refused(Reason::Word)),
    }
}

// The value in a field.
fn value_in(t: Token<'_>) -> Result<u64, Fault>
    ensures { Meets result (value_checks t.entry.line t.entry.field t.entry.part.now) (λ n. t.entry.part.now ≡ decimal n) }
{
    number_in(t, 0, MOST)
}

// The call that has this word, and these fields behind it.
fn call_of(word: CallWord, whom: Token<'_>, value: Token<'_>) -> Result<CallLine, Fault>
    ensures { Meets result (whom_checks (word_of word) whom.entry.line whom.entry.field whom.entry.part.now ++ value_checks value.entry.line value.entry.field value.entry.part.now) (λ c. fields_of c ≡ word_of word ∷ whom.entry.part.now ∷ value.entry.part.now ∷ []) }
{
    match word {
        CallWord::Arrive => Ok(CallLine::Arrive {
            task: task_in(whom)?,
            times: value_in(value)?,
        }),
        CallWord::Need => Ok(CallLine::Need {
            task: task_in(whom)?,
            ticks: value_in(value)?,
        }),
        CallWord::Quiet => {
            all_in(whom)?;
            Ok(CallLine::Quiet {
                ticks: value_in(value)?,
            })
        }
        CallWord::Busy => {
            all_in(whom)?;
            Ok(CallLine::Busy {
                ticks: value_in(value)?,
            })
        }
    }
}

/// The call that a line has; the line is that call as it is written.
pub fn call_in(line: Line<'_>) -> Result<CallLine, Fault>
    ensures { Meets result (call_checks line.entry.number line.entry.text.now) (λ c. line.entry.text.now ≡ written c) }
{
    line.must(is_well(line.text), Reason::ForeignByte)?;
    line.must(!line.is_gap(), Reason::Heading)?;
    let fields = CallFields::new(line)?;
    let word = word_in(fields.word)?;
    call_of(word, fields.whom, fields.value)
}
