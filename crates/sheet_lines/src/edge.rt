ghost use Rattle.std.specs.Prelude.{◌≡◌};
ghost use Rattle.cells.specs.Checks.{Meets};
ghost use Rattle.headings.specs.declared.table.Table.TheVariants.{Edges};
ghost use Rattle.sheets.specs.Checks.{value_checks, edge_checks, edge_of};

use crate::above::Above;
use crate::line::Line;
use cells::line::is_well;
use faults::fault::Fault;
use faults::reason::Reason;
use graph::parts::{Edge, MOST_EDGES, MOST_TOKENS};

// The two tasks, by their places, and the tokens.
fn ends_in(line: Line<'_>, above: &Above<'_>) -> Result<Edge, Fault>
    ensures { Meets result (value_checks above.now Edges line.entry.number line.entry.text.now) (λ e. e ≡ edge_of above.now line.entry.text.now) }
{
    let mut values = line.values(3)?;
    let from = values.place(above)?;
    let to = values.place(above)?;
    let tokens = values.number(0, MOST_TOKENS)?;
    Ok(Edge { from, to, tokens })
}

/// An edge's line below `edges` others.
pub fn edge_in(line: Line<'_>, above: &Above<'_>, edges: usize) -> Result<Edge, Fault>
    ensures { Meets result (edge_checks above.now edges line.entry.number line.entry.text.now) (λ e. e ≡ edge_of above.now line.entry.text.now) }
{
    line.must(is_well(line.text), Reason::ForeignByte)?;
    line.must(!line.is_gap(), Reason::Heading)?;
    line.must(edges < MOST_EDGES, Reason::Count)?;
    ends_in(line, above)
}
