ghost use Rattle.std.specs.Prelude.{◌≡◌, List, map, length, position};
ghost use Rattle.cells.specs.Checks.{Meets};
ghost use Rattle.sheets.specs.Pages.{names};
ghost use Rattle.sheets.specs.Reads.{entry};
ghost use Rattle.sheets.specs.Checks.{taken, index_of, task_checks};
ghost use Rattle.sheet_lines.specs.Places.{Finds};

use cells::cell::name_in;
use faults::fault::Fault;
use faults::reason::Reason;
use lexer::token::Token;
use sheets::sheet::SheetTask;
use std::marker::Model;

/// The tasks that stand above a line. Clauses see them as the list of their names.
// Handed over beside the line, and not in one value with it: a heading, an empty line and the goal's have none above.
#[derive(Drop)]
pub struct Above<'a> {
    pub tasks: &'a [SheetTask],
}

impl<'a> Model for Above<'a> {
    ghost use Rattle.std.specs.Prelude.{ℕ, List, map};

    ghost Value = { List (List ℕ) };

    ghost use Rattle.sheets.specs.Pages.{names};
    ghost use Rattle.sheets.specs.Reads.{entry};

    ghost view = { λ a. names (map entry a.tasks.now) };
}

impl Above<'_> {
    pub(crate) fn len(&self) -> usize
        ensures { result ≡ length self.now }
    {
        self.tasks.len()
    }

    // The place of the task that has this name.
    fn find(&self, name: &[u8]) -> Option<usize>
        ensures { Finds self.now name.now result }
    {
        self.tasks
            .iter()
            .position(|task| task.name.as_bytes() == name)
    }

    /// Whether a task has this name.
    pub(crate) fn is_taken(&self, name: &[u8]) -> bool
        ensures { result ≡ taken self.now name.now }
    {
        self.find(name).is_some()
    }

    /// The place of the task that a field names.
    pub(crate) fn place_of(&self, t: Token<'_>) -> Result<usize, Fault>
        ensures { Meets result (task_checks self.now t.entry.line t.entry.field t.entry.part.now) (λ v. v ≡ index_of self.now t.entry.part.now) }
    {
        let name = name_in(t)?;
        self.find(name).ok_or(t.refused(Reason::UnknownTask))
    }
}
