ghost use Rattle.std.specs.Prelude.{◌≡◌, ◌<◌, ◌≤◌, List, [], ◌∷◌, ◌++◌, map, length, IfOk, vec_items, ◌==◌};
ghost use Rattle.sheets.specs.Pages.{Entry, names};
ghost use Rattle.sheets.specs.Offers.{Made};
ghost use Rattle.sheets.specs.Reads.{entry};
ghost use Rattle.reader.specs.Matched.{Matched};

use crate::reserved::Reserved;
use graph::parts::{MOST_TASKS, Task};
use kinds::any_kind::AnyKind;
use layers::stack::Stack;
use sheet_lines::above::Above;
use sheet_lines::entry::ServedTask;
use sheets::sheet::SheetTask;
use std::alloc::{AllocError, Global};
use std::marker::Model;

/// The tasks of a sheet as they were written, and for each its server and what a graph keeps of it: three lists in step, since the sheet, the rack and the graph each keep one, and parting a list of three would allocate.
#[derive(Drop)]
pub(crate) struct Entries {
    tasks: Reserved<SheetTask, MOST_TASKS>,
    servers: Reserved<Stack<AnyKind>, MOST_TASKS>,
    parts: Reserved<Task, MOST_TASKS>,
}

impl Model for Entries {
    ghost Value = { List Entry };

    ghost view = { λ e. map entry e.tasks };

    ghost invariant = { λ e. Matched e.tasks e.parts e.servers };
}

impl Entries {
    pub(crate) fn new(heap: Global) -> Result<Entries, AllocError>
        ensures { IfOk result (λ e. e ≡ []) }
    {
        let tasks = Reserved::new(heap)?;
        let servers = Reserved::new(heap)?;
        let parts = Reserved::new(heap)?;
        Ok(Entries {
            tasks,
            servers,
            parts,
        })
    }

    pub(crate) fn is_empty(&self) -> bool
        ensures { result ≡ (length self.now == 0) }
    {
        self.tasks.is_empty()
    }

    /// The tasks as those above a line that comes next.
    pub(crate) fn above(&self) -> Above<'_>
        ensures names { result ≡ names self.now }
        ensures few { length self.now ≤ 16 }
    {
        Above {
            tasks: self.tasks.as_slice(),
        }
    }

    pub(crate) fn push(&mut self, served: ServedTask)
        requires room { length self.old < 16 }
        requires made { Made (entry served.task) served.server }
        ensures { self.new ≡ self.old ++ entry served.task ∷ [] }
    {
        let ServedTask { task, server } = served;
        self.tasks.push(task);
        self.servers.push(server);
        self.parts.push(Task::from(&task));
    }

    /// The tasks, what a graph keeps of them, and their servers.
    pub(crate) fn into_lists(self) -> (Vec<SheetTask>, Vec<Task>, Vec<Stack<AnyKind>>)
        ensures are { map entry (vec_items result.0) ≡ self }
        ensures matched { Matched (vec_items result.0) (vec_items result.1) (vec_items result.2) }
    {
        let Entries {
            tasks,
            servers,
            parts,
        } = self;
        (tasks.into_vec(), parts.into_vec(), servers.into_vec())
    }
}
