ghost use Rattle.std.specs.Prelude.{◌≡◌};

use graph::graph::Graph;
use graph::parts::Task;
use kinds::any_kind::AnyKind;
use kinds::kind::Kind;
use layers::stack::Stack;
use names::name::Name;
use rows::Row;
use servers::settings::Settings;

/// A task as its line of the sheet has it. A layer of 0 0 0 is none.
// Settings and no Option for the layer: a rule of the project, a planner writes three numbers for a layer, 0 0 0 for none.
#[derive(Clone, Copy, PartialEq, Eq, Debug)]
pub struct SheetTask {
    pub name: Name,
    pub time: u64,
    pub kind: Kind,
    pub slice: Settings,
    pub layer: Settings,
    pub inlet: bool,
}

/// What a graph keeps of a task.
impl From<&SheetTask> for Task {
    ghost use Rattle.sheets.specs.Pages.{task_of};
    ghost use Rattle.sheets.specs.Reads.{entry};

    ghost from_gives = { λ task part. part ≡ task_of (entry task.now) };

    fn from(task: &SheetTask) -> Task {
        Task {
            time: task.time,
            inlet: task.inlet,
        }
    }
}

/// A sheet: its tasks as written, the graph that they make with the goal and the edges, and a rack of their servers in task order.
/// The tasks stand three times, as written, in the graph and in the rack, since graph and rack each keep their own.
// That the three fit each other is no fact of the type: a writer takes any sheet, and a narrower type would ask more of its callers.
#[derive(PartialEq, Eq, Debug, Drop)]
pub struct Sheet {
    pub tasks: Vec<SheetTask>,
    pub graph: Graph,
    pub rack: Row<Stack<AnyKind>>,
}
