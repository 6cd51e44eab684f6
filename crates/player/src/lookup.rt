ghost use Rattle.std.specs.Prelude.{◌≡◌, ◌≤◌, [], map, length, slice_index_or};
ghost use Rattle.names.specs.Names.{name_bytes};
ghost use Rattle.sheets.specs.Pages.{names};
ghost use Rattle.sheets.specs.Reads.{entry};
ghost use Rattle.sheet_lines.specs.Places.{Finds};

use names::name::Name;
use sheets::sheet::SheetTask;

/// The place of the task that has this name.
pub(crate) fn place_of(tasks: &[SheetTask], name: Name) -> Option<usize>
    ensures { Finds (names (map entry tasks.now)) (name_bytes name) result }
{
    let name = name.as_bytes();
    tasks.iter().position(|task| task.name.as_bytes() == name)
}

/// The name of the task at this place; none where there is no such task.
pub(crate) fn name_at(tasks: &[SheetTask], place: usize) -> &[u8]
    ensures is { result.now ≡ slice_index_or (names (map entry tasks.now)) place [] }
    ensures short { length result.now ≤ 12 }
{
    tasks.get(place).map_or(b"", |task| task.name.as_bytes())
}
