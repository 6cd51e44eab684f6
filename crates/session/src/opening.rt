ghost use Rattle.std.specs.Prelude.{◌≡◌, length};
ghost use Rattle.texts.specs.Puts.{Puts};
ghost use Rattle.session.specs.Opened.{heading, Opens};

use crate::session::Session;
use ahead::ahead::Ahead;
use ahead::given::Given;
use belt::belt::Belt;
use kinds::any_kind::AnyKind;
use layers::stack::Stack;
use player::player::Player;
use player::playing::ROOM;
use reader::read::read;
use reader::room::Room;
use rows::Row;
use runner::record::Record;
use sheets::sheet::Sheet;
use std::alloc::AllocError;
use texts::fault::put_fault;
use texts::put;

/// The rack of a sheet.
pub type SheetRack = Row<Stack<AnyKind>>;

/// Begins a session of a sheet's text, and appends the heading of what it prints. Of a text that is refused the refusal is all, and there is no session.
/// The records of a tick, and lines of calls that were read, lie in the slots that are lent. Where the buffer lacks room and no memory is to be had, it is left as it was.
pub fn open<'b, 'c>(
    text: &[u8],
    room: Room,
    ahead: Ahead,
    records: &'b mut [Option<Record>],
    given: &'c mut [Option<Given>],
    out: &mut Vec<u8>,
) -> Result<Option<Session<'b, 'c, SheetRack>>, AllocError>
    ensures { Opens text.now ahead (length records.old) (length given.old) out.old result out.new }
{
    out.reserve(ROOM)?;
    match read(text, room) {
        Ok(Sheet { tasks, graph, rack }) => {
            let player = Player::new(tasks, graph, rack, records).unwrap();
            put(out, b"task firing finish bound\n").unwrap();
            let given = Belt::new(given);
            Ok(Some(Session {
                player,
                ahead,
                given,
            }))
        }
        Err(fault) => {
            put_fault(out, fault).unwrap();
            Ok(None)
        }
    }
}
