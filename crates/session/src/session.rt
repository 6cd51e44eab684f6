use ahead::ahead::Ahead;
use ahead::given::Given;
use belt::belt::Belt;
use player::player::Player;

/// A player of a sheet's tasks and the text of calls that drives it, as far as it was read: some of its lines may still lie on the belt.
#[derive(Drop)]
pub struct Session<'b, 'c, R> {
    pub(crate) player: Player<'b, R>,
    pub(crate) ahead: Ahead,
    pub(crate) given: Belt<'c, Given>,
}
