// A state of Duel: a board that is sound.
ghost use Rattle.std.specs.Prelude.{◌≡◌, true};
ghost use Rattle.duel.specs.Boards.{sound};

use crate::board::Board;

#[derive(Clone, Copy, Debug, PartialEq, Eq)]
pub struct Duel {
    pub board: Board,
    ghost lawful: { sound board ≡ true },
}
