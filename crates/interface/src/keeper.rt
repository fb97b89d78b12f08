// A rollback keeper over a game: it steps ahead, and goes back to a state that it has not let go.
ghost use Rattle.std.specs.Prelude.{◌≡◌, ◌-◌, ◌<◌, false, [], ◌∷◌, is_ok};
ghost use Rattle.std.specs.List.{slice_get};
ghost use Rattle.interface.specs.Digest.{digest_of};
ghost use Rattle.interface.specs.Keepers.{Kept, newest, advanced, back_answer, back};

use crate::answers::Refusal;
use crate::debt::Debt;
use crate::game::Game;

pub trait Keeper<G: Game> {
    // The states that it can go back to, newest first: one to nine.
    ghost kept: { Self → Kept };

    // The opening alone.
    fn open(seed: u32) -> Self
        ensures { (kept result).states ≡ G.opening seed ∷ [] };

    // A frame with the inputs of seats 0 and 1.
    fn advance(&mut self, first: G::Input, second: G::Input)
        ensures { (kept self.new).states ≡ advanced G.next (kept self.old).states first second };

    // Drops the newest frames and owes as many, where more states are listed than that.
    fn go_back(&mut self, frames: u32) -> Result<Debt, Refusal>
        ensures answer { result ≡ back_answer frames (kept self.old).states }
        ensures states { (kept self.new).states ≡ back frames (kept self.old).states }
        ensures same { is_ok result ≡ false → self.new ≡ self.old };

    // Word k of the newest state, or nothing past its end.
    fn word(&self, k: u32) -> Option<u32>
        ensures { result ≡ slice_get (newest (kept self.now).states) k };

    // The digest of the newest state.
    fn digest(&self) -> u32
        ensures { result ≡ digest_of (newest (kept self.now).states) };
}

// A frame that was gone back over, with the inputs of seats 0 and 1: it pays one of the debt.
pub fn replay<G: Game, K: Keeper<G>>(
    keeper: &mut K,
    debt: &mut Debt,
    first: G::Input,
    second: G::Input,
)
    requires { 0 < debt.old.owed }
    ensures states { (K.kept keeper.new).states ≡ advanced G.next (K.kept keeper.old).states first second }
    ensures debt { debt.new.owed ≡ debt.old.owed - 1 }
{
    keeper.advance(first, second);
    debt.pay();
}
