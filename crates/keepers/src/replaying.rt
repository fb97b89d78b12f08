// Going back and stepping ahead again, with any keeper.
ghost use Rattle.std.specs.Prelude.{◌≡◌, false, length, is_ok};
ghost use Rattle.keepers.specs.Replaying.{redo_answer, redone, repeated, SameAgain};

use interface::answers::Refusal;
use interface::debt::Debt;
use interface::game::Game;
use interface::keeper::{Keeper, replay};

// Goes back as many frames as there are pairs of inputs, and steps ahead with these, the oldest first.
pub fn go_back_and_replay<G: Game, K: Keeper<G>>(
    keeper: &mut K,
    inputs: &[(G::Input, G::Input)],
) -> Result<(), Refusal>
    ensures answer { result ≡ redo_answer (length inputs.now) (K.kept keeper.old).states }
    ensures states { (K.kept keeper.new).states ≡ redone G.next inputs.now (K.kept keeper.old).states }
    ensures same { is_ok result ≡ false → keeper.new ≡ keeper.old }
    ensures again { SameAgain G.next inputs.now (K.kept keeper.old).states result (K.kept keeper.new).states }
{
    let frames = u32::try_from(inputs.len()).map_err(|_| Refusal::OutOfReach)?;
    let mut debt = keeper.go_back(frames)?;
    for (first, second) in inputs {
        replay(keeper, &mut debt, *first, *second);
    }
    Ok(())
}

// Steps ahead with one pair of inputs until the debt is paid.
pub fn pay_off<G: Game, K: Keeper<G>>(
    keeper: &mut K,
    mut debt: Debt,
    first: G::Input,
    second: G::Input,
)
    ensures { (K.kept keeper.new).states ≡ repeated G.next debt.owed first second (K.kept keeper.old).states }
{
    while debt.owed() > 0 {
        replay(keeper, &mut debt, first, second);
    }
}
