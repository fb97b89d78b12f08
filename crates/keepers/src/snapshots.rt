// The keeper that keeps states: the newest, and the eight before it.
use crate::ring::Ring;
use interface::answers::Refusal;
use interface::debt::Debt;
use interface::digest::digest;
use interface::game::Game;
use interface::keeper::Keeper;

#[derive(Drop)]
pub struct Snapshots<G> {
    game: G,
    before: Ring<G>,
}

impl<G: Game> Keeper<G> for Snapshots<G> {
    ghost use Rattle.keepers.specs.Keeping.{kept_by_snapshots};

    ghost kept = { λ k. kept_by_snapshots G.words k.game k.before };

    fn open(seed: u32) -> Self {
        let game = G::open(seed);
        Snapshots {
            game,
            before: Ring::new(game),
        }
    }

    fn advance(&mut self, first: G::Input, second: G::Input) {
        self.before.push(self.game);
        let _ = self.game.step(first, second);
    }

    #[tactic(auto, using(crate::proofs::Kept::kept_back))]
    fn go_back(&mut self, frames: u32) -> Result<Debt, Refusal> {
        if frames > 0 {
            self.game = self.before.get(frames - 1).ok_or(Refusal::OutOfReach)?;
            self.before.drop_newest(frames);
        }
        Ok(Debt::of(frames))
    }

    // This and the digest stand in each keeper: a default in the trait would have to reach the game, by a method as long.
    fn word(&self, k: u32) -> Option<u32> {
        self.game.word(k)
    }

    fn digest(&self) -> u32 {
        digest(&self.game)
    }
}
