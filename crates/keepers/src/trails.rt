// The keeper that keeps trails: the newest state, and the trails of the eight steps before it.
use crate::ring::Ring;
use interface::answers::Refusal;
use interface::debt::Debt;
use interface::digest::digest;
use interface::game::{Game, Trail};
use interface::keeper::Keeper;

#[derive(Drop)]
pub struct Trails<G> {
    game: G,
    trails: Ring<Trail>,
}

impl<G: Game> Keeper<G> for Trails<G> {
    ghost use Rattle.keepers.specs.Keeping.{kept_by_trails};

    ghost kept = { λ k. kept_by_trails G.undone (G.words k.game) k.trails };

    fn open(seed: u32) -> Self {
        Trails {
            game: G::open(seed),
            trails: Ring::new([0; 4]),
        }
    }

    fn advance(&mut self, first: G::Input, second: G::Input) {
        let trail = self.game.step(first, second);
        self.trails.push(trail);
    }

    fn go_back(&mut self, frames: u32) -> Result<Debt, Refusal> {
        if frames == 0 {
            return Ok(Debt::of(0));
        }
        let mut game = self.game;
        // By number, since going back is refused where the trails run out: an iterator would only end.
        for k in 0..frames {
            let trail = self.trails.get(k).ok_or(Refusal::OutOfReach)?;
            game.undo(&trail).map_err(|_| Refusal::OutOfReach)?;
        }
        self.game = game;
        self.trails.drop_newest(frames);
        Ok(Debt::of(frames))
    }

    // This and the digest stand in each keeper: a default in the trait would have to reach the game, by a method as long.
    fn word(&self, k: u32) -> Option<u32> {
        self.game.word(k)
    }

    fn digest(&self) -> u32 {
        digest(&self.game)
    }
}
