// The digest by which two seats compare a state.
ghost use Rattle.std.specs.Prelude.{◌≡◌};
ghost use Rattle.interface.specs.Digest.{digest_of};

use crate::game::Game;

// The sum of (2k + 1) × word k, modulo 2^32.
pub fn digest<G: Game>(game: &G) -> u32
    ensures { result ≡ digest_of (G.words game.now) }
{
    let mut sum = 0u32;
    for k in 0..G::W {
        let word = game.word(k).unwrap();
        sum = sum.wrapping_add((2 * k + 1).wrapping_mul(word));
    }
    sum
}
