// Scripts of frames and goings back, run on any keeper: two keepers over one game always show the same.
ghost use Rattle.std.specs.Prelude.{◌≡◌, true, [], ◌∷◌};
ghost use Rattle.worked_cases.specs.Scripts.{moved, seen, scripted, SameFront};
ghost use Rattle.interface.specs.Keepers.{newest};

use interface::game::Game;
use interface::keeper::Keeper;
use keepers::replaying::pay_off;

#[derive(Clone, Copy)]
pub enum Move<I> {
    // A frame.
    Ahead(I, I),
    // Going back so many frames, and as many frames ahead with one pair of inputs.
    Again(u32, I, I),
}

// Makes a move, and gives the digest of the state that it stepped or went back to.
pub fn follow<G: Game, K: Keeper<G>>(keeper: &mut K, step: Move<G::Input>) -> Option<u32>
    ensures seen { result ≡ seen G.next step (K.kept keeper.old).states }
    ensures states { (K.kept keeper.new).states ≡ moved G.next step (K.kept keeper.old).states }
{
    match step {
        Move::Ahead(first, second) => {
            keeper.advance(first, second);
            Some(keeper.digest())
        }
        Move::Again(frames, first, second) => {
            let debt = keeper.go_back(frames).ok()?;
            let digest = keeper.digest();
            pay_off(keeper, debt, first, second);
            Some(digest)
        }
    }
}

// A keeper after a script. The states that it lists follow from the game and the script alone, so any two keepers list the same.
pub fn play_script<G: Game, K: Keeper<G>>(seed: u32, script: &[Move<G::Input>]) -> K
    ensures { (K.kept result).states ≡ scripted G.next (G.opening seed ∷ []) script.now }
{
    let mut keeper = K::open(seed);
    for step in script {
        let _ = follow(&mut keeper, *step);
    }
    keeper
}

// Whether the newest states of two keepers have the same words.
pub fn same_words<G: Game, A: Keeper<G>, B: Keeper<G>>(left: &A, right: &B) -> bool
    ensures told { result ≡ true → SameFront G.W (newest (A.kept left.now).states) (newest (B.kept right.now).states) }
    ensures found { (A.kept left.now).states ≡ (B.kept right.now).states → result ≡ true }
{
    (0..G::W).all(|k| left.word(k) == right.word(k))
}

// Whether two keepers show the same at each move of a script and after it: they always do.
pub fn agree<G: Game, A: Keeper<G> + Drop, B: Keeper<G> + Drop>(
    seed: u32,
    script: &[Move<G::Input>],
) -> bool
    ensures { result ≡ true }
{
    let mut left = A::open(seed);
    let mut right = B::open(seed);
    for step in script {
        if follow(&mut left, *step) != follow(&mut right, *step) || !same_words(&left, &right) {
            return false;
        }
    }
    true
}
