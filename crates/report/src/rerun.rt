// A whole list of turns made again, and how the seats end.
ghost use Rattle.std.specs.Prelude.{◌≡◌, ℕ, ◌≤◌, List, map, length, take, IfOk, MatchResult};
ghost use Rattle.seat.specs.Meaning.{view};
ghost use Rattle.refine.specs.Setup.{setup, rules};
ghost use Rattle.match_engine.specs.Log.{entries};
ghost use Rattle.play.specs.Turns.{told_of};
ghost use Rattle.report.specs.Ends.{view_end};
ghost use Rattle.report.specs.Replays.{empty_slots};
ghost use Rattle.report.specs.Reruns.{turn_in, Reran, log_after};

use crate::ends::SeatEnd;
use crate::slots::SeatSlots;
use interface::game::Game;
use interface::guess::GuessRule;
use interface::input::InputKind;
use interface::keeper::Keeper;
use match_engine::log::Record;
use play::playing::play;
use play::turns::{Told, Turn};
use seat::state::Seat;
use std::alloc::{AllocError, Global};

// What is read of a seat at the end.
fn end_of<G: Game, K: Keeper<G>, H: GuessRule<G::Input>>(seat: &Seat<G, K, H>) -> SeatEnd
    ensures { (own others : List G.Input) (digests : List ℕ) → result ≡ view_end (view K.kept seat.now own others digests) }
{
    SeatEnd {
        played: seat.played(),
        known: seat.known(),
        acknowledged: seat.acknowledged(),
        confirmed: seat.confirmed(),
        digest: seat.digest(),
    }
}

// Makes the turns of a fresh match: what is told of each, and both seats at the end. What is lent goes one by one, here and in
// `replay_turns`: of a struct of `&mut` that is handed on whole nothing is proved of what it leaves.
pub(crate) fn rerun<
    G: Game,
    K0: Keeper<G> + Drop,
    K1: Keeper<G> + Drop,
    H0: GuessRule<G::Input> + Drop,
    H1: GuessRule<G::Input> + Drop,
>(
    match_number: u16,
    seed: u32,
    turns: &[Turn],
    log: &mut [Record],
    told: &mut [Told],
    heap: Global,
) -> Result<(SeatEnd, SeatEnd), AllocError>
    requires room { length turns.now ≤ length told.old }
    ensures told { IfOk result (λ ends. Reran (rules (setup (G.opening seed) G.next G.Input.idle G.Input.reads G.Input.code H0.guessed H1.guessed)) (map (turn_in (length log.old)) turns.now) (map told_of (take (length turns.now) told.new)) ends) }
    ensures log { MatchResult result (λ _. entries log.new ≡ log_after (setup (G.opening seed) G.next G.Input.idle G.Input.reads G.Input.code H0.guessed H1.guessed) match_number (empty_slots G.Input.idle) (empty_slots G.Input.idle) (entries log.old) turns.now) (λ _. log.new ≡ log.old) }
{
    let mut first = SeatSlots::new(heap)?;
    let mut second = SeatSlots::new(heap)?;
    let game = play::<G, K0, K1, H0, H1>(
        match_number,
        seed,
        first.lend(),
        second.lend(),
        log,
        turns,
        told,
    )
    .unwrap();
    Ok((end_of(game.first()), end_of(game.second())))
}
