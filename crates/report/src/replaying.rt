// A match of a trace, replayed.
ghost use Rattle.std.specs.Prelude.{◌≡◌, length, IfOk, MatchResult};
ghost use Rattle.refine.specs.Setup.{setup, rules};
ghost use Rattle.match_engine.specs.Log.{entries};
ghost use Rattle.report.specs.Replays.{tale_of, replayed, log_left};

use crate::ends::Replayed;
use crate::rerun::rerun;
use crate::turning::turns_of;
use interface::game::Game;
use interface::guess::GuessRule;
use interface::input::InputKind;
use interface::keeper::Keeper;
use match_engine::log::Record;
use play::turns::Told;
use std::alloc::{AllocError, Global};
use trace::forms::{First, TraceTurn};

// Replays the turns of a trace.
pub(crate) fn replay_turns<
    G: Game,
    K0: Keeper<G> + Drop,
    K1: Keeper<G> + Drop,
    H0: GuessRule<G::Input> + Drop,
    H1: GuessRule<G::Input> + Drop,
>(
    first: First,
    turns: &[TraceTurn],
    log: &mut [Record],
    heap: Global,
) -> Result<Replayed, AllocError>
    ensures told { IfOk result (λ x. tale_of x ≡ replayed (rules (setup (G.opening first.seed) G.next G.Input.idle G.Input.reads G.Input.code H0.guessed H1.guessed)) (length log.old) turns.now) }
    ensures log { MatchResult result (λ _. entries log.new ≡ log_left (setup (G.opening first.seed) G.next G.Input.idle G.Input.reads G.Input.code H0.guessed H1.guessed) first.match_number (entries log.old) turns.now) (λ _. log.new ≡ log.old) }
{
    let lent = turns_of(turns, log.len(), heap)?;
    let nothing = Told {
        code: 0,
        frames: 0,
        played: 0,
        known: 0,
    };
    let mut lines = vec![in heap; nothing; turns.len()]?;
    let (first, second) = rerun::<G, K0, K1, H0, H1>(
        first.match_number,
        first.seed,
        &lent,
        log,
        &mut lines,
        heap,
    )?;
    Ok(Replayed {
        lines,
        first,
        second,
    })
}
