// The games that a trace can name: seat 0 keeps snapshots and holds, seat 1 keeps trails and guesses idle.
ghost use Rattle.std.specs.Prelude.{◌≡◌, length, IfOk, MatchResult};
ghost use Rattle.match_engine.specs.Log.{entries};
ghost use Rattle.report.specs.Games.{tale_by, log_by};
ghost use Rattle.report.specs.Replays.{tale_of};

use crate::ends::Replayed;
use crate::replaying::replay_turns;
use duel::state::Duel;
use keepers::guesses::{Hold, Still};
use keepers::snapshots::Snapshots;
use keepers::trails::Trails;
use match_engine::log::Record;
use speed::game::Speed;
use std::alloc::{AllocError, Global};
use trace::forms::{First, GameName, TraceTurn};

// Replays the game that the first line names. The keepers are given with it: a function that made them of a game `G` would owe that
// `Snapshots<G>` is not too large.
pub(crate) fn replay_match(
    first: First,
    turns: &[TraceTurn],
    log: &mut [Record],
    heap: Global,
) -> Result<Replayed, AllocError>
    ensures told { IfOk result (λ x. tale_of x ≡ tale_by first.game first.seed (length log.old) turns.now) }
    ensures log { MatchResult result (λ _. entries log.new ≡ log_by first.game first.seed first.match_number (entries log.old) turns.now) (λ _. log.new ≡ log.old) }
{
    match first.game {
        GameName::Duel => replay_turns::<Duel, Snapshots<Duel>, Trails<Duel>, Hold, Still>(
            first, turns, log, heap,
        ),
        GameName::Speed => replay_turns::<Speed, Snapshots<Speed>, Trails<Speed>, Hold, Still>(
            first, turns, log, heap,
        ),
    }
}
