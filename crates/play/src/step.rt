// One turn of a list.
ghost use Rattle.std.specs.Prelude.{◌≡◌};
ghost use Rattle.interface.specs.Games.{State};
ghost use Rattle.refine.specs.Setup.{setup};
ghost use Rattle.refine.specs.Memory.{SlotLists, slot_lists};
ghost use Rattle.refine.specs.Outcomes.{outcome};
ghost use Rattle.refine.specs.Matches.{next, step_result, told};
ghost use Rattle.match_engine.specs.Calls.{Does};
ghost use Rattle.match_engine.specs.Log.{entries};
ghost use Rattle.match_engine.specs.Meaning.{memory, whole_memory};
ghost use Rattle.play.specs.Turns.{call_of, step_of, told_of};

use crate::turns::{Call, Told, Turn};
use interface::game::Game;
use interface::guess::GuessRule;
use interface::input::InputKind;
use interface::keeper::Keeper;
use match_engine::log::Record;
use match_engine::state::Match;
use seat::state::Slots;

// Makes a turn's call with what is lent to it.
fn make_call<
    G: Game,
    K0: Keeper<G>,
    K1: Keeper<G>,
    H0: GuessRule<G::Input>,
    H1: GuessRule<G::Input>,
>(
    game: &mut Match<G, K0, K1, H0, H1>,
    turn: Turn,
    own: &mut [G::Input],
    other: &mut [G::Input],
    digests: &mut [u32],
    log: &mut [Record],
) -> (u32, u32)
    ensures { (opening : State) (rest : SlotLists G.Input) → Does (setup opening G.next G.Input.idle G.Input.reads G.Input.code H0.guessed H1.guessed) (memory K0.kept K1.kept game.old turn.seat (slot_lists own.old other.old digests.old) rest (entries log.old)) turn.seat (call_of turn.call) (outcome (memory K0.kept K1.kept game.new turn.seat (slot_lists own.new other.new digests.new) rest (entries log.new)) result.0 result.1) }
{
    let lent = Slots {
        own,
        other,
        digests,
    };
    match turn.call {
        Call::Press(code) => (game.press(turn.seat, lent, code), 0),
        Call::Send => (game.send(turn.seat, lent, log), 0),
        Call::Take(k) => game.take(turn.seat, lent, log, k),
    }
}

// Makes a turn with the acting seat's slots and the caller's log: it is lent the front of them.
fn make_turn<
    G: Game,
    K0: Keeper<G>,
    K1: Keeper<G>,
    H0: GuessRule<G::Input>,
    H1: GuessRule<G::Input>,
>(
    game: &mut Match<G, K0, K1, H0, H1>,
    turn: Turn,
    own: &mut [G::Input],
    other: &mut [G::Input],
    digests: &mut [u32],
    log: &mut [Record],
) -> (u32, u32)
    ensures leaves { (opening : State) (rest : SlotLists G.Input) → memory K0.kept K1.kept game.new turn.seat (slot_lists own.new other.new digests.new) rest (entries log.new) ≡ next (setup opening G.next G.Input.idle G.Input.reads G.Input.code H0.guessed H1.guessed) (memory K0.kept K1.kept game.old turn.seat (slot_lists own.old other.old digests.old) rest (entries log.old)) (step_of turn) }
    ensures answers { (opening : State) (rest : SlotLists G.Input) → (result.0 ≡ (step_result (setup opening G.next G.Input.idle G.Input.reads G.Input.code H0.guessed H1.guessed) (memory K0.kept K1.kept game.old turn.seat (slot_lists own.old other.old digests.old) rest (entries log.old)) (step_of turn)).code) × (result.1 ≡ (step_result (setup opening G.next G.Input.idle G.Input.reads G.Input.code H0.guessed H1.guessed) (memory K0.kept K1.kept game.old turn.seat (slot_lists own.old other.old digests.old) rest (entries log.old)) (step_of turn)).frames) }
{
    let own_slots = turn.own.min(own.len());
    let other_slots = turn.other.min(other.len());
    let digest_slots = turn.digests.min(digests.len());
    let records = turn.records.min(log.len());
    make_call(
        game,
        turn,
        &mut own[..own_slots],
        &mut other[..other_slots],
        &mut digests[..digest_slots],
        &mut log[..records],
    )
}

// Makes a turn of a match with the slots of both seats, and tells what it answered and the seat's P and R after it. Each slice is lent
// by itself: of a struct of `&mut`s that is handed on nothing is proved of what it leaves. The arms end apart: joined, the proof has to say
// of each of nine values which arm left it.
pub(crate) fn step<
    G: Game,
    K0: Keeper<G>,
    K1: Keeper<G>,
    H0: GuessRule<G::Input>,
    H1: GuessRule<G::Input>,
>(
    game: &mut Match<G, K0, K1, H0, H1>,
    turn: Turn,
    own_0: &mut [G::Input],
    other_0: &mut [G::Input],
    digests_0: &mut [u32],
    own_1: &mut [G::Input],
    other_1: &mut [G::Input],
    digests_1: &mut [u32],
    log: &mut [Record],
) -> Told
    ensures leaves { (opening : State) → whole_memory K0.kept K1.kept game.new (slot_lists own_0.new other_0.new digests_0.new) (slot_lists own_1.new other_1.new digests_1.new) (entries log.new) ≡ next (setup opening G.next G.Input.idle G.Input.reads G.Input.code H0.guessed H1.guessed) (whole_memory K0.kept K1.kept game.old (slot_lists own_0.old other_0.old digests_0.old) (slot_lists own_1.old other_1.old digests_1.old) (entries log.old)) (step_of turn) }
    ensures told { (opening : State) → told_of result ≡ told (setup opening G.next G.Input.idle G.Input.reads G.Input.code H0.guessed H1.guessed) (whole_memory K0.kept K1.kept game.old (slot_lists own_0.old other_0.old digests_0.old) (slot_lists own_1.old other_1.old digests_1.old) (entries log.old)) (step_of turn) }
{
    let second = turn.seat == 1;
    if second {
        let (code, frames) = make_turn(game, turn, own_1, other_1, digests_1, log);
        return Told {
            code,
            frames,
            played: game.played(true),
            known: game.known(true),
        };
    }
    let (code, frames) = make_turn(game, turn, own_0, other_0, digests_0, log);
    Told {
        code,
        frames,
        played: game.played(false),
        known: game.known(false),
    }
}
