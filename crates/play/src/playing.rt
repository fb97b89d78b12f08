// A whole list of turns on a fresh match.
ghost use Rattle.std.specs.Prelude.{◌≡◌, ◌≤◌, true, List, map, length, take, drop, Some, None, MatchResult};
ghost use Rattle.interface.specs.Games.{State};
ghost use Rattle.refine.specs.Setup.{setup};
ghost use Rattle.refine.specs.Memory.{Entry, slot_lists};
ghost use Rattle.refine.specs.Laws.{opened};
ghost use Rattle.refine.specs.Matches.{through, tale, GoesAsPlain};
ghost use Rattle.match_engine.specs.Log.{entries};
ghost use Rattle.match_engine.specs.Meaning.{whole_memory, whole_slots};
ghost use Rattle.play.specs.Promise.{enough_slots, play_refusal, Played};
ghost use Rattle.play.specs.Turns.{steps_of, told_of};

use crate::step::step;
use crate::turns::{Told, Turn};
use interface::answers::Refusal;
use interface::game::Game;
use interface::guess::GuessRule;
use interface::input::InputKind;
use interface::keeper::Keeper;
use interface::limits::QUEUE_SLOTS;
use match_engine::log::Record;
use match_engine::state::Match;
use seat::state::Slots;

// Makes the turns one after another, and tells of each in its place: of the places that `iter_mut` lends nothing is proved of what is left
// in them.
fn play_turns<
    G: Game,
    K0: Keeper<G>,
    K1: Keeper<G>,
    H0: GuessRule<G::Input>,
    H1: GuessRule<G::Input>,
>(
    game: &mut Match<G, K0, K1, H0, H1>,
    turns: &[Turn],
    own_0: &mut [G::Input],
    other_0: &mut [G::Input],
    digests_0: &mut [u32],
    own_1: &mut [G::Input],
    other_1: &mut [G::Input],
    digests_1: &mut [u32],
    log: &mut [Record],
    told: &mut [Told],
)
    requires room { length turns.now ≤ length told.old }
    ensures leaves { (opening : State) → whole_memory K0.kept K1.kept game.new (slot_lists own_0.new other_0.new digests_0.new) (slot_lists own_1.new other_1.new digests_1.new) (entries log.new) ≡ through (setup opening G.next G.Input.idle G.Input.reads G.Input.code H0.guessed H1.guessed) (whole_memory K0.kept K1.kept game.old (slot_lists own_0.old other_0.old digests_0.old) (slot_lists own_1.old other_1.old digests_1.old) (entries log.old)) (steps_of turns.now) }
    ensures tells { (opening : State) → map told_of (take (length turns.now) told.new) ≡ tale (setup opening G.next G.Input.idle G.Input.reads G.Input.code H0.guessed H1.guessed) (whole_memory K0.kept K1.kept game.old (slot_lists own_0.old other_0.old digests_0.old) (slot_lists own_1.old other_1.old digests_1.old) (entries log.old)) (steps_of turns.now) }
    ensures later { drop (length turns.now) told.new ≡ drop (length turns.now) told.old }
{
    for (i, turn) in turns.iter().enumerate() {
        told[i] = step(
            game, *turn, own_0, other_0, digests_0, own_1, other_1, digests_1, log,
        );
    }
}

// Opens a match with 32 slots of each kind: a function of its own, since of fronts that are lent within a struct nothing is proved of what
// they leave.
fn open_match<
    G: Game,
    K0: Keeper<G>,
    K1: Keeper<G>,
    H0: GuessRule<G::Input>,
    H1: GuessRule<G::Input>,
>(
    match_number: u16,
    seed: u32,
    own_0: &mut [G::Input],
    other_0: &mut [G::Input],
    digests_0: &mut [u32],
    own_1: &mut [G::Input],
    other_1: &mut [G::Input],
    digests_1: &mut [u32],
) -> Match<G, K0, K1, H0, H1>
    requires first { whole_slots (slot_lists own_0.old other_0.old digests_0.old) ≡ true }
    requires second { whole_slots (slot_lists own_1.old other_1.old digests_1.old) ≡ true }
    ensures { (log : List Entry) → whole_memory K0.kept K1.kept result (slot_lists own_0.new other_0.new digests_0.new) (slot_lists own_1.new other_1.new digests_1.new) log ≡ opened (G.opening seed) match_number (slot_lists own_0.old other_0.old digests_0.old) (slot_lists own_1.old other_1.old digests_1.old) log }
{
    Match::open(
        match_number,
        seed,
        Slots {
            own: own_0,
            other: other_0,
            digests: digests_0,
        },
        Slots {
            own: own_1,
            other: other_1,
            digests: digests_1,
        },
    )
    .unwrap()
}

// Opens a match with the first 32 slots of each kind, which are the seats' own.
fn open_fronts<
    G: Game,
    K0: Keeper<G>,
    K1: Keeper<G>,
    H0: GuessRule<G::Input>,
    H1: GuessRule<G::Input>,
>(
    match_number: u16,
    seed: u32,
    own_0: &mut [G::Input],
    other_0: &mut [G::Input],
    digests_0: &mut [u32],
    own_1: &mut [G::Input],
    other_1: &mut [G::Input],
    digests_1: &mut [u32],
) -> Match<G, K0, K1, H0, H1>
    requires first { enough_slots (slot_lists own_0.old other_0.old digests_0.old) ≡ true }
    requires second { enough_slots (slot_lists own_1.old other_1.old digests_1.old) ≡ true }
    ensures { (log : List Entry) → whole_memory K0.kept K1.kept result (slot_lists own_0.new other_0.new digests_0.new) (slot_lists own_1.new other_1.new digests_1.new) log ≡ opened (G.opening seed) match_number (slot_lists own_0.old other_0.old digests_0.old) (slot_lists own_1.old other_1.old digests_1.old) log }
{
    open_match(
        match_number,
        seed,
        &mut own_0[..QUEUE_SLOTS],
        &mut other_0[..QUEUE_SLOTS],
        &mut digests_0[..QUEUE_SLOTS],
        &mut own_1[..QUEUE_SLOTS],
        &mut other_1[..QUEUE_SLOTS],
        &mut digests_1[..QUEUE_SLOTS],
    )
}

// Opens a match and makes a whole list of turns of it. Each seat is brought 32 slots or more of each kind, and the first 32 are
// its own. Refused, it leaves all as it was. Turns and what is told of them are slices, since the engine has no heap.
pub fn play<
    G: Game,
    K0: Keeper<G>,
    K1: Keeper<G>,
    H0: GuessRule<G::Input>,
    H1: GuessRule<G::Input>,
>(
    match_number: u16,
    seed: u32,
    first: Slots<'_, G::Input>,
    second: Slots<'_, G::Input>,
    log: &mut [Record],
    turns: &[Turn],
    told: &mut [Told],
) -> Result<Match<G, K0, K1, H0, H1>, Refusal>
    ensures answer { MatchResult result (λ _. play_refusal (slot_lists first.entry.own.now first.entry.other.now first.entry.digests.now) (slot_lists second.entry.own.now second.entry.other.now second.entry.digests.now) turns.now told.old ≡ None) (λ why. play_refusal (slot_lists first.entry.own.now first.entry.other.now first.entry.digests.now) (slot_lists second.entry.own.now second.entry.other.now second.entry.digests.now) turns.now told.old ≡ Some why) }
    ensures leaves { MatchResult result (λ m. Played (setup (G.opening seed) G.next G.Input.idle G.Input.reads G.Input.code H0.guessed H1.guessed) (opened (G.opening seed) match_number (slot_lists first.entry.own.now first.entry.other.now first.entry.digests.now) (slot_lists second.entry.own.now second.entry.other.now second.entry.digests.now) (entries log.old)) (whole_memory K0.kept K1.kept m (slot_lists first.exit.0.now first.exit.1.0.now first.exit.1.1.0.now) (slot_lists second.exit.0.now second.exit.1.0.now second.exit.1.1.0.now) (entries log.new)) turns.now told.old told.new) (λ _. (slot_lists first.exit.0.now first.exit.1.0.now first.exit.1.1.0.now ≡ slot_lists first.entry.own.now first.entry.other.now first.entry.digests.now) × (slot_lists second.exit.0.now second.exit.1.0.now second.exit.1.1.0.now ≡ slot_lists second.entry.own.now second.entry.other.now second.entry.digests.now) × (log.new ≡ log.old) × (told.new ≡ told.old)) }
    ensures promise { MatchResult result (λ _. GoesAsPlain (setup (G.opening seed) G.next G.Input.idle G.Input.reads G.Input.code H0.guessed H1.guessed) match_number (opened (G.opening seed) match_number (slot_lists first.entry.own.now first.entry.other.now first.entry.digests.now) (slot_lists second.entry.own.now second.entry.other.now second.entry.digests.now) (entries log.old))) (λ _. Unit) }
{
    if !first.are_enough() {
        return Err(Refusal::BadFrame);
    }
    if !second.are_enough() {
        return Err(Refusal::BadFrame);
    }
    if told.len() < turns.len() {
        return Err(Refusal::BufferTooShort);
    }
    let Slots {
        own,
        other,
        digests,
    } = first;
    let Slots {
        own: own_1,
        other: other_1,
        digests: digests_1,
    } = second;
    let mut game = open_fronts(
        match_number,
        seed,
        own,
        other,
        digests,
        own_1,
        other_1,
        digests_1,
    );
    play_turns(
        &mut game, turns, own, other, digests, own_1, other_1, digests_1, log, told,
    );
    Ok(game)
}
