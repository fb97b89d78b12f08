// A match and the plain match, compared.
use crate::calling::{BothLent, Lent, SLOTS};
use crate::plain_match::{Place, PlainMatch};
use crate::plain_seat::PlainSeat;
use interface::game::Game;
use interface::guess::GuessRule;
use interface::input::InputKind;
use interface::keeper::Keeper;
use match_engine::log::Record;
use match_engine::state::Match;
use seat::state::Seat;
use std::process::Abort;

// The sum of (2k + 1) × word k.
fn digest_of<G: Game>(state: &G) -> u32 {
    (0..G::W).fold(0u32, |sum, k| {
        let weight = k.wrapping_mul(2).wrapping_add(1);
        sum.wrapping_add(weight.wrapping_mul(state.word(k).unwrap_or(0)))
    })
}

// Whether a state shown by a seat has the words of a plain one.
fn same_words<G: Game, K: Keeper<G>, H: GuessRule<G::Input>>(
    seat: &Seat<G, K, H>,
    state: &G,
) -> bool {
    (0..G::W).all(|k| seat.word(k) == state.word(k)) && seat.word(G::W).is_none()
}

// The counts and the newest state of a seat.
fn same_seat<
    G: Game,
    K: Keeper<G>,
    H: GuessRule<G::Input>,
    H0: GuessRule<G::Input>,
    H1: GuessRule<G::Input>,
>(rt: &impl Abort, seat: &Seat<G, K, H>, plain: &PlainMatch<G, H0, H1>, second: bool) {
    let place = plain.place();
    let own = plain.seat(second);
    assert_eq!(rt;
        (
            seat.played(),
            seat.known(),
            seat.acknowledged(),
            seat.confirmed()
        ),
        (own.played(), own.known, own.acknowledged, own.confirmed()),
        "counts, second seat: {second}, {place:?}"
    );
    assert!(rt;
        !seat.has_parted(),
        "parted, second seat: {second}, {place:?}"
    );
    let state = plain.state(second, own.played());
    assert!(rt;
        same_words(seat, &state),
        "words, second seat: {second}, {place:?}"
    );
    assert_eq!(rt;
        seat.digest(),
        digest_of(&state),
        "digest, second seat: {second}, {place:?}"
    );
}

// Both seats of a match, and how many datagrams were sent.
pub fn same_match<
    G: Game,
    K0: Keeper<G>,
    K1: Keeper<G>,
    H0: GuessRule<G::Input>,
    H1: GuessRule<G::Input>,
>(rt: &impl Abort, game: &Match<G, K0, K1, H0, H1>, plain: &PlainMatch<G, H0, H1>) {
    same_seat(rt, game.first(), plain, false);
    same_seat(rt, game.second(), plain, true);
    let place = plain.place();
    assert_eq!(rt; game.sent(), plain.notes.len(), "datagrams sent, {place:?}");
}

// The inputs that slots hold of a seat, up to a frame: the last 32.
fn same_inputs<I: InputKind>(
    rt: &impl Abort,
    slots: &[I; SLOTS],
    seat: &PlainSeat<I>,
    next: u32,
    place: Place,
) {
    // By frame: its number names its slot.
    for frame in next.saturating_sub(32)..next {
        let held = slots[frame as usize % 32];
        assert_eq!(rt;
            held.code(),
            seat.input(frame).code(),
            "held input {frame}, {place:?}"
        );
    }
}

// A seat's slots: inputs of both seats, the digests of the last 32 plain states, and the true one of the confirmed state C.
fn same_slots<G: Game, H0: GuessRule<G::Input>, H1: GuessRule<G::Input>>(
    rt: &impl Abort,
    lent: &Lent<G::Input>,
    plain: &PlainMatch<G, H0, H1>,
    second: bool,
) {
    let place = plain.place();
    let own = plain.seat(second);
    same_inputs(rt, &lent.own, own, own.played(), place);
    same_inputs(rt, &lent.other, plain.seat(!second), own.known, place);
    let played = own.played();
    // By frame, as above.
    for n in played.saturating_sub(31)..=played {
        assert_eq!(rt;
            lent.digests[n as usize % 32],
            digest_of(&plain.state(second, n)),
            "held digest {n}, second seat: {second}, {place:?}"
        );
    }
    let confirmed = own.confirmed();
    assert_eq!(rt;
        lent.digests[confirmed as usize % 32],
        digest_of(&plain.true_state(confirmed)),
        "confirmed, second seat: {second}, {place:?}"
    );
}

// The slots of both seats, and the log: each record has its sender, and the length that its note gives.
pub fn same_memory<G: Game, H0: GuessRule<G::Input>, H1: GuessRule<G::Input>>(
    rt: &impl Abort,
    lent: &BothLent<G::Input>,
    log: &[Record],
    plain: &PlainMatch<G, H0, H1>,
) {
    same_slots(rt, &lent.first, plain, false);
    same_slots(rt, &lent.second, plain, true);
    let place = plain.place();
    for (record, note) in log.iter().zip(&plain.notes) {
        let codes = note.played.saturating_sub(note.acknowledged);
        assert_eq!(rt;
            (record.sender, record.len),
            (note.second, codes.saturating_mul(2).saturating_add(21)),
            "record, {place:?}"
        );
    }
}
