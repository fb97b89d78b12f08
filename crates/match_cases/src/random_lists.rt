// Whole lists of turns that look random, played at once.
use crate::calling::{BothLent, SLOTS, UNTOLD};
use crate::comparing::{same_match, same_memory};
use crate::fading::Fading;
use crate::plain_match::PlainMatch;
use crate::random_turns::Source;
use duel::state::Duel;
use interface::game::Game;
use interface::guess::GuessRule;
use interface::keeper::Keeper;
use keepers::guesses::{Hold, Still};
use keepers::snapshots::Snapshots;
use keepers::trails::Trails;
use match_engine::log::Record;
use play::playing::play;
use play::turns::{Told, Turn};
use speed::game::Speed;
use std::alloc::{AllocError, Global};
use std::process::Abort;
use std::test::Fail;

const RECORDS: usize = 160;

const MATCHES: u32 = 25;

const TURNS: u32 = 1_000;

// Turns, and what the plain match tells of them: two lists, since `play` takes the one and gives the other.
fn some_turns<G: Game, H0: GuessRule<G::Input>, H1: GuessRule<G::Input>>(
    plain: &mut PlainMatch<G, H0, H1>,
    source: &mut Source,
    turns: &mut Vec<Turn>,
    expected: &mut Vec<Told>,
) -> Result<(), AllocError> {
    for _ in 0..TURNS {
        let turn = source.next(plain);
        turns.push(turn)?;
        expected.push(plain.make(turn)?)?;
    }
    Ok(())
}

fn same_told(rt: &impl Abort, told: &[Told], expected: &[Told], seed: u32) {
    assert_eq!(rt; told.len(), expected.len());
    for (turns, (a, b)) in told.iter().zip(expected).enumerate() {
        assert_eq!(rt; a, b, "seed {seed}, after {turns} turns");
    }
}

// A list of 1,000 turns, on a match and on the plain match.
fn one_list<
    G: Game,
    K0: Keeper<G> + Drop,
    K1: Keeper<G> + Drop,
    H0: GuessRule<G::Input> + Drop,
    H1: GuessRule<G::Input> + Drop,
>(
    rt: &impl Abort,
    heap: Global,
    seed: u32,
    codes: u32,
    lent: &mut BothLent<G::Input>,
) -> Result<(), Fail> {
    let mut plain = PlainMatch::<G, H0, H1>::new(heap, seed, RECORDS);
    let mut turns = Vec::new(heap);
    let mut expected = Vec::new(heap);
    let mut source = Source::new(seed, codes);
    some_turns(&mut plain, &mut source, &mut turns, &mut expected)?;
    let mut told = vec![in heap; UNTOLD; turns.len()]?;
    let mut log = [Record::empty(); RECORDS];
    let first = lent.first.front(SLOTS, SLOTS, SLOTS);
    let second = lent.second.front(SLOTS, SLOTS, SLOTS);
    let game = play::<G, K0, K1, H0, H1>(
        7, seed, first, second, &mut log, &turns, &mut told,
    ).map_err(|why| Fail::new(why.number()))?;
    same_told(rt, &told, &expected, seed);
    same_match(rt, &game, &plain);
    same_memory(rt, lent, &log, &plain);
    Ok(())
}

// Lists of one game. What slots held before does not matter.
fn lists<
    G: Game,
    K0: Keeper<G> + Drop,
    K1: Keeper<G> + Drop,
    H0: GuessRule<G::Input> + Drop,
    H1: GuessRule<G::Input> + Drop,
>(rt: &impl Abort, heap: Global, codes: u32, lent: &mut BothLent<G::Input>) -> Result<(), Fail> {
    for seed in 0..MATCHES {
        one_list::<G, K0, K1, H0, H1>(rt, heap, seed, codes, lent)?;
    }
    Ok(())
}

#[test]
fn duel_lists(rt: HostRuntime) -> Result<(), Fail> {
    let mut lent = BothLent::new();
    lists::<Duel, Snapshots<Duel>, Trails<Duel>, Hold, Fading>(&rt, rt.alloc(), 16, &mut lent)
}

#[test]
fn speed_lists(rt: HostRuntime) -> Result<(), Fail> {
    let mut lent = BothLent::new();
    lists::<Speed, Trails<Speed>, Snapshots<Speed>, Still, Hold>(&rt, rt.alloc(), 13, &mut lent)
}
