// Matches of turns that look random, made on a match and on the plain match.
use crate::calling::{BothLent, call, open};
use crate::comparing::{same_match, same_memory};
use crate::fading::Fading;
use crate::plain_match::PlainMatch;
use crate::random_turns::{PHASE, Source};
use duel::state::Duel;
use interface::game::Game;
use interface::guess::GuessRule;
use interface::keeper::Keeper;
use keepers::guesses::{Hold, Still};
use keepers::snapshots::Snapshots;
use keepers::trails::Trails;
use match_engine::log::Record;
use match_engine::state::Match;
use play::turns::Told;
use speed::game::Speed;
use std::alloc::Global;
use std::process::Abort;
use std::test::Fail;

const RECORDS: usize = 360;

const MATCHES: u32 = 40;

const TURNS: u32 = 2_000;

// How often something came in all matches.
#[derive(Clone, Copy)]
struct Tally {
    // Each code.
    codes: [u32; 32],
    // Each number of frames replayed, up to 8.
    depths: [u32; 9],
    // The most frames that a seat played, and the least in any match.
    most: u32,
    least: u32,
}

impl Tally {
    fn new() -> Self {
        Tally {
            codes: [0; 32],
            depths: [0; 9],
            most: 0,
            least: u32::MAX,
        }
    }

    fn count(&mut self, told: Told) -> Result<(), Fail> {
        let code = told.code as usize;
        let depth = told.frames as usize;
        if code >= self.codes.len() || depth >= self.depths.len() {
            return Err(Fail::new("code or depth"));
        }
        self.codes[code] = self.codes[code].saturating_add(1);
        self.depths[depth] = self.depths[depth].saturating_add(1);
        self.most = self.most.max(told.played);
        Ok(())
    }

    // All the answers that a match can give came, and rollbacks of each depth, and the matches went on.
    fn came_all(&self, rt: &impl Abort) {
        for code in [0, 5, 12, 17, 18, 20, 21] {
            assert!(rt; self.codes[code] > 20, "code {code}");
        }
        for (depth, times) in self.depths.iter().enumerate().skip(1) {
            assert!(rt; *times > 20, "depth {depth}");
        }
        assert!(rt; self.most > 150 && self.least > 60, "frames played");
    }
}

// Makes 2,000 turns both ways on an open match, and compares after each.
fn make_turns<
    G: Game,
    K0: Keeper<G>,
    K1: Keeper<G>,
    H0: GuessRule<G::Input>,
    H1: GuessRule<G::Input>,
>(
    rt: &impl Abort,
    game: &mut Match<G, K0, K1, H0, H1>,
    plain: &mut PlainMatch<G, H0, H1>,
    source: &mut Source,
    lent: &mut BothLent<G::Input>,
    tally: &mut Tally,
) -> Result<(), Fail> {
    let mut log = [Record::empty(); RECORDS];
    for i in 0..TURNS {
        let turn = source.next(plain);
        let told = plain.make(turn)?;
        let place = plain.place();
        let answer = call(game, turn, lent, &mut log);
        assert_eq!(rt; answer, (told.code, told.frames), "{place:?}");
        same_match(rt, game, plain);
        tally.count(told)?;
        if i % PHASE == 0 {
            same_memory(rt, lent, &log, plain);
        }
    }
    Ok(())
}

// A match of 2,000 turns with codes mostly below `codes`, on a match and on the plain match.
fn one_match<
    G: Game,
    K0: Keeper<G> + Drop,
    K1: Keeper<G> + Drop,
    H0: GuessRule<G::Input> + Drop,
    H1: GuessRule<G::Input> + Drop,
>(
    rt: &impl Abort,
    heap: Global,
    seed: u32,
    codes: u32,
    lent: &mut BothLent<G::Input>,
    tally: &mut Tally,
) -> Result<(), Fail> {
    let mut game = open::<G, K0, K1, H0, H1>(seed, lent)?;
    let mut plain = PlainMatch::new(heap, seed, RECORDS);
    let mut source = Source::new(seed, codes);
    make_turns(rt, &mut game, &mut plain, &mut source, lent, tally)?;
    for second in [false, true] {
        tally.least = tally.least.min(plain.seat(second).played());
    }
    Ok(())
}

// Matches of one game with two keepers and two guess rules, from a seed on. What slots held before does not matter.
fn matches<
    G: Game,
    K0: Keeper<G> + Drop,
    K1: Keeper<G> + Drop,
    H0: GuessRule<G::Input> + Drop,
    H1: GuessRule<G::Input> + Drop,
>(
    rt: &impl Abort,
    heap: Global,
    seed: u32,
    codes: u32,
    lent: &mut BothLent<G::Input>,
) -> Result<(), Fail> {
    let mut tally = Tally::new();
    for seed in seed..seed.saturating_add(MATCHES) {
        one_match::<G, K0, K1, H0, H1>(rt, heap, seed, codes, lent, &mut tally)?;
    }
    tally.came_all(rt);
    Ok(())
}

#[test]
fn duel_unlike(rt: HostRuntime) -> Result<(), Fail> {
    let mut lent = BothLent::new();
    matches::<Duel, Snapshots<Duel>, Trails<Duel>, Hold, Still>(&rt, rt.alloc(), 0, 16, &mut lent)
}

#[test]
fn duel_other_way_round(rt: HostRuntime) -> Result<(), Fail> {
    let mut lent = BothLent::new();
    matches::<Duel, Trails<Duel>, Snapshots<Duel>, Still, Hold>(
        &rt,
        rt.alloc(),
        1000,
        16,
        &mut lent,
    )
}

#[test]
fn duel_alike(rt: HostRuntime) -> Result<(), Fail> {
    let mut lent = BothLent::new();
    matches::<Duel, Snapshots<Duel>, Snapshots<Duel>, Fading, Fading>(
        &rt,
        rt.alloc(),
        2000,
        16,
        &mut lent,
    )
}

#[test]
fn speed_unlike(rt: HostRuntime) -> Result<(), Fail> {
    let mut lent = BothLent::new();
    matches::<Speed, Snapshots<Speed>, Trails<Speed>, Hold, Still>(
        &rt,
        rt.alloc(),
        3000,
        13,
        &mut lent,
    )
}

#[test]
fn speed_other_way_round(rt: HostRuntime) -> Result<(), Fail> {
    let mut lent = BothLent::new();
    matches::<Speed, Trails<Speed>, Snapshots<Speed>, Fading, Hold>(
        &rt,
        rt.alloc(),
        4000,
        13,
        &mut lent,
    )
}

#[test]
fn speed_alike(rt: HostRuntime) -> Result<(), Fail> {
    let mut lent = BothLent::new();
    matches::<Speed, Trails<Speed>, Trails<Speed>, Still, Still>(
        &rt,
        rt.alloc(),
        5000,
        13,
        &mut lent,
    )
}
