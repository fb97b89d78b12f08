// The two keepers over several games, and the two guess rules.
use crate::counter_game::{Counter, Press};
use crate::keeper_scripts::{Move, agree};
use duel::input::{Direction, DuelInput};
use duel::state::Duel;
use interface::game::Game;
use interface::guess::GuessRule;
use interface::input::InputKind;
use interface::keeper::Keeper;
use keepers::guesses::{Hold, Still};
use keepers::replaying::{go_back_and_replay, pay_off};
use keepers::snapshots::Snapshots;
use keepers::trails::Trails;
use speed::game::Speed;
use speed::moves::{Move as CardMove, Pile, Slot};
use std::process::Abort;
use std::test::*;

// After some frames, going back past what is listed is 15 and changes nothing, and going back to the oldest listed state is not refused.
fn reaches<K: Keeper<Counter> + Drop>(
    rt: &impl Abort,
    frames: u32,
    listed: u32,
) -> Result<(), Fail> {
    let mut keeper = K::open(5);
    for _ in 0..frames {
        keeper.advance(Press::Push, Press::Tap);
    }
    let before = keeper.digest();
    match keeper.go_back(listed) {
        Ok(debt) => {
            pay_off(&mut keeper, debt, Press::Rest, Press::Rest);
            return Err(Fail::new("went back past the list"));
        }
        Err(refusal) => assert_eq!(rt; refusal.number(), 15),
    }
    assert_eq!(rt; keeper.digest(), before);
    let Ok(debt) = keeper.go_back(listed - 1) else {
        return Err(Fail::new("refused within the list"));
    };
    let owed = debt.owed();
    pay_off(&mut keeper, debt, Press::Push, Press::Tap);
    assert_eq!(rt; owed, listed - 1);
    assert_eq!(rt; keeper.digest(), before);
    Ok(())
}

#[test]
fn going_back_past_the_list(rt: HostRuntime) -> Result<(), Fail> {
    for frames in [0, 1, 7, 8, 9, 20] {
        let listed = if frames < 8 { frames + 1 } else { 9 };
        reaches::<Snapshots<Counter>>(&rt, frames, listed)?;
        reaches::<Trails<Counter>>(&rt, frames, listed)?;
    }
    Ok(())
}

// Whether both keepers agree on a script of a game, with three of its inputs: frames ahead, and going back 1, 3, 8 and 9.
// A macro, since of an array of a type parameter's inputs it is not proved that it fits the memory.
macro_rules! keepers_agree {
    ($game:ty, $one:expr, $two:expr, $three:expr) => {{
        let ahead = Move::Ahead($one, $two);
        let other = Move::Ahead($two, $three);
        let back1 = Move::Again(1, $three, $two);
        let back3 = Move::Again(3, $one, $one);
        let back8 = Move::Again(8, $two, $one);
        let back9 = Move::Again(9, $one, $three);
        let script = [
            back1, ahead, back1, back3, other, ahead, back3, other, back8, ahead, other, back3, ahead, ahead, other,
            ahead, other, other, ahead, back8, back9, other, back8,
        ];
        agree::<$game, Snapshots<$game>, Trails<$game>>(0x0102_0304, &script)
    }};
}

#[test]
fn both_keepers_list_the_same(rt: HostRuntime) -> Result<(), Fail> {
    assert!(rt;
        keepers_agree!(Counter, Press::Tap, Press::Push, Press::Rest),
        "counter"
    );
    let right = DuelInput {
        steer: Some(Direction::Right),
        fire: true,
    };
    let up = DuelInput {
        steer: Some(Direction::Up),
        fire: false,
    };
    let fire = DuelInput {
        steer: None,
        fire: true,
    };
    assert!(rt; keepers_agree!(Duel, right, up, fire), "duel");
    // With this seed cards are played by both seats, and sides are turned.
    let right = CardMove::Play {
        slot: Slot::Third,
        pile: Pile::Right,
    };
    let left = CardMove::Play {
        slot: Slot::First,
        pile: Pile::Left,
    };
    assert!(rt;
        keepers_agree!(Speed, CardMove::CallTurn, right, left),
        "speed"
    );
    Ok(())
}

// Three frames by hand: total 4 × 1 + 2 × 2 + 1 = 9, 4 × 9 + 1 = 37, 4 × 37 + 2 × 1 = 150.
// Then the last two again with other inputs: 4 × 9 + 2 × 2 + 2 = 42, 4 × 42 + 1 = 169.
fn by_hand<K: Keeper<Counter> + Drop>(rt: &impl Abort) -> Result<(), Fail> {
    let mut keeper = K::open(1);
    keeper.advance(Press::Push, Press::Tap);
    keeper.advance(Press::Rest, Press::Tap);
    keeper.advance(Press::Tap, Press::Rest);
    assert_eq!(rt; keeper.word(0), Some(150));
    assert_eq!(rt; keeper.word(1), Some(3));
    assert_eq!(rt; keeper.word(2), None);
    assert_eq!(rt; keeper.digest(), 159);
    assert!(rt;
        go_back_and_replay(
            &mut keeper,
            &[(Press::Push, Press::Push), (Press::Rest, Press::Tap)],
        )
        .is_ok()
    );
    assert_eq!(rt; keeper.word(0), Some(169));
    assert!(rt; go_back_and_replay(&mut keeper, &[(Press::Rest, Press::Rest); 4]).is_err());
    assert_eq!(rt; keeper.word(0), Some(169));
    Ok(())
}

#[test]
fn three_frames_by_hand(rt: HostRuntime) -> Result<(), Fail> {
    by_hand::<Snapshots<Counter>>(&rt)?;
    by_hand::<Trails<Counter>>(&rt)
}

#[test]
fn guesses(rt: HostRuntime) -> Result<(), Fail> {
    for gap in [1, 2, 8] {
        assert_eq!(rt; <Hold as GuessRule<_>>::guess(Press::Push, gap).code(), 2);
        assert_eq!(rt; <Still as GuessRule<_>>::guess(Press::Push, gap).code(), 0);
    }
    Ok(())
}
