// The test of lawfulness: one pass over the order of the pack and one over the cards in play, each with a set of cards.
ghost use Rattle.std.specs.Prelude.{◌≡◌, ◌-◌, ◌≤◌, ◌&&◌, take, drop, Some};
ghost use Rattle.std.specs.List.{between};
ghost use Rattle.speed.specs.Lawful.{in_play, limits, within, permutation, none_twice, lawful_state};
ghost use Rattle.speed.specs.Marks.{with_card, marked};

use crate::places::{DRAWS, HANDS, PARITY, SIDES, TOPS, Words};

// The highest number that each word from 52 on may have: hands, draws, sides, tops, parity.
const LIMITS: [u32; 16] = [52, 52, 52, 52, 52, 52, 52, 52, 52, 52, 15, 15, 5, 51, 51, 1];

// The set of all 52 cards.
const ALL_CARDS: u64 = 0x000f_ffff_ffff_ffff;

// A set of cards, bit c for card c, with one card more, or nothing where it was there already. Numbers from 52 on are no cards.
fn add(seen: u64, card: u32) -> Option<u64>
    ensures { result ≡ with_card (Some seen) card }
{
    if card >= 52 {
        return Some(seen);
    }
    if (seen >> card) & 1 == 1 {
        return None;
    }
    Some(seen | 1 << card)
}

// A set with all these cards, or nothing where one comes twice.
fn mark(cards: &[u32], mut seen: u64) -> Option<u64>
    ensures { result ≡ marked (Some seen) cards.now }
{
    for card in cards {
        seen = add(seen, *card)?;
    }
    Some(seen)
}

// The last `count` words before place `end`.
fn last(words: &Words, count: u32, end: usize) -> &[u32]
    requires { end ≤ 68 }
    ensures { result.now ≡ between (end - count) end words.now }
{
    &words[end.saturating_sub(count as usize)..end]
}

// The set of the cards in play, or nothing where one is in play twice.
fn mark_in_play(words: &Words) -> Option<u64>
    ensures { result ≡ marked (Some 0) (in_play words.now) }
{
    let hands = mark(&words[HANDS..DRAWS], 0)?;
    let first = mark(last(words, words[DRAWS], 15), hands)?;
    let second = mark(last(words, words[DRAWS + 1], 30), first)?;
    let left = mark(last(words, words[SIDES], 45), second)?;
    let right = mark(last(words, words[SIDES], 50), left)?;
    mark(&words[TOPS..PARITY], right)
}

// Each card of the pack stands in the order once.
fn is_permutation(words: &Words) -> bool
    ensures { result ≡ permutation (take 52 words.now) }
{
    mark(&words[..HANDS], 0) == Some(ALL_CARDS)
}

// Each word from 52 on is within its limit.
fn is_in_range(words: &Words) -> bool
    ensures { result ≡ within limits (drop 52 words.now) }
{
    words[HANDS..]
        .iter()
        .zip(&LIMITS)
        .all(|(word, limit)| *word <= *limit)
}

// Whether ranges are kept and no card is in play twice. With an order that is a permutation, the state is lawful.
pub(crate) fn is_playable(words: &Words) -> bool
    ensures { result ≡ (within limits (drop 52 words.now) && none_twice (in_play words.now)) }
{
    is_in_range(words) && mark_in_play(words).is_some()
}

#[tactic(auto, unfolding(crate::specs::Lawful::lawful_state))]
pub(crate) fn is_lawful(words: &Words) -> bool
    ensures { result ≡ lawful_state words.now }
{
    is_permutation(words) && is_playable(words)
}
