// The pack of 52 cards: shuffled by a seed, and dealt.
ghost use Rattle.std.specs.Prelude.{◌≡◌, true};
ghost use Rattle.speed.specs.Lawful.{permutation};
ghost use Rattle.speed.specs.Opening.{new_pack, order_of, dealt};

use crate::places::{DRAWS, HANDS, Words};

// Cards 0 to 51 in order.
fn sorted_pack() -> [u32; 52]
    ensures { result ≡ new_pack }
{
    std::array::from_fn(|card| card as u32)
}

// The pack shuffled: each card from the last on is exchanged with one up to it that the generator picks.
pub(crate) fn shuffled_pack(seed: u32) -> [u32; 52]
    ensures order { result ≡ order_of seed }
    ensures permutation { permutation result ≡ true }
{
    let mut order = sorted_pack();
    let mut z = seed;
    // By number, since it is the place that is exchanged.
    for i in (1..52).rev() {
        z = z.wrapping_mul(1_664_525).wrapping_add(1_013_904_223);
        order.swap(i, (z / 65_536) as usize % (i + 1));
    }
    order
}

// The opening with this order of the pack: the order, both hands, draws, sides, tops and parity.
pub(crate) fn deal(order: &[u32; 52]) -> Words
    ensures { result ≡ dealt order.now }
{
    let mut words = [0; 68];
    words[..HANDS].copy_from_slice(order);
    words[HANDS..DRAWS].copy_from_slice(&order[30..40]);
    words[DRAWS..].copy_from_slice(&[15, 15, 5, order[50], order[51], 0]);
    words
}
