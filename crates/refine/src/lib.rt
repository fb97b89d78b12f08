// A match with memory is the plain match: what it means that seats, slots and log are as a list of turns left them, what every
// call makes of them, and the laws of what the keepers list. specs/ has the definitions.
//
// No program runs this crate. Each public function states laws by its contract, for all inputs I, and answers the number that
// they speak of.
#![tactic(auto)]

ghost use Rattle.std.specs.Prelude.{◌≡◌, ◌≤◌};
ghost use Rattle.interface.specs.Limits.{match_length, most_lead, most_listed, queue_slots};
ghost use Rattle.refine.specs.Laws.{OpeningsStand, CallsGoOn, RefusalsKeep, RunsAgree, ListsTheTruth, ListsLast, PressesGoOn};
ghost use Rattle.refine.specs.Plays.{PlaysStand};
ghost use Rattle.refine.specs.Matches.{MatchesStand};

use interface::limits::{MATCH_LENGTH, MOST_LEAD, MOST_LISTED, QUEUE_SLOTS};

// A match that is just opened stands at no turns, and every list of calls on it is the plain match's run. Answers how many
// slots each queue has.
pub fn openings_stand<I>() -> usize
    ensures stand { OpeningsStand I result }
    ensures play { PlaysStand I result }
    ensures more { MatchesStand I result }
    ensures answer { result ≡ queue_slots }
{
    let slots = QUEUE_SLOTS;
    opening_laws::<I>(slots);
    slots
}

// The laws, for the number that is answered: it has no type of its own, since the answer is what a law speaks of. So with those below.
fn opening_laws<I>(slots: usize)
    requires { slots ≡ queue_slots }
    ensures stand { OpeningsStand I slots }
    ensures play { PlaysStand I slots }
    ensures more { MatchesStand I slots }
{}

// Every call of a match that stands is answered as the plain match answers, and leaves a match that stands; and any call that
// is refused leaves all as it was. Answers how many frames a call replays at most.
pub fn calls_go_on<I>() -> u32
    ensures standing { CallsGoOn I result }
    ensures refused { RefusalsKeep I }
    ensures answer { result ≡ most_lead }
{
    let deepest = MOST_LEAD;
    call_laws::<I>(deepest);
    deepest
}

fn call_laws<I>(most: u32)
    requires { most_lead ≤ most }
    ensures standing { CallsGoOn I most }
    ensures refused { RefusalsKeep I }
{}

// What keepers list as confirmed never changes, is the same at both seats, and is the truth. Answers how many states, from the newest
// down, a keeper lists.
pub fn keepers_agree<I>() -> usize
    ensures agree { RunsAgree I }
    ensures truth { ListsTheTruth I }
    ensures listed { ListsLast I result }
    ensures answer { result ≡ most_listed }
{
    let listed = MOST_LISTED;
    keeper_laws::<I>(listed);
    listed
}

fn keeper_laws<I>(most: usize)
    requires { most ≤ most_listed }
    ensures agree { RunsAgree I }
    ensures truth { ListsTheTruth I }
    ensures listed { ListsLast I most }
{}

// A seat that is not ahead, and has the other's latest datagram, is not refused a press. Answers the frame from which
// that no longer holds.
pub fn presses_go_on<I>() -> u32
    ensures presses { PressesGoOn I result }
    ensures answer { result ≡ match_length }
{
    let end = MATCH_LENGTH;
    press_laws::<I>(end);
    end
}

fn press_laws<I>(end: u32)
    requires { end ≤ match_length }
    ensures { PressesGoOn I end }
{}
