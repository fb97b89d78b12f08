// The plain match: what a match answers, and what states its seats have, said without memory, bytes or keepers, and the
// laws that hold after any list of turns. specs/ has the definitions, and docs/ENGINE.md says them in words.
//
// No program runs this crate. Each public function states laws by its contract, for all states S and inputs I, and answers
// the number that they speak of. The bound of a law is asked of its number alone, which nothing else holds, so no type stands for it.
#![tactic(auto)]

ghost use Rattle.std.specs.Prelude.{◌≡◌, ◌+◌, ◌≤◌};
ghost use Rattle.interface.specs.Limits.{match_length, most_lead, most_listed};
ghost use Rattle.plain.specs.Laws.{CountsHold, CodesWithin, ConfirmedAgree, ListsLast, StatesKept, ReplaysWithin, WelcomeWithin, ReportsAgree, PressesGoOn};

use interface::limits::{MATCH_LENGTH, MOST_LEAD, MOST_LISTED};

// The counts of the seats stay close to one another, and 13 is never answered. Answers how many codes a datagram of a
// match carries at most.
pub fn counts_stay_close<S, I>() -> u32
    ensures counts { CountsHold S I }
    ensures codes { CodesWithin S I result }
    ensures answer { result ≡ most_lead + most_lead }
{
    let most = 16;
    count_laws::<S, I>(most);
    most
}

// The laws, for the number that is answered: it has no type of its own, since the answer is what a law speaks of. So with those below.
fn count_laws<S, I>(most: u32)
    requires { most_lead + most_lead ≤ most }
    ensures counts { CountsHold S I }
    ensures codes { CodesWithin S I most }
{}

// A confirmed state is the true one: it never changes, and both seats have the same. Answers how many states, from the
// newest down, a seat lists.
pub fn confirmed_states_agree<S, I>() -> usize
    ensures agree { ConfirmedAgree S I }
    ensures listed { ListsLast S I result }
    ensures answer { result ≡ most_listed }
{
    let listed = MOST_LISTED;
    agreement_laws::<S, I>(listed);
    listed
}

fn agreement_laws<S, I>(most: usize)
    requires { most ≤ most_listed }
    ensures agree { ConfirmedAgree S I }
    ensures listed { ListsLast S I most }
{}

// Which states a turn keeps, what a press adds, and from where a take replays. Answers how many frames a turn replays at
// most.
pub fn turns_keep_states<S, I>() -> u32
    ensures kept { StatesKept S I }
    ensures replayed { ReplaysWithin S I result }
    ensures answer { result ≡ most_lead }
{
    let deepest = MOST_LEAD;
    state_laws::<S, I>(deepest);
    deepest
}

fn state_laws<S, I>(most: u32)
    requires { most_lead ≤ most }
    ensures kept { StatesKept S I }
    ensures replayed { ReplaysWithin S I most }
{}

// Every datagram of the other seat passes the checks of a take, whenever it is taken, and the state that it reports on is the
// taking seat's own. Answers how far past the taking seat's P it ends at most.
pub fn datagrams_are_welcome<S, I>() -> u32
    ensures welcome { WelcomeWithin S I result }
    ensures answer { result ≡ most_lead }
    ensures reports { ReportsAgree S I }
{
    let ahead = MOST_LEAD;
    welcome_laws::<S, I>(ahead);
    ahead
}

fn welcome_laws<S, I>(most: u32)
    requires { most_lead ≤ most }
    ensures welcome { WelcomeWithin S I most }
    ensures reports { ReportsAgree S I }
{}

// A seat that is not ahead, and has the other's latest datagram, is not refused a press. Answers the frame from which
// that no longer holds.
pub fn presses_go_on<S, I>() -> u32
    ensures presses { PressesGoOn S I result }
    ensures answer { result ≡ match_length }
{
    let end = MATCH_LENGTH;
    press_laws::<S, I>(end);
    end
}

fn press_laws<S, I>(end: u32)
    requires { end ≤ match_length }
    ensures { PressesGoOn S I end }
{}
