// What a match holds.
use seat::state::Seat;

#[derive(Drop)]
pub struct Match<G, K0, K1, H0, H1> {
    pub(crate) first: Seat<G, K0, H0>,
    pub(crate) second: Seat<G, K1, H1>,
    // How many datagrams were sent.
    pub(crate) sent: usize,
}
