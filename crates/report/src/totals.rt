// The frames that a seat has replayed in all.
ghost use Rattle.std.specs.Prelude.{◌≡◌, map};
ghost use Rattle.std.specs.Bool.{beq};
ghost use Rattle.report.specs.Totals.{total};

use play::turns::Told;
use trace::forms::TraceTurn;

// Whether a turn is the seat's.
fn is_of(turn: &TraceTurn, seat: bool) -> bool
    ensures { result ≡ beq turn.now.seat seat }
{
    turn.seat == seat
}

// The sum over the seat's turns.
pub(crate) fn total_of(turns: &[TraceTurn], lines: &[Told], seat: bool) -> u128
    ensures { result ≡ total seat turns.now (map (λ line. line.frames) lines.now) }
{
    turns
        .iter()
        .zip(lines)
        .filter(|(turn, _)| is_of(turn, seat))
        .map(|(_, line)| u128::from(line.frames))
        .sum()
}
