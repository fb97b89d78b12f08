// What a line is.
ghost use Rattle.std.specs.Prelude.{◌≡◌, [], ◌∷◌, MatchResult};
ghost use Rattle.trace.specs.declared.forms.TraceCall.{TraceCall};
ghost use Rattle.trace.specs.Lines.{found, seat_and_number, verdict_of, verdict, game_in, first_of};
ghost use Rattle.trace.specs.Tokens.{place, seat_in, words};
ghost use Rattle.trace.specs.Meanings.{piece};
ghost use Rattle.trace.specs.Kept.{kept};

use crate::forms::{First, GameName, TraceCall, TraceTurn};
use crate::part::Part;
use crate::token::Token;
use crate::words::Words;

// Why a line after the first is none.
#[derive(Clone, Copy, Debug)]
pub(crate) enum Mistake {
    // No such first word with so many words.
    Misshapen,
    // The place of the first word that is no such number.
    BadNumber(usize),
}

// The seat that the word names.
fn seat_of(word: Token) -> Result<bool, Mistake>
    ensures { result ≡ found (place (kept word.entry)) (seat_in (kept word.entry)) }
{
    word.seat().ok_or(Mistake::BadNumber(word.place()))
}

// A seat and a number of 16 bits, or the place of the first that is none.
fn seat_and_number(seat: Token, number: Token) -> Result<(bool, u16), Mistake>
    ensures { result ≡ seat_and_number (kept seat.entry) (kept number.entry) }
{
    Ok((
        seat_of(seat)?,
        number.short().ok_or(Mistake::BadNumber(number.place()))?,
    ))
}

// A turn whose call has a number.
fn numbered<F: Fn(u16) -> TraceCall>(
    call: F,
    seat: Token,
    number: Token,
) -> Result<Option<TraceTurn>, Mistake>
    requires { F.IsAlwaysCallable call }
    ensures { MatchResult (seat_and_number (kept seat.entry) (kept number.entry)) (λ x. (c : TraceCall) × F.post call x.1 c × (result ≡ Ok (Some (record { seat = x.0; call = c })))) (λ m. result ≡ Err m) }
{
    let (seat, number) = seat_and_number(seat, number)?;
    Ok(Some(TraceTurn {
        seat,
        call: call(number),
    }))
}

// What a line of two words is.
fn judge_two(name: Token, second: Token) -> Result<Option<TraceTurn>, Mistake>
    ensures { result ≡ verdict_of (kept name.entry ∷ kept second.entry ∷ []) }
{
    if !name.is(b"send") {
        return Err(Mistake::Misshapen);
    }
    Ok(Some(TraceTurn {
        seat: seat_of(second)?,
        call: TraceCall::Send,
    }))
}

// What a line of three words is.
fn judge_three(name: Token, seat: Token, number: Token) -> Result<Option<TraceTurn>, Mistake>
    ensures { result ≡ verdict_of (kept name.entry ∷ kept seat.entry ∷ kept number.entry ∷ []) }
{
    if name.is(b"press") {
        numbered(TraceCall::Press, seat, number)
    } else if name.is(b"take") {
        numbered(TraceCall::Take, seat, number)
    } else {
        Err(Mistake::Misshapen)
    }
}

// What a line after the first is: its turn, or nothing where it is `end`.
pub(crate) fn judge(line: Part) -> Result<Option<TraceTurn>, Mistake>
    ensures { result ≡ verdict (piece line.entry) }
{
    let mut words = Words::new(line);
    let name = words.next().ok_or(Mistake::Misshapen)?;
    match (words.next(), words.next(), words.next()) {
        (None, _, _) if name.is(b"end") => Ok(None),
        (Some(seat), None, _) => judge_two(name, seat),
        (Some(seat), Some(number), None) => judge_three(name, seat, number),
        _ => Err(Mistake::Misshapen),
    }
}

// The game that the word names. No TryFrom: an error type would have nothing to say.
fn game(name: Token) -> Option<GameName>
    ensures { result ≡ game_in (kept name.entry) }
{
    if name.is(b"duel") {
        Some(GameName::Duel)
    } else if name.is(b"speed") {
        Some(GameName::Speed)
    } else {
        None
    }
}

// What the first line says, or nothing where it is wrong.
pub(crate) fn first_line(line: Part) -> Option<First>
    ensures { result ≡ first_of (words (piece line.entry)) }
{
    let mut words = Words::new(line);
    let mark = words.next()?;
    let version = words.next()?;
    let name = words.next()?;
    let number = words.next()?;
    let seed = words.next()?;
    if words.next().is_some() || !mark.is(b"RBT") || !version.is(b"1") {
        return None;
    }
    Some(First {
        game: game(name)?,
        match_number: number.short()?,
        seed: seed.number()?,
    })
}
