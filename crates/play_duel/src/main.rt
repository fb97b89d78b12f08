// Plays a short Duel, takes its last frames back by their trails, and draws the grid.
#![tactic(auto)]

use duel::board::{Board, Cell, SIDE};
use duel::input::DuelInput;
use duel::state::Duel;
use interface::digest::digest;
use interface::game::{Game, Trail};
use interface::input::InputKind;
use std::{fmt, io};

// The walls of the opening come from the seed.
const SEED: u32 = 0x0018_1800;

// The codes of both seats, frame by frame: direction + 8 × fire.
const SCRIPT: [(u16, u16); 10] = [
    (2, 1),
    (2, 1),
    (2, 1),
    (3, 1),
    (0, 1),
    (0, 1),
    (2, 1),
    (8, 4),
    (8, 12),
    (10, 0),
];

// How many frames are taken back at the end.
const TAKEN_BACK: usize = 3;

// The state before a frame, and the trail that leads back to it.
#[derive(Clone, Copy)]
struct Played {
    before: Duel,
    trail: Trail,
}

// A state, printed as its words, each after a space, and its digest.
#[derive(Clone, Copy)]
struct State(Duel);

impl fmt::Display for State {
    fn fmt<W: fmt::Write>(&self, f: &mut fmt::Formatter<W>) -> fmt::Result {
        for word in self.0.view().words() {
            write!(f, " {word}")?;
        }
        write!(f, ", digest {}", digest(&self.0))
    }
}

// A board, printed as its grid and its scores.
#[derive(Clone, Copy)]
struct Drawing(Board);

impl fmt::Display for Drawing {
    fn fmt<W: fmt::Write>(&self, f: &mut fmt::Formatter<W>) -> fmt::Result {
        let Board {
            first,
            second,
            walls,
        } = self.0;
        for row in 0..SIDE {
            for column in 0..SIDE {
                let cell = Cell { column, row };
                let mark = if cell == first.cell {
                    '0'
                } else if cell == second.cell {
                    '1'
                } else if walls.has(cell) {
                    '#'
                } else {
                    '.'
                };
                write!(f, " {mark}")?;
            }
            writeln!(f)?;
        }
        write!(
            f,
            "seat 0 has {}, seat 1 has {}; # is a wall",
            first.score, second.score
        )
    }
}

fn play(rt: &HostRuntime, duel: &mut Duel, played: &mut Vec<Played>) -> io::Result<()> {
    for (first, second) in SCRIPT {
        let (Some(one), Some(two)) = (DuelInput::read(first), DuelInput::read(second)) else {
            println!(rt; "codes {first} and {second} do not both read")?;
            continue;
        };
        let frame = played.len();
        let before = *duel;
        let trail = duel.step(one, two);
        played.push(Played { before, trail })?;
        println!(rt;
            "frame {frame}, codes {first} and {second}:{}",
            State(*duel)
        )?;
    }
    Ok(())
}

fn take_back(rt: &HostRuntime, duel: &mut Duel, played: &[Played]) -> io::Result<()> {
    for Played { before, trail } in played.iter().rev().take(TAKEN_BACK) {
        match duel.undo(trail) {
            Ok(()) => println!(rt; "taken back:{}", State(*duel))?,
            Err(why) => println!(rt; "refused with {}:{}", why.number(), State(*duel))?,
        }
        let verdict = if *duel == *before {
            "the words it had"
        } else {
            "OTHER WORDS"
        };
        println!(rt; "    {verdict}")?;
    }
    Ok(())
}

fn main(rt: HostRuntime) -> io::Result<()> {
    let mut duel = Duel::open(SEED);
    let mut played = Vec::new(rt.alloc());
    println!(rt;
        "words: column, row, facing and score of seat 0, the same of seat 1, two wall words"
    )?;
    println!(rt; "seed {SEED}:{}", State(duel))?;
    play(&rt, &mut duel, &mut played)?;
    println!(rt; "{}", Drawing(duel.view()))?;
    take_back(&rt, &mut duel, &played)?;
    println!(rt; "{}", Drawing(duel.view()))
}
