// Duel as a game.
ghost use Rattle.std.specs.Prelude.{◌≡◌, ◌/◌, ◌%◌, take};
ghost use Rattle.std.specs.Bool.{then_some};
ghost use Rattle.std.specs.Option.{option_map};
ghost use Rattle.interface.specs.Games.{if_lawful};
ghost use Rattle.duel.specs.Boards.{Within, sound, played};
ghost use Rattle.duel.specs.Laws.{Standing, Frame};
ghost use Rattle.duel.specs.Inputs.{direction_numbered};
ghost use Rattle.duel.specs.Meaning.{duel_words};
ghost use Rattle.duel.specs.Words.{words_of, player, spelled, lawful, opening, next, undone, pose, trail_of};
ghost use Rattle.duel.specs.Spelling.{lawful_words};
ghost use Rattle.std.proofs.Common.{rules};

use crate::board::{Board, Cell, Player, Walls};
use crate::input::{Direction, DuelInput};
use crate::state::Duel;
use interface::answers::Refusal;
use interface::game::{Game, Trail};

impl Player {
    // The player of a column, a row, a facing and a score, if the facing is 1 to 4.
    fn from_words(column: u32, row: u32, facing: u32, score: u32) -> Option<Player>
        ensures { result ≡ option_map (λ f. player column row f score) (direction_numbered facing) }
    {
        Some(Player {
            cell: Cell { column, row },
            facing: Direction::try_from(facing).ok()?,
            score,
        })
    }

    // Where the player stands and faces, in one word.
    fn pose(self) -> u32
        requires { Within self.cell }
        ensures { result ≡ pose self }
    {
        self.cell.column + 8 * self.cell.row + 64 * u32::from(self.facing)
    }

    // The player of a pose and a score, if the facing is 1 to 4.
    fn from_pose(pose: u32, score: u32) -> Option<Player>
        ensures { result ≡ option_map (λ f. player (pose % 8) (pose / 8 % 8) f score) (direction_numbered (pose / 64)) }
    {
        Player::from_words(pose % 8, pose / 8 % 8, pose / 64, score)
    }
}

impl Board {
    // Column, row, facing and score of seat 0, the same of seat 1, then the two words of walls.
    pub fn words(self) -> [u32; 10]
        ensures { result ≡ words_of self }
    {
        let Board {
            first,
            second,
            walls,
        } = self;
        [
            first.cell.column,
            first.cell.row,
            first.facing.into(),
            first.score,
            second.cell.column,
            second.cell.row,
            second.facing.into(),
            second.score,
            walls.upper,
            walls.lower,
        ]
    }

    // The board that the first ten words spell, if both facings are 1 to 4.
    fn from_words(words: &[u32]) -> Option<Board>
        ensures { result ≡ spelled (take 10 words.now) }
    {
        let &[c0, r0, f0, s0, c1, r1, f1, s1, upper, lower, ..] = words else {
            return None;
        };
        Some(Board {
            first: Player::from_words(c0, r0, f0, s0)?,
            second: Player::from_words(c1, r1, f1, s1)?,
            walls: Walls { upper, lower },
        })
    }
}

impl Duel {
    // The state of a board, if it is sound.
    fn of(board: Board) -> Option<Duel>
        ensures { option_map duel_words result ≡ then_some (sound board) (words_of board) }
    {
        // A closure for `then` would need the board's soundness as a clause of its own.
        if board.is_sound() {
            Some(Duel { board })
        } else {
            None
        }
    }

    // The state of the first ten words, if they are lawful.
    #[tactic(auto, using(crate::specs::Spelling::kept_if_sound))]
    pub fn from_words(words: &[u32]) -> Option<Duel>
        ensures { option_map duel_words result ≡ if_lawful lawful (take 10 words.now) }
    {
        Duel::of(Board::from_words(words)?)
    }

    // What the players stand on: each on the grid, never in one cell, never in a wall.
    pub fn view(&self) -> Board
        ensures board { result ≡ self.now.board }
        ensures standing { Standing result }
    {
        let Duel { board } = *self;
        board
    }

    // One frame, with the trail that takes it back.
    pub fn advance(&mut self, first: DuelInput, second: DuelInput) -> Trail
        ensures board { self.new.board ≡ played self.old.board first second }
        ensures trail { result ≡ trail_of self.old.board }
        ensures frame { Frame self.old.board self.new.board first second }
    {
        let Board {
            first: one,
            second: two,
            ..
        } = self.board;
        let trail = [one.pose(), one.score, two.pose(), two.score];
        self.board = self.board.play(first, second);
        trail
    }

    // The state that a trail leads back to, if it is lawful.
    fn before(self, trail: &Trail) -> Option<Duel>
        ensures { option_map duel_words result ≡ undone (duel_words self) trail.now }
    {
        let [pose0, score0, pose1, score1] = *trail;
        Duel::of(Board {
            first: Player::from_pose(pose0, score0)?,
            second: Player::from_pose(pose1, score1)?,
            walls: self.board.walls,
        })
    }
}

impl Game for Duel {
    type Input = DuelInput;

    const W: u32 = 10;

    ghost W = { 10 };

    ghost words = { duel_words };

    ghost lawful = { lawful };

    ghost opening = { opening };

    ghost next = { next };

    ghost undone = { undone };

    ghost some_words = { Prim.search rules };

    ghost few_words = { Prim.search rules };

    ghost always_wide = { Prim.search rules };

    ghost always_lawful = { λ d. lawful_words d.board d.lawful };

    fn open(seed: u32) -> Duel {
        Duel {
            board: Board {
                first: Player {
                    cell: Cell { column: 0, row: 0 },
                    facing: Direction::Right,
                    score: 0,
                },
                second: Player {
                    cell: Cell { column: 7, row: 7 },
                    facing: Direction::Left,
                    score: 0,
                },
                walls: Walls {
                    upper: seed / 2 * 2,
                    lower: seed.rotate_left(16) & 0x7fff_ffff,
                },
            },
        }
    }

    fn step(&mut self, first: DuelInput, second: DuelInput) -> Trail {
        self.advance(first, second)
    }

    fn undo(&mut self, trail: &Trail) -> Result<(), Refusal> {
        *self = self.before(trail).ok_or(Refusal::Unlawful)?;
        Ok(())
    }

    fn word(&self, k: u32) -> Option<u32> {
        self.board.words().get(k as usize).copied()
    }

    fn restore(&mut self, from: &[u32; 72]) -> Result<(), Refusal> {
        *self = Duel::from_words(from).ok_or(Refusal::Unlawful)?;
        Ok(())
    }
}
