// The grid: cells, walls and players, and one frame of play on it.
ghost use Rattle.std.specs.Prelude.{◌≡◌, true, not, ◌&&◌, nat_lt};
ghost use Rattle.duel.specs.Boards.{Within, within, ahead, wall, aim, both_aim, sees, moved, fired, played, sound};

use crate::input::{Direction, DuelInput};

// The grid has columns and rows 0 to 7; row 0 is the top.
pub const SIDE: u32 = 8;

// No score passes this.
pub const TOP_SCORE: u32 = 65_535;

#[derive(Clone, Copy, Debug, PartialEq, Eq)]
pub struct Cell {
    pub column: u32,
    pub row: u32,
}

// A bit for each cell, set for a wall: bit 8 × (row mod 4) + column, of `upper` for rows 0 to 3, else of `lower`.
#[derive(Clone, Copy, Debug, PartialEq, Eq)]
pub struct Walls {
    pub upper: u32,
    pub lower: u32,
}

#[derive(Clone, Copy, Debug, PartialEq, Eq)]
pub struct Player {
    pub cell: Cell,
    pub facing: Direction,
    pub score: u32,
}

// Two fields and no array: the words, a trail and the laws of a frame speak of each seat by name.
#[derive(Clone, Copy, Debug, PartialEq, Eq)]
pub struct Board {
    pub first: Player,
    pub second: Player,
    pub walls: Walls,
}

impl Cell {
    pub fn is_within(self) -> bool
        ensures { result ≡ within self }
    {
        self.column < SIDE && self.row < SIDE
    }

    // The next cell that way, or nothing off the grid.
    pub fn ahead(self, direction: Direction) -> Option<Cell>
        ensures { result ≡ ahead self direction }
    {
        let Cell { column, row } = self;
        match direction {
            Direction::Up if row > 0 => Some(Cell {
                row: row - 1,
                ..self
            }),
            Direction::Right if column < SIDE - 1 => Some(Cell {
                column: column + 1,
                ..self
            }),
            Direction::Down if row < SIDE - 1 => Some(Cell {
                row: row + 1,
                ..self
            }),
            Direction::Left if column > 0 => Some(Cell {
                column: column - 1,
                ..self
            }),
            _ => None,
        }
    }
}

impl Walls {
    // Whether a cell of the grid is a wall; no cell off the grid is.
    pub fn has(self, cell: Cell) -> bool
        ensures { result ≡ (within cell && wall self cell) }
    {
        cell.is_within() && self.at(cell)
    }

    fn at(self, cell: Cell) -> bool
        requires { Within cell }
        ensures { result ≡ wall self cell }
    {
        let word = if cell.row < 4 { self.upper } else { self.lower };
        (word >> (8 * (cell.row % 4) + cell.column)) % 2 == 1
    }
}

// That the cell is on the grid is asked below, and is no fact of `Cell`: `is_within` and `has` speak of cells off the grid too.
impl Player {
    // In range, and in no wall.
    fn is_on(self, walls: Walls) -> bool
        ensures { result ≡ (within self.cell && (nat_lt self.score 65536 && not (wall walls self.cell))) }
    {
        self.cell.is_within() && self.score <= TOP_SCORE && !walls.at(self.cell)
    }

    // The cell that the player steers into, or nothing where it stays.
    fn aim(self, walls: Walls, other: Cell, steer: Option<Direction>) -> Option<Cell>
        requires { Within self.cell }
        ensures { result ≡ aim walls self.cell other steer }
    {
        let cell = self.cell.ahead(steer?)?;
        (!walls.at(cell) && cell != other).then_some(cell)
    }

    fn moved(self, steer: Option<Direction>, to: Option<Cell>, clash: bool) -> Player
        ensures { result ≡ moved self steer to clash }
    {
        Player {
            cell: if clash {
                self.cell
            } else {
                to.unwrap_or(self.cell)
            },
            facing: steer.unwrap_or(self.facing),
            ..self
        }
    }

    // Whether a scan straight ahead meets the target before a wall or the edge.
    fn sees(self, walls: Walls, target: Cell) -> bool
        requires { Within self.cell }
        ensures { result ≡ sees 8 walls self.cell self.facing target }
    {
        let mut cell = self.cell;
        while let Some(next) = cell.ahead(self.facing) {
            if next == target {
                return true;
            }
            if walls.at(next) {
                return false;
            }
            cell = next;
        }
        false
    }

    fn fired(self, walls: Walls, other: Player, fire: bool) -> Player
        requires { Within self.cell }
        ensures { result ≡ fired walls self other fire }
    {
        if fire && self.sees(walls, other.cell) {
            Player {
                score: self.score.saturating_add(1).min(TOP_SCORE),
                ..self
            }
        } else {
            self
        }
    }
}

fn both_aim(first: Option<Cell>, second: Option<Cell>) -> bool
    ensures { result ≡ both_aim first second }
{
    first.is_some() && first == second
}

impl Board {
    // In range, in different cells, neither in a wall.
    pub fn is_sound(self) -> bool
        ensures { result ≡ sound self }
    {
        let Board {
            first,
            second,
            walls,
        } = self;
        first.is_on(walls) && second.is_on(walls) && first.cell != second.cell
    }

    // One frame: both steer, then both fire from where they now stand.
    pub(crate) fn play(self, first: DuelInput, second: DuelInput) -> Board
        requires { sound self ≡ true }
        ensures { result ≡ played self first second }
    {
        let Board {
            first: one,
            second: two,
            walls,
        } = self;
        let first_aim = one.aim(walls, two.cell, first.steer);
        let second_aim = two.aim(walls, one.cell, second.steer);
        let clash = both_aim(first_aim, second_aim);
        let one = one.moved(first.steer, first_aim, clash);
        let two = two.moved(second.steer, second_aim, clash);
        Board {
            first: one.fired(walls, two, first.fire),
            second: two.fired(walls, one, second.fire),
            walls,
        }
    }
}
