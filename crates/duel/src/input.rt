// What a seat may do in one frame of Duel.
ghost use Rattle.std.specs.Prelude.{◌≡◌};
ghost use Rattle.std.specs.Option.{ok_or};
ghost use Rattle.duel.specs.Inputs.{number_of_direction, direction_numbered, code_of, input_of, staying};
ghost use Rattle.duel.specs.Codes.{code_of_read};
ghost use Rattle.std.proofs.Common.{rules};

use interface::input::InputKind;

#[derive(Clone, Copy, Debug, PartialEq, Eq)]
pub enum Direction {
    Up = 1,
    Right = 2,
    Down = 3,
    Left = 4,
}

// A number that no direction has.
#[derive(Clone, Copy, Debug, PartialEq, Eq)]
pub struct NoDirection(pub u32);

impl From<Direction> for u32 {
    ghost from_gives = { λ direction number. number ≡ number_of_direction direction };

    fn from(direction: Direction) -> u32 {
        direction as u32
    }
}

impl TryFrom<u32> for Direction {
    type Error = NoDirection;

    ghost try_from_gives = { λ number r. r ≡ ok_or (direction_numbered number) (record { 0 = number }) };

    // The numbers once more: a cast leads from a direction to its number, and none leads back.
    fn try_from(number: u32) -> Result<Direction, NoDirection> {
        match number {
            1 => Ok(Direction::Up),
            2 => Ok(Direction::Right),
            3 => Ok(Direction::Down),
            4 => Ok(Direction::Left),
            _ => Err(NoDirection(number)),
        }
    }
}

#[derive(Clone, Copy, Debug, PartialEq, Eq)]
pub struct DuelInput {
    pub steer: Option<Direction>,
    pub fire: bool,
}

impl InputKind for DuelInput {
    ghost code = { code_of };

    ghost reads = { input_of };

    ghost idle = { staying };

    ghost code_fits = { Prim.search rules };

    ghost reads_back = { Prim.search rules };

    ghost code_of_read = { code_of_read };

    ghost idle_reads = { Prim.search rules };

    fn read(number: u16) -> Option<DuelInput> {
        let fire = match number / 8 {
            0 => false,
            1 => true,
            _ => return None,
        };
        let steer = match u32::from(number % 8) {
            0 => None,
            direction => Some(Direction::try_from(direction).ok()?),
        };
        Some(DuelInput { steer, fire })
    }

    fn code(self) -> u16 {
        let direction = self.steer.map_or(0, |direction| direction as u16);
        if self.fire { direction + 8 } else { direction }
    }

    fn idle() -> DuelInput {
        DuelInput {
            steer: None,
            fire: false,
        }
    }
}
