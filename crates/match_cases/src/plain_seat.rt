// A seat of the plain match: its true inputs and its counts.
use interface::input::InputKind;
use std::alloc::{AllocError, Global};

#[derive(Drop)]
pub struct PlainSeat<I> {
    // The true inputs, oldest first: as many as P.
    inputs: Vec<I>,
    // R.
    pub known: u32,
    // A.
    pub acknowledged: u32,
}

impl<I: InputKind> PlainSeat<I> {
    pub fn new(heap: Global) -> Self {
        PlainSeat {
            inputs: Vec::new(heap),
            known: 0,
            acknowledged: 0,
        }
    }

    // P.
    pub fn played(&self) -> u32 {
        u32::try_from(self.inputs.len()).unwrap_or(u32::MAX)
    }

    // C.
    pub fn confirmed(&self) -> u32 {
        self.played().min(self.known)
    }

    // The true input of a frame that was played.
    pub fn input(&self, frame: u32) -> I {
        self.inputs
            .get(frame as usize)
            .copied()
            .unwrap_or(I::idle())
    }

    // The last of the first so many inputs.
    pub fn last_known(&self, known: u32) -> I {
        known
            .checked_sub(1)
            .map_or(I::idle(), |frame| self.input(frame))
    }

    // The input that a press plays, or the number that refuses it: written out, so that it does not lean on what it checks.
    pub fn pressed(&self, code: u16) -> Result<I, u32> {
        let input = I::read(code).ok_or(5u32)?;
        let played = self.played();
        if played == 60_000 {
            return Err(11);
        }
        if played == self.known.saturating_add(8) {
            return Err(12);
        }
        if played == self.acknowledged.saturating_add(32) {
            return Err(13);
        }
        Ok(input)
    }

    pub fn play(&mut self, input: I) -> Result<(), AllocError> {
        self.inputs.push(input)?;
        Ok(())
    }
}
