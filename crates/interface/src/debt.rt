// The debt of a keeper that went back: as many frames as it has still to step ahead.
ghost use Rattle.std.specs.Prelude.{◌≡◌, ◌-◌, ◌<◌};

// It can be let go only at zero, so whoever goes back has to step ahead as often.
pub struct Debt {
    owed: u32,
}

impl Debt {
    // What going back this many frames hands out.
    pub fn of(frames: u32) -> Self
        ensures { result.owed ≡ frames }
    {
        Debt { owed: frames }
    }

    // The frames still owed.
    pub fn owed(&self) -> u32
        ensures { result ≡ self.now.owed }
    {
        let Debt { owed } = self;
        *owed
    }

    // One frame less. Nothing can be paid where nothing is owed. Only `replay` pays, with a step ahead.
    pub(crate) fn pay(&mut self)
        requires { 0 < self.old.owed }
        ensures { self.new.owed ≡ self.old.owed - 1 }
    {
        self.owed -= 1;
    }
}

impl Drop for Debt {
    fn drop(self)
        requires { self.owed ≡ 0 }
    {
        let Debt { owed: _ } = self;
    }
}
