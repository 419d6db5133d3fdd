// 1: a lent block is not of its size.
ghost use Rattle.std.specs.Prelude.{◌≡◌};
ghost use Rattle.answers.specs.Refusals.{lengths_fit};

// The lengths of the lent blocks.
#[derive(Clone, Copy)]
pub struct Lengths {
    pub near: usize,
    pub far: usize,
    pub slots: usize,
    pub daily: usize,
    pub readings: usize,
    pub curve: usize,
}

impl Lengths {
    // Whether each block has its size.
    #[tactic(auto, unfolding(crate::specs::Refusals::lengths_fit))]
    pub fn fit(self) -> bool
        ensures { result ≡ lengths_fit self.near self.far self.slots self.daily self.readings self.curve }
    {
        self.near == 15200
            && self.far == 15200
            && self.slots == 30400
            && self.daily == 4392
            && self.readings == 600
            && self.curve == 4400
    }
}
