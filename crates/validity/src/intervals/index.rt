// Whether the index of a history year is valid: no break, readings that cover it, and both ends R or C for each interval with one of its winter days.
ghost use Rattle.std.specs.Prelude.{◌≡◌, ◌+◌, ◌-◌, ◌<◌, ◌≤◌};
ghost use Rattle.validity.specs.Index.{covers_year, is_sound_at, is_sound_year, valid_index};

use crate::columns::Counted;

impl Counted<'_> {
    // Whether the index of the k-th history year, from 0, is valid. A break is a fact of the year, no choice of steps.
    #[tactic(auto, unfolding(crate::specs::Index::valid_index))]
    pub fn index_valid(&self, k: usize, broken: bool) -> bool
        requires { k < 10 }
        ensures { result ≡ valid_index self.now.positions.now self.now.kinds.now self.now.n k broken }
    {
        let s = 366 * (k + 1);
        !broken && self.covers_year(s) && self.is_sound_year(s)
    }

    // Whether the readings cover the year whose 1 January is at s, a position of the axis: no sum overflows.
    #[tactic(auto, unfolding(crate::specs::Index::covers_year))]
    fn covers_year(&self, s: usize) -> bool
        requires { s ≤ 4392 }
        ensures { result ≡ covers_year self.now.positions.now self.now.n s }
    {
        self.n != 0 && self.position(0) <= s && s + 366 <= self.position(self.n - 1)
    }

    fn is_sound_year(&self, s: usize) -> bool
        requires { s ≤ 4392 }
        ensures { result ≡ is_sound_year self.now.positions.now self.now.kinds.now self.now.n s }
    {
        (0..self.interval_count()).all(|i| self.is_sound(s, i))
    }

    #[tactic(auto, unfolding(crate::specs::Index::is_sound_at))]
    fn is_sound(&self, s: usize, i: usize) -> bool
        requires { (i < self.now.n) × (s ≤ 4392) }
        ensures { result ≡ is_sound_at self.now.positions.now self.now.kinds.now s i }
    {
        !self.in_winter(s, i) || (self.is_trusted(i) && self.is_trusted(i + 1))
    }
}
