// Energy and daily total of the interval around each day, by position; each day is summed and written once.
ghost use Rattle.std.specs.Prelude.{◌≡◌, ◌+◌, ◌<◌, ◌≤◌, length, sum};
ghost use Rattle.validity.specs.Columns.{Rising, NonDecreasing};
ghost use Rattle.validity.specs.Days.{energies_of, totals_of};
ghost use Rattle.validity.specs.Steps.{first_place, filled};

use crate::columns::Counted;
use rounding::Energy;

// The number of places of the axis.
const AXIS: usize = 4392;

// The total of daily sums.
fn total(days: &[u32]) -> u64
    requires { length days.now ≤ 4392 }
    ensures { result ≡ sum days.now }
{
    days.iter().map(|day| u64::from(*day)).sum()
}

// Writes v at the places from a to the one before b: energies or totals. A loop, since after the slice's own `fill` a proof knows clones alone.
fn fill<T: Copy>(places: &mut [T; 4392], a: usize, b: usize, v: T)
    requires { (a ≤ b) × (b ≤ 4392) × (length places.old ≡ 4392) }
    ensures { places.new ≡ filled places.old a b v }
{
    for p in a..b {
        places[p] = v;
    }
}

impl Counted<'_> {
    // The position of the first reading; after the axis where there is no reading.
    #[tactic(auto, unfolding(crate::specs::Steps::first_place))]
    fn first_place(&self) -> usize
        ensures { result ≡ first_place self.now.positions.now self.now.n }
    {
        if self.n == 0 { AXIS } else { self.position(0) }
    }

    // Fills in, at each position, the energy of the interval around it, which is the difference of its two readings, and its total of daily sums; 0
    // where there is no interval.
    pub fn by_position(
        &self,
        daily: &[u32],
        energies: &mut [Energy; 4392],
        totals: &mut [u64; 4392],
    )
        requires rising { Rising self.now.positions.now self.now.n × NonDecreasing self.now.indexes.now self.now.n }
        requires daily_len { (length daily.now ≡ 4392) × (length energies.old ≡ 4392) × (length totals.old ≡ 4392) }
        ensures energies { energies.new ≡ energies_of self.now.positions.now self.now.indexes.now self.now.n }
        ensures totals { totals.new ≡ totals_of self.now.positions.now daily.now self.now.n }
    {
        let mut at = self.first_place();
        fill(energies, 0, at, Energy(0));
        fill(totals, 0, at, 0);
        for i in 0..self.interval_count() {
            let next = self.position(i + 1);
            let energy = Energy(self.index(i + 1).0 - self.index(i).0);
            let total = total(&daily[at..next]);
            fill(energies, at, next, energy);
            fill(totals, at, next, total);
            at = next;
        }
        fill(energies, at, AXIS, Energy(0));
        fill(totals, at, AXIS, 0);
    }
}
