// The readings as columns, and the intervals between neighbouring readings.
ghost use Rattle.std.specs.Prelude.{◌≡◌, ◌+◌, ◌-◌, ◌<◌, ◌≤◌, ◌^◌, get_or};
ghost use Rattle.rounding.specs.Units.{in_wh};
ghost use Rattle.validity.specs.Columns.{interval_start, interval_end, meets_winter, is_trusted_at};

use readings::Columns;
use rounding::Energy;

// The counted readings of a file: the first n places of each column. A column that is shorter than n reads as a fresh reading past its end, so that
// nothing is asked; a slice cut to n would ask of a caller that n is within it.
#[derive(Clone, Copy)]
pub struct Counted<'a> {
    pub positions: &'a [u32],
    pub indexes: &'a [u64],
    pub kinds: &'a [u8],
    pub n: usize,
}

impl<'a> Counted<'a> {
    // The first n readings of the columns.
    pub fn of(columns: &'a Columns, n: usize) -> Counted<'a>
        ensures { (result.positions.now ≡ columns.now.positions) × (result.indexes.now ≡ columns.now.indexes) × (result.kinds.now ≡ columns.now.kinds) × (result.n ≡ n) }
    {
        Counted {
            positions: &columns.positions,
            indexes: &columns.indexes,
            kinds: &columns.kinds,
            n,
        }
    }
}

impl Counted<'_> {
    // The number of intervals between the readings: one fewer.
    pub fn interval_count(&self) -> usize
        ensures { result ≡ self.now.n - 1 }
    {
        self.n.saturating_sub(1)
    }

    // The position of a reading.
    pub fn position(&self, i: usize) -> usize
        ensures is { result ≡ get_or self.now.positions.now i 0 }
        ensures short { result < 2 ^ 32 }
    {
        self.positions.get(i).copied().unwrap_or(0) as usize
    }

    // The index of a reading, an energy; the column has its number.
    pub fn index(&self, i: usize) -> Energy
        ensures { result ≡ in_wh (get_or self.now.indexes.now i 0) }
    {
        Energy(self.indexes.get(i).copied().unwrap_or(0))
    }

    // The letter of a reading's kind.
    pub fn letter(&self, i: usize) -> u8
        ensures { result ≡ get_or self.now.kinds.now i 69 }
    {
        self.kinds.get(i).copied().unwrap_or(b'E')
    }

    // Whether the i-th interval has a winter day of the year whose 1 January is at s, a position of the axis. What is asked is that no sum overflows.
    pub fn in_winter(&self, s: usize, i: usize) -> bool
        requires { (i + 1 < 2 ^ 64) × (s ≤ 4392) }
        ensures { result ≡ meets_winter s (interval_start self.now.positions.now i) (interval_end self.now.positions.now i) }
    {
        meets_winter(s, self.position(i), self.position(i + 1))
    }

    // Whether a reading is R or C, not E.
    #[tactic(auto, using(crate::proofs::Trust::of_letter), unfolding(crate::specs::Columns::is_trusted_at))]
    pub(crate) fn is_trusted(&self, i: usize) -> bool
        ensures { result ≡ is_trusted_at self.now.kinds.now i }
    {
        matches!(self.letter(i), b'R' | b'C')
    }
}

// Whether an interval from a to the day before b has a day of January to March or November to December, in the year whose 1 January is at s.
#[tactic(auto, unfolding(crate::specs::Columns::meets_winter))]
fn meets_winter(s: usize, a: usize, b: usize) -> bool
    requires { s ≤ 4392 }
    ensures { result ≡ meets_winter s a b }
{
    (a < s + 91 && s < b) || (a < s + 366 && s + 305 < b)
}
