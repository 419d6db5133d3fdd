// Refusal 1 at the close: readings. Each is at a date of the axis and is what X can give, in order.
ghost use Rattle.std.specs.Prelude.{◌≡◌};
ghost use Rattle.meaning.specs.Filing.{reading};
ghost use Rattle.meaning.specs.Line.{kind_of_letter};
ghost use Rattle.meaning.specs.Record.{reading_fits, readings_fit};
ghost use Rattle.readings.specs.Columns.{readings_in};

use crate::contents::axis_blocks::Axis;
use readings::is_kind;
use rounding::Energy;
use validity::Counted;

const MOST_INDEX: Energy = Energy(1_000_000_000_000);

impl Axis {
    #[tactic(auto, unfolding(meaning::specs::Record::reading_fits, crate::specs::Axis::placed_at))]
    fn reading_fits(self, position: usize, index: Energy, kind: u8) -> bool
        ensures { result ≡ reading_fits self.years (reading position index.0 (kind_of_letter kind)) }
    {
        index.0 <= MOST_INDEX.0 && is_kind(kind) && self.is_placed(position)
    }

    // Whether the counted readings fit, in one pass. A `for`, since each is tested by the least position and the least index that the one before
    // allows, and the first that does not fit ends it.
    pub(crate) fn readings_fit(self, readings: &Counted<'_>) -> bool
        ensures { result ≡ readings_fit self.years (readings_in readings.now.positions.now readings.now.indexes.now readings.now.kinds.now readings.now.n) }
    {
        let mut least = 0;
        let mut index = Energy(0);
        for k in 0..readings.n {
            let p = readings.position(k);
            let x = readings.index(k);
            if !self.reading_fits(p, x, readings.letter(k)) {
                return false;
            }
            if p < least || x.0 < index.0 {
                return false;
            }
            least = p + 1;
            index = x;
        }
        true
    }
}
