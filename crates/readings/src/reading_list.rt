// The readings as one lent list.
//
// Few functions touch the list, and each does one thing: one reading is stored, all are made fresh, all are copied into columns.
ghost use Rattle.std.specs.Prelude.{◌≡◌, set};
ghost use Rattle.readings.specs.Readings.{freshened, columns_of};

use crate::{Columns, FRESH, Reading};

// Stores one reading; at a place past the end nothing. By an index: after `get_mut` a proof knows the slice's length and no element.
pub fn put(readings: &mut [Reading], i: usize, reading: Reading)
    ensures { readings.new ≡ set readings.old i reading }
{
    if i < readings.len() {
        readings[i] = reading;
    }
}

// Makes all readings fresh.
#[tactic(auto, unfolding(crate::specs::Readings::freshened))]
pub fn set_fresh(readings: &mut [Reading])
    ensures { readings.new ≡ freshened readings.old }
{
    readings.fill(FRESH);
}

// The first 600 readings as columns, fresh where the list has no more. In one walk over the readings that there are.
pub fn columns_of(readings: &[Reading]) -> Columns
    ensures { result ≡ columns_of readings.now }
{
    let mut columns = Columns {
        positions: [0; 600],
        indexes: [0; 600],
        kinds: [b'E'; 600],
    };
    let first = &readings[..readings.len().min(600)];
    for (i, reading) in first.iter().enumerate() {
        columns.positions[i] = reading.position;
        columns.indexes[i] = reading.count.0;
        columns.kinds[i] = u8::from(reading.kind);
    }
    columns
}
