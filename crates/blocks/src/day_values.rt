// The 20 values of one line, stored in a year's row of a block.
ghost use Rattle.std.specs.Prelude.{◌≡◌, ◌+◌, ◌*◌, ◌≤◌, ◌<◌, length};
ghost use Rattle.std.proofs.lemmas.List.Edits.{sets};
ghost use Rattle.meaning.specs.Blocks.{slot_at};

use crate::{HALF_HOURS, ROW};

// Stores the values in the row, from the winter place's first half-hour on.
pub(crate) fn put_day<T: Copy>(block: &mut [T], row: u64, place: usize, values: &[T; 20])
    requires { ((row < 10) × (place < 152)) × ((length values.now ≡ 20) × (3040 * row + 3040 ≤ length block.old)) }
    ensures { block.new ≡ sets block.old (3040 * row + slot_at place 0) values.now }
{
    let at = ROW * (row as usize) + HALF_HOURS * place;
    block[at..at + HALF_HOURS].copy_from_slice(values);
}
