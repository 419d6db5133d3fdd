// A year's row of points: a part of the near or of the far block.
ghost use Rattle.std.specs.Prelude.{◌≡◌, ◌<◌, ◌*◌};
ghost use Rattle.blocks.specs.Rows.{holds_year, part, row_of};

use crate::ROW;

// Whether the two blocks hold the year for the AL.
#[tactic(auto, unfolding(crate::specs::Rows::holds_year))]
pub(crate) fn holds_year(al: u64, year: u64) -> bool
    ensures { result ≡ holds_year al year }
{
    (2021..=2026).contains(&al) && (al - 14..=al - 5).contains(&year)
}

// The i-th row of a block, or as much of it as the block has.
fn row_part(block: &[u32], i: u64) -> &[u32]
    requires { i < 10 }
    ensures { result.now ≡ part block.now (3040 * i) }
{
    let start = (ROW * (i as usize)).min(block.len());
    let end = (start + ROW).min(block.len());
    &block[start..end]
}

// The year's points: a part of whichever block holds it.
pub fn row<'a>(near: &'a [u32], far: &'a [u32], al: u64, year: u64) -> &'a [u32]
    ensures { result.now ≡ row_of al near.now far.now year }
{
    if !holds_year(al, year) {
        return &[];
    }
    let first = al - 9;
    if first <= year {
        return row_part(near, year - first);
    }
    row_part(far, year - (al - 14))
}
