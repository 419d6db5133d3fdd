// Which history years have a valid curve, and which a valid index. By year, a break is 0 for none, as the record holds it. No history begins after
// 2021, so no year overflows.
ghost use Rattle.std.specs.Prelude.{◌≡◌, ◌≤◌};
ghost use Rattle.blocks.specs.Rows.{row_of};
ghost use Rattle.validity.specs.Availability.{valid_row};
ghost use Rattle.history.specs.ValidYears.{valid_curves, valid_indexes, valid_years};

use crate::ValidYears;
use blocks::{ReadBlocks, row};
use calendar::Years;
use std::array::from_fn;
use validity::{Counted, is_valid};

// Whether the curve of a year is valid, by its row of the near or the far block. A break is a fact of the year, no choice of steps.
fn curve_valid(blocks: &ReadBlocks<'_>, al: u64, year: u64, broken: bool) -> bool
    ensures { result ≡ valid_row (row_of al blocks.now.near.now blocks.now.far.now year) year broken }
{
    is_valid(row(blocks.near, blocks.far, al, year), year, broken)
}

// Two functions, for curves and for indexes: they share the count of years alone, and one looks at the blocks, the other at the readings.
fn valid_curves(blocks: &ReadBlocks<'_>, al: u64, history: Years, breaks: [u64; 10]) -> [bool; 10]
    requires { history.first ≤ 2021 }
    ensures { result ≡ valid_curves al history blocks.now.near.now blocks.now.far.now breaks }
{
    let years = history.count as usize;
    from_fn(|k| {
        k < years && curve_valid(blocks, al, history.first + (k as u64), breaks[k] != 0)
    })
}

fn valid_indexes(readings: &Counted<'_>, years: usize, breaks: [u64; 10]) -> [bool; 10]
    ensures { result ≡ valid_indexes readings.now.positions.now readings.now.kinds.now readings.now.n years breaks }
{
    from_fn(|k| k < years && readings.index_valid(k, breaks[k] != 0))
}

// Which years have a valid curve and which a valid index.
#[tactic(auto, unfolding(crate::specs::ValidYears::valid_years))]
pub fn valid_years(
    al: u64,
    history: Years,
    breaks: [u64; 10],
    blocks: &ReadBlocks<'_>,
    readings: &Counted<'_>,
) -> ValidYears
    requires { history.first ≤ 2021 }
    ensures { result ≡ valid_years al history breaks blocks.now.near.now blocks.now.far.now readings.now.positions.now readings.now.kinds.now readings.now.n }
{
    let years = history.count as usize;
    let curves = valid_curves(blocks, al, history, breaks);
    let indexes = valid_indexes(readings, years, breaks);
    ValidYears { curves, indexes }
}
