// The curve from the points of all places, the number of points present, 18 and the level (document 01, Cases; Calls and the lines of a file).
//
// Throughout, k is a year's number from the oldest history year, w a winter place and h a half-hour of the day. By year there are arrays with a place
// for the ten years of the longest history, since there is no heap.
#![tactic(auto)]

mod place_sums; // the point of a place after its rate, its entry in the curve, and sums over places
mod places; // the half-hours of a day and the peak days of a year
mod whole; // all years of the history
mod level; // the NCC

use blocks::{HALF_HOURS, ReadBlocks};
use history::ValidYears;
pub use level::ncc;
use rounding::{Energy, Power};
pub use whole::fill;

// The entries of a year in the curve: those of 22 peak days, the most that a year has.
pub(crate) const YEAR_ENTRIES: usize = 22 * HALF_HOURS;

// What the curve of a file is computed from: the lent blocks, E and daily total by position, and by history year valid curves and valid indexes.
// Energies and totals are two arrays: 17 is lent the totals alone.
#[derive(Clone, Copy)]
pub struct FileData<'a> {
    pub blocks: &'a ReadBlocks<'a>,
    pub energies: &'a [Energy; 4392],
    pub totals: &'a [u64; 4392],
    pub valid: &'a ValidYears,
}

// The sum of the present points over all places, their number, and the points present by year.
#[derive(Clone, Copy)]
pub struct CurveTotals {
    pub sum: Power,
    pub counted: u64,
    pub present: [u64; 10],
}
