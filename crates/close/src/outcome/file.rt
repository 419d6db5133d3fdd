// The report of a file: level, points and years.
use rounding::Watts;

// A history year: its case as printed on the sheet, and its points present. All 0 where the file has no such year: a close hands back fixed values
// there and on a refusal, which an Option would change. The case is a letter and not a `Case`: the sheet's text is promised of every row.
#[derive(Clone, Copy, PartialEq, Eq)]
pub struct YearRow {
    pub year: u64,
    pub case: u8,
    pub present: u64,
}

// The level, the points counted and the years, from the oldest on: a place for each year of the longest history, since there is no heap.
#[derive(Clone, Copy)]
pub(crate) struct FileReport {
    pub level: Watts,
    pub points: u64,
    pub years: [YearRow; 10],
}

// A year that the file does not have.
pub(crate) const NO_YEAR: YearRow = YearRow {
    year: 0,
    case: 0,
    present: 0,
};

// The years beside a refusal.
pub const NO_YEARS: [YearRow; 10] = [NO_YEAR; 10];
