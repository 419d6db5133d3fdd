// The progress of a record, which is what its lines so far gave: the site, the last date of each tag, the number of readings, and numbers by year.
// Whether each number is in its field's range (1); what an accepted line makes of the progress stands in `line_steps`.
//
// The caller keeps state and count, and the readings stand in the lent list.
#![tactic(auto)]

mod site_ranges; // 1 on what S gave: AL, filière, meter and PS
mod last_dates; // 1 on the last date or year of each tag
mod by_year; // 1 on the numbers by year
mod year_range; // 1 on one last date and on one number of a year
mod record_ranges; // 1 on all numbers of a record
mod states; // whether a record is open

use line_form::Site;
pub use record_ranges::{once_taken, record_fits};
use rounding::Energy;
pub use states::is_open;

// A record takes lines from its opening until a refusal by 2 to 18 or a close that reports.
#[derive(Clone, Copy, Debug, PartialEq, Eq)]
pub enum State {
    NeverOpened,
    Open,
    Refused,
    Closed,
}

// What the lines so far gave. Numbers of the public record: a caller may hand in any, and refusal 1 looks at them, where a narrower type (of the last tag, of a
// break) would ask more.
#[derive(Clone, Copy, Default)]
pub struct Progress {
    // the rank of the last tag, 0 for none
    pub last: u64,
    pub site: Site,
    pub readings: u64,
    pub last_index: Energy,
    pub lasts: LastDates,
    pub tallies: Tallies,
}

// The last date of C, X, D, P as 366 times the year and the date place, the last year of B, R; 0 for none.
#[derive(Clone, Copy, Default)]
pub struct LastDates {
    pub c: u64,
    pub x: u64,
    pub d: u64,
    pub p: u64,
    pub b: u64,
    pub r: u64,
}

// An array for each kind of number, of fixed size since there is no heap, and not a struct for each year: 1 goes over one kind at a time, and D has
// two years more. By year: P dates, breaks (0 no, 1 yes: any number may stand there, as above) and rates (0 for none) from the oldest history year,
// D dates from the first axis year.
#[derive(Clone, Copy, Default)]
pub struct Tallies {
    pub profile_dates: [u64; 10],
    pub daily_dates: [u64; 12],
    pub breaks: [u64; 10],
    pub rates: [u64; 10],
}
