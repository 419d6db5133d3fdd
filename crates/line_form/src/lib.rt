// The form of a line: 2, 3 and 5. Each function is lent the line, and each field that it reads is a part of the line itself.
//
// The reader of a tag gives, for any line, what the line says, or none where a field after the tag is not in its form (5). A number is capped at 10^18,
// which is above every field's range.
#![tactic(auto)]

mod legible; // whether a line is legible (2)
mod tags; // the tag of a line, and whether it has the tag's number of fields (3)
mod dates; // the date after the tag
mod site_fields; // the fields of S
mod site_years; // the history and axis years of a site
mod year_fields; // the fields of B, R and E
mod axis_fields; // the fields of X and D
mod values; // the fields of C and P: a date and 20 values, points in W or profile values

pub use axis_fields::{DailyRead, ReadingRead, read_daily, read_reading};
pub use legible::is_illegible;
use rounding::Watts;
pub use site_fields::{is_too_soon, read_site};
pub use tags::{known_tag, rank};
pub use values::{PointsRead, ProfilesRead, read_points, read_profiles};
pub use year_fields::{RateRead, read_count, read_rate, read_year};

// The tags, each with its place in file order.
#[derive(Clone, Copy, Debug, PartialEq, Eq)]
pub enum Tag {
    S = 1,
    C = 2,
    X = 3,
    D = 4,
    P = 5,
    B = 6,
    R = 7,
    E = 8,
}

// The rank of the last tag before any line, and after E: numbers, since a record keeps its last tag as one.
pub const NO_TAG: u64 = 0;

pub const END_TAG: u64 = 8;

// T is a curve meter, I an index meter.
#[derive(Clone, Copy, Debug, PartialEq, Eq)]
pub enum Meter {
    Curve,
    Index,
}

// What S says: AL, filière, meter, and the retained power PS. There is no meter until S is taken.
#[derive(Clone, Copy, Default)]
pub struct Site {
    pub al: u64,
    pub filiere: u64,
    pub meter: Option<Meter>,
    pub ps: Watts,
}
