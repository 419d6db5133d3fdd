// A line on an open record: refused by one of 2 to 12, or taken into the progress and the lent blocks. For each tag one function checks the line (checks)
// and one applies it (changes); a refused line changes nothing. Both take only a line of their own tag that 2 and 3 let through (`Known`), and are
// private: `take_line` gives each line to those of its tag.
#![tactic(auto)]

mod by_tag; // 2 and 3, then the step of the line's tag
mod site_and_end; // S and E
mod points_and_profiles; // C and P: 20 values at a winter date
mod readings_and_sums; // X and D: a number at a date of the axis; the caller stores the reading
mod breaks_and_rates; // B and R: a history year

pub use by_tag::take_line;
