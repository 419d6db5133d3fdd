// Forges a record, or what a block holds, at each border of refusal 1, and writes what opening, a line and the close answer to it.
//
// Each case changes one thing of a record that a line is accepted on and whose close reports: onshore wind, AL 2025, history 2016 to 2020, axis 2015
// to 2021, with points on every day of 2020 but 29 February. The line is E after S alone; before S it is S. The answers in the file stdout beside
// this folder are document 01's: 1 where it says so, else the first stop that comes after 1, or none.
#![tactic(auto)]

mod records; // the record of a case
mod held; // its blocks and readings
mod calls; // what opening, line and close answer
mod written; // a case by its name and the answers
mod cases; // the cases

use crate::cases::{
    AXIS_DATES, BREAKS_AND_RATES, DATES_BY_YEAR, FIELDS_BEFORE_S, PLAIN_FIELDS, POINTS_HELD,
    PROFILES_HELD, READINGS_HELD, RIVER_DATES, SITE_FIELDS, SIZES, WINTER_DATES, YEARS,
};
use crate::written::{cases, last_dates};
use rounding::{Energy, Watts};
use std::io;

// The record before it is forged: wind, run of river (history 2011 to 2020), or a record without S, with a meter or with wind's AL, filière and PS all
// the same.
#[derive(Clone, Copy)]
pub(crate) enum Base {
    Wind,
    River,
    IndexMeter,
    NoMeter,
    Refused,
    BeforeS,
    CurveBeforeS,
    IndexBeforeS,
    WindBeforeS,
}

// What is forged, and to which value; by year or by place, with the number of the year or the place. Nothing is a case of its own and no Option, which
// would be no plainer: all other rows of the tables would say Some.
#[derive(Clone, Copy)]
pub(crate) enum Forge {
    Nothing,
    Count(u64),
    Last(u64),
    Al(u64),
    Filiere(u64),
    Both(u64, u64),
    Ps(Watts),
    Readings(u64),
    LastIndex(Energy),
    LastC(u64),
    LastX(u64),
    LastD(u64),
    LastP(u64),
    LastB(u64),
    LastR(u64),
    ProfileDates(usize, u64),
    DailyDates(usize, u64),
    Break(usize, u64),
    Rate(usize, u64),
    Near(usize, u32),
    Far(usize, u32),
    Slot(usize, u16),
    Sum(usize, u32),
    Position(usize, u32),
    Index(usize, Energy),
    LastOf600(u32),
    Uncounted(u32),
    NearSize(usize),
    FarSize(usize),
    SlotsSize(usize),
    DailySize(usize),
    ReadingsSize(usize),
    CurveSize(usize),
}

fn main(rt: HostRuntime) -> io::Result<()> {
    cases(&rt, &PLAIN_FIELDS)?;
    cases(&rt, &SITE_FIELDS)?;
    cases(&rt, &FIELDS_BEFORE_S)?;
    last_dates(&rt, "C", Forge::LastC, &WINTER_DATES)?;
    last_dates(&rt, "P", Forge::LastP, &WINTER_DATES)?;
    last_dates(&rt, "X", Forge::LastX, &AXIS_DATES)?;
    last_dates(&rt, "D", Forge::LastD, &AXIS_DATES)?;
    last_dates(&rt, "B", Forge::LastB, &YEARS)?;
    last_dates(&rt, "R", Forge::LastR, &YEARS)?;
    cases(&rt, &RIVER_DATES)?;
    cases(&rt, &DATES_BY_YEAR)?;
    cases(&rt, &BREAKS_AND_RATES)?;
    cases(&rt, &POINTS_HELD)?;
    cases(&rt, &PROFILES_HELD)?;
    cases(&rt, &READINGS_HELD)?;
    cases(&rt, &SIZES)
}
