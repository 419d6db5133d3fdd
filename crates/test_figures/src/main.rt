// Writes each figure of the note that the engine uses: the peak days as dates, CA, theta, C and the lengths of the histories.
// The file stdout beside this folder is what tools/figures_from_note.py reads from the note's own text.
#![tactic(auto)]

use calendar::Day;
use std::io;

// A tab and a number: one more field of the line.
fn put_field(rt: &impl Print, n: u64) -> io::Result<()> {
    print!(rt; "\t{n}")
}

fn put_date(rt: &impl Print, year: u64, place: usize) -> io::Result<()> {
    match calendar::winter_day_at(place) {
        Some(Day { month, day }) => print!(rt; "\t{day:02}/{month:02}/{year}"),
        None => print!(rt; "\tno winter day"),
    }
}

fn peak_days(rt: &impl Print, year: u64) -> io::Result<()> {
    print!(rt; "{year}")?;
    for place in note::peak_days(year) {
        put_date(rt, year, *place)?;
    }
    println!(rt)
}

// A year's row of CA: each column by the lowest filière that has it.
fn ca_row(rt: &impl Print, year: u64) -> io::Result<()> {
    print!(rt; "CA\t{year}")?;
    for filiere in [1, 2, 4, 6, 9, 10, 11] {
        put_field(rt, note::ca(year, filiere))?;
    }
    println!(rt)
}

// A row of the figures that each filière has one of.
fn by_filiere<F: Fn(u64) -> u64>(rt: &impl Print, head: &str, figure: F) -> io::Result<()>
    requires { F.IsAlwaysCallable figure }
{
    print!(rt; "{head}")?;
    for filiere in 1..12 {
        put_field(rt, figure(filiere))?;
    }
    println!(rt)
}

fn coefficient_row(rt: &impl Print, al: u64) -> io::Result<()> {
    print!(rt; "C\t{al}")?;
    by_filiere(rt, "", |filiere| note::coefficient(al, filiere))
}

fn main(rt: HostRuntime) -> io::Result<()> {
    // closures: a function of another crate, passed by its name, has no contract that the check finds here
    (2007..2022).try_for_each(|year| peak_days(&rt, year))?;
    by_filiere(&rt, "column", |filiere| note::column(filiere) as u64)?;
    (2007..2025).try_for_each(|year| ca_row(&rt, year))?;
    by_filiere(&rt, "theta", |filiere| note::theta(filiere))?;
    (2021..2027).try_for_each(|al| coefficient_row(&rt, al))?;
    by_filiere(&rt, "N", |filiere| calendar::history_length(filiere))
}
