// The checks 4 to 12 of a line, in order: those that several tags share.
//
// The flags here are answers of tests, or what a tag takes, as winter dates only: data of the question, and no choice of steps.
ghost use Rattle.std.specs.Prelude.{◌≡◌, ◌||◌, not};
ghost use Rattle.calendar.specs.Spans.{among};
ghost use Rattle.line_form.specs.Views.{tag_view};
ghost use Rattle.line_checks.specs.Order.{in_order, rising_checks, is_misplaced};
ghost use Rattle.line_checks.specs.Places.{dated_checks};
ghost use Rattle.line_checks.specs.Before.{is_not_later};

use crate::date_keys::{has_no_date, key_of};
use calendar::{Date, Years};
use line_form::{END_TAG, NO_TAG, Tag, rank};
use refusals::{Refusal, refuse_if};

// 4 and 5, which are made for every tag: what a line says, where it is in order and its fields are in their form.
#[tactic(auto, unfolding(crate::specs::Order::in_order))]
pub fn in_order<T: Copy>(misplaced: bool, read: Option<T>) -> Result<T, Refusal>
    ensures { result ≡ in_order misplaced read }
{
    if misplaced {
        return Err(Refusal::Misplaced);
    }
    read.ok_or(Refusal::Malformed)
}

// 6, 7 and 8 of a line with a date or a year: one outside its range, no such date, or one that is not later than the last of its tag.
#[tactic(auto, unfolding(crate::specs::Order::rising_checks, refusals::specs::Refusals::refused_if))]
pub fn rising_checks(outside: bool, no_date: bool, latest: u64, key: u64) -> Result<(), Refusal>
    ensures { result ≡ rising_checks outside no_date latest key }
{
    refuse_if(outside, Refusal::Outside)?;
    refuse_if(no_date, Refusal::NoDate)?;
    refuse_if(is_not_later(latest, key), Refusal::NotLater)
}

// 6, 7 and 8 of a line with a date, and the key of its date. `winter` says whether the tag takes winter dates only.
#[tactic(auto, unfolding(crate::specs::Places::dated_checks))]
pub fn dated_checks(outside: bool, winter: bool, date: Date, latest: u64) -> Result<u64, Refusal>
    ensures { result ≡ dated_checks outside winter date latest }
{
    let key = key_of(date);
    rising_checks(outside, has_no_date(winter, date), latest, key)?;
    Ok(key)
}

// 4, by the rank of the last tag: a line other than S comes before S, after a line of a later tag, or after E. The public record has
// the rank and the last dates as numbers, 0 for none, and a narrower type would ask more.
#[tactic(auto, unfolding(crate::specs::Order::is_misplaced))]
pub fn is_misplaced(last: u64, tag: Tag) -> bool
    ensures { result ≡ is_misplaced last (tag_view tag) }
{
    last == NO_TAG || rank(tag) < last || last == END_TAG
}

// 8: the last date or year of its tag, 0 for none, is this one or a later one.
#[tactic(auto, unfolding(crate::specs::Before::is_not_later))]
pub(crate) fn is_not_later(last: u64, key: u64) -> bool
    ensures { result ≡ is_not_later last key }
{
    last != 0 && key <= last
}

// 6 of a line with a year: it is not among the years, or the value beside it is outside its own range, which the caller has tested.
pub fn is_outside(years: Years, year: u64, value_outside: bool) -> bool
    ensures { result ≡ (not (among years year) || value_outside) }
{
    !years.contains(year) || value_outside
}
