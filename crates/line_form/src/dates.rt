// The date of a C, P, X or D line.
ghost use Rattle.std.specs.Prelude.{◌≡◌, MatchOption, Some, None};
ghost use Rattle.text.specs.Fields.{rest_at};
ghost use Rattle.line_form.specs.Reads.{dated_read_of};

use calendar::Date;

// A date, and what is left of its line.
#[derive(Clone, Copy)]
pub(crate) struct Dated<'a> {
    pub(crate) date: Date,
    pub(crate) rest: &'a [u8],
}

// The date after the tag: numbers capped at 10^18, which need be no date of the calendar (7); none where one is no number (5).
#[tactic(auto, using(crate::proofs::Readers::date_parts))]
pub(crate) fn read_date(line: &[u8]) -> Option<Dated<'_>>
    ensures { MatchOption result (dated_read_of line.now ≡ None) (λ d. (dated_read_of line.now ≡ Some d.date) × (d.rest.now ≡ rest_at line.now 4)) }
{
    let year = text::split(text::rest(line));
    let month = text::split(year.rest);
    let day = text::split(month.rest);
    let date = Date {
        year: text::number(year.field)?,
        month: text::number(month.field)?,
        day: text::number(day.field)?,
    };
    Some(Dated {
        date,
        rest: day.rest,
    })
}
