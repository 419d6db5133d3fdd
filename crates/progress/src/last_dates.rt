// 1 on the last date or year of each tag.
ghost use Rattle.std.specs.Prelude.{◌≡◌};
ghost use Rattle.calendar.specs.Spans.{history_years};
ghost use Rattle.meaning.specs.Record.{last_dates_fit};
ghost use Rattle.progress.specs.TallyViews.{last_dates_view};

use crate::LastDates;
use crate::year_range::{date_fits, year_fits};
use calendar::{axis, history};

// Whether each last date or year is in its span, for the history of an AL and a filière. By these and not by two spans, of which it would
// have to be required that they belong together.
#[tactic(auto, unfolding(meaning::specs::Record::last_dates_fit))]
pub(crate) fn last_dates_fit(al: u64, filiere: u64, lasts: LastDates) -> bool
    ensures { result ≡ last_dates_fit (history_years al filiere) (last_dates_view lasts) }
{
    let h = history(al, filiere);
    let around = axis(al, filiere);
    date_fits(h, true, lasts.c)
        && date_fits(around, false, lasts.x)
        && date_fits(around, false, lasts.d)
        && date_fits(h, true, lasts.p)
        && year_fits(h, lasts.b)
        && year_fits(h, lasts.r)
}
