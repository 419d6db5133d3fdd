// Refusal 1 at the close: profile values. At a date of the history what P can give, elsewhere 0.
ghost use Rattle.std.specs.Prelude.{◌≡◌, ◌≤◌};
ghost use Rattle.meaning.specs.Record.{slots_fit};

use crate::contents::winter_blocks::WinterRows;
use crate::day_contents::all_zero;
use blocks::HALF_HOURS;
use calendar::Years;

// Whether the profile values fit. On a day with a date any value does: no u16 is above 65,535. Apart from the fit of points, since one function of
// both would be lent both tests of a day and say no more.
pub(crate) fn slots_fit(slots: &[u16], history: Years) -> bool
    requires { history.first ≤ 9999 }
    ensures { result ≡ slots_fit history slots.now }
{
    let rows = WinterRows {
        history,
        first: history.first,
    };
    slots
        .chunks(HALF_HOURS)
        .enumerate()
        .all(|(day, values)| rows.is_dated(day) || all_zero(values))
}
