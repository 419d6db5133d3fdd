// The years of a site.
ghost use Rattle.std.specs.Prelude.{◌≡◌};
ghost use Rattle.calendar.specs.Spans.{history_years, axis_years};

use crate::Site;
use calendar::Years;

impl Site {
    // Its history years, none for an AL or a filière that is not known.
    pub fn history(self) -> Years
        ensures { result ≡ history_years self.al self.filiere }
    {
        calendar::history(self.al, self.filiere)
    }

    // Its axis years: one more on each side of the history.
    pub fn axis(self) -> Years
        ensures { result ≡ axis_years (history_years self.al self.filiere) }
    {
        calendar::axis(self.al, self.filiere)
    }
}
