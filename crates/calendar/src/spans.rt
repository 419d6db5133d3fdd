// The history and axis years of an AL and a filière.
ghost use Rattle.std.specs.Prelude.{◌≡◌, ◌≤◌, ◌-◌};
ghost use Rattle.calendar.specs.Spans.{among, history_length, is_known, history_years, axis_years};

use crate::Years;

// A span like any other, which contains no year: whoever asks it needs no Option.
const NO_YEARS: Years = Years { first: 0, count: 0 };

impl Years {
    // Whether a year is one of them: by the difference, since the sum of first and count can be too large for a u64.
    #[tactic(auto, unfolding(crate::specs::Spans::among))]
    pub fn contains(self, year: u64) -> bool
        ensures { result ≡ among self year }
    {
        self.first <= year && year - self.first < self.count
    }

    // The row of a year in a block with a row for each year from the first on.
    pub fn row(self, year: u64) -> usize
        requires { self.first ≤ year }
        ensures { result ≡ year - self.first }
    {
        (year - self.first) as usize
    }
}

// How many years the history has: a table of the rules, ten for run of river and pondage hydro, else five.
#[tactic(auto, unfolding(crate::specs::Spans::history_length))]
pub fn history_length(filiere: u64) -> u64
    ensures { result ≡ history_length filiere }
{
    match filiere {
        4 | 5 => 10,
        _ => 5,
    }
}

#[tactic(auto, unfolding(crate::specs::Spans::is_known))]
fn is_known(al: u64, filiere: u64) -> bool
    ensures { result ≡ is_known al filiere }
{
    (2021..=2026).contains(&al) && (1..=11).contains(&filiere)
}

// The history years, which end at AL-5; none for an AL or a filière that is not known.
pub fn history(al: u64, filiere: u64) -> Years
    ensures { result ≡ history_years al filiere }
{
    if !is_known(al, filiere) {
        return NO_YEARS;
    }
    let count = history_length(filiere);
    Years {
        first: al - (count + 4),
        count,
    }
}

// The axis years: one more on each side of the history.
pub fn axis(al: u64, filiere: u64) -> Years
    ensures { result ≡ axis_years (history_years al filiere) }
{
    let h = history(al, filiere);
    if h.count == 0 {
        return NO_YEARS;
    }
    Years {
        first: h.first - 1,
        count: h.count + 2,
    }
}
