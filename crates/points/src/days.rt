// A winter day of the history years: its place, the lent blocks, and what its points need of each year.
ghost use Rattle.std.specs.Prelude.{◌≡◌, ◌<◌, T, get_or};
ghost use Rattle.meaning.specs.Points.{own};
ghost use Rattle.history.specs.Years.{no_year};
ghost use Rattle.points.specs.OwnPoints.{code_in, profile_in, profiled_on};
ghost use Rattle.points.specs.OwnFits.{SiteFactorsFit, PlacePointIs, ProfileIs};
ghost use Rattle.points.specs.Sources.{day};
ghost use Rattle.points.specs.Fits.{DayFits};

use crate::own::{SiteFactors, profiled};
use blocks::{HALF_HOURS, NO_POINT, ROW, ReadBlocks, row};
use history::YearOnDay;
use rounding::{Exceeds, Power};

// By history year: what it needs of the day, looked up once; valid curves and CA. All is lent, so no half-hour copies an array.
// The site and its lists are as 1 and 14 to 17 leave them.
#[derive(Clone, Copy)]
pub struct WinterDay<'a> {
    pub site: &'a SiteFactors,
    pub w: usize,
    pub blocks: &'a ReadBlocks<'a>,
    pub years: &'a [YearOnDay; 10],
    pub curves: &'a [bool; 10],
    pub cas: &'a [u64; 10],
    ghost in_winter: { w < 152 },
    ghost site_fits: { SiteFactorsFit site.now },
    ghost fits: { DayFits site.now (day blocks.now.near.now blocks.now.far.now blocks.now.slots.now years.now curves.now cas.now) },
}

// A half-hour of a winter day.
#[derive(Clone, Copy)]
pub(crate) struct HalfHour<'a> {
    pub day: &'a WinterDay<'a>,
    pub h: usize,
    ghost in_day: { h < 20 },
}

impl HalfHour<'_> {
    // The code of a year's point, from its row.
    pub(crate) fn code(self, year: u64) -> u32
        ensures { result ≡ code_in self.entry.day.now.site.now.al self.entry.day.now.blocks.now.near.now self.entry.day.now.blocks.now.far.now year self.entry.day.now.w self.entry.h }
    {
        let day = self.day;
        let points = row(day.blocks.near, day.blocks.far, day.site.al, year);
        points
            .get(HALF_HOURS * day.w + self.h)
            .copied()
            .unwrap_or(NO_POINT)
    }

    // A year's profile value.
    pub(crate) fn profile(self, k: usize) -> u64
        requires { k < 10 }
        ensures { ProfileIs (profile_in self.entry.day.now.blocks.now.slots.now k self.entry.day.now.w self.entry.h) result }
    {
        let value = self.day.blocks.slots[ROW * k + (HALF_HOURS * self.day.w + self.h)];
        u64::from(value)
    }

    // An index donor's point, profiled from the interval around the day.
    #[tactic(auto, unfolding(crate::specs::OwnPoints::profiled_on))]
    pub(crate) fn profiled(self, k: usize) -> Result<Option<Power>, Exceeds>
        requires { (k < 10) × T (get_or self.day.now.years.now k no_year).is_donor }
        ensures { PlacePointIs (own (profiled_on self.entry.day.now.blocks.now.slots.now self.entry.day.now.years.now k self.entry.day.now.w self.entry.h)) result }
    {
        let year = &self.day.years[k];
        profiled(year.energy, self.profile(k), year.total)
    }
}
