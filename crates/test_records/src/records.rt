// The record of a case, with what is forged in it.
use crate::held::set_at;
use crate::{Base, Forge};
use line_form::{Meter, Site};
use progress::{Progress, State, Tallies};
use record_calls::Record;
use rounding::Watts;

// What S gives of wind.
const WIND: Site = Site {
    al: 2025,
    filiere: 2,
    meter: Some(Meter::Curve),
    ps: Watts(5_000_000),
};

pub(crate) fn is_before_s(base: Base) -> bool {
    matches!(
        base,
        Base::BeforeS | Base::CurveBeforeS | Base::IndexBeforeS | Base::WindBeforeS
    )
}

// The record before it is forged, after S with the last tag that its call needs: a number, as the record has it.
fn base_record(base: Base, last: u64) -> Record {
    let mut record = Record::never_opened();
    record.state = State::Open;
    if !is_before_s(base) {
        record.count = 1;
        record.progress.last = last;
        record.progress.site = WIND;
    }
    match base {
        Base::Wind | Base::BeforeS => {}
        Base::River => record.progress.site.filiere = 4,
        Base::IndexMeter => record.progress.site.meter = Some(Meter::Index),
        Base::NoMeter => record.progress.site.meter = None,
        Base::Refused => record.state = State::Refused,
        Base::CurveBeforeS => record.progress.site.meter = Some(Meter::Curve),
        Base::IndexBeforeS => record.progress.site.meter = Some(Meter::Index),
        Base::WindBeforeS => record.progress.site = Site {
            meter: None,
            ..WIND
        },
    }
    record
}

fn forge_site(site: &mut Site, forge: Forge) {
    match forge {
        Forge::Al(al) => site.al = al,
        Forge::Filiere(filiere) => site.filiere = filiere,
        Forge::Both(al, filiere) => {
            site.al = al;
            site.filiere = filiere;
        }
        Forge::Ps(ps) => site.ps = ps,
        _ => {}
    }
}

// Two readings are counted where one is forged, and all 600 where the last is.
fn forge_progress(progress: &mut Progress, forge: Forge) {
    match forge {
        Forge::Last(tag) => progress.last = tag,
        Forge::Readings(n) => progress.readings = n,
        Forge::Position(_, _) | Forge::Index(_, _) => progress.readings = 2,
        Forge::LastOf600(_) => progress.readings = 600,
        Forge::LastIndex(n) => progress.last_index = n,
        Forge::LastC(date) => progress.lasts.c = date,
        Forge::LastX(date) => progress.lasts.x = date,
        Forge::LastD(date) => progress.lasts.d = date,
        Forge::LastP(date) => progress.lasts.p = date,
        Forge::LastB(year) => progress.lasts.b = year,
        Forge::LastR(year) => progress.lasts.r = year,
        _ => {}
    }
}

// The number of a year, where the record has it.
fn forge_tallies(tallies: &mut Tallies, forge: Forge) {
    match forge {
        Forge::ProfileDates(k, n) => set_at(&mut tallies.profile_dates, k, n),
        Forge::DailyDates(k, n) => set_at(&mut tallies.daily_dates, k, n),
        Forge::Break(k, n) => set_at(&mut tallies.breaks, k, n),
        Forge::Rate(k, n) => set_at(&mut tallies.rates, k, n),
        _ => {}
    }
}

// The record of a case, forged. The last tag is a number, as the record has it.
pub(crate) fn record_of(base: Base, forge: Forge, last: u64) -> Record {
    let mut record = base_record(base, last);
    if let Forge::Count(n) = forge {
        record.count = n;
    }
    forge_progress(&mut record.progress, forge);
    forge_site(&mut record.progress.site, forge);
    forge_tallies(&mut record.progress.tallies, forge);
    record
}
