// The cases, from one border of 1 to the next: what each is called, the record before it is forged, and what is forged.
use crate::Base::{
    BeforeS, CurveBeforeS, IndexBeforeS, IndexMeter, NoMeter, Refused, River, Wind, WindBeforeS,
};
use crate::{Base, Forge};
use rounding::{Energy, Watts};

pub(crate) type Case = (&'static str, Base, Forge);

// The count of lines, the last tag, readings and the last index.
pub(crate) const PLAIN_FIELDS: [Case; 11] = [
    ("as it is", Wind, Forge::Nothing),
    (
        "count 9,999: E 1 is a wrong count",
        Wind,
        Forge::Count(9_999),
    ),
    ("count 10,000", Wind, Forge::Count(10_000)),
    ("last tag E: no line after it", Wind, Forge::Last(8)),
    ("last tag 9", Wind, Forge::Last(9)),
    ("600 readings", Wind, Forge::Readings(600)),
    ("601 readings", Wind, Forge::Readings(601)),
    (
        "last index 10^12",
        Wind,
        Forge::LastIndex(Energy(1_000_000_000_000)),
    ),
    (
        "last index 10^12 + 1",
        Wind,
        Forge::LastIndex(Energy(1_000_000_000_001)),
    ),
    ("a refused record", Refused, Forge::Nothing),
    (
        "a refused record, count 10,000",
        Refused,
        Forge::Count(10_000),
    ),
];

// What S gave: AL, filière, meter, PS; AL and filière against 9.
pub(crate) const SITE_FIELDS: [Case; 20] = [
    ("AL 0", Wind, Forge::Al(0)),
    ("AL 2020", Wind, Forge::Al(2020)),
    ("AL 2021", Wind, Forge::Al(2021)),
    ("AL 2026", Wind, Forge::Al(2026)),
    ("AL 2027", Wind, Forge::Al(2027)),
    ("filiere 0", Wind, Forge::Filiere(0)),
    ("filiere 1", Wind, Forge::Filiere(1)),
    ("filiere 11", Wind, Forge::Filiere(11)),
    ("filiere 12", Wind, Forge::Filiere(12)),
    ("filiere 5, AL 2022", Wind, Forge::Both(2022, 5)),
    ("filiere 6, AL 2022: 9", Wind, Forge::Both(2022, 6)),
    ("filiere 11, AL 2022: 9", Wind, Forge::Both(2022, 11)),
    ("filiere 6, AL 2023", Wind, Forge::Both(2023, 6)),
    ("filiere 11, AL 2023", Wind, Forge::Both(2023, 11)),
    ("PS 0", Wind, Forge::Ps(Watts(0))),
    ("PS 1", Wind, Forge::Ps(Watts(1))),
    ("PS 100,000,000", Wind, Forge::Ps(Watts(100_000_000))),
    ("PS 100,000,001", Wind, Forge::Ps(Watts(100_000_001))),
    (
        "index meter: default power without P",
        IndexMeter,
        Forge::Nothing,
    ),
    ("no meter after S", NoMeter, Forge::Nothing),
];

// The same before S, where no year is the file's.
pub(crate) const FIELDS_BEFORE_S: [Case; 28] = [
    ("before S", BeforeS, Forge::Nothing),
    ("before S, AL 1", BeforeS, Forge::Al(1)),
    ("before S, AL 2020", BeforeS, Forge::Al(2020)),
    ("before S, AL 2021", BeforeS, Forge::Al(2021)),
    ("before S, AL 2026", BeforeS, Forge::Al(2026)),
    ("before S, AL 2027", BeforeS, Forge::Al(2027)),
    ("before S, filiere 1", BeforeS, Forge::Filiere(1)),
    ("before S, filiere 5", BeforeS, Forge::Filiere(5)),
    (
        "before S, filiere 6 with AL 0: 9",
        BeforeS,
        Forge::Filiere(6),
    ),
    ("before S, filiere 11", BeforeS, Forge::Both(2023, 11)),
    ("before S, filiere 12", BeforeS, Forge::Both(2023, 12)),
    ("before S, PS 1", BeforeS, Forge::Ps(Watts(1))),
    (
        "before S, PS 100,000,000",
        BeforeS,
        Forge::Ps(Watts(100_000_000)),
    ),
    (
        "before S, PS 100,000,001",
        BeforeS,
        Forge::Ps(Watts(100_000_001)),
    ),
    ("a curve meter before S", CurveBeforeS, Forge::Nothing),
    ("an index meter before S", IndexBeforeS, Forge::Nothing),
    ("before S, last C", BeforeS, Forge::LastC(739_685)),
    ("before S, last X", BeforeS, Forge::LastX(739_685)),
    ("before S, last D", BeforeS, Forge::LastD(739_685)),
    ("before S, last P", BeforeS, Forge::LastP(739_685)),
    ("before S, last B", BeforeS, Forge::LastB(2020)),
    ("before S, last R", BeforeS, Forge::LastR(2020)),
    ("before S, a P date", BeforeS, Forge::ProfileDates(0, 1)),
    ("before S, a D date", BeforeS, Forge::DailyDates(0, 1)),
    ("before S, a break", BeforeS, Forge::Break(0, 1)),
    ("before S, a rate", BeforeS, Forge::Rate(0, 1000)),
    (
        "before S, AL 2025 and filiere 2",
        WindBeforeS,
        Forge::Nothing,
    ),
    (
        "before S, AL 2025 and filiere 2, last B 2020",
        WindBeforeS,
        Forge::LastB(2020),
    ),
];

// The last date of C and of P: a winter date of a history year. A date is 366 times the year, and the date place.
pub(crate) const WINTER_DATES: [(&str, u64); 11] = [
    ("1", 1),
    ("31 December 2015", 737_855),
    ("1 January 2016", 737_856),
    ("29 February 2019", 739_013),
    ("29 February 2020", 739_379),
    ("31 March 2020", 739_410),
    ("1 April 2020", 739_411),
    ("31 October 2020", 739_624),
    ("1 November 2020", 739_625),
    ("31 December 2020", 739_685),
    ("1 January 2021", 739_686),
];

// The last date of X and of D: a date of an axis year.
pub(crate) const AXIS_DATES: [(&str, u64); 8] = [
    ("1", 1),
    ("31 December 2014", 737_489),
    ("1 January 2015", 737_490),
    ("29 February 2019", 739_013),
    ("29 February 2020", 739_379),
    ("1 April 2020", 739_411),
    ("31 December 2021", 740_051),
    ("1 January 2022", 740_052),
];

// The last year of B and of R: a history year.
pub(crate) const YEARS: [(&str, u64); 5] = [
    ("1", 1),
    ("2015", 2015),
    ("2016", 2016),
    ("2020", 2020),
    ("2021", 2021),
];

// The same for run of river, whose history begins in 2011 and whose axis in 2010.
pub(crate) const RIVER_DATES: [Case; 6] = [
    (
        "last C 31 December 2010, river",
        River,
        Forge::LastC(736_025),
    ),
    ("last C 1 January 2011, river", River, Forge::LastC(736_026)),
    (
        "last X 31 December 2009, river",
        River,
        Forge::LastX(735_659),
    ),
    ("last X 1 January 2010, river", River, Forge::LastX(735_660)),
    ("last B 2010, river", River, Forge::LastB(2010)),
    ("last B 2011, river", River, Forge::LastB(2011)),
];

// P dates from 2016, D dates from 2015, or from 2011 and 2010 for run of river.
pub(crate) const DATES_BY_YEAR: [Case; 21] = [
    ("151 P dates of 2019", Wind, Forge::ProfileDates(3, 151)),
    ("152 P dates of 2019", Wind, Forge::ProfileDates(3, 152)),
    ("152 P dates of 2020", Wind, Forge::ProfileDates(4, 152)),
    ("153 P dates of 2020", Wind, Forge::ProfileDates(4, 153)),
    ("a P date of a sixth year", Wind, Forge::ProfileDates(5, 1)),
    ("a P date of a tenth year", Wind, Forge::ProfileDates(9, 1)),
    ("151 P dates of 2011", River, Forge::ProfileDates(0, 151)),
    ("152 P dates of 2011", River, Forge::ProfileDates(0, 152)),
    (
        "152 P dates of 2020, river",
        River,
        Forge::ProfileDates(9, 152),
    ),
    (
        "153 P dates of 2020, river",
        River,
        Forge::ProfileDates(9, 153),
    ),
    ("365 D dates of 2015", Wind, Forge::DailyDates(0, 365)),
    ("366 D dates of 2015", Wind, Forge::DailyDates(0, 366)),
    ("365 D dates of 2019", Wind, Forge::DailyDates(4, 365)),
    ("366 D dates of 2019", Wind, Forge::DailyDates(4, 366)),
    ("366 D dates of 2020", Wind, Forge::DailyDates(5, 366)),
    ("367 D dates of 2020", Wind, Forge::DailyDates(5, 367)),
    ("365 D dates of 2021", Wind, Forge::DailyDates(6, 365)),
    ("a D date of an eighth year", Wind, Forge::DailyDates(7, 1)),
    ("a D date of a twelfth year", Wind, Forge::DailyDates(11, 1)),
    (
        "365 D dates of 2021, river",
        River,
        Forge::DailyDates(11, 365),
    ),
    (
        "366 D dates of 2021, river",
        River,
        Forge::DailyDates(11, 366),
    ),
];

// A break is 0 or 1, a rate 0 or 10 to 1000.
pub(crate) const BREAKS_AND_RATES: [Case; 13] = [
    ("a break in 2016", Wind, Forge::Break(0, 1)),
    ("two breaks in 2016", Wind, Forge::Break(0, 2)),
    ("a break in a sixth year", Wind, Forge::Break(5, 1)),
    ("a break in a tenth year", Wind, Forge::Break(9, 1)),
    ("a break in 2019", River, Forge::Break(8, 1)),
    ("rate 1 of 2020", Wind, Forge::Rate(4, 1)),
    ("rate 9 of 2020", Wind, Forge::Rate(4, 9)),
    ("rate 10 of 2020", Wind, Forge::Rate(4, 10)),
    ("rate 1000 of 2020", Wind, Forge::Rate(4, 1000)),
    ("rate 1001 of 2020", Wind, Forge::Rate(4, 1001)),
    ("a rate of a sixth year", Wind, Forge::Rate(5, 1000)),
    ("a rate of a tenth year", Wind, Forge::Rate(9, 1000)),
    ("a rate of 2020", River, Forge::Rate(9, 1000)),
];

// Points: near rows from 2016, far rows from 2011. A line reads no block.
pub(crate) const POINTS_HELD: [Case; 19] = [
    (
        "1 January 2016 100,000,000 W",
        Wind,
        Forge::Near(0, 100_000_000),
    ),
    (
        "1 January 2016 100,000,001 W",
        Wind,
        Forge::Near(0, 100_000_001),
    ),
    (
        "one below the value for missing",
        Wind,
        Forge::Near(0, 4_294_967_294),
    ),
    ("29 February 2019 0 W", Wind, Forge::Near(10_300, 0)),
    ("29 February 2020 0 W", Wind, Forge::Near(13_340, 0)),
    (
        "31 December 2020 100,000,000 W",
        Wind,
        Forge::Near(15_199, 100_000_000),
    ),
    (
        "31 December 2020 100,000,001 W",
        Wind,
        Forge::Near(15_199, 100_000_001),
    ),
    ("before S, a point", BeforeS, Forge::Near(0, 0)),
    ("before S, a far point", BeforeS, Forge::Far(0, 0)),
    (
        "before S, AL 2025 and filiere 2, a point",
        WindBeforeS,
        Forge::Near(0, 0),
    ),
    ("wind has no far year", Wind, Forge::Far(0, 0)),
    ("nor at the end", Wind, Forge::Far(15_199, 0)),
    (
        "1 January 2011 100,000,000 W",
        River,
        Forge::Far(0, 100_000_000),
    ),
    (
        "1 January 2011 100,000,001 W",
        River,
        Forge::Far(0, 100_000_001),
    ),
    ("29 February 2011 0 W", River, Forge::Far(1_180, 0)),
    ("29 February 2012 0 W", River, Forge::Far(4_220, 0)),
    ("31 December 2015 0 W", River, Forge::Far(15_199, 0)),
    (
        "31 December 2015 100,000,000 W",
        River,
        Forge::Far(15_199, 100_000_000),
    ),
    (
        "31 December 2015 100,000,001 W",
        River,
        Forge::Far(15_199, 100_000_001),
    ),
];

// Slot profiles, rows from 2016, or 2011; daily sums, rows from 2015, or 2010.
pub(crate) const PROFILES_HELD: [Case; 23] = [
    (
        "1 January 2016 profile 65,535",
        Wind,
        Forge::Slot(0, 65_535),
    ),
    ("29 February 2016 profile 1", Wind, Forge::Slot(1_180, 1)),
    ("29 February 2017 profile 1", Wind, Forge::Slot(4_220, 1)),
    ("31 December 2020 profile 1", Wind, Forge::Slot(15_199, 1)),
    ("profile 1 of a sixth year", Wind, Forge::Slot(15_200, 1)),
    ("profile 1 at the end", Wind, Forge::Slot(30_399, 1)),
    (
        "31 December 2020 profile 1, last",
        River,
        Forge::Slot(30_399, 1),
    ),
    ("29 February 2011 profile 1", River, Forge::Slot(1_180, 1)),
    ("29 February 2012 profile 1", River, Forge::Slot(4_220, 1)),
    ("before S, a profile value", BeforeS, Forge::Slot(0, 1)),
    (
        "1 January 2015 sum 3,145,680",
        Wind,
        Forge::Sum(0, 3_145_680),
    ),
    (
        "1 January 2015 sum 3,145,681",
        Wind,
        Forge::Sum(0, 3_145_681),
    ),
    ("29 February 2015 sum 1", Wind, Forge::Sum(59, 1)),
    ("29 February 2016 sum 1", Wind, Forge::Sum(425, 1)),
    ("31 December 2021 sum 1", Wind, Forge::Sum(2_561, 1)),
    (
        "31 December 2021 sum 3,145,680",
        Wind,
        Forge::Sum(2_561, 3_145_680),
    ),
    (
        "31 December 2021 sum 3,145,681",
        Wind,
        Forge::Sum(2_561, 3_145_681),
    ),
    ("sum 1 of an eighth year", Wind, Forge::Sum(2_562, 1)),
    ("sum 1 at the end", Wind, Forge::Sum(4_391, 1)),
    ("29 February 2010 sum 1", River, Forge::Sum(59, 1)),
    ("29 February 2012 sum 1", River, Forge::Sum(791, 1)),
    ("31 December 2021 sum 1, last", River, Forge::Sum(4_391, 1)),
    ("before S, a sum", BeforeS, Forge::Sum(0, 1)),
];

// Two counted readings, on 1 and 3 January 2015, both 0 Wh.
pub(crate) const READINGS_HELD: [Case; 20] = [
    (
        "the second on 31 December 2021",
        Wind,
        Forge::Position(1, 2_561),
    ),
    ("the second past the axis", Wind, Forge::Position(1, 2_562)),
    (
        "the second on 31 December 2021, river",
        River,
        Forge::Position(1, 4_391),
    ),
    (
        "the second past the axis, river",
        River,
        Forge::Position(1, 4_392),
    ),
    (
        "the second far past it",
        Wind,
        Forge::Position(1, 4_294_967_295),
    ),
    (
        "the second on 29 February 2015: 7",
        Wind,
        Forge::Position(1, 59),
    ),
    (
        "the second on 29 February 2016",
        Wind,
        Forge::Position(1, 425),
    ),
    ("the second on 2 January 2015", Wind, Forge::Position(1, 1)),
    ("both on 1 January 2015: 8", Wind, Forge::Position(1, 0)),
    (
        "the first on 4 January 2015: 8",
        Wind,
        Forge::Position(0, 3),
    ),
    (
        "the second 10^12 Wh",
        Wind,
        Forge::Index(1, Energy(1_000_000_000_000)),
    ),
    (
        "the second 10^12 + 1 Wh",
        Wind,
        Forge::Index(1, Energy(1_000_000_000_001)),
    ),
    (
        "the first 1 Wh, then 0: 10",
        Wind,
        Forge::Index(0, Energy(1)),
    ),
    (
        "the third on 1 January 2015, but not counted",
        Wind,
        Forge::Position(2, 0),
    ),
    (
        "the third 10^12 + 1 Wh, but not counted",
        Wind,
        Forge::Index(2, Energy(1_000_000_000_001)),
    ),
    (
        "the 600th of 600 on 31 December 2021",
        Wind,
        Forge::LastOf600(2_561),
    ),
    (
        "the 600th of 600 past the axis",
        Wind,
        Forge::LastOf600(2_562),
    ),
    (
        "the 600th of 600 on 1 January 2015: 8",
        Wind,
        Forge::LastOf600(0),
    ),
    (
        "all past the axis, but not counted",
        Wind,
        Forge::Uncounted(2_562),
    ),
    ("before S, a counted reading", BeforeS, Forge::Readings(1)),
];

// A block of another size: 1 for every call.
pub(crate) const SIZES: [Case; 12] = [
    ("15,199 places: near", Wind, Forge::NearSize(15_199)),
    ("15,201 places: near", Wind, Forge::NearSize(15_201)),
    ("15,199 places: far", Wind, Forge::FarSize(15_199)),
    ("15,201 places: far", Wind, Forge::FarSize(15_201)),
    (
        "30,399 places: slot profiles",
        Wind,
        Forge::SlotsSize(30_399),
    ),
    (
        "30,401 places: slot profiles",
        Wind,
        Forge::SlotsSize(30_401),
    ),
    (
        "4,391 places: daily profiles",
        Wind,
        Forge::DailySize(4_391),
    ),
    (
        "4,393 places: daily profiles",
        Wind,
        Forge::DailySize(4_393),
    ),
    ("599 places: readings", Wind, Forge::ReadingsSize(599)),
    ("601 places: readings", Wind, Forge::ReadingsSize(601)),
    ("4,399 places: curve", Wind, Forge::CurveSize(4_399)),
    ("4,401 places: curve", Wind, Forge::CurveSize(4_401)),
];
