// The calendar of document 01: months numbered from January 2000, their days, weekdays, seasons, and the readings of a day
// and of a month, with the change of the clocks that request 1 adds. Every function is defined for every number: months past December
// 2099 follow the same rules.
#![tactic(auto)]

ghost use Rattle.std.specs.Prelude.{◌≡◌, ◌≢◌, IfSome};
ghost use Rattle.calendar.specs.Calendar.{year_of, month_of_year, is_leap, leap_day, days_in, first_weekday, weekday_of, day_kind_of, season_of};
ghost use Rattle.calendar.specs.Calendar.{Changes, day_of, clock_by, clock_on, length_by, day_length, quarter_by, readings_through, month_length};
ghost use Rattle.calendar.specs.declared.Clock.TheVariants.{Unchanged};

#[derive(Clone, Copy, PartialEq, Eq, Debug)]
pub enum Season {
    Winter,
    Summer,
}

#[derive(Clone, Copy, PartialEq, Eq, Debug)]
pub enum DayKind {
    Weekday,
    Weekend,
}

// What the clocks do on a day: on one in March they are put forward from 02:00 to 03:00, on one in November back from 02:00 to 01:00. `Unchanged` is one of
// three and no None, as in the definitions and in the theorem `changes_once`, which is about them.
#[derive(Clone, Copy, PartialEq, Eq, Debug)]
pub enum Clock {
    Unchanged,
    Forward,
    Back,
}

// A day of a month, and what the clocks do on it; on all others they do nothing. It is one of two things: a type of these alone would be turned into a `Clock`
// for each day that is counted.
#[derive(Clone, Copy, PartialEq, Eq, Debug)]
pub struct Change {
    pub day: u32,
    pub clock: Clock,
}

// The days of January to December in a common year.
const COMMON_DAYS: [u32; 12] = [31, 28, 31, 30, 31, 30, 31, 31, 30, 31, 30, 31];

// Months of the year. They stay numbers, which are reckoned with and printed.
const FEBRUARY: u32 = 2;

const MARCH: u32 = 3;

const JULY: u32 = 7;

const SEPTEMBER: u32 = 9;

const NOVEMBER: u32 = 11;

// December 2099.
pub const LAST_MONTH: u32 = 1199;

// The quarter-hours of a day on which the clocks are unchanged.
const DAY_QUARTERS: usize = 96;

// The quarter-hours of an hour.
const HOUR: usize = 4;

// The quarter-hour at which the clocks change, 02:00.
pub const CHANGE_QUARTER: usize = 8;

// The first year in which they do.
const FIRST_YEAR: u32 = 2007;

// No month has more readings.
pub const MOST_READINGS: usize = 31 * DAY_QUARTERS;

// The year of a month.
pub fn year(month: u32) -> u32
    ensures { result ≡ year_of month }
{
    2000 + month / 12
}

// The month of the year: 1 is January.
pub fn month_of_year(month: u32) -> u32
    ensures { result ≡ month_of_year month }
{
    month % 12 + 1
}

// Whether a year is a leap year of the Gregorian calendar.
#[tactic(auto, unfolding(crate::specs::Calendar::is_leap))]
fn is_leap(year: u32) -> bool
    ensures { result ≡ is_leap year }
{
    year % 4 == 0 && (year % 100 != 0 || year % 400 == 0)
}

// 1 in February of a leap year, else 0.
#[tactic(auto, unfolding(crate::specs::Calendar::leap_day))]
fn leap_day(month: u32) -> u32
    ensures { result ≡ leap_day month }
{
    u32::from(month_of_year(month) == FEBRUARY && is_leap(year(month)))
}

// The days of a month.
pub fn days_in(month: u32) -> u32
    ensures { result ≡ days_in month }
{
    COMMON_DAYS[(month % 12) as usize] + leap_day(month)
}

// The weekday of a month's first day: 0 is Monday, 6 Sunday, and not an enum, since the day of a change is reckoned from it. Days are counted from 1 March
// 1999, a Monday, so that a leap day is the last day of its year; from March on, five months have 153 days.
pub fn first_weekday(month: u32) -> u32
    ensures { result ≡ first_weekday month }
{
    let months = u64::from(month) + 10;
    let years = months / 12;
    let leap_days = years.div_ceil(4) + years.div_ceil(400) - years.div_ceil(100);
    let days = 365 * years + leap_days + (153 * (months % 12) + 2) / 5;
    (days % 7) as u32
}

// The weekday of a day of a month. A month and a day of it stay two numbers, here and above: both may be any number, and so callers in C lend them.
fn weekday_of(month: u32, day: u32) -> u32
    ensures { result ≡ weekday_of month day }
{
    (first_weekday(month) + day.saturating_sub(1) % 7) % 7
}

// Monday to Friday, or the weekend.
#[tactic(auto, unfolding(crate::specs::Calendar::day_kind_of))]
pub fn day_kind_of(month: u32, day: u32) -> DayKind
    ensures { result ≡ day_kind_of month day }
{
    if weekday_of(month, day) < 5 {
        DayKind::Weekday
    } else {
        DayKind::Weekend
    }
}

// Summer from July to September, else winter.
#[tactic(auto, unfolding(crate::specs::Calendar::season_of))]
pub fn season_of(month: u32) -> Season
    ensures { result ≡ season_of month }
{
    if (JULY..=SEPTEMBER).contains(&month_of_year(month)) {
        Season::Summer
    } else {
        Season::Winter
    }
}

// The day of a month on which the clocks change, and how; none in a month in which they don't.
pub fn change_of(month: u32) -> Option<Change>
    ensures day { Changes month (day_of result) (clock_by result) }
    ensures none { IfSome result (λ change. change.clock ≢ Unchanged) }
{
    if year(month) < FIRST_YEAR {
        return None;
    }
    let first = first_weekday(month);
    match month_of_year(month) {
        MARCH => Some(Change {
            day: 14 - first,
            clock: Clock::Forward,
        }),
        NOVEMBER => Some(Change {
            day: 7 - first,
            clock: Clock::Back,
        }),
        _ => None,
    }
}

// What the clocks do on a day of a month with that change, or with none.
pub fn clock_on(change: Option<Change>, day: u32) -> Clock
    ensures { result ≡ clock_on change day }
{
    match change {
        Some(change) if day == change.day => change.clock,
        _ => Clock::Unchanged,
    }
}

// The readings of a day, by what the clocks do on it.
pub fn length_by(clock: Clock) -> usize
    ensures { result ≡ length_by clock }
{
    match clock {
        Clock::Unchanged => DAY_QUARTERS,
        Clock::Forward => DAY_QUARTERS - HOUR,
        Clock::Back => DAY_QUARTERS + HOUR,
    }
}

// The readings of a day.
pub fn day_length(month: u32, day: u32) -> usize
    ensures { result ≡ day_length month day }
{
    length_by(clock_on(change_of(month), day))
}

// The quarter-hour that a reading stands for, by its place in a day, 0 being the first. A place has 32 bits so that an hour more always has room.
#[tactic(auto, unfolding(crate::specs::Calendar::quarter_by))]
pub fn quarter_by(clock: Clock, place: u32) -> usize
    ensures { result ≡ quarter_by clock place }
{
    let quarter = place as usize;
    match clock {
        Clock::Forward if CHANGE_QUARTER <= quarter => quarter + HOUR,
        Clock::Back if CHANGE_QUARTER <= quarter => quarter - HOUR,
        _ => quarter,
    }
}

// The readings of the first days of a month: all days but at most one are of the same length.
pub fn readings_through(month: u32, days: u32) -> usize
    ensures { result ≡ readings_through month days }
{
    match change_of(month) {
        Some(change) if change.day <= days => {
            DAY_QUARTERS * (days - 1) as usize + length_by(change.clock)
        }
        _ => DAY_QUARTERS * days as usize,
    }
}

// The readings of a month.
#[tactic(auto, unfolding(crate::specs::Calendar::month_length))]
pub fn month_length(month: u32) -> usize
    ensures { result ≡ month_length month }
{
    readings_through(month, days_in(month))
}
