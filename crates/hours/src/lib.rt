// The hours of document 01: the schedule, the critical days, and the period of a quarter-hour; and schedules that are lent (02 No. 7).
#![tactic(auto)]

ghost use Rattle.std.specs.Prelude.{◌≡◌, true, [], ◌+◌, ◌-◌, ◌^◌, ◌<◌, ◌≤◌, min, length, get_or, is_none, unwrap_or, replicate};
ghost use Rattle.std.specs.List.{list_all};
ghost use Rattle.calendar.specs.Calendar.{season_of, day_kind_of};
ghost use Rattle.hours.specs.CriticalDays.{is_critical, critical_count, past_last_day, critical_refused};
ghost use Rattle.hours.specs.Hours.{four, fixed_schedule, row_start, period_on_day};
ghost use Rattle.hours.specs.Packing.{byte_at, entry_of, unpacked};
ghost use Rattle.hours.specs.Schedules.{schedule_length, is_entry, all_entries, schedule_refused, word_from, packed_length, packed, words_or_none};

mod schedule;

use calendar::{DayKind, Season};
use schedule::PACKED;

// The periods, dearest first. They stay numbers, since the entries of a lent schedule are bytes of any value and one that is no period is counted in none: with
// an enum each quarter-hour would have an Option of it, which is no plainer.
pub const CRITICAL: u8 = 0;

pub const ON_PEAK: u8 = 1;

pub const OFF_PEAK: u8 = 2;

pub const DISCOUNT: u8 = 3;

// The entries of a schedule: 96 quarters for each season and day kind.
pub const SCHEDULE_LENGTH: usize = 384;

// The words of a packed schedule.
pub const PACKED_LENGTH: usize = 12;

// The most critical days that a month may have. The days are a number, bit 0 for day 1, as a caller in C lends them: any number is one, and std has what is
// asked of it.
const MOST_CRITICAL_DAYS: u32 = 10;

// Four amounts, one for each period. Four fields and no array: the steps of document 01 and the definitions (`four`, `by_period`) name each, and stay word for
// word. So what is done for each period stands four times, here and above.
#[derive(Clone, Copy, PartialEq, Eq, Default, Debug)]
pub struct ByPeriod {
    pub critical: u64,
    pub onpeak: u64,
    pub offpeak: u64,
    pub discount: u64,
}

impl ByPeriod {
    // The amounts, dearest period first. A method and no `From`, which would not say what the numbers are.
    pub fn amounts(self) -> [u64; 4]
        ensures { result ≡ four self [] }
    {
        [self.critical, self.onpeak, self.offpeak, self.discount]
    }

    // The sum over the periods. One that 64 bits can't hold stays at their largest number. No sum of std does, and one function for this and for the sum of the
    // nameplates would be no shorter than the two.
    pub fn total(self) -> u64
        ensures { result ≡ min (self.critical + self.onpeak + self.offpeak + self.discount) (2 ^ 64 - 1) }
    {
        self.critical
            .saturating_add(self.onpeak)
            .saturating_add(self.offpeak)
            .saturating_add(self.discount)
    }
}

// What decides the periods of a day: where its row starts in a schedule, and whether it is critical. A place and no slice: `day_hours` takes no schedule, and
// the definition reads entry row + quarter of the whole list, so that a slice would need a law that its entries are those.
#[derive(Clone, Copy, PartialEq, Eq, Debug)]
pub struct DayHours {
    pub row: usize,
    pub critical: bool,
}

// Byte b of a packed schedule.
#[tactic(auto, unfolding(crate::specs::Packing::byte_at))]
fn byte_at(words: &[u64; PACKED_LENGTH], b: usize) -> u8
    requires { b < 96 }
    ensures { result ≡ byte_at words.now b }
{
    words[b / 8].to_le_bytes()[b % 8]
}

// Entry k of a byte.
fn entry_of(byte: u8, k: u32) -> u8
    requires { k < 4 }
    ensures { result ≡ entry_of byte k }
{
    (byte >> (2 * k)) & 3
}

// The entries of a packed schedule, one to a byte. Not by `from_fn`: its contract is a chain of as many facts as there are entries, and with 384 the proof didn't
// close.
fn unpack(words: &[u64; PACKED_LENGTH]) -> [u8; SCHEDULE_LENGTH]
    ensures { result ≡ unpacked words.now 96 }
{
    let mut entries = [0; SCHEDULE_LENGTH];
    for (place, entry) in entries.iter_mut().enumerate() {
        *entry = entry_of(byte_at(words, place / 4), (place % 4) as u32);
    }
    entries
}

// The fixed schedule, unpacked, since the count of a month reads an entry for each quarter-hour.
pub fn fixed_schedule() -> [u8; SCHEDULE_LENGTH]
    ensures { result ≡ fixed_schedule }
{
    unpack(&PACKED)
}

// Whether each number is an entry of a schedule.
fn all_entries(schedule: &[u8]) -> bool
    ensures { result ≡ list_all is_entry schedule.now }
{
    schedule
        .iter()
        .all(|entry| (ON_PEAK..=DISCOUNT).contains(entry))
}

// Whether a schedule is refused (number 15).
pub fn schedule_refused(schedule: &[u8]) -> bool
    ensures { result ≡ schedule_refused schedule.now }
{
    schedule.len() != SCHEDULE_LENGTH || !all_entries(schedule)
}

// The word of 32 entries. From the last to the first, which so comes to stand lowest.
fn word_of(entries: &[u8; 32]) -> u64
    requires { all_entries entries.now ≡ true }
    ensures { result ≡ word_from entries.now 0 32 }
{
    let mut word = 0;
    for entry in entries.iter().rev() {
        word = u64::from(*entry) + 4 * word;
    }
    word
}

// The words of a schedule that isn't refused.
fn words_of(schedule: &[u8]) -> [u64; PACKED_LENGTH]
    requires length { length schedule.now ≡ schedule_length }
    requires entries { all_entries schedule.now ≡ true }
    ensures { result ≡ packed schedule.now }
{
    let (parts, _) = schedule.as_chunks();
    let mut words = [0; PACKED_LENGTH];
    // By place: nothing is known of what a loop over `words.iter_mut().zip(parts)` wrote.
    for (w, part) in parts.iter().enumerate() {
        words[w] = word_of(part);
    }
    words
}

// The words of a schedule, none where it is refused.
pub fn pack(schedule: &[u8]) -> Option<[u64; PACKED_LENGTH]>
    ensures words { unwrap_or result (replicate packed_length 0) ≡ words_or_none schedule.now }
    ensures none { is_none result ≡ schedule_refused schedule.now }
{
    if schedule_refused(schedule) {
        return None;
    }
    Some(words_of(schedule))
}

// Where the row of a season and a day kind starts in the schedule.
pub fn row_start(season: Season, kind: DayKind) -> usize
    ensures { result ≡ row_start season kind }
{
    match (season, kind) {
        (Season::Winter, DayKind::Weekday) => 0,
        (Season::Winter, DayKind::Weekend) => 96,
        (Season::Summer, DayKind::Weekday) => 192,
        (Season::Summer, DayKind::Weekend) => 288,
    }
}

// The period of a schedule's entry on a day.
#[tactic(auto, unfolding(crate::specs::Hours::period_on_day))]
pub fn period_on(day: DayHours, entry: u8) -> u8
    ensures { result ≡ period_on_day day.critical entry }
{
    if day.critical && entry == ON_PEAK {
        CRITICAL
    } else {
        entry
    }
}

// Whether a day is among the critical days.
pub fn is_critical(critical_days: u32, day: u32) -> bool
    ensures { result ≡ is_critical critical_days day }
{
    match day {
        1..=32 => (critical_days >> (day - 1)) & 1 == 1,
        _ => false,
    }
}

// The number of critical days.
pub fn critical_count(critical_days: u32) -> u32
    ensures { result ≡ critical_count critical_days 32 }
{
    critical_days.count_ones()
}

// Whether a day past the month's last one is among the critical days.
pub fn past_last_day(month: u32, critical_days: u32) -> bool
    ensures { result ≡ past_last_day month critical_days }
{
    critical_days & (u32::MAX << calendar::days_in(month)) != 0
}

// Whether the critical days are refused (number 9).
#[tactic(auto, unfolding(crate::specs::CriticalDays::critical_refused))]
pub fn critical_refused(month: u32, critical_days: u32) -> bool
    ensures { result ≡ critical_refused month critical_days }
{
    past_last_day(month, critical_days) || MOST_CRITICAL_DAYS < critical_count(critical_days)
}

// What decides the periods of a day of a month. A month and its critical days stay two numbers, here and above: a month goes alone in most signatures, and a
// type of both would be made anew for each call.
pub fn day_hours(month: u32, day: u32, critical_days: u32) -> DayHours
    ensures { (result.row ≡ row_start (season_of month) (day_kind_of month day)) × (result.critical ≡ is_critical critical_days day) }
{
    DayHours {
        row: row_start(
            calendar::season_of(month),
            calendar::day_kind_of(month, day),
        ),
        critical: is_critical(critical_days, day),
    }
}
