// What a bill reads from a register, and the day view. Registers are lent and only read: delivered and received as two slices, here and above, which is
// the form that document 01 names.
#![tactic(auto)]

ghost use Rattle.std.specs.Prelude.{◌≡◌, cond, ◌||◌, ◌+◌, ◌%◌, ◌<◌, ◌≤◌, ◌^◌, ℕ, eqb, length, slice_index};
ghost use Rattle.calendar.specs.Calendar.{days_in, clock_of, day_length, readings_through, month_length};
ghost use Rattle.hours.specs.Hours.{is_peak, period_on_day};
ghost use Rattle.registers.specs.Registers.{reading_limit, first_lost, tally_of};
ghost use Rattle.registers.specs.DayView.{part_shown, view_of, IsPart};
ghost use Rattle.registers.specs.Counting.{HasRoom, Room, counts_after, AddedTo, Added, AddedPair, FilledPair, Counted, DayCounted, Follows};

use calendar::Clock;
use hours::{ByPeriod, DayHours, SCHEDULE_LENGTH};

// The largest reading that is accepted, in Wh, beside the mark of a lost one.
const READING_LIMIT: u32 = 1_000_000;

// What a register holds in the place of a reading that is lost: a number among the readings, as they come from a caller in C.
const LOST: u32 = u32::MAX;

// The most Wh that a month's register comes to.
pub const MONTH_LIMIT: u64 = calendar::MOST_READINGS as u64 * READING_LIMIT as u64;

// All that a bill reads from one register: whether a reading is above the limit or the first one lost, the sums by period, and the power in
// W that the demand line prices. The two truth values are readings of their own, each for a row of the table of refusals that asks it in its turn; sums and
// power are meant whatever they say.
#[derive(Clone, Copy, PartialEq, Eq, Default, Debug)]
pub struct Tally {
    pub abovelimit: bool,
    pub firstlost: bool,
    pub sums: ByPeriod,
    pub power: u64,
}

// What the readings so far come to: sums by period, the largest sum of a pair that counts, whether a reading is above the limit, and what the
// last one counts as, or 0 where none is known: so the definition counts a lost reading that has none before it.
#[derive(Clone, Copy, Default)]
struct Count {
    sums: ByPeriod,
    largest: u64,
    above: bool,
    last: u32,
}

// A count that has room for a pair more.
#[derive(Clone, Copy)]
struct Roomy {
    so_far: Count,
    ghost room: { Room 2 so_far },
}

// Two readings, one after the other. Their periods, or entries, go beside them: where both quarters have one, it is one value, and what fills a gap takes the
// place of a reading alone.
#[derive(Clone, Copy)]
struct Pair {
    reading: u32,
    next: u32,
}

// What a reading counts as after the last one that isn't lost.
#[tactic(auto, unfolding(crate::specs::Counting::counts_after))]
fn counts_after(last: u32, reading: u32) -> u32
    ensures { result ≡ counts_after last reading }
{
    if reading == LOST { last } else { reading }
}

// Whether a register's first reading is lost.
#[tactic(auto, unfolding(crate::specs::Registers::first_lost, crate::specs::Registers::is_lost, crate::specs::Registers::reading))]
fn first_lost(register: &[u32]) -> bool
    ensures { result ≡ first_lost register.now }
{
    register.first() == Some(&LOST)
}

// The sums with an amount more in a period.
fn plus(sums: ByPeriod, period: u8, amount: u64) -> ByPeriod
    requires { HasRoom amount sums }
    ensures { AddedTo sums period amount result }
{
    let mut more = sums;
    match period {
        hours::CRITICAL => more.critical += amount,
        hours::ON_PEAK => more.onpeak += amount,
        hours::OFF_PEAK => more.offpeak += amount,
        hours::DISCOUNT => more.discount += amount,
        _ => {}
    }
    more
}

impl Pair {
    // The sum.
    fn sum(self) -> u64
        ensures { result ≡ self.reading + self.next }
    {
        u64::from(self.reading) + u64::from(self.next)
    }

    // The sum where it counts, which it does if either period is 0 or 1, else 0.
    fn counting_sum(self, period: u8, next_period: u8) -> u64
        ensures { result ≡ cond (is_peak period || is_peak next_period) (self.reading + self.next) 0 }
    {
        if period <= hours::ON_PEAK || next_period <= hours::ON_PEAK {
            self.sum()
        } else {
            0
        }
    }
}

impl Count {
    // The count with one reading more; its pair is not asked. A lost one is asked for the limit as what it counts as, which was asked before: so the
    // mark itself is passed over.
    fn add(self, period: u8, reading: u32) -> Count
        requires { Room 1 self }
        ensures { Added self period (counts_after self.last reading) result }
    {
        let counted = counts_after(self.last, reading);
        Count {
            sums: plus(self.sums, period, u64::from(counted)),
            above: self.above | (READING_LIMIT < counted),
            last: counted,
            ..self
        }
    }
}

impl Roomy {
    // The count with one pair more, one reading after the other, whatever they are.
    fn add_one_by_one(self, period: u8, next_period: u8, pair: Pair) -> Count
        ensures { FilledPair self.so_far period next_period pair.reading pair.next result }
    {
        let half = self.so_far.add(period, pair.reading);
        let whole = half.add(next_period, pair.next);
        let filled = Pair {
            reading: half.last,
            next: whole.last,
        };
        let sum = filled.counting_sum(period, next_period);
        Count {
            largest: whole.largest.max(sum),
            ..whole
        }
    }

    // The count with one pair more, both quarters of one period and the sum within the limit of a reading: so neither is lost or above it.
    fn add_at_once(self, period: u8, pair: Pair) -> Count
        requires { pair.reading + pair.next ≤ reading_limit }
        ensures { AddedPair self.so_far period period pair.reading pair.next result }
    {
        let count = self.so_far;
        Count {
            sums: plus(count.sums, period, pair.sum()),
            largest: count.largest.max(pair.counting_sum(period, period)),
            last: pair.next,
            ..count
        }
    }

    // The same where the schedule has this entry for both quarters. Most pairs are off-peak or discount, in long runs: these are asked first.
    fn add_same_entry(self, day: DayHours, entry: u8, pair: Pair) -> Count
        requires { pair.reading + pair.next ≤ reading_limit }
        ensures { AddedPair self.so_far (period_on_day day.critical entry) (period_on_day day.critical entry) pair.reading pair.next result }
    {
        let count = self.so_far;
        let mut sums = count.sums;
        match entry {
            hours::OFF_PEAK => sums.offpeak += pair.sum(),
            hours::DISCOUNT => sums.discount += pair.sum(),
            _ => return self.add_at_once(hours::period_on(day, entry), pair),
        }
        Count {
            sums,
            last: pair.next,
            ..count
        }
    }

    // The count with one pair more, from its entries of the schedule. For nearly all pairs one test serves for the mark and the limit of both readings,
    // and one addition for both.
    fn add_pair(self, day: DayHours, entry: u8, next_entry: u8, pair: Pair) -> Count
        ensures { FilledPair self.so_far (period_on_day day.critical entry) (period_on_day day.critical next_entry) pair.reading pair.next result }
    {
        if entry == next_entry && pair.sum() <= u64::from(READING_LIMIT) {
            return self.add_same_entry(day, entry, pair);
        }
        let period = hours::period_on(day, entry);
        let next_period = hours::period_on(day, next_entry);
        self.add_one_by_one(period, next_period, pair)
    }
}

// A day of a month's register, lent with the schedule that says its hours: the days of the month before it, the place where its readings start, and what the
// clocks do on it. The place is no part of the register of its own, since the facts below, and the gaps that are filled from the days before, are about the
// whole. Schedule, register, month and critical days are no struct of their own: it would be made once, in `tally_of`, and each fact would name them through
// it.
#[derive(Clone, Copy)]
struct Day<'a> {
    schedule: &'a [u8; SCHEDULE_LENGTH],
    register: &'a [u32],
    month: u32,
    critical_days: u32,
    before: u32,
    start: usize,
    clock: Clock,
    ghost whole_month: { length register.now ≡ month_length month },
    ghost of_32_bits: { (i : ℕ) → slice_index register.now i < 2 ^ 32 },
    ghost in_month: { before < days_in month },
    ghost at_start: { start ≡ readings_through month before },
    ghost by_clock: { clock ≡ clock_of month (before + 1) },
}

impl Day<'_> {
    // The count with some pairs more of the day: those from one place of it to another, whose quarters follow each other. So the entries of the schedule
    // stand as the readings do, two by two.
    fn count_stretch(self, count: Count, from: usize, to: usize) -> Count
        requires day_counted { DayCounted self.schedule.now self.month self.critical_days self.register.now self.before from count }
        requires to_bound { to ≤ day_length self.month (self.before + 1) }
        requires follows { Follows self.clock from to }
        requires even { (from % 2 ≡ 0) × (to % 2 ≡ 0) }
        ensures { DayCounted self.entry.schedule.now self.entry.month self.entry.critical_days self.entry.register.now self.entry.before to result }
    {
        let day_hours = hours::day_hours(self.month, self.before + 1, self.critical_days);
        let first = day_hours.row + calendar::quarter_by(self.clock, from as u32);
        let (schedule, register) = (self.schedule, self.register);
        let (entries, _) = schedule[first..first + (to - from)].as_chunks::<2>();
        let (pairs, _) = register[self.start + from..self.start + to].as_chunks::<2>();
        let mut so_far = count;
        for (&[entry, next_entry], &[reading, next]) in entries.iter().zip(pairs) {
            so_far = Roomy { so_far }.add_pair(
                day_hours,
                entry,
                next_entry,
                Pair { reading, next },
            );
        }
        so_far
    }

    // The count with the readings of the day. On one on which the clocks change, the quarters follow each other up to the change, and after it; no pair is
    // parted there.
    fn count(self, count: Count) -> Count
        requires { Counted self.schedule.now self.month self.critical_days self.register.now self.before count }
        ensures { Counted self.entry.schedule.now self.entry.month self.entry.critical_days self.entry.register.now (self.entry.before + 1) result }
    {
        let length = calendar::length_by(self.clock);
        match self.clock {
            Clock::Unchanged => self.count_stretch(count, 0, length),
            _ => {
                let earlier = self.count_stretch(count, 0, calendar::CHANGE_QUARTER);
                self.count_stretch(earlier, calendar::CHANGE_QUARTER, length)
            }
        }
    }
}

// The count of a whole month.
fn count_month(
    schedule: &[u8; SCHEDULE_LENGTH],
    register: &[u32],
    month: u32,
    critical_days: u32,
) -> Count
    requires { length register.now ≡ month_length month }
    ensures { Counted schedule.now month critical_days register.now (days_in month) result }
{
    let days = calendar::days_in(month);
    let change = calendar::change_of(month);
    let mut count = Count::default();
    let mut start = 0;
    for before in 0..days {
        let clock = calendar::clock_on(change, before + 1);
        let day = Day {
            schedule,
            register,
            month,
            critical_days,
            before,
            start,
            clock,
        };
        count = day.count(count);
        start += calendar::length_by(clock);
    }
    count
}

// All that a bill reads from one register, where it has the month's length.
pub fn tally_of(
    schedule: &[u8; SCHEDULE_LENGTH],
    register: &[u32],
    month: u32,
    critical_days: u32,
) -> Option<Tally>
    ensures value { result ≡ tally_of schedule.now month critical_days register.now }
{
    if register.len() != calendar::month_length(month) {
        return None;
    }
    let count = count_month(schedule, register, month, critical_days);
    Some(Tally {
        abovelimit: count.above,
        firstlost: first_lost(register),
        sums: count.sums,
        power: 2 * count.largest,
    })
}

// Where the day view is in the register named, and how many readings it has; none where it is empty: for no such month, day or register, or a register of
// another length than the month's. The register is named by any number, as a caller in C names it, and 2 and above name none: a type of two would ask more of
// callers.
#[tactic(auto, unfolding(crate::specs::DayView::part_shown, crate::specs::DayView::empty_view, crate::specs::Registers::length_refused))]
pub fn part_shown(
    delivered: &[u32],
    received: &[u32],
    month: u32,
    day: u32,
    number: u32,
) -> Option<(usize, usize)>
    ensures { result ≡ part_shown delivered.now received.now month day number }
{
    let length = calendar::month_length(month);
    if calendar::LAST_MONTH < month
        || day < 1
        || calendar::days_in(month) < day
        || delivered.len() != length
        || received.len() != length
        || 1 < number
    {
        return None;
    }
    let start = calendar::readings_through(month, day - 1);
    Some((start, calendar::day_length(month, day)))
}

// The readings of one day, as a part of the register named: 0 is delivered, 1 received.
pub fn day_view<'a>(
    delivered: &'a [u32],
    received: &'a [u32],
    month: u32,
    day: u32,
    number: u32,
) -> &'a [u32]
    ensures part { IsPart (view_of delivered.entry received.entry month day number) result }
{
    let Some((start, count)) = part_shown(delivered, received, month, day, number) else {
        return &delivered[0..0];
    };
    let register = if number == 0 { delivered } else { received };
    &register[start..start + count]
}
