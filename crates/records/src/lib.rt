// What a call's record says, and the numbers of an answer's row. A section of a record or row, as terms or a price list, is read from any place
// on, and its numbers are an array, which the caller writes where it belongs.
#![tactic(auto)]

ghost use Rattle.std.specs.Prelude.{◌≡◌, [], ◌+◌, get_or, take, drop};
ghost use Rattle.tariff.specs.Tariff.{eight_at};
ghost use Rattle.records.specs.Sections.{yes_code, four_at, nameplates_place};
ghost use Rattle.records.specs.Sections.{terms_numbers, terms_at, prices_numbers, prices_at};
ghost use Rattle.records.specs.Reading.{yes_read, terms_read, small_read, opening_read, billing_read, call_read};
ghost use Rattle.records.specs.Reading.{delivered_said, received_said};
ghost use Rattle.records.specs.Rows.{row_of, lines};

use account::ClosingAmounts;
use billing::Bill;
use charges::Charges;
use hours::ByPeriod;
use tariff::{Agreement, Class, MOST_NAMEPLATES, PriceList, Rider, Terms};

// Terms: rider, class, how many nameplates, eight places for them, demand limit, assisted. The places, here and of a record, are those of the
// interface for C, and are counted from the first of these numbers.
const RIDER_PLACE: usize = 0;

const CLASS_PLACE: usize = RIDER_PLACE + 1;

const NAMEPLATE_COUNT_PLACE: usize = CLASS_PLACE + 1;

const NAMEPLATES_PLACE: usize = NAMEPLATE_COUNT_PLACE + 1;

const LIMIT_PLACE: usize = NAMEPLATES_PLACE + MOST_NAMEPLATES;

const ASSISTED_PLACE: usize = LIMIT_PLACE + 1;

pub const TERMS_LENGTH: usize = ASSISTED_PLACE + 1;

// The numbers of a price list.
pub const PRICES_LENGTH: usize = 11;

// The record of a call: its kind; of an opening terms, price list and first month, of a repricing the price list at the same place.
pub const KIND_PLACE: usize = 0;

pub const TERMS_PLACE: usize = KIND_PLACE + 1;

pub const PRICES_PLACE: usize = TERMS_PLACE + TERMS_LENGTH;

pub const FIRST_MONTH_PLACE: usize = PRICES_PLACE + PRICES_LENGTH;

pub const RECORD: usize = FIRST_MONTH_PLACE + 1;

// Of a billing the month, the number of its delivered and of its received readings, and the critical days.
pub const MONTH_PLACE: usize = KIND_PLACE + 1;

pub const DELIVERED_PLACE: usize = MONTH_PLACE + 1;

pub const RECEIVED_PLACE: usize = DELIVERED_PLACE + 1;

pub const CRITICAL_PLACE: usize = RECEIVED_PLACE + 1;

// The kinds of calls, as the interface for C numbers them.
pub const OPENING: u64 = 0;

pub const REPRICING: u64 = 1;

pub const BILLING: u64 = 2;

pub const CLOSING: u64 = 3;

// The row of an answer: its number; of a bill eleven amounts by period and the money lines; of a closing an amount by period and a sum of money. Its places, too,
// are those of the interface for C.
const BY_PERIOD_PLACE: usize = 1;

const LINES_PLACE: usize = BY_PERIOD_PLACE + 11 * 4;

const LINES_LENGTH: usize = 10;

const FORFEITED_PLACE: usize = LINES_PLACE + LINES_LENGTH;

const REFUNDED_PLACE: usize = FORFEITED_PLACE + 4;

pub const ROW: usize = REFUNDED_PLACE + 1;

// What the record of a call says. A billing says how many readings it takes from each register.
#[derive(Clone, Copy)]
pub enum Call {
    Opening {
        agreement: Agreement,
        month: u32,
    },
    Repricing {
        prices: PriceList,
    },
    Billing {
        month: u32,
        delivered: u64,
        received: u64,
        critical_days: u32,
    },
    Closing,
}

// The answer to one call: its number and every amount, 0 in those that the call doesn't return, since a row of the interface for C has a place
// for each.
#[derive(Clone, Copy, Default)]
pub struct Answer {
    pub number: u32,
    pub bill: Bill,
    pub amounts: ClosingAmounts,
}

// Yes or no of a known code. It is a function, since a `TryFrom` of std's `bool` can't be written here.
fn yes_of(code: u64) -> Option<bool>
    ensures { result ≡ yes_read code }
{
    match code {
        0 => Some(false),
        1 => Some(true),
        _ => None,
    }
}

// The number at a place counted from another one, or 0 past the record's end, as in all that is read here. A list and a place in it go together through all
// sections that are read, as in the definitions (`terms_at w place`): with a slice, each caller would make the empty one itself, and a law would be needed
// that what stands behind a place is read alike.
pub fn number_from(words: &[u64], start: usize, place: usize) -> u64
    ensures { result ≡ get_or words.now (start + place) 0 }
{
    text::at_or(words, start.saturating_add(place), 0)
}

// The places for nameplates of the terms that start at a place.
fn nameplates_at(words: &[u64], place: usize) -> [u64; MOST_NAMEPLATES]
    ensures { result ≡ eight_at words.now place nameplates_place }
{
    std::array::from_fn(|i| number_from(words, place, NAMEPLATES_PLACE + i))
}

// The terms that start at a place. It stays beside `known_terms_at`, which the callers ask, for what it promises of codes that aren't known. An unknown code of
// a rider or a class is read as that of the second, and one of assisted as no.
#[tactic(auto, unfolding(crate::specs::Sections::terms_at))]
pub fn terms_at(words: &[u64], place: usize) -> Terms
    ensures { result ≡ terms_at words.now place }
{
    Terms {
        rider: Rider::try_from(number_from(words, place, RIDER_PLACE)).unwrap_or(Rider::Bridge),
        class: Class::try_from(number_from(words, place, CLASS_PLACE)).unwrap_or(Class::Business),
        count: number_from(words, place, NAMEPLATE_COUNT_PLACE),
        nameplates: nameplates_at(words, place),
        limit: number_from(words, place, LIMIT_PLACE),
        assisted: number_from(words, place, ASSISTED_PLACE) == 1,
    }
}

// The same, where its codes are known.
#[tactic(auto, unfolding(crate::specs::Sections::terms_at, crate::specs::Sections::known_terms, crate::specs::Reading::terms_read))]
pub fn known_terms_at(words: &[u64], place: usize) -> Option<Terms>
    ensures { result ≡ terms_read words.now place }
{
    Some(Terms {
        rider: Rider::try_from(number_from(words, place, RIDER_PLACE)).ok()?,
        class: Class::try_from(number_from(words, place, CLASS_PLACE)).ok()?,
        assisted: yes_of(number_from(words, place, ASSISTED_PLACE))?,
        ..terms_at(words, place)
    })
}

// Four amounts that start at a place.
pub fn four_at(words: &[u64], place: usize) -> ByPeriod
    ensures { result ≡ four_at words.now place }
{
    ByPeriod {
        critical: text::at_or(words, place, 0),
        onpeak: number_from(words, place, 1),
        offpeak: number_from(words, place, 2),
        discount: number_from(words, place, 3),
    }
}

// The price list that starts at a place.
#[tactic(auto, unfolding(crate::specs::Sections::prices_at))]
pub fn prices_at(words: &[u64], place: usize) -> PriceList
    ensures { result ≡ prices_at words.now place }
{
    PriceList {
        energy: four_at(words, place),
        demand: number_from(words, place, 4),
        standby: number_from(words, place, 5),
        bypass: number_from(words, place, 6),
        credit: number_from(words, place, 7),
        distribution: number_from(words, place, 8),
        basic: number_from(words, place, 9),
        minimum: number_from(words, place, 10),
    }
}

// The number at a place, where it has 32 bits.
pub fn small_at(words: &[u64], place: usize) -> Option<u32>
    ensures { result ≡ small_read words.now place }
{
    u32::try_from(text::at_or(words, place, 0)).ok()
}

// What the record of an opening says, where its codes are known and its month has 32 bits.
#[tactic(auto, unfolding(crate::specs::Records::opening_codes, crate::specs::Reading::terms_read, crate::specs::Reading::opening_read))]
fn opening_at(words: &[u64]) -> Option<Call>
    ensures { result ≡ opening_read words.now }
{
    let agreement = Agreement {
        terms: known_terms_at(words, TERMS_PLACE)?,
        prices: prices_at(words, PRICES_PLACE),
    };
    Some(Call::Opening {
        agreement,
        month: small_at(words, FIRST_MONTH_PLACE)?,
    })
}

// What the record of a billing says, where its month and critical days have 32 bits.
#[tactic(auto, unfolding(crate::specs::Records::billing_codes, crate::specs::Reading::billing_read))]
fn billing_at(words: &[u64]) -> Option<Call>
    ensures { result ≡ billing_read words.now }
{
    Some(Call::Billing {
        month: small_at(words, MONTH_PLACE)?,
        delivered: text::at_or(words, DELIVERED_PLACE, 0),
        received: text::at_or(words, RECEIVED_PLACE, 0),
        critical_days: small_at(words, CRITICAL_PLACE)?,
    })
}

// What a record says, where it is a call.
#[tactic(auto, unfolding(crate::specs::Records::is_call, crate::specs::Reading::opening_read, crate::specs::Reading::billing_read, crate::specs::Reading::said_by, crate::specs::Reading::call_read))]
pub fn call_at(words: &[u64]) -> Option<Call>
    ensures { result ≡ call_read words.now }
{
    match text::at_or(words, KIND_PLACE, 0) {
        OPENING => opening_at(words),
        REPRICING => Some(Call::Repricing {
            prices: prices_at(words, PRICES_PLACE),
        }),
        BILLING => billing_at(words),
        CLOSING => Some(Call::Closing),
        _ => None,
    }
}

impl Call {
    // How many readings a call takes from the register delivered, and how many from the register received: a billing alone takes some.
    pub fn readings(self) -> (u64, u64)
        ensures delivered { result.0 ≡ delivered_said self }
        ensures received { result.1 ≡ received_said self }
    {
        match self {
            Call::Billing {
                delivered,
                received,
                ..
            } => (delivered, received),
            _ => (0, 0),
        }
    }
}

// So many readings from the front of a register, or all that it has, and the rest of it.
pub fn readings_taken(said: u64, register: &[u32]) -> (&[u32], &[u32])
    ensures front { result.0.now ≡ take said register.now }
    ensures rest { result.1.now ≡ drop said register.now }
{
    register.split_at(said.min(register.len() as u64) as usize)
}

// The money lines of a bill. A function and no `From`, since neither the charges nor an array is a type of this crate.
fn lines_of(charges: Charges) -> [u64; LINES_LENGTH]
    ensures { result ≡ lines charges [] }
{
    [
        charges.energy,
        charges.demand,
        charges.standby,
        charges.bypass,
        charges.shortfall,
        charges.gross,
        charges.granted,
        charges.used,
        charges.due,
        charges.standing,
    ]
}

// The numbers of an answer.
pub fn row_of(answer: Answer) -> [u64; ROW]
    ensures { result ≡ row_of answer }
{
    let bill = answer.bill;
    let by_period = [
        bill.forfeited.amounts(),
        bill.delivered.amounts(),
        bill.exported.amounts(),
        bill.own.amounts(),
        bill.credit.amounts(),
        bill.need.amounts(),
        bill.out.amounts(),
        bill.into.amounts(),
        bill.billed.amounts(),
        bill.left.amounts(),
        bill.paid.amounts(),
    ];
    let mut row = [0; ROW];
    row[0] = u64::from(answer.number);
    text::write_at(&mut row, BY_PERIOD_PLACE, by_period.as_flattened());
    text::write_at(&mut row, LINES_PLACE, &lines_of(bill.charges));
    text::write_at(
        &mut row,
        FORFEITED_PLACE,
        &answer.amounts.forfeited.amounts(),
    );
    row[REFUNDED_PLACE] = answer.amounts.refunded;
    row
}

// The numbers of terms.
#[tactic(auto, using(tariff::proofs::Laws::eight_back), unfolding(crate::specs::Sections::terms_numbers))]
pub fn terms_numbers(terms: Terms) -> [u64; TERMS_LENGTH]
    ensures { result ≡ terms_numbers terms }
{
    let mut numbers = [0; TERMS_LENGTH];
    text::write_at(
        &mut numbers,
        RIDER_PLACE,
        &[terms.rider as u64, terms.class as u64, terms.count],
    );
    text::write_at(&mut numbers, NAMEPLATES_PLACE, &terms.nameplates);
    text::write_at(
        &mut numbers,
        LIMIT_PLACE,
        &[terms.limit, u64::from(terms.assisted)],
    );
    numbers
}

// The numbers of a price list.
#[tactic(auto, unfolding(crate::specs::Sections::prices_numbers))]
pub fn prices_numbers(prices: PriceList) -> [u64; PRICES_LENGTH]
    ensures { result ≡ prices_numbers prices }
{
    let others = [
        prices.demand,
        prices.standby,
        prices.bypass,
        prices.credit,
        prices.distribution,
        prices.basic,
        prices.minimum,
    ];
    let mut numbers = [0; PRICES_LENGTH];
    text::write_at(&mut numbers, 0, &prices.energy.amounts());
    text::write_at(&mut numbers, 4, &others);
    numbers
}
