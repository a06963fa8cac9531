// The table of refusals of document 01, with row 12 of 02 No. 3 and row 13 of 02 No. 4: the first row that refuses each call, if one does.
#![tactic(auto)]

ghost use Rattle.std.specs.Prelude.{◌≡◌, true, false, MatchResult};
ghost use Rattle.refusals.specs.Table.{first_of, contents_rows, opening_row, repricing_row, billing_row, closing_row};
ghost use Rattle.refusals.specs.Numbers.{number, number_of};

use tariff::{Agreement, PriceList};

// The rows of the table, each under its number.
#[derive(Clone, Copy, Debug, PartialEq, Eq)]
pub enum Refusal {
    NotOpen = 1,
    OpenAlready = 2,
    Closed = 3,
    PriceList = 4,
    Capacity = 5,
    NoBridge = 6,
    Month = 7,
    RegisterLength = 8,
    CriticalDays = 9,
    Reading = 10,
    BookFull = 11,
    Nameplates = 12,
    FirstReadingLost = 13,
}

impl From<Refusal> for u32 {
    ghost from_gives = { λ refusal n. n ≡ number refusal };

    fn from(refusal: Refusal) -> u32 {
        refusal as u32
    }
}

// The number of an answer: 0 where the call is accepted.
pub fn number_of<T>(answer: &Result<T, Refusal>) -> u32
    ensures { result ≡ number_of answer.now }
{
    match answer {
        Ok(_) => 0,
        Err(refusal) => u32::from(*refusal),
    }
}

// What the first rows ask of an account: whether it is fresh, whether it is open, and whether it is one that no call can use. They are flags and no stage: an
// account's stage stands above this crate, the definitions of the rows take what each asks, and an account of any stage can be one that no call can use.
#[derive(Clone, Copy, Debug, PartialEq, Eq)]
pub struct Condition {
    pub fresh: bool,
    pub opened: bool,
    pub unusable: bool,
}

// What is wrong with the registers and the critical days of a billing: whether rows 8, 9, 10 and 13 apply. They stay flags: several rows can apply at once,
// and no value is meant only where one of them does. Row 8's is here since its definition asks it; `account` answers that row by the tally that there is none.
#[derive(Clone, Copy, Debug, Default, PartialEq, Eq)]
pub struct Faults {
    pub wronglength: bool,
    pub wrongdays: bool,
    pub abovelimit: bool,
    pub firstlost: bool,
}

// A row of the table refuses where it applies.
fn row(applies: bool, refusal: Refusal) -> Result<(), Refusal>
    ensures { MatchResult result (λ _. applies ≡ false) (λ r. (applies ≡ true) × (r ≡ refusal)) }
{
    if applies { Err(refusal) } else { Ok(()) }
}

// What an account holds: the rows of an opening between 3 and 7.
#[tactic(auto, unfolding(crate::specs::Table::contents_rows))]
pub fn contents_row(agreement: Agreement) -> Result<(), Refusal>
    ensures { number_of result ≡ first_of (contents_rows agreement.terms agreement.prices) }
{
    let Agreement { terms, prices } = agreement;
    row(prices.is_refused(), Refusal::PriceList)?;
    row(terms.nameplates_refused(), Refusal::Nameplates)?;
    row(terms.capacity_refused(), Refusal::Capacity)?;
    row(terms.bridge_refused(), Refusal::NoBridge)
}

// Opening an account that is open already or not, and that can be used or not.
#[tactic(auto, using(crate::proofs::Numbers::number_above), unfolding(crate::specs::Table::opening_row, crate::specs::Table::contents_rows))]
pub fn opening_row(condition: Condition, agreement: Agreement, month: u32) -> Result<(), Refusal>
    ensures { number_of result ≡ opening_row condition.opened condition.unusable agreement.terms agreement.prices month }
{
    row(condition.opened, Refusal::OpenAlready)?;
    row(condition.unusable, Refusal::Closed)?;
    contents_row(agreement)?;
    row(calendar::LAST_MONTH < month, Refusal::Month)
}

// Closing: rows 1 and 3, which are also the first rows of a repricing and a billing.
#[tactic(auto, unfolding(crate::specs::Table::closing_row))]
pub fn closing_row(condition: Condition) -> Result<(), Refusal>
    ensures { number_of result ≡ closing_row condition.fresh condition.unusable }
{
    row(condition.fresh, Refusal::NotOpen)?;
    row(condition.unusable, Refusal::Closed)
}

// Repricing.
#[tactic(auto, using(crate::proofs::Numbers::number_above), unfolding(crate::specs::Table::repricing_row, crate::specs::Table::closing_row))]
pub fn repricing_row(condition: Condition, prices: PriceList) -> Result<(), Refusal>
    ensures { number_of result ≡ repricing_row condition.fresh condition.unusable prices }
{
    closing_row(condition)?;
    row(prices.is_refused(), Refusal::PriceList)
}

// Billing, from what was found to be wrong with it.
#[tactic(auto, using(crate::proofs::Numbers::number_above), unfolding(crate::specs::Table::billing_row, crate::specs::Table::closing_row))]
pub fn billing_row(
    condition: Condition,
    next: u32,
    month: u32,
    faults: Faults,
) -> Result<(), Refusal>
    ensures { number_of result ≡ billing_row condition.fresh condition.unusable next month faults }
{
    closing_row(condition)?;
    row(calendar::LAST_MONTH < next, Refusal::BookFull)?;
    row(month != next, Refusal::Month)?;
    row(faults.wronglength, Refusal::RegisterLength)?;
    row(faults.wrongdays, Refusal::CriticalDays)?;
    row(faults.abovelimit, Refusal::Reading)?;
    row(faults.firstlost, Refusal::FirstReadingLost)
}
