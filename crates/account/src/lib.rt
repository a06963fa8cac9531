// The account of document 01: opening, repricing, billing and closing. Each call takes the account as it is and hands it back
// with the answer; a refusal has its number, zeros in every amount, and the account as it came.
#![tactic(auto)]

ghost use Rattle.std.specs.Prelude.{◌≡◌, ◌≤◌, Err, IfOk};
ghost use Rattle.calendar.specs.Calendar.{last_month};
ghost use Rattle.refusals.specs.Numbers.{number_of};
ghost use Rattle.tariff.specs.Codes.{Decoded};
ghost use Rattle.account.specs.Codes.{stage_at};
ghost use Rattle.account.specs.Refusals.{contents_refused, cant_arise, unusable, billing_number};
ghost use Rattle.account.specs.Account.{fresh_account, bill_of, after_bill, opening_reply, repricing_reply, billing_reply, closing_reply};
ghost use Rattle.account.specs.Replies.{plain_reply, reply_with_bill, reply_with_amounts};
ghost use Rattle.account.specs.Tallies.{condition_of, faults_from};

use billing::{Balance, Bill, Metered};
use hours::ByPeriod;
use refusals::{Condition, Faults, Refusal};
use registers::Tally;
use tariff::{Agreement, Class, PriceList, Rider, Terms, UnknownCode};

// The month after December 2099, which is next once that has been billed.
const HIGHEST_NEXT: u32 = calendar::LAST_MONTH + 1;

#[derive(Clone, Copy, Debug, PartialEq, Eq)]
pub enum Stage {
    Fresh,
    Open,
    Closed,
}

impl TryFrom<u64> for Stage {
    type Error = UnknownCode;

    ghost try_from_gives = { Decoded stage_at 2 };

    fn try_from(code: u64) -> Result<Self, UnknownCode> {
        match code {
            0 => Ok(Stage::Fresh),
            1 => Ok(Stage::Open),
            2 => Ok(Stage::Closed),
            _ => Err(UnknownCode(code)),
        }
    }
}

// Carried Wh by period and standing money in cents; next is the month that is billed next. The fields stand one by one, and in no agreement and balance, since
// the definitions of the calls name them so, and these stay word for word: they are what a reader has to believe.
#[derive(Clone, Copy)]
pub struct Account {
    pub stage: Stage,
    pub terms: Terms,
    pub prices: PriceList,
    pub next: u32,
    pub carried: ByPeriod,
    pub standing: u64,
}

// What a closing returns: the Wh that it forfeits, by period, and the cents that it refunds.
#[derive(Clone, Copy, Debug, Default, PartialEq, Eq)]
pub struct ClosingAmounts {
    pub forfeited: ByPeriod,
    pub refunded: u64,
}

// The answer to a call, and the account after it: a refusal hands the account back as it came.
#[derive(Clone, Copy)]
pub struct Reply<T> {
    pub answer: Result<T, Refusal>,
    pub account: Account,
}

impl<T> Reply<T> {
    // The number in the table, 0 where the call is accepted.
    pub fn number(&self) -> u32
        ensures { result ≡ number_of self.now.answer }
    {
        refusals::number_of(&self.answer)
    }
}

// What is wrong with a billing, from the tallies of its registers, and whether its critical days are refused. Row 8 never applies here: a register of
// another length than the month's has no tally, and `bill` refuses it where it asks for one.
fn faults_of(delivered: Tally, received: Tally, wrongdays: bool) -> Faults
    ensures { result ≡ faults_from delivered received wrongdays }
{
    Faults {
        wronglength: false,
        wrongdays,
        abovelimit: delivered.abovelimit || received.abovelimit,
        firstlost: delivered.firstlost || received.firstlost,
    }
}

// The calls take an account by value and hand it back in the reply, as document 01 asks. So each matches on its Result, and no `?` hands a refusal on: it has
// the account beside it.
impl Account {
    // The account that a list of calls starts from. Its terms stand in full, as in the definition: a derived default of terms would name a rider and a
    // class beside it.
    pub fn fresh() -> Account
        ensures { result ≡ fresh_account }
    {
        Account {
            stage: Stage::Fresh,
            terms: Terms {
                rider: Rider::Banked,
                class: Class::Home,
                count: 0,
                nameplates: [0; tariff::MOST_NAMEPLATES],
                limit: 0,
                assisted: false,
            },
            prices: PriceList::default(),
            next: 0,
            carried: ByPeriod::default(),
            standing: 0,
        }
    }

    // What it is billed by.
    fn agreement(&self) -> Agreement
        ensures terms { result.terms ≡ self.now.terms }
        ensures prices { result.prices ≡ self.now.prices }
    {
        Agreement {
            terms: self.terms,
            prices: self.prices,
        }
    }

    // Whether the checks of an opening refuse what the account holds.
    #[tactic(auto, using(refusals::proofs::Laws::contents_err), unfolding(crate::specs::Refusals::contents_refused))]
    fn contents_refused(&self) -> bool
        ensures { result ≡ contents_refused self.now.terms self.now.prices }
    {
        refusals::contents_row(self.agreement()).is_err()
    }

    // Whether the account can't arise.
    #[tactic(auto, unfolding(crate::specs::Refusals::cant_arise))]
    fn cant_arise(&self) -> bool
        ensures { result ≡ cant_arise self.now }
    {
        tariff::some_over(charges::CARRIED_LIMIT, &self.carried.amounts())
            || charges::STANDING_LIMIT < self.standing
            || HIGHEST_NEXT < self.next
            || (self.stage == Stage::Open && self.contents_refused())
    }

    // What the first rows of the table ask.
    #[tactic(auto, unfolding(crate::specs::Refusals::unusable))]
    fn condition(&self) -> Condition
        ensures { result ≡ condition_of self.now }
    {
        Condition {
            fresh: self.stage == Stage::Fresh,
            opened: self.stage == Stage::Open,
            unusable: self.stage == Stage::Closed || self.cant_arise(),
        }
    }

    // The answer to a call that is refused.
    fn refused<T>(self, refusal: Refusal) -> Reply<T>
        ensures answer { result.answer ≡ Err refusal }
        ensures account { result.account ≡ self }
    {
        Reply {
            answer: Err(refusal),
            account: self,
        }
    }

    // The account after an accepted bill.
    fn after_bill(self, bill: Bill) -> Account
        requires { self.next ≤ last_month }
        ensures { result ≡ after_bill self bill }
    {
        Account {
            next: self.next + 1,
            carried: bill.left,
            standing: bill.charges.standing,
            ..self
        }
    }

    // The bill of a month. Its readings are counted only where no row before theirs applies. So the rows are asked twice: first with no fault, for those before
    // the readings', then with the faults that are found. A function of the first rows alone would need a definition, and a law that joins the two.
    fn bill(
        self,
        month: u32,
        delivered: &[u32],
        received: &[u32],
        critical_days: u32,
    ) -> Result<Bill, Refusal>
        ensures number { number_of result ≡ billing_number self month delivered.now received.now critical_days }
        ensures bill { IfOk result (λ bill. bill ≡ bill_of self month delivered.now received.now critical_days) }
    {
        let condition = self.condition();
        refusals::billing_row(condition, self.next, month, Faults::default())?;
        let schedule = hours::fixed_schedule();
        let taken = registers::tally_of(&schedule, delivered, month, critical_days).ok_or(
            Refusal::RegisterLength,
        )?;
        let given = registers::tally_of(&schedule, received, month, critical_days).ok_or(
            Refusal::RegisterLength,
        )?;
        let wrongdays = hours::critical_refused(month, critical_days);
        let faults = faults_of(taken, given, wrongdays);
        refusals::billing_row(condition, self.next, month, faults)?;
        let balance = Balance {
            carried: self.carried,
            standing: self.standing,
        };
        let metered = Metered {
            month,
            delivered: taken.sums,
            exported: given.sums,
            power: taken.power,
        };
        Ok(billing::bill_from(self.agreement(), balance, metered))
    }

    // Opens a fresh account.
    #[tactic(auto, using(refusals::proofs::Numbers::number_above), unfolding(crate::specs::Account::opening_reply, crate::specs::Refusals::opening_number))]
    pub fn opening(self, agreement: Agreement, month: u32) -> Reply<()>
        ensures { plain_reply result ≡ opening_reply self agreement.terms agreement.prices month }
    {
        match refusals::opening_row(self.condition(), agreement, month) {
            Err(refusal) => self.refused(refusal),
            Ok(()) => Reply {
                answer: Ok(()),
                account: Account {
                    stage: Stage::Open,
                    terms: agreement.terms,
                    prices: agreement.prices,
                    next: month,
                    ..Account::fresh()
                },
            },
        }
    }

    // Replaces the price list.
    #[tactic(auto, using(refusals::proofs::Numbers::number_above), unfolding(crate::specs::Account::repricing_reply, crate::specs::Refusals::repricing_number))]
    pub fn repricing(self, prices: PriceList) -> Reply<()>
        ensures { plain_reply result ≡ repricing_reply self prices }
    {
        match refusals::repricing_row(self.condition(), prices) {
            Err(refusal) => self.refused(refusal),
            Ok(()) => Reply {
                answer: Ok(()),
                account: Account { prices, ..self },
            },
        }
    }

    // Bills the next month from its two registers, which are only read.
    #[tactic(auto, using(refusals::proofs::Numbers::number_above), unfolding(crate::specs::Account::billing_reply))]
    pub fn billing(
        self,
        month: u32,
        delivered: &[u32],
        received: &[u32],
        critical_days: u32,
    ) -> Reply<Bill>
        ensures { reply_with_bill result ≡ billing_reply self month delivered.now received.now critical_days }
    {
        match self.bill(month, delivered, received, critical_days) {
            Err(refusal) => self.refused(refusal),
            Ok(bill) => Reply {
                answer: Ok(bill),
                account: self.after_bill(bill),
            },
        }
    }

    // Forfeits what is carried, refunds what is standing, and closes the account.
    #[tactic(auto, using(refusals::proofs::Numbers::number_above), unfolding(crate::specs::Account::closing_reply, crate::specs::Refusals::closing_number))]
    pub fn closing(self) -> Reply<ClosingAmounts>
        ensures { reply_with_amounts result ≡ closing_reply self }
    {
        match refusals::closing_row(self.condition()) {
            Err(refusal) => self.refused(refusal),
            Ok(()) => Reply {
                answer: Ok(ClosingAmounts {
                    forfeited: self.carried,
                    refunded: self.standing,
                }),
                account: Account {
                    stage: Stage::Closed,
                    carried: ByPeriod::default(),
                    standing: 0,
                    ..self
                },
            },
        }
    }
}
