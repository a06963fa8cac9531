// What the lines of the opening give.

ghost use Rattle.std.specs.Prelude.{◌≡◌, ◌≤◌, get_or, replicate};
ghost use Rattle.account.specs.Replies.{plain_reply};
ghost use Rattle.lines.specs.Opening.{opening_length};
ghost use Rattle.lines.specs.Statement.{account_reply};
ghost use Rattle.progress.specs.Expected.{line_place};
ghost use Rattle.progress.specs.Values.{values_of, values_with};

use crate::expected::OpeningLine;
use account::{Account, Reply};
use hours::ByPeriod;
use tariff::{Agreement, Class, Rider};

// The first month, the terms and the price list. What isn't read yet is 0, and the first of two words.
#[derive(Clone, Copy)]
pub struct Opening {
    pub month: u32,
    pub agreement: Agreement,
}

// A number of a line, and 0 past the last.
fn number_at(numbers: &[u32], place: usize) -> u64
    ensures { result ≡ get_or numbers.now place 0 }
{
    u64::from(text::at_or(numbers, place, 0))
}

impl Opening {
    // Nothing is read.
    pub(crate) fn unread() -> Opening
        ensures { values_of result ≡ replicate opening_length 0 }
    {
        let fresh = Account::fresh();
        Opening {
            month: 0,
            agreement: Agreement {
                terms: fresh.terms,
                prices: fresh.prices,
            },
        }
    }

    // The numbers of one line more.
    #[tactic(auto, unfolding(crate::specs::Values::values_with))]
    pub(crate) fn keep(&mut self, line: OpeningLine, numbers: &[u32])
        requires rider { line ≡ OpeningLine.Rider → get_or numbers.now 0 0 ≤ 1 }
        requires class { line ≡ OpeningLine.Class → get_or numbers.now 0 0 ≤ 1 }
        requires assisted { line ≡ OpeningLine.Assisted → get_or numbers.now 0 0 ≤ 1 }
        ensures { values_of self.new ≡ values_with (values_of self.old) (line_place line) numbers.now }
    {
        let number = number_at(numbers, 0);
        let Agreement { terms, prices } = &mut self.agreement;
        match line {
            OpeningLine::Opens => self.month = text::at_or(numbers, 0, 0),
            // A line gives numbers, as its definition does: the two words of these lines are 0 and 1, as the codes are.
            OpeningLine::Rider => terms.rider = Rider::try_from(number).unwrap_or(Rider::Bridge),
            OpeningLine::Class => terms.class = Class::try_from(number).unwrap_or(Class::Business),
            OpeningLine::Nameplates => {
                terms.count = numbers.len() as u64;
                terms.nameplates = std::array::from_fn(|i| number_at(numbers, i));
            }
            OpeningLine::Limit => terms.limit = number,
            OpeningLine::Assisted => terms.assisted = number == 1,
            OpeningLine::Prices => {
                prices.energy = ByPeriod {
                    critical: number,
                    onpeak: number_at(numbers, 1),
                    offpeak: number_at(numbers, 2),
                    discount: number_at(numbers, 3),
                };
            }
            OpeningLine::Demand => prices.demand = number,
            OpeningLine::Standby => prices.standby = number,
            OpeningLine::Bypass => prices.bypass = number,
            OpeningLine::Credit => prices.credit = number,
            OpeningLine::Distribution => prices.distribution = number,
            OpeningLine::Basic => prices.basic = number,
            OpeningLine::Minimum => prices.minimum = number,
        }
    }

    // An account's answer to it.
    pub(crate) fn open(self, account: Account) -> Reply<()>
        ensures { plain_reply result ≡ account_reply account (values_of self) }
    {
        account.opening(self.agreement, self.month)
    }
}
