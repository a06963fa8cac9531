// Terms and price lists of document 01, with the nameplates of 02 No. 3, and the refusals that they alone decide.
#![tactic(auto)]

ghost use Rattle.std.specs.Prelude.{◌≡◌, ◌-◌, ◌^◌, min};
ghost use Rattle.tariff.specs.Tariff.{some_over, prices_rise, prices_refused, nameplates_of, nameplates_refused, total_nameplate, class_limit};
ghost use Rattle.tariff.specs.Tariff.{some_below_one, capacity_limit, capacity_refused, bridge_refused};
ghost use Rattle.tariff.specs.Codes.{rider_at, class_at, Decoded};

use hours::ByPeriod;

// The banked rider (Rider NM) and the bridge rider (Rider NMB).
#[derive(Clone, Copy, PartialEq, Eq, Debug)]
pub enum Rider {
    Banked,
    Bridge,
}

#[derive(Clone, Copy, PartialEq, Eq, Debug)]
pub enum Class {
    Home,
    Business,
}

// A number that is the code of no value. Riders, classes and, in `account`, stages have an impl each: what differs is the table of codes, and they share
// `Decoded`.
#[derive(Clone, Copy, PartialEq, Eq, Debug)]
pub struct UnknownCode(pub u64);

impl TryFrom<u64> for Rider {
    type Error = UnknownCode;

    ghost try_from_gives = { Decoded rider_at 1 };

    fn try_from(code: u64) -> Result<Self, UnknownCode> {
        match code {
            0 => Ok(Rider::Banked),
            1 => Ok(Rider::Bridge),
            _ => Err(UnknownCode(code)),
        }
    }
}

impl TryFrom<u64> for Class {
    type Error = UnknownCode;

    ghost try_from_gives = { Decoded class_at 1 };

    fn try_from(code: u64) -> Result<Self, UnknownCode> {
        match code {
            0 => Ok(Class::Home),
            1 => Ok(Class::Business),
            _ => Err(UnknownCode(code)),
        }
    }
}

// The most nameplates that terms hold (02 No. 3).
pub const MOST_NAMEPLATES: usize = 8;

// Terms of an account. The first places have its nameplates, as many as the count says; what stands past them is no nameplate. They are in W, and
// so is the demand limit: the estimated largest demand of a home, the contract demand of a business. An assisted customer whose
// total is at most 8,000 W pays no shortfall.
// A count stands beside eight places, and no `ArrayVec` or slice in their stead: number 12 refuses counts that such a list couldn't have, as nine, and an
// account keeps its terms by value as they came.
#[derive(Clone, Copy)]
pub struct Terms {
    pub rider: Rider,
    pub class: Class,
    pub count: u64,
    pub nameplates: [u64; MOST_NAMEPLATES],
    pub limit: u64,
    pub assisted: bool,
}

// Prices are in hundred-thousandths of a dollar per kWh or per kW, basic and minimum in cents. Bypass is the non-bypassable charge.
#[derive(Clone, Copy, Default)]
pub struct PriceList {
    pub energy: ByPeriod,
    pub demand: u64,
    pub standby: u64,
    pub bypass: u64,
    pub credit: u64,
    pub distribution: u64,
    pub basic: u64,
    pub minimum: u64,
}

// What an account is billed by: its terms and its prices.
#[derive(Clone, Copy)]
pub struct Agreement {
    pub terms: Terms,
    pub prices: PriceList,
}

const PRICE_LIMIT: u64 = 1_000_000;

const AMOUNT_LIMIT: u64 = 1_000_000;

const HOME_LIMIT: u64 = 20_000;

const BUSINESS_LIMIT: u64 = 1_000_000;

// Whether one of some numbers is above a limit.
pub fn some_over(limit: u64, numbers: &[u64]) -> bool
    ensures { result ≡ some_over limit numbers.now }
{
    numbers.iter().any(|number| limit < *number)
}

// Whether an energy price is above the one before.
#[tactic(auto, unfolding(crate::specs::Tariff::prices_rise))]
fn prices_rise(energy: ByPeriod) -> bool
    ensures { result ≡ prices_rise energy }
{
    energy.critical < energy.onpeak
        || energy.onpeak < energy.offpeak
        || energy.offpeak < energy.discount
}

impl Class {
    // The largest total nameplate, in W.
    pub fn limit(self) -> u64
        ensures { result ≡ class_limit self }
    {
        match self {
            Class::Home => HOME_LIMIT,
            Class::Business => BUSINESS_LIMIT,
        }
    }
}

impl Terms {
    // The nameplates. A count above eight has the eight places.
    #[tactic(auto, unfolding(crate::specs::Tariff::nameplates_of))]
    fn held(&self) -> &[u64]
        ensures { result.now ≡ nameplates_of self.now }
    {
        let count = self.count.min(MOST_NAMEPLATES as u64);
        &self.nameplates[..count as usize]
    }

    // The total nameplate, in W. A total that 64 bits can't hold, which 5 refuses, stays at their largest number.
    #[tactic(auto, unfolding(crate::specs::Tariff::total_nameplate))]
    pub fn total_nameplate(&self) -> u64
        ensures { result ≡ min (total_nameplate self.now) (2 ^ 64 - 1) }
    {
        self.held().iter().fold(0, |total: u64, nameplate| total.saturating_add(*nameplate))
    }

    // Whether there is no nameplate or more than eight (number 12).
    #[tactic(auto, unfolding(crate::specs::Tariff::nameplates_refused))]
    pub fn nameplates_refused(&self) -> bool
        ensures { result ≡ nameplates_refused self.now }
    {
        self.count < 1 || (MOST_NAMEPLATES as u64) < self.count
    }

    // Whether a nameplate is below 1 W.
    #[tactic(auto, unfolding(crate::specs::Tariff::some_below_one))]
    fn some_below_one(&self) -> bool
        ensures { result ≡ some_below_one self.now }
    {
        self.held().iter().any(|nameplate| *nameplate < 1)
    }

    // The largest total nameplate beside the demand limit, in W.
    #[tactic(auto, unfolding(crate::specs::Tariff::capacity_limit))]
    fn capacity_limit(&self) -> u64
        ensures { result ≡ capacity_limit self.now }
    {
        self.class.limit()
    }

    // Whether a nameplate, or the total of all, is refused (number 5).
    #[tactic(auto, unfolding(crate::specs::Tariff::capacity_refused))]
    pub fn capacity_refused(&self) -> bool
        ensures { result ≡ capacity_refused self.now }
    {
        let nameplate = self.total_nameplate();
        self.some_below_one() || self.limit < nameplate || self.capacity_limit() < nameplate
    }

    // Whether the rider is refused (number 6).
    #[tactic(auto, unfolding(crate::specs::Tariff::bridge_refused))]
    pub fn bridge_refused(&self) -> bool
        ensures { result ≡ bridge_refused self.now }
    {
        self.rider == Rider::Bridge && self.class == Class::Business
    }
}

impl PriceList {
    // Whether the price list is refused (number 4).
    #[tactic(auto, unfolding(crate::specs::Tariff::prices_refused))]
    pub fn is_refused(&self) -> bool
        ensures { result ≡ prices_refused self.now }
    {
        let energy = self.energy;
        let prices = [
            self.demand,
            self.standby,
            self.bypass,
            self.credit,
            self.distribution,
        ];
        some_over(PRICE_LIMIT, &energy.amounts())
            || some_over(PRICE_LIMIT, &prices)
            || some_over(AMOUNT_LIMIT, &[self.basic, self.minimum])
            || prices_rise(energy)
    }
}
