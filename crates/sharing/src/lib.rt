// Step 4 of document 01: credit moves to the need of cheaper periods.
#![tactic(auto)]

ghost use Rattle.std.specs.Prelude.{◌≡◌, ◌+◌, min};
ghost use Rattle.sharing.specs.Sharing.{shared_of};

use hours::ByPeriod;

// What moved out of each credit and into each need, the credit still unspent, and the need still unmet, which is billed.
#[derive(Clone, Copy)]
pub struct Shared {
    pub out: ByPeriod,
    pub into: ByPeriod,
    pub unspent: ByPeriod,
    pub billed: ByPeriod,
}

// Moves the smaller of what a credit and a need still have, and says how much that is.
fn move_credit(credit: &mut u64, need: &mut u64) -> u64
    ensures moved { result ≡ min credit.old need.old }
    ensures spent { result + credit.new ≡ credit.old }
    ensures met { result + need.new ≡ need.old }
{
    let moved = (*credit).min(*need);
    *credit -= moved;
    *need -= moved;
    moved
}

// Credit shared among the need of cheaper periods, each move from what the moves before it left. They stay six lines, which say in the order of step 4 what
// moves where: two loops over the periods would need the fields by place.
pub fn share(credit: ByPeriod, need: ByPeriod) -> Shared
    ensures { result ≡ shared_of credit need }
{
    let mut unspent = credit;
    let mut billed = need;
    let m01 = move_credit(&mut unspent.critical, &mut billed.onpeak);
    let m02 = move_credit(&mut unspent.critical, &mut billed.offpeak);
    let m03 = move_credit(&mut unspent.critical, &mut billed.discount);
    let m12 = move_credit(&mut unspent.onpeak, &mut billed.offpeak);
    let m13 = move_credit(&mut unspent.onpeak, &mut billed.discount);
    let m23 = move_credit(&mut unspent.offpeak, &mut billed.discount);
    Shared {
        out: ByPeriod {
            critical: m01 + m02 + m03,
            onpeak: m12 + m13,
            offpeak: m23,
            discount: 0,
        },
        into: ByPeriod {
            critical: 0,
            onpeak: m01,
            offpeak: m02 + m12,
            discount: m03 + m13 + m23,
        },
        unspent,
        billed,
    }
}
