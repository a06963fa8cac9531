// A list of calls from any account: every answer, and the last account.
#![tactic(auto)]

ghost use Rattle.std.specs.Prelude.{◌≡◌};
ghost use Rattle.account.specs.Replies.{number_of};
ghost use Rattle.ledger.specs.Encoding.{answered_of};
ghost use Rattle.ledger.specs.DemandThree.{DemandThree};
ghost use Rattle.ledger.specs.Running.{step_of, with_readings, ran_to};

use account::{Account, Reply};
use records::{Answer, Call};

// The answer to a call, and the account after it.
#[derive(Clone, Copy)]
pub struct Answered {
    pub account: Account,
    pub answer: Answer,
}

// The account after a list of calls, how many calls are answered, and how many rows of answers are written whole.
#[derive(Clone, Copy)]
pub struct Ran {
    pub account: Account,
    pub answered: u64,
    pub written: u64,
}

// What a reply says, with the amounts that it returns.
fn from_reply<T: Copy>(reply: Reply<T>, amounts: Answer) -> Answered
    ensures account { result.account ≡ reply.account }
    ensures number { result.answer.number ≡ number_of reply.answer }
    ensures bill { result.answer.bill ≡ amounts.bill }
    ensures amounts { result.answer.amounts ≡ amounts.amounts }
{
    Answered {
        account: reply.account,
        answer: Answer {
            number: reply.number(),
            ..amounts
        },
    }
}

// The answer to a call with the readings of a billing.
#[tactic(auto, unfolding(crate::specs::Running::step_of, balances::specs::Calls::answer_of, balances::specs::Calls::account_after))]
fn answer_call(account: Account, call: Call, delivered: &[u32], received: &[u32]) -> Answered
    ensures { result ≡ step_of account (with_readings call delivered.now received.now) }
{
    match call {
        Call::Opening { agreement, month } => {
            from_reply(account.opening(agreement, month), Answer::default())
        }
        Call::Repricing { prices } => from_reply(account.repricing(prices), Answer::default()),
        Call::Billing {
            month,
            critical_days,
            ..
        } => {
            let billed = account.billing(month, delivered, received, critical_days);
            let amounts = Answer {
                bill: billed.answer.unwrap_or_default(),
                ..Answer::default()
            };
            from_reply(billed, amounts)
        }
        Call::Closing => {
            let closed = account.closing();
            let amounts = Answer {
                amounts: closed.answer.unwrap_or_default(),
                ..Answer::default()
            };
            from_reply(closed, amounts)
        }
    }
}

// The answer to a record on any account, where it is a call of a record's length.
#[tactic(auto, using(crate::proofs::Records::too_long, crate::proofs::Records::answered_by))]
pub fn answer_record(
    account: Account,
    words: &[u64],
    delivered: &[u32],
    received: &[u32],
) -> Option<Answered>
    ensures { result ≡ answered_of account words.now delivered.now received.now }
{
    if words.len() != records::RECORD {
        return None;
    }
    let call = records::call_at(words)?;
    Some(answer_call(account, call, delivered, received))
}

// The end of a list of which so many calls are answered, with so many numbers in the buffer for their rows.
fn ran_to(account: Account, answered: usize, size: usize) -> Ran
    ensures { result ≡ ran_to account answered size }
{
    Ran {
        account,
        answered: answered as u64,
        written: answered.min(size / records::ROW) as u64,
    }
}

// Answers a list of calls from an account. The calls are records, the readings of billings stand one after the other in the two
// registers, and each answer is written to the buffer as a row. The list ends at the first record that is no call.
pub fn run(
    start: Account,
    calls: &[u64],
    delivered: &[u32],
    received: &[u32],
    answers: &mut [u64],
) -> Ran
    ensures { DemandThree start calls.now delivered.now received.now answers.old answers.new result }
{
    let size = answers.len();
    let mut account = start;
    let mut delivered_left = delivered;
    let mut received_left = received;
    let (whole, _) = calls.as_chunks::<{ records::RECORD }>();
    for (answered, words) in whole.iter().enumerate() {
        let Some(call) = records::call_at(words) else {
            return ran_to(account, answered, size);
        };
        let (from_delivered, from_received) = call.readings();
        let (taken, more_delivered) = records::readings_taken(from_delivered, delivered_left);
        let (given, more_received) = records::readings_taken(from_received, received_left);
        let step = answer_call(account, call, taken, given);
        let row = records::row_of(step.answer);
        // By place and not by `chunks_mut`: calls go on being answered when the buffer is full, so records and rows don't end together.
        text::write_at(answers, answered * records::ROW, &row);
        account = step.account;
        delivered_left = more_delivered;
        received_left = more_received;
    }
    ran_to(account, whole.len(), size)
}
