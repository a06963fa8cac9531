// The interface for C and Rust. include/kozempil.h says what each number of each buffer is.
#![tactic(auto)]

ghost use Rattle.std.specs.Prelude.{◌≡◌, cond};
ghost use Rattle.std.proofs.lemmas.List.Edits.{sets};
ghost use Rattle.calendar.specs.Calendar.{month_length};
ghost use Rattle.registers.specs.DayView.{view_of};
ghost use Rattle.records.specs.Rows.{row_of};
ghost use Rattle.balances.specs.Calls.{answer_of, account_after};
ghost use Rattle.ledger.specs.Encoding.{call_of, calls_in};
ghost use Rattle.lines.specs.Statement.{statement_of};
ghost use Rattle.whole.specs.Whole.{length_of};
ghost use Rattle.kozempil.specs.Interface.{layout_version, account_row, account_at, account_read};
ghost use Rattle.kozempil.specs.Interface.{ListAnswered, is_answered, answer_to, part_numbers};

use account::{Account, Stage};
use ledger::Answered;

// Rises when a place, a code or a number of calls, answers or accounts is added or changed.
const LAYOUT: u32 = 3;

// The row of an account: stage, terms, price list, next month, carried by period, standing money, at the places of the interface for C.
const STAGE_PLACE: usize = 0;

const TERMS_PLACE: usize = STAGE_PLACE + 1;

const PRICES_PLACE: usize = TERMS_PLACE + records::TERMS_LENGTH;

const NEXT_PLACE: usize = PRICES_PLACE + records::PRICES_LENGTH;

const CARRIED_PLACE: usize = NEXT_PLACE + 1;

const STANDING_PLACE: usize = CARRIED_PLACE + 4;

const ACCOUNT: usize = STANDING_PLACE + 1;

// The row of an account.
#[tactic(auto, unfolding(crate::specs::Interface::account_row, records::specs::Sections::terms_numbers, records::specs::Sections::prices_numbers))]
fn account_row(account: Account) -> [u64; ACCOUNT]
    ensures { result ≡ account_row account }
{
    let mut row = [0; ACCOUNT];
    row[STAGE_PLACE] = account.stage as u64;
    text::write_at(
        &mut row,
        TERMS_PLACE,
        &records::terms_numbers(account.terms),
    );
    text::write_at(
        &mut row,
        PRICES_PLACE,
        &records::prices_numbers(account.prices),
    );
    row[NEXT_PLACE] = u64::from(account.next);
    text::write_at(&mut row, CARRIED_PLACE, &account.carried.amounts());
    row[STANDING_PLACE] = account.standing;
    row
}

// How many calls of a list are answered, and how many rows of answers are written whole.
#[repr(C)]
#[derive(Clone, Copy)]
pub struct Counts {
    pub answered: u64,
    pub written: u64,
}

// Answers a list of calls from the fresh account.
#[unsafe(no_mangle)]
pub extern "C" fn kozempil_run(
    calls: &[u64],
    delivered: &[u32],
    received: &[u32],
    answers: &mut [u64],
    account: &mut [u64],
) -> Counts
    ensures { ListAnswered (calls_in calls.now delivered.now received.now) answers.old answers.new account.old account.new result }
{
    let ran = ledger::run(Account::fresh(), calls, delivered, received, answers);
    text::write_at(account, 0, &account_row(ran.account));
    Counts {
        answered: ran.answered,
        written: ran.written,
    }
}

// The account of its numbers, where they are an account.
#[tactic(auto, unfolding(crate::specs::Interface::is_account, crate::specs::Interface::account_at, crate::specs::Interface::account_read, records::specs::Reading::terms_read))]
fn account_at(words: &[u64]) -> Option<Account>
    ensures { result ≡ account_read words.now }
{
    if words.len() != ACCOUNT {
        return None;
    }
    Some(Account {
        stage: Stage::try_from(words[STAGE_PLACE]).ok()?,
        terms: records::known_terms_at(words, TERMS_PLACE)?,
        prices: records::prices_at(words, PRICES_PLACE),
        next: records::small_at(words, NEXT_PLACE)?,
        carried: records::four_at(words, CARRIED_PLACE),
        standing: words[STANDING_PLACE],
    })
}

// The answer to one call on any account, where the numbers are an account and a call.
#[tactic(auto, unfolding(crate::specs::Interface::account_read, crate::specs::Interface::is_answered, crate::specs::Interface::answer_to, ledger::specs::Encoding::answered_of))]
fn answer_to(account: &[u64], call: &[u64], delivered: &[u32], received: &[u32]) -> Option<Answered>
    ensures { result ≡ answer_to account.now call.now delivered.now received.now }
{
    ledger::answer_record(account_at(account)?, call, delivered, received)
}

// Answers one call on any account; 1 where the numbers are an account and a call, else 0 and nothing is written.
#[unsafe(no_mangle)]
pub extern "C" fn kozempil_call(
    account: &[u64],
    call: &[u64],
    delivered: &[u32],
    received: &[u32],
    answer: &mut [u64],
    after: &mut [u64],
) -> u32
    ensures value { result ≡ cond (is_answered account.now call.now) 1 0 }
    ensures answer_after { answer.new ≡ cond (is_answered account.now call.now) (sets answer.old 0 (row_of (answer_of (account_at account.now) (call_of call.now delivered.now received.now)))) answer.old }
    ensures after_after { after.new ≡ cond (is_answered account.now call.now) (sets after.old 0 (account_row (account_after (account_at account.now) (call_of call.now delivered.now received.now)))) after.old }
{
    let Some(answered) = answer_to(account, call, delivered, received) else {
        return 0;
    };
    let row = records::row_of(answered.answer);
    text::write_at(answer, 0, &row);
    text::write_at(after, 0, &account_row(answered.account));
    1
}

// Where the day view is in the register named: its start and length, both 0 where it is empty.
#[unsafe(no_mangle)]
pub extern "C" fn kozempil_day_view(
    delivered: &[u32],
    received: &[u32],
    month: u32,
    day: u32,
    number: u32,
    part: &mut [u64],
)
    ensures { part.new ≡ sets part.old 0 (part_numbers (view_of delivered.entry received.entry month day number)) }
{
    let shown = registers::part_shown(delivered, received, month, day, number);
    let (start, count) = shown.unwrap_or((0, 0));
    text::write_at(part, 0, &[start as u64, count as u64]);
}

// How many readings a register of a month has.
#[unsafe(no_mangle)]
pub extern "C" fn kozempil_register_length(month: u32) -> u64
    ensures { result ≡ month_length month }
{
    calendar::month_length(month) as u64
}

// The version of the layout of calls, answers and accounts.
#[unsafe(no_mangle)]
pub extern "C" fn kozempil_layout() -> u32
    ensures { result ≡ layout_version }
{
    LAYOUT
}

// Writes the statement of an input to the front of a text, as much of it as fits, and says how long the whole is.
#[unsafe(no_mangle)]
pub extern "C" fn kozempil_statement(input: &[u8], text: &mut [u8]) -> u64
    ensures written { text.new ≡ sets text.old 0 (statement_of input.now) }
    ensures long { result ≡ length_of (statement_of input.now) }
{
    whole::statement_of(input, text)
}
