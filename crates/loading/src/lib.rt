// Loads a schedule from a text.
#![tactic(auto)]

ghost use Rattle.std.specs.Prelude.{◌≡◌, [], MatchOption, unwrap_or};
ghost use Rattle.std.specs.List.{list_all};
ghost use Rattle.loading.specs.Loading.{is_period_digit, periods_in, load_number, table_after};
ghost use Rattle.loading.specs.Numbers.{number_of};
ghost use Rattle.loading.specs.Reading.{RowRefused, RowRead, RowsRefused, RowsRead};

// The quarters of a row's line, and the rows.
const QUARTERS: usize = 96;

const ROWS: usize = 4;

// What is lent isn't loaded: row 15 of the table of refusals.
#[derive(Clone, Copy, Debug, PartialEq, Eq)]
pub struct ScheduleRefused;

// Whether each digit writes a period.
fn all_periods(digits: &[u8]) -> bool
    ensures { result ≡ list_all is_period_digit digits.now }
{
    digits.iter().all(|digit| (b'1'..=b'3').contains(digit))
}

// The periods that digits write, if they are those of a row.
fn periods_in(digits: &[u8]) -> Option<[u8; QUARTERS]>
    ensures { unwrap_or result [] ≡ periods_in digits.now }
{
    let digits: [u8; QUARTERS] = digits.try_into().ok()?;
    if !all_periods(&digits) {
        return None;
    }
    Some(digits.map(|digit| digit - b'0'))
}

// The row that the first line of a text gives by its key, and the text behind that line. Where no newline ends the line, it is the whole text.
fn row_in<'a>(text: &'a [u8], key: &[u8]) -> Option<([u8; QUARTERS], &'a [u8])>
    ensures { MatchOption result (RowRefused key.now text.now) (λ read. RowRead key.now text.now read.0 read.1.now) }
{
    if text.is_empty() {
        return None;
    }
    let (line, rest) = text::split_once(b'\n', text).unwrap_or((text, &[]));
    let row = periods_in(grammar::after_key(line, key)?)?;
    Some((row, rest))
}

// The rows that the lines of a text give, if there are four good ones and no more.
fn rows_in(text: &[u8]) -> Option<[[u8; QUARTERS]; ROWS]>
    ensures { MatchOption result (RowsRefused text.now) (RowsRead text.now) }
{
    let (winter_weekday, rest) = row_in(text, b"winter-weekday=")?;
    let (winter_weekend, rest) = row_in(rest, b"winter-weekend=")?;
    let (summer_weekday, rest) = row_in(rest, b"summer-weekday=")?;
    let (summer_weekend, rest) = row_in(rest, b"summer-weekend=")?;
    rest.is_empty().then_some([
        winter_weekday,
        winter_weekend,
        summer_weekday,
        summer_weekend,
    ])
}

// Loads a schedule from four lines into a table; a refused load leaves the table unaltered. The rows are read aside, since the last one may be bad.
pub fn load(text: &[u8], table: &mut [u8]) -> Result<(), ScheduleRefused>
    ensures value { number_of result ≡ load_number text.now table.old }
    ensures table_after { table.new ≡ table_after text.now table.old }
{
    if table.len() != hours::SCHEDULE_LENGTH {
        return Err(ScheduleRefused);
    }
    let rows = rows_in(text).ok_or(ScheduleRefused)?;
    table.copy_from_slice(rows.as_flattened());
    Ok(())
}
