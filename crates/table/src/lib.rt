// What the options of `statement` show of a printed line, with its newline or without: a table, an explanation.
#![tactic(auto)]

ghost use Rattle.std.specs.Prelude.{◌≡◌, true, ◌+◌, ◌*◌, ◌≤◌, ◌<◌, length};
ghost use Rattle.numerals.specs.Numerals.{is_digit};
ghost use Rattle.printing.specs.Writing.{Wrote, PutIn};
ghost use Rattle.table.specs.Numbers.{capped, with_digit, numbers_of, kind_of};
ghost use Rattle.table.specs.Reasons.{wrong_at};
ghost use Rattle.table.specs.Table.{table_of, table_room};
ghost use Rattle.table.specs.Explaining.{explanation_of};
ghost use Rattle.table.specs.Filling.{value_of, kind_by, row_number, row_by, to_do_at, cell_at, Width, column_byte, column_rest, column, shown_of, plain_value, marked_by, filled_by, most_filled, table_template, table_first, explanation_template};

// A table or an explanation has at most this many bytes.
const TABLE_ROOM: usize = 2048;

// The numbers of a month's line. They are a list and no struct, as in the definition: a line is read whatever its kind, and its numbers have names only where
// it is a month's.
const NUMBERS: usize = 33;

// The numbers of a table.
const CELLS: usize = 37;

// The largest number that a narrow column shows, and the widths of columns.
const NARROW_MOST: u64 = 999_999_999;

const NARROW: usize = 13;

const WIDE: usize = 28;

// The first mark of the table of a month: those before it are the marks of notes.
const TABLE_MARK: usize = 4;

// What a line tells. An opening and a month have the number of their refusal, as the line shows it: 0 says that nothing was refused. No Option: it would
// first be made of this number by a test, and each match would have `Some(n)` in place of `n`.
#[derive(Clone, Copy)]
enum Kind {
    Opening(u64),
    Month(u64),
    Stop,
    Other,
}

// The rows of the reasons: of an opening's refusals, of a month's, of one that has none here, and of a stop.
#[derive(Clone, Copy)]
enum Row {
    NeverOpened,
    Amounts,
    Nameplates,
    Business,
    FirstMonth,
    OtherMonth,
    Readings,
    CriticalDays,
    LargeReading,
    LastMonth,
    FirstLost,
    Unknown,
    Stopped,
}

// A text with marks: `#` for a number, `~` for what is wrong and `!` for what to do. Its `#`s are counted from its first mark on. A template, for the reasons
// that `printing` has for its own; the two differ in what a mark takes and in the room. One function for both, given what a mark puts, would need a contract
// that says, for any such function, which text the pieces make.
#[derive(Clone, Copy)]
struct Template {
    text: &'static [u8],
    first_mark: usize,
}

// A number in a column: so many bytes of it, the last of which has so many of the number after it.
#[derive(Clone, Copy)]
struct Shown {
    value: u64,
    width: usize,
    place: usize,
}

// What is read of a line: its kind, its numbers, and how wide their columns are in a table.
#[derive(Drop)]
struct Sheet {
    kind: Kind,
    numbers: [u64; NUMBERS],
    width: usize,
    ghost least: { 13 ≤ width },
    ghost most: { width ≤ 28 },
}

// The value of a number with a digit more. As by the definition's `-`, a byte below `0` adds nothing; a run has none.
#[tactic(auto, unfolding(crate::specs::Numbers::with_digit))]
fn with_digit(value: u64, byte: u8) -> u64
    ensures { result ≡ with_digit value byte }
{
    value
        .saturating_mul(10)
        .saturating_add(u64::from(byte.saturating_sub(b'0')))
}

// The value of a run of digits. `parse` has no answer where 64 bits don't hold the number; here it stays at their largest.
fn value_of(run: &[u8]) -> u64
    ensures { result ≡ value_of run.now }
{
    run.iter().fold(0, |value, byte| with_digit(value, *byte))
}

// The numbers of a line, one for each run of digits, and 0 where there is none, as the definition fills all 33 places. They are stored by place: a loop over
// `numbers.iter_mut().zip(values)` is shorter, but nothing is known then of what it wrote (tried).
fn numbers_of(line: &[u8]) -> [u64; NUMBERS]
    ensures { result ≡ numbers_of line.now }
{
    let mut numbers = [0; NUMBERS];
    let values = line
        .split(|byte| !byte.is_ascii_digit())
        .filter(|run| !run.is_empty())
        .map(value_of);
    for (place, value) in values.take(NUMBERS).enumerate() {
        numbers[place] = value;
    }
    numbers
}

// The kind of a line with these numbers.
#[tactic(auto, unfolding(crate::specs::Numbers::kind_of))]
fn kind_of(line: &[u8], numbers: &[u64; NUMBERS]) -> Kind
    ensures { result ≡ kind_by (kind_of line.now) numbers.now }
{
    match line.first() {
        Some(b'l') => Kind::Stop,
        Some(b'o') => Kind::Opening(numbers[0]),
        Some(b'b') => Kind::Month(numbers[2]),
        _ => Kind::Other,
    }
}

// The numbers of a table in its order: the amounts by period, their sums, energy and due. `ByPeriod::total` is such a sum, but a `ByPeriod` would first have to
// be made of these four.
#[tactic(auto, unfolding(crate::specs::Filling::cell_at))]
fn cell_of(numbers: &[u64; NUMBERS], k: usize) -> u64
    requires { k < 37 }
    ensures { result ≡ cell_at numbers.now k }
{
    let first = 3 + 4 * (k % 7);
    if k < 28 {
        numbers[first + k / 7]
    } else if k < 35 {
        numbers[first..first + 4]
            .iter()
            .fold(0, |sum: u64, amount| sum.saturating_add(*amount))
    } else {
        numbers[k - 4]
    }
}

// How wide the columns of a table are.
fn width_of(numbers: &[u64; NUMBERS]) -> usize
    ensures { Width numbers.now result }
{
    if (0..CELLS).any(|k| NARROW_MOST < cell_of(numbers, k)) {
        WIDE
    } else {
        NARROW
    }
}

// The byte of a number that so many of its bytes follow: a digit, every fourth time a comma, and a blank once no digit is left. Here, in the rest and in
// `put_column` number and place go as two, as in the definitions of the same names. No format of std, nor `itoa`, groups digits by commas.
fn column_byte(number: u64, place: usize) -> u8
    ensures { result ≡ column_byte place number }
{
    let digit = b'0' + (number % 10) as u8;
    if place == 0 {
        digit
    } else if number == 0 {
        b' '
    } else if place % 4 == 3 {
        b','
    } else {
        digit
    }
}

// What is left of the number for the bytes before that one.
fn column_rest(number: u64, place: usize) -> u64
    ensures { result ≡ column_rest place number }
{
    if place % 4 == 3 { number } else { number / 10 }
}

// Writes a number over all of a part, at its right end: its last byte, and what is left of the number over the bytes before. It calls itself, as `column`
// does: a loop over `out.iter_mut().rev()` is as short, but nothing is known then of what it wrote (tried).
fn put_column(out: &mut [u8], number: u64, place: usize)
    requires { place + length out.old ≤ 32 }
    ensures { out.new ≡ column (length out.old) place number }
{
    if let Some((last, rest)) = out.split_last_mut() {
        *last = column_byte(number, place);
        put_column(rest, column_rest(number, place), place + 1);
    }
}

// Copies bytes to the front, and says how many they are: three arms of `put` need both. One by one: `write_at` of all is a `memmove`, a name that the archive
// for C would need from outside for this alone.
fn put_bytes(out: &mut [u8], bytes: &[u8]) -> usize
    ensures { Wrote out.old 0 bytes.now out.new result }
{
    for place in 0..bytes.len() {
        text::write_at(out, place, &bytes[place..place + 1]);
    }
    bytes.len()
}

// The numbers of a note: year, month in two digits, answer.
#[tactic(auto, unfolding(crate::specs::Filling::plain_value))]
fn plain_value(numbers: &[u64; NUMBERS], k: usize) -> u64
    requires { k < 4 }
    ensures { result ≡ plain_value numbers.now k }
{
    let [first, second, third, ..] = *numbers;
    [first, second / 10, second % 10, third][k]
}

// The row of a refusal's reason, or of a stop's. The number is one that a line shows, of any size, and no `Refusal`: that would first have to be made of it, by
// the same match.
#[tactic(auto, unfolding(crate::specs::Reasons::opening_row, crate::specs::Reasons::month_row))]
fn row_of(kind: Kind) -> Row
    ensures { row_number result ≡ row_by kind }
{
    match kind {
        Kind::Stop => Row::Stopped,
        Kind::Opening(4) => Row::Amounts,
        Kind::Opening(5) => Row::Nameplates,
        Kind::Opening(6) => Row::Business,
        Kind::Opening(7) => Row::FirstMonth,
        Kind::Month(1) => Row::NeverOpened,
        Kind::Month(7) => Row::OtherMonth,
        Kind::Month(8) => Row::Readings,
        Kind::Month(9) => Row::CriticalDays,
        Kind::Month(10) => Row::LargeReading,
        Kind::Month(11) => Row::LastMonth,
        Kind::Month(13) => Row::FirstLost,
        Kind::Opening(_) | Kind::Month(_) | Kind::Other => Row::Unknown,
    }
}

impl Row {
    // What is wrong.
    #[tactic(auto, unfolding(crate::specs::Reasons::wrong_at))]
    fn wrong(self) -> &'static [u8]
        ensures { result.now ≡ wrong_at (row_number self) }
    {
        match self {
            Row::NeverOpened => b"the account was never opened",
            Row::Amounts => b"an amount above 1,000,000, or an energy price above the one before",
            Row::Nameplates =>
                b"a nameplate of 0, or a total above line 5, 20 kW (home), or 1,000 kW (business)",
            Row::Business => b"a business under the bridge rider",
            Row::FirstMonth => b"a first month after December 2099",
            Row::OtherMonth => b"not the month that is next",
            Row::Readings => b"more or fewer readings than the month has quarter-hours",
            Row::CriticalDays => b"a critical day that the month doesn't have, or more than ten",
            Row::LargeReading => b"a reading above 1,000,000 Wh",
            Row::LastMonth => b"December 2099 was billed, and there is no month after it",
            Row::FirstLost => b"the first reading of a register is lost",
            Row::Unknown => b"a refusal that this program doesn't know",
            Row::Stopped => b"not a line that can stand there, or the input ends before it",
        }
    }

    // What to do.
    #[tactic(auto, unfolding(crate::specs::Filling::to_do_at))]
    fn to_do(self) -> &'static [u8]
        ensures { result.now ≡ to_do_at (row_number self) }
    {
        match self {
            Row::NeverOpened => b"repair the opening; its number is in the first line printed",
            Row::Amounts => b"correct lines 7 to 14",
            Row::Nameplates => b"correct line 4 or 5",
            Row::Business => b"make it a home, or take the banked rider",
            Row::FirstMonth => b"open earlier",
            Row::OtherMonth => b"bill the months in order, each once, from line 1's month on",
            Row::Readings => b"make the counts of its runs add up",
            Row::CriticalDays => b"add up the days again",
            Row::LargeReading => b"correct the run",
            Row::LastMonth => b"stop there",
            Row::FirstLost => b"give a reading there; only later ones are filled in",
            Row::Unknown => b"ask the office",
            Row::Stopped => b"correct the line and run the file again",
        }
    }
}

impl Template {
    // A text whose marks are counted from the first on.
    fn note(text: &'static [u8]) -> Template
        ensures text { result.text.now ≡ text.now }
        ensures first { result.first_mark ≡ 0 }
    {
        Template {
            text,
            first_mark: 0,
        }
    }
}

// The template of a table. Templates and rows go by kind and not by a sheet, of whose numbers they need no other.
#[tactic(auto, unfolding(crate::specs::Filling::table_template, crate::specs::Filling::table_first, crate::specs::Filling::month_template))]
fn table_template(kind: Kind) -> Template
    ensures text { result.text.now ≡ table_template kind }
    ensures first { result.first_mark ≡ table_first kind }
{
    match kind {
        Kind::Stop => Template::note(b"stopped at line #\n\n"),
        Kind::Opening(0) => Template::note(b"account opened\n\n"),
        Kind::Opening(_) => Template::note(b"opening refused, #: ~\n\n"),
        Kind::Month(0) => Template {
            text: b"#-## #        3 own#        4 out#         5 in#       6 paid#  7 forfeited#     8 billed#       9 left\n\
                critical#######\non-peak #######\noff-peak#######\ndiscount#######\nsum     #######\n\
                energy  #.##\ndue     #.##\n\n",
            first_mark: TABLE_MARK,
        },
        Kind::Month(_) => Template::note(b"#-##  refused, #: ~\n\n"),
        Kind::Other => Template::note(b""),
    }
}

// The template of an explanation: that of a refusal or a stop, and otherwise an empty one.
#[tactic(auto, unfolding(crate::specs::Filling::explanation_template))]
fn explanation_template(kind: Kind) -> Template
    ensures text { result.text.now ≡ explanation_template kind }
    ensures first { result.first_mark ≡ 0 }
{
    match kind {
        Kind::Stop => Template::note(b"line=#: ~; !\n"),
        Kind::Opening(0) | Kind::Month(0) | Kind::Other => Template::note(b""),
        Kind::Opening(_) => Template::note(b"open=#: ~; !\n"),
        Kind::Month(_) => Template::note(b"bill=#-## answer=#: ~; !\n"),
    }
}

impl Sheet {
    // The sheet of a line.
    fn of(line: &[u8]) -> Sheet
        ensures kind { result.kind ≡ kind_by (kind_of line.now) result.numbers }
        ensures numbers { result.numbers ≡ numbers_of line.now }
        ensures width { Width result.numbers result.width }
    {
        let numbers = numbers_of(line);
        let kind = kind_of(line, &numbers);
        let width = width_of(&numbers);
        Sheet {
            kind,
            numbers,
            width,
        }
    }

    // What stands in a table's columns, by the count of its mark: blanks that widen the seven headings, the numbers, energy and due in dollars and two digits
    // of cents.
    #[tactic(auto, unfolding(crate::specs::Filling::shown_of))]
    fn shown(&self, k: usize) -> Shown
        ensures { result ≡ shown_of self.now.numbers self.now.width k }
    {
        if k < 7 {
            let width = self.width - NARROW;
            return Shown {
                value: 0,
                width,
                place: 1,
            };
        }
        if k < 42 {
            let value = cell_of(&self.numbers, k - 7);
            return Shown {
                value,
                width: self.width,
                place: 0,
            };
        }
        let cents = cell_of(&self.numbers, 35 + k / 3 % 2);
        if k % 3 == 0 {
            let width = self.width - 3;
            return Shown {
                value: cents / 100,
                width,
                place: 0,
            };
        }
        let value = if k % 3 == 1 { cents / 10 } else { cents };
        Shown {
            value,
            width: 1,
            place: 0,
        }
    }

    // Writes what stands for a mark of a template. Notes begin with mark 0 and tables with mark 4. Marks are numbers and no enum: they are counted along the
    // text, and which number stands for one is a formula of its count, from which an enum would first have to be made.
    fn put_mark(&self, out: &mut [u8], mark: usize) -> usize
        requires { 28 ≤ length out.old }
        ensures { Wrote out.old 0 (marked_by self.now.numbers self.now.width mark) out.new result }
    {
        if mark < 7 {
            return printing::put_number(out, plain_value(&self.numbers, mark % 4));
        }
        let shown = self.shown(mark - 7);
        put_column(&mut out[..shown.width], shown.value, shown.place);
        shown.width
    }

    // Fills in a template at the front, where there is room, and says how many bytes that are; otherwise 0.
    fn put(&self, out: &mut [u8], template: Template) -> usize
        requires { (most_filled template.text.now ≤ table_room) × (template.first_mark ≤ 4) }
        ensures { let row = row_by self.now.kind in PutIn table_room out.old 0 (filled_by (marked_by self.now.numbers self.now.width) (wrong_at row) (to_do_at row) template.first_mark template.text.now) out.new result }
    {
        if out.len() < TABLE_ROOM {
            return 0;
        }
        let row = row_of(self.kind);
        let mut end = 0;
        let mut mark = template.first_mark;
        for byte in template.text {
            let rest = &mut out[end..];
            end += match *byte {
                b'#' => {
                    let count = self.put_mark(rest, mark);
                    mark += 1;
                    count
                }
                b'~' => put_bytes(rest, row.wrong()),
                b'!' => put_bytes(rest, row.to_do()),
                _ => put_bytes(rest, &[*byte]),
            };
        }
        end
    }
}

// Writes the table for a printed line at the front, where there is room, and says how many bytes it has; otherwise 0. This and the next differ in the
// template's choice alone, and by a function that is given the choice each would be as long.
pub fn put_table(out: &mut [u8], line: &[u8]) -> usize
    ensures { PutIn table_room out.old 0 (table_of line.now) out.new result }
{
    let sheet = Sheet::of(line);
    let table = table_template(sheet.kind);
    sheet.put(out, table)
}

// Writes the explanation of a printed line at the front, where there is room, and says how many bytes it has; otherwise 0.
pub fn put_explanation(out: &mut [u8], line: &[u8]) -> usize
    ensures { PutIn table_room out.old 0 (explanation_of line.now) out.new result }
{
    let sheet = Sheet::of(line);
    let note = explanation_template(sheet.kind);
    sheet.put(out, note)
}
