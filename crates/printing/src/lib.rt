// The texts that `statement` prints, written to a lent buffer.
#![tactic(auto)]

ghost use Rattle.std.specs.Prelude.{◌≡◌, ◌≤◌};
ghost use Rattle.printing.specs.Text.{most_digits, decimal, filled_in, most_bytes};
ghost use Rattle.printing.specs.Printing.{bill_text, open_text, line_text};
ghost use Rattle.printing.specs.Writing.{PutIn, text_room, has_room, Put};

use billing::Bill;
use itoa::Buffer;

// Each text has at most this many bytes.
const TEXT_ROOM: usize = 1024;

// The most digits of a number of 64 bits.
const MOST_DIGITS: usize = 20;

// Whether any one text fits into a buffer.
pub fn has_room(out: &[u8]) -> bool
    ensures { result ≡ has_room out.now 0 }
{
    TEXT_ROOM <= out.len()
}

// Writes a number in decimal at the front, where any number of 64 bits fits, and says how many digits it has; otherwise 0.
pub fn put_number(out: &mut [u8], number: u64) -> usize
    ensures { PutIn most_digits out.old 0 (decimal number) out.new result }
{
    if out.len() < MOST_DIGITS {
        return 0;
    }
    let mut buffer = Buffer::new();
    let digits = buffer.format(number).as_bytes();
    let count = digits.len();
    out[..count].copy_from_slice(digits);
    count
}

// Writes a template at the front, with numbers in the places of its `#`s, where there is room, and says how many bytes that are; otherwise 0.
// A template, and not `write!`, which promises its bytes of an Ok alone: nothing says that there is an Ok where the text fits, and this contract does.
// It is put in lent memory, by the rule that memory is fixed and has no heap.
fn put_text(out: &mut [u8], template: &[u8], numbers: &[u64]) -> usize
    requires { most_bytes template.now ≤ text_room }
    ensures { Put out.old 0 (filled_in template.now numbers.now) out.new result }
{
    if !has_room(out) {
        return 0;
    }
    let mut numbers = numbers.iter();
    let mut end = 0;
    for byte in template {
        if *byte != b'#' {
            out[end] = *byte;
            end += 1;
        } else if let Some(number) = numbers.next() {
            end += put_number(&mut out[end..], *number);
        }
    }
    end
}

// Writes the line of a month at the front, where there is room, and says how many bytes it has; otherwise 0. Number and bill are those of its definition, any
// of them: a Result of a refusal would ask more of callers.
pub fn put_bill(out: &mut [u8], month: u32, number: u32, bill: Bill) -> usize
    ensures { Put out.old 0 (bill_text month number bill) out.new result }
{
    let year = u64::from(calendar::year(month));
    let of_year = u64::from(calendar::month_of_year(month));
    let head = [year, of_year / 10, of_year % 10, u64::from(number)];
    let rows = [
        bill.own.amounts(),
        bill.out.amounts(),
        bill.into.amounts(),
        bill.paid.amounts(),
        bill.forfeited.amounts(),
        bill.billed.amounts(),
        bill.left.amounts(),
    ];
    let money = [bill.charges.energy, bill.charges.due];
    // One number for each mark of the template, in its order. Copied to their places: as a chain of iterators, the contract of `put_text` would have to say
    // which numbers that yields; by an `ArrayVec` each part would answer whether it fits, and it always does.
    let mut numbers = [0; 34];
    text::write_at(&mut numbers, 0, &head);
    text::write_at(&mut numbers, 4, rows.as_flattened());
    text::write_at(&mut numbers, 32, &money);
    let line = b"bill=#-## answer=# own=#,#,#,# out=#,#,#,# in=#,#,#,# paid=#,#,#,# \
        forfeited=#,#,#,# billed=#,#,#,# left=#,#,#,# energy=# due=#\n";
    put_text(out, line, &numbers)
}

// Writes the number of an opening at the front, where there is room, and says how many bytes that are; otherwise 0.
pub fn put_open(out: &mut [u8], number: u32) -> usize
    ensures { Put out.old 0 (open_text number) out.new result }
{
    put_text(out, b"open=#\n", &[u64::from(number)])
}

// Writes the number of a faulty or absent line at the front, where there is room, and says how many bytes that are; otherwise 0.
pub fn put_line(out: &mut [u8], number: u64) -> usize
    ensures { Put out.old 0 (line_text number) out.new result }
{
    put_text(out, b"line=#\n", &[number])
}
