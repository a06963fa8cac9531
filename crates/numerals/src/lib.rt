// Numbers and months as `statement` reads them: what a text gives in numbers, or none where it is unreadable.
#![tactic(auto)]

ghost use Rattle.std.specs.Prelude.{◌≡◌, cond, [], ◌<◌, min, leb, IfSome, option_to_list};
ghost use Rattle.arrayvec.specs.ArrayVec.{array_vec_len};
ghost use Rattle.numerals.specs.Numerals.{number_in, month_in, numbers_in, numbers_up_to};
ghost use Rattle.numerals.specs.Reading.{items_of};
ghost use Rattle.numerals.specs.Joining.{month_from};

use arrayvec::ArrayVec;

// The most digits of a number.
const MOST_DIGITS: usize = 10;

// The bytes of a month.
const MONTH_LENGTH: usize = 7;

// A number of 1 to 10 digits that fits 32 bits. It is read by hand: `str::parse` takes a sign and any count of digits, and asks for a `str`, so that each would
// be tested first; and by `char::to_digit` a number takes 1.4 times as long.
pub fn number_in(text: &[u8]) -> Option<u32>
    ensures { option_to_list result ≡ number_in text.now }
{
    if text.is_empty() || MOST_DIGITS < text.len() {
        return None;
    }
    let mut value: u32 = 0;
    for byte in text {
        if !byte.is_ascii_digit() {
            return None;
        }
        value = value.checked_mul(10)?.checked_add(u32::from(byte - b'0'))?;
    }
    Some(value)
}

// The number of a month from 2000 to 9999.
#[tactic(auto, using(std::proofs::lemmas::Bool::Decides::nat_tests), unfolding(crate::specs::Joining::month_from))]
fn month_of(year: u32, of_year: u32) -> Option<u32>
    ensures { option_to_list result ≡ month_from year of_year }
{
    match (year, of_year) {
        (2000..=9999, 1..=12) => Some(12 * (year - 2000) + (of_year - 1)),
        _ => None,
    }
}

// A month, as its number.
pub fn month_in(text: &[u8]) -> Option<u32>
    ensures { option_to_list result ≡ month_in text.now }
{
    if text.len() != MONTH_LENGTH || text[4] != b'-' {
        return None;
    }
    let year = number_in(&text[..4])?;
    let of_year = number_in(&text[5..])?;
    month_of(year, of_year)
}

// One number or more, up to so many, with commas between them; no more than N, which is the room for them.
// That there is one stays a clause, here and in the crate above: a type for it would wrap `ArrayVec` with methods of its own, and be no plainer.
pub fn numbers_up_to<const N: usize>(text: &[u8], most: usize) -> Option<ArrayVec<u32, N>>
    ensures value { items_of result ≡ numbers_up_to (min most N) text.now }
    ensures some { IfSome result (λ numbers. 0 < array_vec_len numbers) }
{
    let mut numbers = ArrayVec::new();
    // By what is left and not by `split`, whose loop the check can't read in a function with a const parameter.
    let mut rest = text;
    for _ in 0..most.min(N) {
        let Some((number, behind)) = text::split_once(b',', rest) else {
            numbers.push(number_in(rest)?);
            return Some(numbers);
        };
        numbers.push(number_in(number)?);
        rest = behind;
    }
    None
}

// So many numbers with commas between them; none where there is no room for so many. An `ArrayVec` and no array: with `[u32; N]` alone in the signature, that
// an `ArrayVec` of N fits memory would have to be required, and a public function requires nothing.
pub fn numbers_in<const N: usize>(text: &[u8], count: usize) -> Option<ArrayVec<u32, N>>
    ensures value { items_of result ≡ cond (leb count N) (numbers_in count text.now) [] }
    ensures all { IfSome result (λ numbers. array_vec_len numbers ≡ count) }
{
    let numbers = numbers_up_to(text, count)?;
    (numbers.len() == count).then_some(numbers)
}
