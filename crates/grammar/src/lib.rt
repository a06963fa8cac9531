// The lines that `statement` reads: what each gives in numbers, or none where it is unreadable.
#![tactic(auto)]

ghost use Rattle.std.specs.Prelude.{◌≡◌, ◌<◌, true, false, None, [], ◌∷◌, length, drop, IfSome, is_some, option_to_list, unwrap_or};
ghost use Rattle.std.specs.Fn.{FnReturnsAt};
ghost use Rattle.arrayvec.specs.ArrayVec.{array_vec_len};
ghost use Rattle.numerals.specs.Numerals.{number_in};
ghost use Rattle.numerals.specs.Reading.{items_of};
ghost use Rattle.grammar.specs.Grammar.{begins_with, choice_in, keyed};
ghost use Rattle.grammar.specs.Grammar.{opening_line, bill_line, critical_line, run_line};

use arrayvec::ArrayVec;

// The most numbers of a line: the nameplates.
pub const MOST_NUMBERS: usize = 8;

// What stands after a key, if a line begins with it.
#[tactic(auto, using(crate::proofs::Texts::begins_is))]
pub fn after_key<'a>(line: &'a [u8], key: &[u8]) -> Option<&'a [u8]>
    ensures begins { is_some result ≡ begins_with key.now line.now }
    ensures rest { IfSome result (λ rest. rest.now ≡ drop (length key.now) line.now) }
{
    line.strip_prefix(key)
}

// One of two words, as a number, since the definition of a line is a list of numbers, as the grammar is written: values of their own types would be numbered
// again for each contract.
#[tactic(auto, using(crate::proofs::Texts::text_is), unfolding(crate::specs::Grammar::choice_in))]
fn choice_in(text: &[u8], first: &[u8], second: &[u8]) -> Option<u32>
    ensures { option_to_list result ≡ choice_in first.now second.now text.now }
{
    if text == first {
        Some(0)
    } else if text == second {
        Some(1)
    } else {
        None
    }
}

// One number among several.
fn alone(number: u32) -> ArrayVec<u32, MOST_NUMBERS>
    ensures { result.items ≡ number ∷ [] }
{
    let mut numbers = ArrayVec::new();
    numbers.push(number);
    numbers
}

// What is read after a key, if a line begins with it.
fn keyed<T, R: Fn(&[u8]) -> Option<T>>(line: &[u8], key: &[u8], read: R) -> Option<T>
    requires { R.IsAlwaysCallable read }
    ensures yes { begins_with key.now line.now ≡ true → FnReturnsAt R.Fn read (drop (length key.now) line.now) result }
    ensures no { begins_with key.now line.now ≡ false → result ≡ None }
{
    read(after_key(line, key)?)
}

// One of two words after a key.
#[tactic(auto, unfolding(crate::specs::Grammar::keyed))]
fn word(line: &[u8], key: &[u8], first: &[u8], second: &[u8]) -> Option<ArrayVec<u32, MOST_NUMBERS>>
    ensures value { items_of result ≡ keyed key.now (choice_in first.now second.now) line.now }
    ensures some { IfSome result (λ numbers. 0 < array_vec_len numbers) }
{
    keyed(line, key, |text| choice_in(text, first, second)).map(alone)
}

// A number after a key.
#[tactic(auto, unfolding(crate::specs::Grammar::keyed))]
fn number(line: &[u8], key: &[u8]) -> Option<ArrayVec<u32, MOST_NUMBERS>>
    ensures value { items_of result ≡ keyed key.now number_in line.now }
    ensures some { IfSome result (λ numbers. 0 < array_vec_len numbers) }
{
    keyed(line, key, numerals::number_in).map(alone)
}

// Line k + 1 of the fourteen that open the account. k is any number: a type of fourteen lines would ask more of callers, and a `TryFrom`
// to it would be a second match of fourteen.
#[tactic(auto, unfolding(crate::specs::Grammar::opening_line, crate::specs::Grammar::keyed))]
pub fn opening_line(k: u32, line: &[u8]) -> Option<ArrayVec<u32, MOST_NUMBERS>>
    ensures value { items_of result ≡ opening_line k line.now }
    ensures some { IfSome result (λ numbers. 0 < array_vec_len numbers) }
{
    match k {
        0 => keyed(line, b"opens=", numerals::month_in).map(alone),
        1 => word(line, b"rider=", b"banked", b"bridge"),
        2 => word(line, b"class=", b"home", b"business"),
        3 => keyed(line, b"nameplate=", |text| {
            numerals::numbers_up_to(text, MOST_NUMBERS)
        }),
        4 => number(line, b"limit="),
        5 => word(line, b"assisted=", b"no", b"yes"),
        6 => keyed(line, b"prices=", |text| numerals::numbers_in(text, 4)),
        7 => number(line, b"demand="),
        8 => number(line, b"standby="),
        9 => number(line, b"bypass="),
        10 => number(line, b"credit="),
        11 => number(line, b"distribution="),
        12 => number(line, b"basic="),
        13 => number(line, b"minimum="),
        _ => None,
    }
}

// The first line of a month.
#[tactic(auto, unfolding(crate::specs::Grammar::bill_line, crate::specs::Grammar::keyed))]
pub fn bill_line(line: &[u8]) -> Option<u32>
    ensures { option_to_list result ≡ bill_line line.now }
{
    keyed(line, b"bill=", numerals::month_in)
}

// The second line of a month.
#[tactic(auto, unfolding(crate::specs::Grammar::critical_line, crate::specs::Grammar::keyed))]
pub fn critical_line(line: &[u8]) -> Option<u32>
    ensures { option_to_list result ≡ critical_line line.now }
{
    keyed(line, b"critical=", numerals::number_in)
}

// A run of equal readings.
#[tactic(auto, unfolding(crate::specs::Grammar::run_line, crate::specs::Grammar::keyed))]
pub fn run_line(line: &[u8]) -> Option<[u32; 3]>
    ensures { unwrap_or result [] ≡ run_line line.now }
{
    keyed(line, b"run=", |text| numerals::numbers_in(text, 3))?
        .into_inner()
        .ok()
}
