// Texts, as bytes; and how any items are read from a list and written to a lent buffer.
#![tactic(auto)]

ghost use Rattle.std.specs.Prelude.{◌≡◌, ◌<◌, length, IfSome, MatchOption, get_or, unwrap_or};
ghost use Rattle.std.proofs.lemmas.List.Edits.{sets};
ghost use Rattle.text.specs.Text.{place_of};
ghost use Rattle.text.specs.Splitting.{Whole, Split};

// The place where a byte first stands, if a text has it.
pub fn find(byte: u8, text: &[u8]) -> Option<usize>
    ensures place { unwrap_or result (length text.now) ≡ place_of byte text.now }
    ensures within { IfSome result (λ place. place < length text.now) }
{
    text.iter().position(|b| *b == byte)
}

// What stands before the first of a byte, and what stands behind it, if a text has it.
pub fn split_once(byte: u8, text: &[u8]) -> Option<(&[u8], &[u8])>
    ensures { MatchOption result (Whole byte text.now) (λ parts. Split byte text.now parts.0.now parts.1.now) }
{
    let place = find(byte, text)?;
    Some((&text[..place], &text[place + 1..]))
}

// The item at a place, or another one past the end.
pub fn at_or<T: Copy>(items: &[T], place: usize, otherwise: T) -> T
    ensures { result ≡ get_or items.now place otherwise }
{
    items.get(place).copied().unwrap_or(otherwise)
}

// Writes items to a buffer from a place on; what doesn't fit is left out.
#[tactic(auto, using(crate::proofs::Writing::copied, crate::proofs::Writing::none_written))]
pub fn write_at<T: Copy>(buffer: &mut [T], place: usize, items: &[T])
    ensures { buffer.new ≡ sets buffer.old place items.now }
{
    if place < buffer.len() {
        let fit = items.len().min(buffer.len() - place);
        buffer[place..place + fit].copy_from_slice(&items[..fit]);
    }
}
