// The statement of a whole input.
#![tactic(auto)]

ghost use Rattle.std.specs.Prelude.{◌≡◌};
ghost use Rattle.std.proofs.lemmas.List.Edits.{sets};
ghost use Rattle.lines.specs.Statement.{statement_of};
ghost use Rattle.lines.specs.Feeding.{ending};
ghost use Rattle.session.specs.Sessions.{so_far_of};
ghost use Rattle.whole.specs.Adding.{Adds, FeedsSome};
ghost use Rattle.whole.specs.Whole.{length_of};

use session::Session;

// The most bytes that a session is fed at once: between such pieces it is asked whether a fault has stopped it.
const PIECE_BYTES: usize = 65536;

// Room for what a session prints in between: with at least 2,048 bytes it takes some of the input each time.
const CHUNK_BYTES: usize = 4096;

// How many bytes a session took, and where the text goes that follows theirs.
#[derive(Clone, Copy)]
struct Fed {
    taken: usize,
    place: usize,
}

// Adds bytes to a text, and says where the next ones go: places stay at the largest number, where nothing is written any more. A text and a place in it are no
// struct: one that borrows the text would have to say what that holds when the borrow ends, as these contracts do. Nor is it the text from the place on: the
// place goes on past the text's end, since the length of the whole is told.
fn add(text: &mut [u8], place: usize, bytes: &[u8]) -> usize
    ensures { Adds text.old place bytes.now text.new result }
{
    text::write_at(text, place, bytes);
    place.saturating_add(bytes.len())
}

// Feeds a session a piece of the input, or as much of it as the chunk has room for what it prints, and adds that to the text.
fn feed_some(session: &mut Session, input: &[u8], text: &mut [u8], place: usize) -> Fed
    ensures { FeedsSome (so_far_of session.old) input.now text.old place result.taken (so_far_of session.new) text.new result.place }
{
    let mut chunk = [0u8; CHUNK_BYTES];
    let piece = input.len().min(PIECE_BYTES);
    let fed = session.feed(&input[..piece], &mut chunk);
    Fed {
        taken: fed.taken,
        place: add(text, place, &chunk[..fed.written]),
    }
}

// Adds what the end of the input prints.
fn finish(session: &mut Session, text: &mut [u8], place: usize) -> usize
    ensures { Adds text.old place (ending (so_far_of session.old)) text.new result }
{
    let mut chunk = [0u8; CHUNK_BYTES];
    let written = session.finish(&mut chunk);
    add(text, place, &chunk[..written])
}

// Writes the statement of an input to the front of a text, as much of it as fits, and says how long the whole is.
pub fn statement_of(input: &[u8], text: &mut [u8]) -> u64
    ensures written { text.new ≡ sets text.old 0 (statement_of input.now) }
    ensures long { result ≡ length_of (statement_of input.now) }
{
    let mut session = Session::start();
    let mut rest = input;
    let mut place = 0;
    while !rest.is_empty() {
        let fed = feed_some(&mut session, rest, text, place);
        rest = &rest[fed.taken..];
        place = fed.place;
        if session.is_stopped() {
            return place as u64;
        }
    }
    finish(&mut session, text, place) as u64
}
