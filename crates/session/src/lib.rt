// `statement` fed with bytes as they come.
#![tactic(auto)]

ghost use Rattle.std.specs.Prelude.{◌≡◌, true};
ghost use Rattle.printing.specs.Writing.{has_room};
ghost use Rattle.lines.specs.Statement.{has_stopped};
ghost use Rattle.lines.specs.Feeding.{nothing_read};
ghost use Rattle.session.specs.Sessions.{so_far_of, registers_of, Feeds, Finishes};
ghost use Rattle.session.specs.Taking.{Keeps, TakesLine, Takes};

mod kept;

use kept::Kept;
use progress::Progress;

// The most bytes that are kept of a line that isn't complete yet: one more than the longest readable line has.
pub const KEPT_BYTES: usize = 98;

// Room for the last two texts.
const LEAST_ROOM: usize = 2048;

// The bytes that are held of the line that isn't complete yet, and the progress of the lines so far. Lend at least 2,048 bytes for texts: with fewer
// `feed` takes nothing.
#[derive(Clone, Copy)]
pub struct Session {
    held: Kept,
    progress: Progress,
}

// How many bytes were taken, and how many were written.
#[derive(Clone, Copy)]
pub struct Fed {
    pub taken: usize,
    pub written: usize,
}

impl Session {
    // Nothing has been read.
    pub fn start() -> Session
        ensures { so_far_of result ≡ nothing_read }
    {
        Session {
            held: Kept::none(),
            progress: Progress::start(),
        }
    }

    // Whether a fault has stopped it.
    pub fn is_stopped(&self) -> bool
        ensures { result ≡ has_stopped (so_far_of self.now).state }
    {
        self.progress.is_stopped()
    }

    // Keeps more bytes of the line, as many as there is room for.
    fn keep(&mut self, bytes: &[u8])
        ensures { Keeps self.old bytes.now self.new }
    {
        self.held.add(bytes);
    }

    // Takes the bytes up to the first newline, and reads the line that it ends; or takes all bytes, where there is none.
    fn take_line(&mut self, input: &[u8], out: &mut [u8]) -> Fed
        requires { has_room out.old 0 ≡ true }
        ensures { TakesLine self.old input.now out.old 0 result.taken self.new result.written out.new }
    {
        let Some((line, _)) = text::split_once(b'\n', input) else {
            self.keep(input);
            return Fed {
                taken: input.len(),
                written: 0,
            };
        };
        self.keep(line);
        let written = self.progress.read_line(self.held.as_slice(), out);
        self.held.clear();
        Fed {
            taken: line.len() + 1,
            written,
        }
    }

    // Takes the run lines at the front of the input, where no byte is held; or the rest of one line, where there are none.
    fn take_lines(&mut self, input: &[u8], out: &mut [u8]) -> Fed
        requires { has_room out.old 0 ≡ true }
        ensures { Takes self.old input.now out.old 0 result.taken self.new result.written out.new }
    {
        if self.held.as_slice().is_empty() {
            let taken = self.progress.read_runs(input);
            if taken != 0 {
                return Fed { taken, written: 0 };
            }
        }
        self.take_line(input, out)
    }

    // Takes bytes as long as any one text still fits into the buffer for texts; none where it has less room than for two.
    pub fn feed(&mut self, input: &[u8], out: &mut [u8]) -> Fed
        ensures { Feeds self.old input.now out.old result.taken self.new result.written out.new }
    {
        let mut rest = input;
        let mut written = 0;
        if out.len() < LEAST_ROOM {
            return Fed { taken: 0, written };
        }
        while !rest.is_empty() {
            if !printing::has_room(&out[written..]) {
                break;
            }
            let fed = self.take_lines(rest, &mut out[written..]);
            rest = &rest[fed.taken..];
            written += fed.written;
        }
        Fed {
            taken: input.len() - rest.len(),
            written,
        }
    }

    // The end of the input: writes the texts that are left, where there is room for them, and says how many bytes they have. What was read stays as it was, so
    // that more can be fed.
    pub fn finish(&mut self, out: &mut [u8]) -> usize
        ensures { Finishes self.old out.old self.new result out.new }
    {
        if out.len() < LEAST_ROOM {
            return 0;
        }
        let held = self.held.as_slice();
        if held.is_empty() {
            return self.progress.finish(out);
        }
        let mark = self.progress.mark();
        let line = self.progress.read_line(held, out);
        let written = line + self.progress.finish(&mut out[line..]);
        self.progress.back_to(mark);
        written
    }
}
