// What the program `statement` does with descriptors: feeds a session with what it reads, writes what that prints, and says how it ended. What a
// command line names, messages and the exit status are left to a program in C above it.
#![tactic(auto)]

ghost use Rattle.std.specs.Prelude.{◌≡◌, true, ◌≤◌, length, Ok, Err, OnOk, MatchResult};
ghost use Rattle.lines.specs.Feeding.{ending};
ghost use Rattle.session.specs.Sessions.{so_far_of};
ghost use Rattle.statement.specs.Ending.{number_of, end_of};
ghost use Rattle.statement.specs.Giving.{Tells, Gives};
ghost use Rattle.statement.specs.Status.{status_after, is_end, Ends};

use session::Session;
use std::io::Read;
use std::rt::Stdin;

const STANDARD_INPUT: i32 = 0;

// Where a printed line has its number, by place, as in the definition: after `open=`, and after `bill=YYYY-MM answer=`. Not by prefixes: behind
// `bill=` a place would be needed all the same.
const OPENING_NUMBER: usize = 5;

const MONTH_NUMBER: usize = 20;

// What the printed lines say, under its number for C: opening and months were accepted, one was refused, or it stopped at a line.
#[derive(Clone, Copy, PartialEq, Eq)]
enum Verdict {
    Accepted = 0,
    Refused = 1,
    StoppedAtLine = 2,
}

// What could not be done, likewise; 3 is left to the program above.
#[derive(Clone, Copy, PartialEq, Eq)]
enum Failure {
    Read = 4,
    Write = 5,
}

// Where what is printed goes, and how: lines as they are, or as tables; and whether refusals are explained to the errors. These are
// two options of the call from C, each yes or no by itself. Beside these, the verdict on what was told so far.
#[derive(Drop)]
struct Telling {
    output: i32,
    errors: i32,
    table: bool,
    explain: bool,
    verdict: Verdict,
}

// A run of `statement`: a session, room for what it prints, and where that is told. The room's size, which `io::large_buffer` gives, stands in its type,
// so that no contract has to ask for room enough.
#[derive(Drop)]
struct Run {
    session: Session,
    out: [u8; 65536],
    telling: Telling,
}

// The number of an end, for C.
fn end_number(end: Result<Verdict, Failure>) -> u32
    ensures { result ≡ end_of end }
{
    match end {
        Ok(verdict) => verdict as u32,
        Err(failure) => failure as u32,
    }
}

// What one read brought: so many bytes, none at the end of the input. A failure is one here too, and so not the end of the input. By a
// `From` at the `?` of `print` no contract would say this, since none of `print` can speak of what was read.
fn brought(got: std::io::Result<usize>) -> Result<usize, Failure>
    ensures { MatchResult got (λ bytes. result ≡ Ok bytes) (λ error. result ≡ Err Failure.Read) }
{
    got.map_err(|_| Failure::Read)
}

// Writes bytes, all of them.
fn write(descriptor: i32, bytes: &[u8]) -> Result<(), Failure> {
    if io::write_all(descriptor, bytes) {
        Ok(())
    } else {
        Err(Failure::Write)
    }
}

// Writes what is put into a buffer for a line: its table, or its explanation where it has one.
fn write_put<P: Fn(&mut [u8], &[u8]) -> usize>(
    descriptor: i32,
    put: P,
    line: &[u8],
) -> Result<(), Failure>
    requires callable { P.IsAlwaysCallable put }
    requires within { (out : _) (line : _) (end : _) (later : _) → P.post put out line end later → end ≤ length out.now }
{
    let mut out = io::buffer();
    let end = put(&mut out, line);
    write(descriptor, &out[..end])
}

impl Verdict {
    // The status after one printed line more.
    #[tactic(auto, unfolding(crate::specs::Status::status_after))]
    fn after(self, line: &[u8]) -> Verdict
        ensures { number_of result ≡ status_after (number_of self) line.now }
    {
        let place = match line.first() {
            Some(b'l') => return Verdict::StoppedAtLine,
            Some(b'o') => OPENING_NUMBER,
            _ => MONTH_NUMBER,
        };
        if self == Verdict::Accepted && line.get(place) != Some(&b'0') {
            Verdict::Refused
        } else {
            self
        }
    }
}

impl Telling {
    // Writes what a line, with its newline, has of its own: its table, or an explanation behind it. With explanations a line is not left to
    // the text.
    fn line(&self, line: &[u8]) -> Result<(), Failure> {
        if self.table {
            write_put(self.output, table::put_table, line)?;
        } else if self.explain {
            write(self.output, line)?;
        }
        if self.explain {
            write_put(self.errors, table::put_explanation, line)?;
        }
        Ok(())
    }

    // Writes a text whole, where its lines were not written each by itself.
    fn whole(&self, text: &[u8]) -> Result<(), Failure> {
        if self.table || self.explain {
            return Ok(());
        }
        write(self.output, text)
    }

    // Tells a text line by line, and brings the verdict to the one after it.
    fn text(&mut self, text: &[u8]) -> Result<(), Failure>
        ensures { OnOk result (Tells self.old.verdict text.now self.new.verdict) }
    {
        for line in text.split_inclusive(|b| *b == b'\n') {
            self.verdict = self.verdict.after(line);
            self.line(line)?;
        }
        self.whole(text)
    }
}

impl Run {
    // Gives the session bytes until it has taken all, and tells its texts in between.
    fn give(&mut self, input: &[u8]) -> Result<(), Failure>
        ensures { OnOk result (Gives (so_far_of self.old.session) self.old.telling.verdict input.now (so_far_of self.new.session) self.new.telling.verdict) }
    {
        let mut rest = input;
        while !rest.is_empty() {
            let fed = self.session.feed(rest, &mut self.out);
            self.telling.text(&self.out[..fed.written])?;
            rest = &rest[fed.taken..];
        }
        Ok(())
    }

    // Tells what the end of the input prints.
    fn finish(&mut self) -> Result<(), Failure>
        ensures { OnOk result (Tells self.old.telling.verdict (ending (so_far_of self.old.session)) self.new.telling.verdict) }
    {
        let written = self.session.finish(&mut self.out);
        self.telling.text(&self.out[..written])
    }
}

// Reads standard input to its end, and tells what is printed for it, as soon as it is known.
fn print(mut stdin: Stdin, telling: Telling) -> Result<Verdict, Failure>
    requires { telling.verdict ≡ Verdict.Accepted }
    ensures { Ends (end_of result) }
{
    let mut buffer = io::large_buffer();
    let mut run = Run {
        session: Session::start(),
        out: io::large_buffer(),
        telling,
    };
    // A loop that is proved has to end, and nothing says that the input does: it has a number of turns that no run uses up.
    for _ in 0..u64::MAX {
        // An input that can't be read on isn't at its end, so what is incomplete stays so.
        let count = brought(stdin.read(&mut buffer))?;
        if count == 0 {
            break;
        }
        run.give(&buffer[..count])?;
        // After a fault there is no point in reading on.
        if run.session.is_stopped() {
            return Ok(run.telling.verdict);
        }
    }
    run.finish()?;
    Ok(run.telling.verdict)
}

// Reads the descriptor `input` to its end, writes to `output` what `statement` prints for it, as soon as it is known, and says how that ended. A read or a
// write that fails is the last call of C, so that errno has its reason. The kit's library reads standard input alone, by a handle that takes no place in the
// call from C: of any other descriptor it is said that a read failed, without a call of C, and a program puts the file that it has opened in the place of
// standard input.
#[unsafe(no_mangle)]
pub extern "C" fn statement_print(
    stdin: Stdin,
    input: i32,
    output: i32,
    errors: i32,
    table: bool,
    explain: bool,
) -> u32
    ensures ends { Ends result }
    ensures known { is_end result ≡ true }
{
    if input != STANDARD_INPUT {
        return end_number(Err(Failure::Read));
    }
    let telling = Telling {
        output,
        errors,
        table,
        explain,
        verdict: Verdict::Accepted,
    };
    end_number(print(stdin, telling))
}
