// A line of `statement` is read: the progress after it, and its text.
#![tactic(auto)]

ghost use Rattle.std.specs.Prelude.{◌≡◌, ◌≤◌, ◌<◌, length, MatchOption};
ghost use Rattle.grammar.specs.Grammar.{opening_line, bill_line, critical_line, run_line};
ghost use Rattle.account.specs.Replies.{reply_with_bill};
ghost use Rattle.printing.specs.Writing.{Put};
ghost use Rattle.lines.specs.Statement.{start, has_stopped, at_end, next_number, counted, begun, month_reply, month_end, opening_read, bill_read, critical_read, run_read, run_or_bill_read, expected_read, opened, fault};
ghost use Rattle.progress.specs.Values.{values_of};
ghost use Rattle.progress.specs.Expected.{line_place};
ghost use Rattle.progress.specs.Progressing.{state_of, Reads, RunsRead, Marks, GoesBack};
ghost use Rattle.progress.specs.Ending.{text_of, Steps, Tells, Changes, run_of, NoRun, FirstRun};

mod expected;
mod mark;
mod opening;
mod readings;

use account::{Account, Reply};
use billing::Bill;
use expected::{Expected, OpeningLine};
use mark::Mark;
use opening::Opening;
use readings::{Readings, Run};
use refusals::Refusal;

// What the lines so far have given. Month, critical days and opening stand beside `expected` and not in its variants: the definition's state has them always,
// 0 where nothing is read yet, and a new bill line keeps the critical days of the month before.
#[derive(Clone, Copy)]
pub struct Progress {
    lines: u64,
    expected: Expected,
    opening: Opening,
    account: Account,
    month: u32,
    critical: u32,
    readings: Readings,
}

// What is printed for a line or at the end: the number of a line that is at fault or absent, the answer to the opening, or a month as entered with the
// answer to its billing. Where a line is read, None beside these is a fault, of which there is nothing to tell but the line's number, and `stop` knows
// that; `Nothing` is a line that prints nothing: as a second None in that answer it would stand for something else than the first.
#[derive(Clone, Copy)]
enum Text {
    Nothing,
    Line(u64),
    Open(Result<(), Refusal>),
    Month(u32, Result<Bill, Refusal>),
}

// The run of a line, where it is a readable run line.
fn run_in(line: &[u8]) -> Option<Run>
    ensures { result ≡ run_of line.now }
{
    let [count, delivered, received] = grammar::run_line(line)?;
    Some(Run {
        count,
        delivered,
        received,
    })
}

// The run of the line at the front of an input, where it is complete and readable, and what is behind the line.
fn first_run(input: &[u8]) -> Option<(Run, &[u8])>
    ensures { MatchOption result (NoRun input.now) (λ first. FirstRun input.now first.0 first.1.now) }
{
    let (line, rest) = text::split_once(b'\n', input)?;
    Some((run_in(line)?, rest))
}

impl Text {
    // Writes it to the front of a buffer, where there is room for any text, and says how many bytes it has. A refused month's amounts are 0.
    #[tactic(auto, using(billing::proofs::Laws::bill_or_default))]
    fn put(self, out: &mut [u8]) -> usize
        ensures { Put out.old 0 (text_of self) out.new result }
    {
        match self {
            Text::Nothing => 0,
            Text::Line(number) => printing::put_line(out, number),
            Text::Open(answer) => printing::put_open(out, refusals::number_of(&answer)),
            Text::Month(month, answer) => {
                printing::put_bill(
                    out,
                    month,
                    refusals::number_of(&answer),
                    answer.unwrap_or_default(),
                )
            }
        }
    }
}

impl Progress {
    // Nothing has been read.
    pub fn start() -> Progress
        ensures { state_of result ≡ start }
    {
        Progress {
            lines: 0,
            expected: Expected::Opening(OpeningLine::Opens),
            opening: Opening::unread(),
            account: Account::fresh(),
            month: 0,
            critical: 0,
            readings: Readings::none(),
        }
    }

    // Whether a fault has stopped it.
    #[tactic(auto, using(crate::proofs::Expecting::not_stopped), unfolding(lines::specs::Statement::has_stopped))]
    pub fn is_stopped(&self) -> bool
        ensures { result ≡ has_stopped (state_of self.now) }
    {
        self.expected == Expected::Stopped
    }

    // The number of the next line: numbers stay at the largest one.
    fn next_line(&self) -> u64
        ensures { result ≡ next_number self.now.lines }
    {
        self.lines.saturating_add(1)
    }

    // One line more.
    fn count(&mut self)
        ensures { Changes self.old counted self.new }
    {
        self.lines = self.next_line();
    }

    // The account is opened.
    fn open(&mut self) -> Text
        ensures { Tells self.old (opened (state_of self.old)) result self.new }
    {
        let reply = self.opening.open(self.account);
        self.account = reply.account;
        Text::Open(reply.answer)
    }

    // A line of the opening. Nothing changes where it is at fault, here and below.
    fn read_opening(&mut self, opening: OpeningLine, line: &[u8]) -> Option<Text>
        requires { self.old.expected ≡ Expected.Opening opening }
        ensures { Steps self.old (opening_read (opening_line (line_place opening) line.now) (state_of self.old)) result self.new }
    {
        let numbers = grammar::opening_line(opening.place(), line)?;
        self.opening.keep(opening, numbers.as_slice());
        self.expected = opening.next();
        if let Expected::Bill = self.expected {
            return Some(self.open());
        }
        Some(Text::Nothing)
    }

    // A month begins.
    fn begin_month(&mut self, month: u32)
        ensures { Changes self.old (begun month) self.new }
    {
        self.expected = Expected::Critical;
        self.month = month;
        self.readings.clear();
    }

    // The first bill line.
    fn read_bill(&mut self, line: &[u8]) -> Option<Text>
        ensures { Steps self.old (bill_read (bill_line line.now) (state_of self.old)) result self.new }
    {
        let month = grammar::bill_line(line)?;
        self.begin_month(month);
        Some(Text::Nothing)
    }

    // A critical line.
    fn read_critical(&mut self, line: &[u8]) -> Option<Text>
        ensures { Steps self.old (critical_read (critical_line line.now) (state_of self.old)) result self.new }
    {
        self.critical = grammar::critical_line(line)?;
        self.expected = Expected::Run;
        Some(Text::Nothing)
    }

    // A run of equal readings.
    fn read_run(&mut self, run: Run) -> Option<Text>
        ensures { Steps self.old (run_read run.count run.delivered run.received (state_of self.old)) result self.new }
    {
        self.readings.add(run)?;
        Some(Text::Nothing)
    }

    // A complete month is billed.
    fn month_reply(&self) -> Reply<Bill>
        ensures { reply_with_bill result ≡ month_reply (state_of self.now) }
    {
        self.account.billing(
            self.month,
            self.readings.delivered(),
            self.readings.received(),
            self.critical,
        )
    }

    // The account after that, and the month's text.
    fn end_month(&mut self) -> Text
        ensures { Tells self.old (month_end (state_of self.old)) result self.new }
    {
        let reply = self.month_reply();
        self.account = reply.account;
        Text::Month(self.month, reply.answer)
    }

    // A run, or the bill line of the next month.
    fn read_run_or_bill(&mut self, line: &[u8]) -> Option<Text>
        ensures { Steps self.old (run_or_bill_read line.now (state_of self.old)) result self.new }
    {
        if let Some(run) = run_in(line) {
            return self.read_run(run);
        }
        let next = grammar::bill_line(line)?;
        let text = self.end_month();
        self.begin_month(next);
        Some(text)
    }

    // A line, by what is expected.
    fn read_expected(&mut self, line: &[u8]) -> Option<Text>
        ensures { Steps self.old (expected_read line.now (state_of self.old)) result self.new }
    {
        match self.expected {
            Expected::Opening(opening) => self.read_opening(opening, line),
            Expected::Bill => self.read_bill(line),
            Expected::Critical => self.read_critical(line),
            Expected::Run => self.read_run_or_bill(line),
            Expected::Stopped => Some(Text::Nothing),
        }
    }

    // A fault of the line that was counted last.
    fn stop(&mut self) -> Text
        ensures { Tells self.old (fault (state_of self.old)) result self.new }
    {
        self.expected = Expected::Stopped;
        Text::Line(self.lines)
    }

    // A line, and a fault stops it.
    fn read_or_stop(&mut self, line: &[u8]) -> Text
        ensures { Steps self.old (expected_read line.now (state_of self.old)) (Some result) self.new }
    {
        match self.read_expected(line) {
            Some(text) => text,
            None => self.stop(),
        }
    }

    // Reads a line and writes its text to the front of a buffer, where there is room; elsewhere nothing changes. Says how many bytes the text has.
    pub fn read_line(&mut self, line: &[u8], out: &mut [u8]) -> usize
        ensures { Reads self.old line.now out.old 0 self.new out.new result }
    {
        if !printing::has_room(out) {
            return 0;
        }
        self.count();
        self.read_or_stop(line).put(out)
    }

    // Reads the run lines at the front of an input, as long as each is complete, readable and fits, and says how many bytes they have. They print
    // nothing.
    pub fn read_runs(&mut self, input: &[u8]) -> usize
        ensures { RunsRead self.old input.now result self.new }
    {
        let Expected::Run = self.expected else {
            return 0;
        };
        let mut rest = input;
        while let Some((run, behind)) = first_run(rest) {
            if self.readings.add(run).is_none() {
                break;
            }
            self.count();
            rest = behind;
        }
        input.len() - rest.len()
    }

    // Where it stands.
    pub fn mark(&self) -> Mark
        ensures { Marks self.now result }
    {
        Mark {
            lines: self.lines,
            expected: self.expected,
            opening: self.opening,
            account: self.account,
            month: self.month,
            critical: self.critical,
            count: self.readings.count(),
        }
    }

    // Goes back to where it stood. The registers stay, with what was stored since.
    pub fn back_to(&mut self, mark: Mark)
        ensures { GoesBack self.old mark self.new }
    {
        self.lines = mark.lines;
        self.expected = mark.expected;
        self.opening = mark.opening;
        self.account = mark.account;
        self.month = mark.month;
        self.critical = mark.critical;
        self.readings.keep(mark.count);
    }

    // What is printed at the end of the input after a whole line.
    fn ending(&self) -> Text
        ensures { text_of result ≡ at_end (state_of self.now) }
    {
        match self.expected {
            // Fourteen lines with nothing after them are complete.
            Expected::Bill => Text::Nothing,
            Expected::Run => Text::Month(self.month, self.month_reply().answer),
            // A line is absent.
            Expected::Opening(_) | Expected::Critical => Text::Line(self.next_line()),
            // The fault has been told.
            Expected::Stopped => Text::Nothing,
        }
    }

    // The end of the input after a whole line: writes the text that is left to the front of a buffer, where there is room, and says how many bytes it has.
    pub fn finish(&self, out: &mut [u8]) -> usize
        ensures { Put out.old 0 (at_end (state_of self.now)) out.new result }
    {
        self.ending().put(out)
    }
}
