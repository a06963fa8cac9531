// Where the lines so far have led.

ghost use Rattle.std.specs.Prelude.{◌≤◌};
ghost use Rattle.lines.specs.Statement.{run_limit};

use crate::expected::Expected;
use crate::opening::Opening;
use account::Account;

// A progress without its registers: of the readings it has how many there are. The progress can go back to it after a line that is read for its text alone.
#[derive(Clone, Copy)]
pub struct Mark {
    pub lines: u64,
    pub expected: Expected,
    pub opening: Opening,
    pub account: Account,
    pub month: u32,
    pub critical: u32,
    pub count: usize,
    ghost fits: { count ≤ run_limit },
}
