// The readings of the month that is being read.

ghost use Rattle.std.specs.Prelude.{◌≡◌, ◌≤◌, length, OnSome, IfNone};
ghost use Rattle.lines.specs.Statement.{run_limit};

use calendar::MOST_READINGS;

// So many readings, each of them the same for both registers.
#[derive(Clone, Copy)]
pub struct Run {
    pub count: u32,
    pub delivered: u32,
    pub received: u32,
}

// The readings stand at the front of two registers. Past them stands what was left there. No `ArrayVec`s: the contracts of a session say what the registers
// hold past the readings, and an `ArrayVec` says nothing of that. Two arrays under one count, and no array of pairs: billing takes each register as a slice
// of its own, as document 01 lends them.
#[derive(Clone, Copy)]
pub struct Readings {
    delivered: [u32; MOST_READINGS],
    received: [u32; MOST_READINGS],
    count: usize,
    ghost fits: { count ≤ run_limit },
}

impl Readings {
    ghost use Rattle.progress.specs.Readings.{delivered_of, received_of, registers_in, Adds, Refuses};

    // No reading.
    pub(crate) fn none() -> Readings
        ensures { result.count ≡ 0 }
    {
        Readings {
            delivered: [0; MOST_READINGS],
            received: [0; MOST_READINGS],
            count: 0,
        }
    }

    // A month begins without readings.
    pub(crate) fn clear(&mut self)
        ensures count { self.new.count ≡ 0 }
        ensures registers { registers_in self.new ≡ registers_in self.old }
    {
        self.count = 0;
    }

    // How many they are.
    pub(crate) fn count(&self) -> usize
        ensures count { result ≡ self.now.count }
        ensures fits { result ≤ run_limit }
        ensures delivered { result ≤ length self.now.delivered }
        ensures received { result ≤ length self.now.received }
    {
        self.count
    }

    // The first so many of what the registers hold are the readings.
    pub(crate) fn keep(&mut self, count: usize)
        requires { count ≤ run_limit }
        ensures count { self.new.count ≡ count }
        ensures registers { registers_in self.new ≡ registers_in self.old }
    {
        self.count = count;
    }

    pub(crate) fn delivered(&self) -> &[u32]
        ensures { result.now ≡ delivered_of self.now }
    {
        &self.delivered[..self.count]
    }

    pub(crate) fn received(&self) -> &[u32]
        ensures { result.now ≡ received_of self.now }
    {
        &self.received[..self.count]
    }

    // Stores a run behind the others, where a month has so many readings. An Option and no Result: `?` passes it on among those of `grammar`'s readers, and
    // there is nothing to tell but that the run doesn't fit. What that means its callers know: a fault in `read_run`, an end in `read_runs`.
    pub(crate) fn add(&mut self, run: Run) -> Option<()>
        ensures added { OnSome result (Adds self.old run self.new) }
        ensures refused { IfNone result (Refuses self.old run self.new) }
    {
        let begin = self.count;
        let more = run.count as usize;
        if MOST_READINGS - begin < more {
            return None;
        }
        let end = begin + more;
        self.delivered[begin..end].fill(run.delivered);
        self.received[begin..end].fill(run.received);
        self.count = end;
        Some(())
    }
}
