//! How many lines a batch has.
ghost use Rattle.std.specs.Prelude.{◌<◌};

use crate::lines::Answer;
use crate::pieces::Report;

// How many lines the first batch has for each worker, and a later one at the most. Starting a thread takes some 45 microseconds and a
// short line some 300: so with 8 lines threads cost two hundredths of the work at most, with 32 half of one, and a long line weighs less
// among 32 lines than among 8. No line is waited for: what isn't held yet is no part of a batch.
const FIRST_LINES: u64 = 8;

const MOST_LINES: u64 = 32;

// The reports of a batch are kept until all its lines are answered. A batch has no more lines than would have so many bytes of reports
// if they were like those of the batch before it, but a line for each worker in any case.
const REPORT_BYTES: u64 = 8_388_608;

/// How many lines the next batch has at the most, by what the reports of the last one took.
#[derive(Drop)]
pub(crate) struct Pace {
    workers: u32,
    lines: u64,
}

// How many bytes the lines of a report have.
fn bytes_of(report: &Report) -> u64 {
    let mut bytes: u64 = 0;
    for line in &report.lines {
        bytes = bytes.saturating_add(line.len() as u64);
    }
    bytes
}

// How many bytes the reports on some lines have.
fn bytes_of_all(told: &[Option<Answer>]) -> u64 {
    let mut bytes: u64 = 0;
    for answer in told.iter().flatten() {
        bytes = bytes.saturating_add(bytes_of(&answer.report));
    }
    bytes
}

impl Pace {
    /// The pace of the first batch. One worker is given one line after the other.
    pub(crate) fn new(workers: u32) -> Pace {
        let lines = if workers <= 1 {
            1
        } else {
            u64::from(workers) * FIRST_LINES
        };
        Pace { workers, lines }
    }

    /// How many lines the next batch has at the most.
    pub(crate) fn lines(&self) -> u64
        ensures { 0 < result }
    {
        self.lines.max(1)
    }

    /// This came of the lines of a batch.
    pub(crate) fn heed(&mut self, told: &[Option<Answer>]) {
        if self.workers <= 1 {
            return;
        }
        let count = told.len() as u64;
        let fitting = count.saturating_mul(REPORT_BYTES) / bytes_of_all(told).max(1);
        let workers = u64::from(self.workers);
        self.lines = fitting.min(workers * MOST_LINES).max(workers);
    }
}
