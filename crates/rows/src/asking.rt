//! The steps about a grammar: what a call is asked with a grammar, and what is shown of what it answers.

ghost use Rattle.rows.specs.Ready.{IsReady, IsFit};

use crate::alike::Alike;
use crate::answers::{Asked, Means};
use crate::grammars::Ready;
use crate::lent::{Listing, Order, Test};
use engine::lattice_of_words;
use mrs_text::read;
use sieve::Sieve;
use std::alloc::{AllocError, Global};
use std::sync::Wait;
use std::sync::atomic::{AtomicU64, Ordering};
use std::thread::Threads;
use worker_gate::{HoldingGate, OpenGate};

/// Adds a line.
pub fn add_line(text: &str, out: &mut Vec<u8>) -> Result<(), AllocError> {
    out.extend_from_slice(text.as_bytes())?;
    out.push(b'\n')?;
    Ok(())
}

impl Ready<'_, '_, '_> {
    // Takes the answers of one worker in an order, with no sieve, with one and with the same one twice.
    fn take_in_order<R: Wait + Threads + Sync>(
        &self,
        rt: &R,
        alloc: Global,
        asked: Asked<'_>,
        order: Order,
        alike: &mut Alike,
    ) -> Result<(), AllocError>
        requires ready { IsReady self.now }
        requires fit { IsFit asked }
    {
        let sieves = [Sieve::new(Test::TypesMeet), Sieve::new(Test::TypesMeet)];
        for count in 0..3 {
            let means = Means {
                workers: 1,
                sieves: &sieves[..count],
                order,
            };
            let mut text = Vec::new(alloc);
            self.answer(rt, alloc, asked, means, &OpenGate, &mut text)?;
            alike.take(text);
        }
        Ok(())
    }

    // Writes how many of nine answers are the first one, and this one: with no sieve, with one and with the same one twice, in three
    // orders.
    fn show_answers<R: Wait + Threads + Sync>(
        &self,
        rt: &R,
        alloc: Global,
        asked: Asked<'_>,
        out: &mut Vec<u8>,
    ) -> Result<(), AllocError>
        requires ready { IsReady self.now }
        requires fit { IsFit asked }
    {
        let mut alike = Alike::new(alloc);
        for order in [Order::SmallerFirst, Order::LargerFirst, Order::OneRank] {
            self.take_in_order(rt, alloc, asked, order, &mut alike)?;
        }
        alike.write(alloc, out)
    }

    // Writes how many tasks there are, and whether a sieve that always passes is asked as often or more often.
    fn show_calls<R: Wait + Threads + Sync>(
        &self,
        rt: &R,
        alloc: Global,
        asked: Asked<'_>,
        out: &mut Vec<u8>,
    ) -> Result<(), AllocError>
        requires ready { IsReady self.now }
        requires fit { IsFit asked }
    {
        let calls = AtomicU64::new(0);
        let sieves = [Sieve::new(Test::Counted(&calls))];
        let means = Means {
            workers: 1,
            sieves: &sieves,
            order: Order::OneRank,
        };
        let gate = Listing::new(alloc)?;
        let mut text = Vec::new(alloc);
        self.answer(rt, alloc, asked, means, &gate, &mut text)?;
        let tasks = gate.count();
        let each = calls.load(Ordering::SeqCst) >= tasks;
        let line = format!(in alloc; "{tasks} tasks, each asked about: {each}\n")?;
        out.extend_from_slice(line.as_bytes())?;
        Ok(())
    }

    // Writes the first tasks as they are begun in an order.
    fn show_order<R: Wait + Threads + Sync>(
        &self,
        rt: &R,
        alloc: Global,
        asked: Asked<'_>,
        order: Order,
        out: &mut Vec<u8>,
    ) -> Result<(), AllocError>
        requires ready { IsReady self.now }
        requires fit { IsFit asked }
    {
        let sieves = [Sieve::new(Test::TypesMeet)];
        let means = Means {
            workers: 1,
            sieves: &sieves,
            order,
        };
        let gate = Listing::new(alloc)?;
        let mut text = Vec::new(alloc);
        self.answer(rt, alloc, asked, means, &gate, &mut text)?;
        out.extend_from_slice(b"tasks")?;
        gate.write(alloc, out)?;
        out.push(b'\n')?;
        Ok(())
    }

    // Writes what two workers answer, of which the one that comes first is held at its first task until the other one has come: whether
    // it came, whether exactly the tasks from 0 to 55 were begun, each once, and the trees.
    fn show_held<R: Wait + Threads + Sync>(
        &self,
        rt: &R,
        alloc: Global,
        asked: Asked<'_>,
        out: &mut Vec<u8>,
    ) -> Result<(), AllocError>
        requires ready { IsReady self.now }
        requires fit { IsFit asked }
    {
        let sieves = [Sieve::new(Test::TypesMeet)];
        let means = Means {
            workers: 2,
            sieves: &sieves,
            order: Order::OneRank,
        };
        let gate = HoldingGate::new();
        let mut text = Vec::new(alloc);
        self.answer(rt, alloc, asked, means, &gate, &mut text)?;
        let came = gate.second_came();
        let each = gate.began_each_below(56);
        let line = format!(in alloc; "another came: {came}, each of 56 tasks once: {each}\n")?;
        out.extend_from_slice(line.as_bytes())?;
        out.extend_from_slice(&text)?;
        Ok(())
    }

    // Writes what a step asks for about a line or an MRS.
    fn show_asked<R: Wait + Threads + Sync>(
        &self,
        rt: &R,
        alloc: Global,
        step: &str,
        asked: Asked<'_>,
        out: &mut Vec<u8>,
    ) -> Result<(), AllocError>
        requires ready { IsReady self.now }
        requires fit { IsFit asked }
    {
        match step {
            "calls" => self.show_calls(rt, alloc, asked, out),
            "held" => self.show_held(rt, alloc, asked, out),
            "one-rank" => self.show_order(rt, alloc, asked, Order::OneRank, out),
            "larger-first" => self.show_order(rt, alloc, asked, Order::LargerFirst, out),
            _ => self.show_answers(rt, alloc, asked, out),
        }
    }

    // Takes a step about a line.
    fn take_line<R: Wait + Threads + Sync>(
        &self,
        rt: &R,
        alloc: Global,
        step: &str,
        line: &str,
        out: &mut Vec<u8>,
    ) -> Result<(), AllocError>
        requires ready { IsReady self.now }
    {
        let Ok(lattice) = lattice_of_words(alloc, line) else {
            return Err(AllocError);
        };
        self.show_asked(rt, alloc, step, Asked::Line(&lattice), out)
    }

    // Takes a step about the MRS that a text writes.
    fn take_mrs<R: Wait + Threads + Sync>(
        &self,
        rt: &R,
        alloc: Global,
        step: &str,
        text: &str,
        out: &mut Vec<u8>,
    ) -> Result<(), AllocError>
        requires ready { IsReady self.now }
    {
        let Ok(mrs) = read(alloc, text.as_bytes()) else {
            return add_line("no MRS", out);
        };
        self.show_asked(rt, alloc, step, Asked::Mrs(&mrs), out)
    }

    // Takes a step: what it is, and what stands after it. The name of a row is written.
    fn take<R: Wait + Threads + Sync>(
        &self,
        rt: &R,
        alloc: Global,
        step: &str,
        rest: &str,
        out: &mut Vec<u8>,
    ) -> Result<(), AllocError>
        requires ready { IsReady self.now }
    {
        match step {
            "row" => add_line(rest, out),
            "parse" | "calls" | "held" | "one-rank" | "larger-first" => {
                self.take_line(rt, alloc, step, rest, out)
            }
            "generate" => self.take_mrs(rt, alloc, step, rest, out),
            _ => Ok(()),
        }
    }

    /// Takes the steps of some lines, with what is made of a grammar.
    pub fn take_all<R: Wait + Threads + Sync>(
        &self,
        rt: &R,
        alloc: Global,
        steps: &str,
        out: &mut Vec<u8>,
    ) -> Result<(), AllocError>
        requires ready { IsReady self.now }
    {
        for line in steps.split('\n') {
            if let Some((step, rest)) = line.split_once(' ') {
                self.take(rt, alloc, step, rest, out)?;
            }
        }
        Ok(())
    }
}
