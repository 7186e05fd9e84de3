//! The commands that write one text.
ghost use Rattle.std.specs.Prelude.{◌≡◌};

use crate::pieces::say;
use crate::{Command, Fault};
use lkb_io::{Shelf, Sink, Source};
use std::sync::Wait;
use std::thread::Threads;
use worker_gate::Gate;

/// A command that writes this text, as `--help` and `--version` do. It has no files and reads nothing.
#[derive(Clone, Copy, Debug)]
pub struct Plain {
    pub text: &'static [u8],
}

impl Command for Plain {
    ghost use Rattle.endings.specs.PlainTexts.{plain_meaning};

    ghost meaning = { λ p. plain_meaning p.text.now };

    fn lawful(&self) {}

    fn perform<S: Shelf, I: Source, O: Sink, X: Sink, Rt: Threads + Wait + Sync>(
        &self,
        _rt: &Rt,
        _shelf: &mut S,
        _input: &mut I,
        out: &mut O,
        _err: &mut X,
        _gate: &dyn Gate,
    ) -> Result<bool, Fault> {
        Ok(say(out, self.text)?)
    }
}
