//! The devices of a row, and a run over them.
use crate::row::{Call, Row};
use endings::Status;
use lkb_io::{MemShelf, MemSink, MemSource, ShelfFile, Source};
use std::alloc::{AllocError, AllocGlobal, Global};
use std::sync::Wait;
use std::thread::Threads;
use top_call::run;
use worker_gate::Gate;

/// What a run reads and writes.
#[derive(Drop)]
pub struct Devices {
    shelf: MemShelf,
    input: MemSource,
    out: MemSink,
    err: MemSink,
}

fn copy_of(alloc: Global, file: &ShelfFile) -> Result<ShelfFile, AllocError> {
    let name = String::from_str(alloc, file.name.as_str())?;
    let text = Vec::from_slice(alloc, &file.text)?;
    Ok(ShelfFile { name, text })
}

fn copies(alloc: Global, files: &[ShelfFile]) -> Result<Vec<ShelfFile>, AllocError> {
    let mut copies = Vec::new(alloc);
    for file in files {
        copies.push(copy_of(alloc, file)?)?;
    }
    Ok(copies)
}

impl Row {
    // The numbers of the calls of a kind that are to fail.
    fn numbers(&self, alloc: Global, call: Call) -> Result<Vec<u64>, AllocError> {
        let mut numbers = Vec::new(alloc);
        for (kind, number) in &self.fails {
            if *kind == call {
                numbers.push(*number)?;
            }
        }
        Ok(numbers)
    }

    fn shelf(&self, alloc: Global) -> Result<MemShelf, AllocError> {
        let fails = self.numbers(alloc, Call::Text)?;
        Ok(MemShelf::new(copies(alloc, &self.files)?, fails))
    }

    fn source(&self, alloc: Global) -> Result<MemSource, AllocError> {
        let fails = self.numbers(alloc, Call::Read)?;
        let source = MemSource::new(Vec::from_slice(alloc, &self.input)?, fails);
        Ok(if self.is_slow {
            source.in_pieces(1)
        } else {
            source
        })
    }

    fn sink(&self, alloc: Global) -> Result<MemSink, AllocError> {
        let writes = self.numbers(alloc, Call::Write)?;
        let sink = MemSink::new(alloc, writes, self.numbers(alloc, Call::Flush)?);
        Ok(if self.is_slow {
            sink.in_pieces(1)
        } else {
            sink
        })
    }

    fn teller(&self, alloc: Global) -> Result<MemSink, AllocError> {
        let writes = self.numbers(alloc, Call::Tell)?;
        Ok(MemSink::new(alloc, writes, Vec::new(alloc)))
    }

    /// The devices as the row says.
    pub fn devices(&self, alloc: Global) -> Result<Devices, AllocError> {
        let shelf = self.shelf(alloc)?;
        let input = self.source(alloc)?;
        let out = self.sink(alloc)?;
        let err = self.teller(alloc)?;
        Ok(Devices {
            shelf,
            input,
            out,
            err,
        })
    }
}

impl Devices {
    /// Runs the program.
    pub fn run<R: AllocGlobal + Threads + Wait + Sync>(
        &mut self,
        rt: &R,
        words: &[String],
        gate: &dyn Gate,
    ) -> Status {
        let (shelf, input) = (&mut self.shelf, &mut self.input);
        run(rt, words, shelf, input, &mut self.out, &mut self.err, gate)
    }

    /// What was written of the report.
    pub fn out(&self) -> &[u8] {
        self.out.bytes()
    }

    /// What was told of a fault.
    pub fn err(&self) -> &[u8] {
        self.err.bytes()
    }

    /// How many bytes of the input one call still gives.
    pub fn left(&mut self) -> usize {
        let mut piece = [0; 4_096];
        self.input.read(&mut piece).unwrap_or(0)
    }
}
