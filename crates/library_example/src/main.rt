//! What a program of yours does with the library: it has a grammar in memory, parses the lines of its input with it, and
//! writes what came.
#![tactic(auto)]

ghost use Rattle.std.specs.Prelude.{◌≡◌, ℕ, List, [], ◌∷◌, IfOk, Some, map, string_bytes};
ghost use Rattle.library_example.specs.Parsed.{Comes, asked, files_of, shelf_of, words_asked};

use command_line::laws::one_form;
use endings::Status;
use lkb_io::{ShelfFile, WholeShelf, WholeSink, WholeSource};
use std::alloc::{AllocError, AllocGlobal, Global};
use std::io;
use std::io::{Read, Write};
use std::sync::Wait;
use std::thread::Threads;
use top_call::laws::nothing_noted;
use top_call::run;
use worker_gate::OpenGate;

// The grammar of this program: two words and one rule.
const GRAMMAR: &[u8] = b"\
    string := *top*.\n\
    list := *top*.\n\
    cons := list & [ FIRST *top*, REST list ].\n\
    null := list.\n\
    sign := *top* & [ STEM list, ARGS list ].\n\
    noun := sign.\n\
    verb := sign.\n\
    sentence := sign.\n\
    :begin :instance :status lex-entry.\n\
    dogs_n := noun & [ STEM < \"dogs\" > ].\n\
    bark_v := verb & [ STEM < \"bark\" > ].\n\
    :end :instance.\n\
    :begin :instance :status rule.\n\
    subject-verb := sentence & [ ARGS < noun, verb > ].\n\
    :end :instance.\n\
    :begin :instance :status root.\n\
    root := sentence.\n\
    :end :instance.\n\
";

/// What came of lines that were parsed.
#[derive(Drop)]
pub struct Answer {
    /// How the run ended.
    pub status: Status,
    /// The report over the lines.
    pub report: WholeSink,
    /// The text of a fault.
    pub fault: WholeSink,
}

// What is asked of the library: the words of a command line, without the program's name.
fn words(alloc: Global) -> Result<Vec<String>, AllocError>
    ensures { IfOk result (λ words. map (λ w. string_bytes w) words.items ≡ words_asked) }
{
    let mut words = Vec::new(alloc);
    words.push(String::from_str(alloc, "parse")?)?;
    words.push(String::from_str(alloc, "grammar")?)?;
    Ok(words)
}

// A shelf with one file, the grammar.
fn shelf(alloc: Global, grammar: Vec<u8>) -> Result<WholeShelf, AllocError>
    ensures { IfOk result (λ shelf. shelf ≡ shelf_of grammar.items) }
{
    let name = String::from_str(alloc, "grammar.tdl")?;
    let text = grammar;
    let mut files = Vec::new(alloc);
    files.push(ShelfFile { name, text })?;
    Ok(WholeShelf::new(files))
}

/// Parses these lines with the grammar of this text, by one worker and with the limits of the command line. The answer
/// is all that the command would write and say. Nothing but memory is touched.
pub fn parse_text<R: AllocGlobal + Threads + Wait + Sync>(
    rt: &R,
    grammar: Vec<u8>,
    lines: Vec<u8>,
) -> Result<Answer, AllocError>
    ensures { IfOk result (λ a. (report fault : List ℕ) → a.report.written ≡ Some report → a.fault.written ≡ Some fault
        → Comes asked (files_of grammar.items) lines.items report fault a.status) }
{
    one_form();
    nothing_noted();
    let words = words(rt.alloc())?;
    let mut shelf = shelf(rt.alloc(), grammar)?;
    let mut input = WholeSource::new(lines);
    let mut report = WholeSink::new(rt.alloc());
    let mut fault = WholeSink::new(rt.alloc());
    let status = run(
        rt,
        &words,
        &mut shelf,
        &mut input,
        &mut report,
        &mut fault,
        &OpenGate,
    );
    Ok(Answer {
        status,
        report,
        fault,
    })
}

// Writes an answer: the report, the text of a fault, and the number of the status. A sink that couldn't grow tells
// nothing of what was written to it.
fn show<O: Write>(out: &mut O, answer: &Answer) -> io::Result<()> {
    out.write_all(answer.report.bytes().unwrap_or(b"no memory\n"))?;
    out.write_all(answer.fault.bytes().unwrap_or(b"no memory\n"))?;
    let digit = b'0' + answer.status.code();
    out.write_all(b"status ")?;
    out.write_all(&[digit, b'\n'])?;
    out.flush()
}

fn main(rt: HostRuntime) -> io::Result<()> {
    let mut lines = Vec::new(rt.alloc());
    rt.stdin().read_to_end(&mut lines)?;
    let grammar = Vec::from_slice(rt.alloc(), GRAMMAR)?;
    let answer = parse_text(&rt, grammar, lines)?;
    show(&mut rt.stdout(), &answer)
}
