//! The statements of a TDL text, or its first fault.
#![tactic(auto)]

mod groups;
mod points;
mod stages;
mod statements;
mod terms;

ghost use Rattle.std.specs.Prelude.{◌≡◌, ◌⊎◌, map, IfOk, IfErr, None, List};
ghost use Rattle.tdl_lexer.specs.Readings.{Tokens};
ghost use Rattle.tdl_reader.specs.Reading.{IsReading, FirstFault};
ghost use Rattle.tdl_reader.specs.Toks.{Tok, toks_of};
ghost use Rattle.tdl_reader.specs.Trees.{StatementTree};
ghost use Rattle.tdl_reader.specs.Views.{statement_of};

use crate::stages::{Past, Stage};
use crate::statements::{may_end, step};
use crate::terms::Seen;
use std::alloc::{AllocError, AllocFailed, Global};
use tdl_lexer::Token;

/// What the instances of an environment are, by the name after `:status`.
#[derive(Clone, Copy, Debug, PartialEq, Eq)]
pub enum Status {
    /// An environment of types.
    TypeDef,
    /// `lex-entry`.
    Entry,
    /// `lex-rule`.
    LexRule,
    /// `rule`.
    Rule,
    /// `root`.
    Root,
    /// Any other name.
    Other,
}

/// A conjunction of terms, in order of writing.
#[derive(Drop)]
#[cycle(body)]
pub struct Body {
    pub terms: Vec<Term>,
}

/// A term; each `at` is the first byte of its first token.
#[derive(Drop)]
#[cycle(body)]
pub enum Term {
    /// A type's name, in ASCII lower case.
    Name {
        name: String,
        at: u32,
    },
    /// A string without quotes and escapes, or the lower-cased name of a symbol.
    Text {
        text: String,
        at: u32,
    },
    /// A coreference's name, in ASCII lower case.
    Coref {
        name: String,
        at: u32,
    },
    /// A feature term.
    Avm {
        attrs: Vec<Attr>,
        at: u32,
    },
    /// A list and how it ends.
    List {
        items: Vec<Body>,
        rest: Rest,
        at: u32,
    },
    /// A difference list.
    Diff {
        items: Vec<Body>,
        at: u32,
    },
}

/// A feature path and its value.
#[derive(Drop)]
#[cycle(body)]
pub struct Attr {
    pub path: Vec<String>,
    pub body: Body,
}

/// How a list ends.
#[derive(Drop)]
#[cycle(body)]
pub enum Rest {
    /// With its last item.
    Closed,
    /// With `...`.
    Open,
    /// With `.` and the rest of the list.
    Tail { body: Body },
}

/// A letter set, folded.
#[derive(Debug, Drop)]
pub struct LetterSet {
    pub name: char,
    pub members: Vec<char>,
}

/// A sign of a pattern, folded: a character that stands for itself, or a variable of a letter set.
#[derive(Debug, Drop)]
pub enum Sign {
    Char { c: char },
    Set { name: char, members: Vec<char> },
}

/// A group of a spelling rule: the pattern at the end or beginning of a stem, and what stands in its place.
#[derive(Debug, Drop)]
pub struct AffixGroup {
    pub pattern: Vec<Sign>,
    pub with: Vec<Sign>,
}

/// A spelling rule: whether it is a suffix, and its groups in order of writing.
#[derive(Debug, Drop)]
pub struct Affix {
    pub suffix: bool,
    pub groups: Vec<AffixGroup>,
}

/// A statement; each `at` is the first byte of its first token.
#[derive(Drop)]
pub enum Statement {
    /// `name := body.`
    Define {
        name: String,
        at: u32,
        affix: Option<Affix>,
        body: Body,
    },
    /// `name :+ body.`
    Adds {
        name: String,
        at: u32,
        body: Body,
    },
    /// `:begin ..`
    Begin {
        status: Status,
        at: u32,
    },
    /// `:end ..`, of an environment of instances or of types.
    End {
        instance: bool,
        at: u32,
    },
    /// `:include "file".`
    Include {
        file: String,
        at: u32,
    },
    /// `%(letter-set ..)`
    Letters {
        set: LetterSet,
        at: u32,
    },
}

/// The first fault of a file's tokens. Each `at` is a byte of the file.
#[derive(Clone, Copy, Debug, PartialEq, Eq)]
pub enum ReadFault {
    /// The first token that no statement can go on with.
    Unexpected { at: u32 },
    /// The tokens end inside a statement.
    EndOfFile,
    /// The first bracket that nests past 200.
    TooDeep { at: u32 },
    /// A group of a spelling rule or letter set is out of form; its first parenthesis is at `at`.
    BadAffix { at: u32 },
    /// Want of memory.
    NoMemory,
}

impl From<AllocError> for ReadFault {
    ghost use Rattle.tdl_reader.specs.declared.ReadFault.TheVariants.{NoMemory};

    ghost from_gives = { λ _ e. e ≡ NoMemory };

    fn from(_: AllocError) -> ReadFault {
        ReadFault::NoMemory
    }
}

impl<T: Drop> From<AllocFailed<T>> for ReadFault {
    ghost use Rattle.tdl_reader.specs.declared.ReadFault.TheVariants.{NoMemory};

    ghost from_gives = { λ _ e. e ≡ NoMemory };

    fn from(_: AllocFailed<T>) -> ReadFault {
        ReadFault::NoMemory
    }
}

/// The statements of a text's tokens in order of writing, or the first fault from the left.
///
/// The tokens are those that the lexer gives for the text. Names are in ASCII lower case, strings without quotes and
/// escapes, the signs of spelling groups and letter sets folded; a variable carries the members that its letter set has
/// by the last definition before it in this file. Brackets nest at most 200 deep.
pub fn read(alloc: Global, text: &str, tokens: &[Token]) -> Result<Vec<Statement>, ReadFault>
    requires { Tokens text.now tokens.now None }
    ensures found { IfOk result (λ v. IsReading (toks_of text.now tokens.now) (map statement_of v.items)) }
    ensures fault { IfErr result (λ e. (e ≡ ReadFault.NoMemory) ⊎ FirstFault (toks_of text.now tokens.now) e) }
{
    let mut done = Past {
        statements: Vec::new(alloc),
        sets: Vec::new(alloc),
    };
    let mut stage = Stage::Between;
    for token in tokens {
        let seen = Seen {
            text,
            token: *token,
        };
        step(alloc, &mut done, &mut stage, seen)?;
    }
    if may_end(&stage) {
        Ok(done.statements)
    } else {
        Err(ReadFault::EndOfFile)
    }
}

/// A list of tokens has one reading, or one first fault, and not both.
pub fn one_reading()
    ensures statements { (ts : List Tok) (ss us : List StatementTree) → IsReading ts ss → IsReading ts us → ss ≡ us }
    ensures faults { (ts : List Tok) (d e : ReadFault) → FirstFault ts d → FirstFault ts e → d ≡ e }
    ensures not_both { (ts : List Tok) (ss : List StatementTree) (e : ReadFault) → IsReading ts ss → FirstFault ts e → ⊥ }
{}

/// Each list of tokens has a reading or a first fault.
pub fn each_has_a_reading()
    ensures { (ts : List Tok) → ((ss : List StatementTree) × IsReading ts ss) ⊎ ((e : ReadFault) × FirstFault ts e) }
{}
