//! The stages of a statement, and the words before its body.

ghost use Rattle.std.specs.Prelude.{◌≡◌, [], None, Option, IfOk, IfErr, true, false, string_bytes};
ghost use Rattle.tdl_reader.specs.Toks.{value};
ghost use Rattle.tdl_reader.specs.Machine.{PastTree, at_stage, stage_step, first_step, directive_step, term_step, in_body_at, has_bytes, lettered, letter, named, defined, begin, begin_instance, begin_status, end, include};
ghost use Rattle.tdl_reader.specs.Grammar.{status_of};
ghost use Rattle.tdl_reader.specs.States.{tok_in, IsOfText, IsStop};
ghost use Rattle.tdl_reader.specs.Stages.{head_of, stage_of};

use crate::terms::{Frame, Point, Seen, term, unexpected, value_in};
use crate::{Affix, AffixGroup, LetterSet, ReadFault, Statement, Status};
use std::alloc::Global;
use tdl_lexer::TokenKind;

/// What a statement with a body says before it.
#[derive(Drop)]
pub(crate) enum Head {
    Define {
        name: String,
        at: u32,
        affix: Option<Affix>,
    },
    Add {
        name: String,
        at: u32,
    },
}

/// Where the reader stands within a statement.
#[derive(Drop)]
pub(crate) enum Stage {
    /// Before a statement.
    Between,
    /// After a letter set, whose dot may follow.
    Lettered,
    /// After the `%` of a letter set.
    Letter {
        at: u32,
    },
    /// After a statement's name.
    Named {
        name: String,
        at: u32,
    },
    /// After `:=`.
    Defined {
        name: String,
        at: u32,
    },
    /// After `%suffix` or `%prefix` and these groups.
    Affixed {
        name: String,
        at: u32,
        suffix: bool,
        groups: Vec<AffixGroup>,
    },
    /// After `:begin`.
    Begin {
        at: u32,
    },
    /// After `:begin :instance`.
    BeginInstance {
        at: u32,
    },
    /// After `:begin :instance :status`.
    BeginStatus {
        at: u32,
    },
    /// After `:end`.
    End {
        at: u32,
    },
    /// After `:include`.
    Include {
        at: u32,
    },
    /// Before the dot of a statement.
    WantDot {
        statement: Statement,
    },
    /// Within a body.
    InBody {
        head: Head,
        frames: Vec<Frame>,
        point: Point,
    },
}

/// The statements so far, and their letter sets.
#[derive(Drop)]
pub(crate) struct Past {
    pub(crate) statements: Vec<Statement>,
    pub(crate) sets: Vec<LetterSet>,
}

/// Whether a token's value is these ASCII letters.
fn is_word(value: &String, word: &[u8]) -> bool
    ensures { result ≡ has_bytes (string_bytes value.now) word.now }
{
    value.as_bytes() == word
}

/// The status of an environment of instances, by its name.
fn status_of(name: &String) -> Status
    ensures { result ≡ status_of (string_bytes name.now) }
{
    if is_word(name, b"lex-entry") {
        Status::Entry
    } else if is_word(name, b"lex-rule") {
        Status::LexRule
    } else if is_word(name, b"rule") {
        Status::Rule
    } else if is_word(name, b"root") {
        Status::Root
    } else {
        Status::Other
    }
}

/// A directive begins a statement.
fn directive(alloc: Global, seen: Seen<'_>) -> Result<Stage, ReadFault>
    requires token { IsOfText seen }
    requires kind { seen.token.kind ≡ TokenKind.Directive }
    ensures found { IfOk result (λ p. (done : PastTree) → directive_step done (tok_in seen.entry) ≡ at_stage done (stage_of p)) }
    ensures fault { IfErr result (λ e. (done : PastTree) → IsStop (directive_step done (tok_in seen.entry)) seen.entry.token.from e) }
{
    let at = seen.token.from;
    let word = value_in(alloc, seen)?;
    if is_word(&word, b"begin") {
        return Ok(Stage::Begin { at });
    }
    if is_word(&word, b"end") {
        return Ok(Stage::End { at });
    }
    if is_word(&word, b"include") {
        return Ok(Stage::Include { at });
    }
    Err(unexpected(seen))
}

/// A statement begins.
pub(crate) fn first_word(alloc: Global, seen: Seen<'_>) -> Result<Stage, ReadFault>
    requires { IsOfText seen }
    ensures found { IfOk result (λ p. (done : PastTree) → first_step done seen.entry.token.kind (tok_in seen.entry) ≡ at_stage done (stage_of p)) }
    ensures fault { IfErr result (λ e. (done : PastTree) → IsStop (first_step done seen.entry.token.kind (tok_in seen.entry)) seen.entry.token.from e) }
{
    let at = seen.token.from;
    match seen.token.kind {
        TokenKind::Name => Ok(Stage::Named {
            name: value_in(alloc, seen)?,
            at,
        }),
        TokenKind::LetterSet => Ok(Stage::Letter { at }),
        TokenKind::Directive => directive(alloc, seen),
        _ => Err(unexpected(seen)),
    }
}

/// The word after `:begin`.
pub(crate) fn begin_word(alloc: Global, at: u32, seen: Seen<'_>) -> Result<Stage, ReadFault>
    requires { IsOfText seen }
    ensures found { IfOk result (λ p. (done : PastTree) → stage_step done (begin at) seen.entry.token.kind (tok_in seen.entry) ≡ at_stage done (stage_of p)) }
    ensures fault { IfErr result (λ e. (done : PastTree) → IsStop (stage_step done (begin at) seen.entry.token.kind (tok_in seen.entry)) seen.entry.token.from e) }
{
    if seen.token.kind != TokenKind::Directive {
        return Err(unexpected(seen));
    }
    let word = value_in(alloc, seen)?;
    if is_word(&word, b"type") {
        let status = Status::TypeDef;
        let statement = Statement::Begin { status, at };
        return Ok(Stage::WantDot { statement });
    }
    if is_word(&word, b"instance") {
        return Ok(Stage::BeginInstance { at });
    }
    Err(unexpected(seen))
}

/// The word after `:begin :instance`.
pub(crate) fn instance_word(alloc: Global, at: u32, seen: Seen<'_>) -> Result<Stage, ReadFault>
    requires { IsOfText seen }
    ensures found { IfOk result (λ p. (done : PastTree) → stage_step done (begin_instance at) seen.entry.token.kind (tok_in seen.entry) ≡ at_stage done (stage_of p)) }
    ensures fault { IfErr result (λ e. (done : PastTree) → IsStop (stage_step done (begin_instance at) seen.entry.token.kind (tok_in seen.entry)) seen.entry.token.from e) }
{
    if seen.token.kind != TokenKind::Directive {
        return Err(unexpected(seen));
    }
    let word = value_in(alloc, seen)?;
    if is_word(&word, b"status") {
        return Ok(Stage::BeginStatus { at });
    }
    Err(unexpected(seen))
}

/// The name after `:status`.
pub(crate) fn status_name(alloc: Global, at: u32, seen: Seen<'_>) -> Result<Stage, ReadFault>
    requires { IsOfText seen }
    ensures found { IfOk result (λ p. (done : PastTree) → stage_step done (begin_status at) seen.entry.token.kind (tok_in seen.entry) ≡ at_stage done (stage_of p)) }
    ensures fault { IfErr result (λ e. (done : PastTree) → IsStop (stage_step done (begin_status at) seen.entry.token.kind (tok_in seen.entry)) seen.entry.token.from e) }
{
    if seen.token.kind != TokenKind::Name {
        return Err(unexpected(seen));
    }
    let status = status_of(&value_in(alloc, seen)?);
    let statement = Statement::Begin { status, at };
    Ok(Stage::WantDot { statement })
}

/// The word after `:end`.
pub(crate) fn end_word(alloc: Global, at: u32, seen: Seen<'_>) -> Result<Stage, ReadFault>
    requires { IsOfText seen }
    ensures found { IfOk result (λ p. (done : PastTree) → stage_step done (end at) seen.entry.token.kind (tok_in seen.entry) ≡ at_stage done (stage_of p)) }
    ensures fault { IfErr result (λ e. (done : PastTree) → IsStop (stage_step done (end at) seen.entry.token.kind (tok_in seen.entry)) seen.entry.token.from e) }
{
    if seen.token.kind != TokenKind::Directive {
        return Err(unexpected(seen));
    }
    let word = value_in(alloc, seen)?;
    let instance = is_word(&word, b"instance");
    if instance || is_word(&word, b"type") {
        let statement = Statement::End { instance, at };
        return Ok(Stage::WantDot { statement });
    }
    Err(unexpected(seen))
}

/// The file after `:include`.
pub(crate) fn include_name(alloc: Global, at: u32, seen: Seen<'_>) -> Result<Stage, ReadFault>
    requires { IsOfText seen }
    ensures found { IfOk result (λ p. (done : PastTree) → stage_step done (include at) seen.entry.token.kind (tok_in seen.entry) ≡ at_stage done (stage_of p)) }
    ensures fault { IfErr result (λ e. (done : PastTree) → IsStop (stage_step done (include at) seen.entry.token.kind (tok_in seen.entry)) seen.entry.token.from e) }
{
    if seen.token.kind != TokenKind::Text {
        return Err(unexpected(seen));
    }
    let file = value_in(alloc, seen)?;
    let statement = Statement::Include { file, at };
    Ok(Stage::WantDot { statement })
}

/// After a letter set: its dot, or the next statement.
pub(crate) fn lettered(alloc: Global, seen: Seen<'_>) -> Result<Stage, ReadFault>
    requires { IsOfText seen }
    ensures found { IfOk result (λ p. (done : PastTree) → stage_step done lettered seen.entry.token.kind (tok_in seen.entry) ≡ at_stage done (stage_of p)) }
    ensures fault { IfErr result (λ e. (done : PastTree) → IsStop (stage_step done lettered seen.entry.token.kind (tok_in seen.entry)) seen.entry.token.from e) }
{
    match seen.token.kind {
        TokenKind::Dot => Ok(Stage::Between),
        _ => first_word(alloc, seen),
    }
}

/// A body begins.
pub(crate) fn body_begins(alloc: Global, head: Head, seen: Seen<'_>) -> Result<Stage, ReadFault>
    requires { IsOfText seen }
    ensures found { IfOk result (λ p. (done : PastTree) → in_body_at done (head_of head) (term_step [] [] seen.entry.token.kind (tok_in seen.entry)) ≡ at_stage done (stage_of p)) }
    ensures fault { IfErr result (λ e. (done : PastTree) → IsStop (in_body_at done (head_of head) (term_step [] [] seen.entry.token.kind (tok_in seen.entry))) seen.entry.token.from e) }
{
    let point = term(alloc, Vec::new(alloc), seen)?;
    let frames = Vec::new(alloc);
    Ok(Stage::InBody {
        head,
        frames,
        point,
    })
}

/// After a statement's name.
pub(crate) fn named(
    alloc: Global,
    name: String,
    at: u32,
    seen: Seen<'_>,
) -> Result<Stage, ReadFault>
    ensures found { IfOk result (λ p. (done : PastTree) → stage_step done (named (string_bytes name) at) seen.entry.token.kind (tok_in seen.entry) ≡ at_stage done (stage_of p)) }
    ensures fault { IfErr result (λ e. (done : PastTree) → IsStop (stage_step done (named (string_bytes name) at) seen.entry.token.kind (tok_in seen.entry)) seen.entry.token.from e) }
{
    match seen.token.kind {
        TokenKind::Defined => Ok(Stage::Defined { name, at }),
        TokenKind::Added => Ok(Stage::InBody {
            head: Head::Add { name, at },
            frames: Vec::new(alloc),
            point: Point::WantTerm {
                terms: Vec::new(alloc),
            },
        }),
        _ => Err(unexpected(seen)),
    }
}

/// After `:=`.
pub(crate) fn defined(
    alloc: Global,
    name: String,
    at: u32,
    seen: Seen<'_>,
) -> Result<Stage, ReadFault>
    requires { IsOfText seen }
    ensures found { IfOk result (λ p. (done : PastTree) → stage_step done (defined (string_bytes name) at) seen.entry.token.kind (tok_in seen.entry) ≡ at_stage done (stage_of p)) }
    ensures fault { IfErr result (λ e. (done : PastTree) → IsStop (stage_step done (defined (string_bytes name) at) seen.entry.token.kind (tok_in seen.entry)) seen.entry.token.from e) }
{
    let groups = Vec::new(alloc);
    match seen.token.kind {
        TokenKind::Prefix => Ok(Stage::Affixed {
            name,
            at,
            suffix: false,
            groups,
        }),
        TokenKind::Suffix => Ok(Stage::Affixed {
            name,
            at,
            suffix: true,
            groups,
        }),
        _ => {
            let affix = None;
            body_begins(alloc, Head::Define { name, at, affix }, seen)
        }
    }
}
