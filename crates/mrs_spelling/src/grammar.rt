//! The grammar of SimpleMRS, and the tokens of a text.

ghost use Rattle.std.specs.Prelude.{codes, IfOk, IfErr};
ghost use Rattle.mrs_spelling.specs.declared.kinds.Kind.{Kind};
ghost use Rattle.mrs_spelling.specs.Forms.{either, in_name, many, nothing, only, seq, sign, token};
ghost use Rattle.mrs_spelling.specs.Grammar.{beginning, blanks, constraint, constraints, ending, ep, link, linked, name, pred, properties, property, quoted, relations, role, text, var, word};
ghost use Rattle.std.specs.Str.{chars, IsUtf8};
ghost use Rattle.mrs_spelling.specs.Grammar.{mrs};
ghost use Rattle.mrs_spelling.specs.Scanning.{AreTokensOf, HasRead, HasStopped};
ghost use Rattle.mrs_spelling.specs.Reading.{done};

use crate::classes::{Letter, Only};
use crate::forms::{Either, Many, Nothing, Reader, Sign, Then};
use crate::marks::{HandleRel, High, Index, Left, Low, Right, Top, VariableRel};
use crate::parts::{Constraints, EpForm, Quoted, Var};
use crate::tokens::{NoMemory, Stop, Token, Tokens};
use crate::words::{Blanks, HconsWord, IconsWord, IndexWord, Linked, LtopWord, RelsWord, TopWord};
use std::alloc::Global;

// A character that is a terminal, and white space after it.
type One<const C: u8> = Then<Sign<Only<C>>, Blanks>;

/// A mark that is passed over, if one stands here.
pub(crate) struct PassedLink;

impl Reader for PassedLink {
    ghost form = { either (only 60) (seq (sign (only 60)) (seq linked (word (codes ">")))) nothing };

    fn read<'a>(text: &'a str, tokens: &mut Vec<Token<'a>>) -> Result<&'a str, Stop> {
        <Either<
            Only<b'<'>,
            Then<Sign<Only<b'<'>>, Then<Linked, One<b'>'>>>,
            Nothing,
        > as Reader>::read(text, tokens)
    }
}

/// A string that is passed over, if one stands here.
pub(crate) struct PassedText;

impl Reader for PassedText {
    ghost form = { either (only 34) (seq (sign (only 34)) (seq quoted (word (codes "\"")))) nothing };

    fn read<'a>(text: &'a str, tokens: &mut Vec<Token<'a>>) -> Result<&'a str, Stop> {
        <Either<
            Only<b'"'>,
            Then<Sign<Only<b'"'>>, Then<Quoted, One<b'"'>>>,
            Nothing,
        > as Reader>::read(text, tokens)
    }
}

/// The index.
pub(crate) struct IndexPart;

impl Reader for IndexPart {
    ghost form = { seq (word (codes "INDEX")) (seq (word (codes ":")) (var Kind.Index)) };

    fn read<'a>(text: &'a str, tokens: &mut Vec<Token<'a>>) -> Result<&'a str, Stop> {
        <Then<IndexWord, Then<One<b':'>, Var<Index>>> as Reader>::read(text, tokens)
    }
}

/// The top.
pub(crate) struct TopPart;

impl Reader for TopPart {
    ghost form = { seq (either (only 76) (word (codes "LTOP")) (word (codes "TOP"))) (seq (word (codes ":")) (seq (var Kind.Top) (seq (word (codes "INDEX")) (seq (word (codes ":")) (var Kind.Index))))) };

    fn read<'a>(text: &'a str, tokens: &mut Vec<Token<'a>>) -> Result<&'a str, Stop> {
        <Then<
            Either<Only<b'L'>, LtopWord, TopWord>,
            Then<One<b':'>, Then<Var<Top>, IndexPart>>,
        > as Reader>::read(text, tokens)
    }
}

/// What stands before the elementary predications.
pub(crate) struct Beginning;

impl Reader for Beginning {
    ghost form = { beginning };

    fn read<'a>(text: &'a str, tokens: &mut Vec<Token<'a>>) -> Result<&'a str, Stop> {
        <Then<One<b'['>, Then<Then<PassedLink, PassedText>, TopPart>> as Reader>::read(text, tokens)
    }
}

/// The elementary predications.
pub(crate) struct Relations;

impl Reader for Relations {
    ghost form = { relations };

    fn read<'a>(text: &'a str, tokens: &mut Vec<Token<'a>>) -> Result<&'a str, Stop> {
        <Then<
            RelsWord,
            Then<One<b':'>, Then<One<b'<'>, Then<Many<Only<b'['>, EpForm>, One<b'>'>>>>,
        > as Reader>::read(text, tokens)
    }
}

/// The handle constraints, if they stand here.
pub(crate) struct HandlePart;

impl Reader for HandlePart {
    ghost form = { either (only 72) (seq (word (codes "HCONS")) (constraints Kind.High Kind.HandleRel Kind.Low)) nothing };

    fn read<'a>(text: &'a str, tokens: &mut Vec<Token<'a>>) -> Result<&'a str, Stop> {
        <Either<
            Only<b'H'>,
            Then<HconsWord, Constraints<High, HandleRel, Low>>,
            Nothing,
        > as Reader>::read(text, tokens)
    }
}

/// The individual constraints, if they stand here.
pub(crate) struct VariablePart;

impl Reader for VariablePart {
    ghost form = { either (only 73) (seq (word (codes "ICONS")) (constraints Kind.Left Kind.VariableRel Kind.Right)) nothing };

    fn read<'a>(text: &'a str, tokens: &mut Vec<Token<'a>>) -> Result<&'a str, Stop> {
        <Either<
            Only<b'I'>,
            Then<IconsWord, Constraints<Left, VariableRel, Right>>,
            Nothing,
        > as Reader>::read(text, tokens)
    }
}

/// What stands after the elementary predications.
pub(crate) struct Ending;

impl Reader for Ending {
    ghost form = { ending };

    fn read<'a>(text: &'a str, tokens: &mut Vec<Token<'a>>) -> Result<&'a str, Stop> {
        <Then<HandlePart, Then<VariablePart, One<b']'>>> as Reader>::read(text, tokens)
    }
}

// Appends the tokens that the grammar reads off the beginning of a text, and gives the text after the form.
fn scan<'a>(text: &'a str, tokens: &mut Vec<Token<'a>>) -> Result<&'a str, Stop>
    ensures read { IfOk result (λ rest. HasRead mrs done (chars text.now) (chars rest.now) tokens.old.items tokens.new.items) }
    ensures stopped { IfErr result (λ e. HasStopped mrs (chars text.now) tokens.old.items tokens.new.items e) }
    ensures utf8 { IfOk result (λ rest. IsUtf8 rest.now) }
{
    <Then<Beginning, Then<Relations, Ending>> as Reader>::read(text, tokens)
}

/// The tokens that the grammar of SimpleMRS reads off a text, up to its end or to where nothing goes on.
pub fn tokens_of<'a>(alloc: Global, text: &'a str) -> Result<Tokens<'a>, NoMemory>
    ensures { IfOk result (λ t. AreTokensOf (chars text.now) t.list.items t.stop) }
{
    // (a token has six characters mostly, with the blanks behind it)
    let mut list = Vec::with_capacity(alloc, text.len() / 6)?;
    match scan(text, &mut list) {
        Ok(rest) if rest.is_empty() => Ok(Tokens { list, stop: None }),
        Ok(rest) => Ok(Tokens {
            list,
            stop: Some(rest.len()),
        }),
        Err(Stop::Left(left)) => Ok(Tokens {
            list,
            stop: Some(left),
        }),
        Err(Stop::NoMemory) => Err(NoMemory),
    }
}
