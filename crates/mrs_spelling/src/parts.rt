//! Variables, elementary predications and constraints.

ghost use Rattle.std.specs.Prelude.{codes};
ghost use Rattle.mrs_spelling.specs.declared.kinds.Kind.{Kind};
ghost use Rattle.mrs_spelling.specs.Forms.{either, in_name, many, nothing, only, seq, sign, token};
ghost use Rattle.mrs_spelling.specs.Grammar.{beginning, blanks, constraint, constraints, ending, ep, link, linked, name, pred, properties, property, quoted, relations, role, text, var, word};

use crate::classes::{Digit, InName, InPred, Letter, Only, OtherThan, White};
use crate::forms::{As, Begins, Either, Many, Nothing, Reader, Runs, Sign, Then};
use crate::marks::{
    EpEnd, Filler, Link, Mark, OpensText, PredRun, PredText, PropName, PropValue, Role, Text,
};
use crate::tokens::{Stop, Token};
use crate::words::{Blanks, Escaped, Linked};
use std::marker::PhantomData;

// One or more characters of a class, as many as there are.
type Run<C> = Then<Sign<C>, Runs<C>>;

// A character that is a terminal, and white space after it.
type One<const C: u8> = Then<Sign<Only<C>>, Blanks>;

/// A name as a token, and white space after it.
pub(crate) struct Name<K> {
    of: PhantomData<K>,
}

impl<K: Mark> Reader for Name<K> {
    ghost form = { name K.KIND };

    fn read<'a>(text: &'a str, tokens: &mut Vec<Token<'a>>) -> Result<&'a str, Stop> {
        <Then<As<K, Run<InName>>, Blanks> as Reader>::read(text, tokens)
    }
}

impl<K: Mark> Begins<InName> for Name<K> {
    ghost leads = { λ c h. h };
}

/// What stands between the quotes of a string.
pub(crate) struct Quoted;

impl Reader for Quoted {
    ghost form = { quoted };

    fn read<'a>(text: &'a str, tokens: &mut Vec<Token<'a>>) -> Result<&'a str, Stop> {
        <Many<
            OtherThan<b'"'>,
            Either<Only<b'\\'>, Escaped, Sign<OtherThan<b'"'>>>,
        > as Reader>::read(text, tokens)
    }
}

/// A property of a variable.
pub(crate) struct Property;

impl Reader for Property {
    ghost form = { property };

    fn read<'a>(text: &'a str, tokens: &mut Vec<Token<'a>>) -> Result<&'a str, Stop> {
        <Then<Name<PropName>, Then<One<b':'>, Name<PropValue>>> as Reader>::read(text, tokens)
    }
}

impl Begins<InName> for Property {
    ghost leads = { λ c h. h };
}

/// The properties of a variable.
pub(crate) struct Properties;

impl Reader for Properties {
    ghost form = { properties };

    fn read<'a>(text: &'a str, tokens: &mut Vec<Token<'a>>) -> Result<&'a str, Stop> {
        <Then<
            One<b'['>,
            Then<Run<InName>, Then<Blanks, Then<Many<InName, Property>, One<b']'>>>>,
        > as Reader>::read(text, tokens)
    }
}

impl Begins<Only<b'['>> for Properties {
    ghost leads = { λ c h. h };
}

/// A variable, with its properties if they follow.
pub(crate) struct Var<K> {
    of: PhantomData<K>,
}

impl<K: Mark> Reader for Var<K> {
    ghost form = { var K.KIND };

    fn read<'a>(text: &'a str, tokens: &mut Vec<Token<'a>>) -> Result<&'a str, Stop> {
        <Then<
            As<K, Then<Run<Letter>, Run<Digit>>>,
            Then<Blanks, Either<Only<b'['>, Properties, Nothing>>,
        > as Reader>::read(text, tokens)
    }
}

impl<K: Mark> Begins<Letter> for Var<K> {
    ghost leads = { λ c h. h };
}

/// A text that fills a role.
pub(crate) struct TextValue;

impl Reader for TextValue {
    ghost form = { text };

    fn read<'a>(text: &'a str, tokens: &mut Vec<Token<'a>>) -> Result<&'a str, Stop> {
        <Then<As<OpensText, Sign<Only<b'"'>>>, Then<As<Text, Quoted>, One<b'"'>>> as Reader>::read(
            text, tokens,
        )
    }
}

impl Begins<Only<b'"'>> for TextValue {
    ghost leads = { λ c h. h };
}

/// A role, with what fills it.
pub(crate) struct RoleForm;

impl Reader for RoleForm {
    ghost form = { role };

    fn read<'a>(text: &'a str, tokens: &mut Vec<Token<'a>>) -> Result<&'a str, Stop> {
        <Then<
            Name<Role>,
            Then<One<b':'>, Either<Only<b'"'>, TextValue, Var<Filler>>>,
        > as Reader>::read(text, tokens)
    }
}

impl Begins<InName> for RoleForm {
    ghost leads = { λ c h. h };
}

/// A predicate between quotes.
pub(crate) struct QuotedPred;

impl Reader for QuotedPred {
    ghost form = { seq (sign (only 34)) (seq (token Kind.PredText quoted) (sign (only 34))) };

    fn read<'a>(text: &'a str, tokens: &mut Vec<Token<'a>>) -> Result<&'a str, Stop> {
        <Then<Sign<Only<b'"'>>, Then<As<PredText, Quoted>, Sign<Only<b'"'>>>> as Reader>::read(
            text, tokens,
        )
    }
}

impl Begins<Only<b'"'>> for QuotedPred {
    ghost leads = { λ c h. h };
}

/// A predicate.
pub(crate) struct Pred;

impl Reader for Pred {
    ghost form = { pred };

    fn read<'a>(text: &'a str, tokens: &mut Vec<Token<'a>>) -> Result<&'a str, Stop> {
        <Either<Only<b'"'>, QuotedPred, As<PredRun, Run<InPred>>> as Reader>::read(text, tokens)
    }
}

/// A mark between `<` and `>`, if one stands here.
pub(crate) struct LinkForm;

impl Reader for LinkForm {
    ghost form = { link };

    fn read<'a>(text: &'a str, tokens: &mut Vec<Token<'a>>) -> Result<&'a str, Stop> {
        <Either<
            Only<b'<'>,
            Then<Sign<Only<b'<'>>, Then<As<Link, Linked>, Sign<Only<b'>'>>>>,
            Nothing,
        > as Reader>::read(text, tokens)
    }
}

/// The roles of an elementary predication, and its closing bracket.
pub(crate) struct EpEnding;

impl Reader for EpEnding {
    ghost form = { seq (many in_name role) (seq (token Kind.EpEnd (sign (only 93))) blanks) };

    fn read<'a>(text: &'a str, tokens: &mut Vec<Token<'a>>) -> Result<&'a str, Stop> {
        <Then<Many<InName, RoleForm>, Then<As<EpEnd, Sign<Only<b']'>>>, Blanks>> as Reader>::read(
            text, tokens,
        )
    }
}

/// An elementary predication.
pub(crate) struct EpForm;

impl Reader for EpForm {
    ghost form = { ep };

    fn read<'a>(text: &'a str, tokens: &mut Vec<Token<'a>>) -> Result<&'a str, Stop> {
        <Then<One<b'['>, Then<Pred, Then<LinkForm, Then<Blanks, EpEnding>>>> as Reader>::read(
            text, tokens,
        )
    }
}

impl Begins<Only<b'['>> for EpForm {
    ghost leads = { λ c h. h };
}

/// A constraint.
pub(crate) struct Constraint<A, R, B> {
    of: PhantomData<(A, R, B)>,
}

impl<A: Mark, R: Mark, B: Mark> Reader for Constraint<A, R, B> {
    ghost form = { constraint A.KIND R.KIND B.KIND };

    fn read<'a>(text: &'a str, tokens: &mut Vec<Token<'a>>) -> Result<&'a str, Stop> {
        <Then<Var<A>, Then<As<R, Run<InName>>, Then<Run<White>, Var<B>>>> as Reader>::read(
            text, tokens,
        )
    }
}

impl<A: Mark, R: Mark, B: Mark> Begins<Letter> for Constraint<A, R, B> {
    ghost leads = { λ c h. h };
}

/// A list of constraints.
pub(crate) struct Constraints<A, R, B> {
    of: PhantomData<(A, R, B)>,
}

impl<A: Mark, R: Mark, B: Mark> Reader for Constraints<A, R, B> {
    ghost form = { constraints A.KIND R.KIND B.KIND };

    fn read<'a>(text: &'a str, tokens: &mut Vec<Token<'a>>) -> Result<&'a str, Stop> {
        <Then<
            One<b':'>,
            Then<One<b'<'>, Then<Many<Letter, Constraint<A, R, B>>, One<b'>'>>>,
        > as Reader>::read(text, tokens)
    }
}
